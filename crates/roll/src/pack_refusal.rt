//! Why a roll cannot hold a page.
ghost use Rattle.std.specs.Prelude.{Some};
ghost use Rattle.roll.specs.Messages.{message};

use std::alloc::AllocError;
use std::error::Error;
use std::fmt;

/// Why a roll cannot hold a page: the first of these that applies. It has no number; its message
/// says it.
#[derive(Clone, Copy, PartialEq, Eq, Debug)]
pub enum PackRefusal {
    /// The form is above 7.
    FormTooHigh,
    /// There are 1,024 pages already.
    TooManyPages,
    /// The roll would have more than 1,048,576 bytes.
    TooLong,
    /// There is no memory for it.
    NoMemory,
}

impl fmt::Display for PackRefusal {
    ghost output = { λ r. Some (message r) };

    fn fmt<W: fmt::Write>(&self, f: &mut fmt::Formatter<W>) -> fmt::Result {
        match self {
            PackRefusal::FormTooHigh => f.write_str("a form is a number from 0 to 7"),
            PackRefusal::TooManyPages => f.write_str("a roll has at most 1024 pages"),
            PackRefusal::TooLong => f.write_str("a roll has at most 1048576 bytes"),
            PackRefusal::NoMemory => f.write_str("out of memory"),
        }
    }
}

impl Error for PackRefusal {}

impl From<AllocError> for PackRefusal {
    ghost use Rattle.std.specs.Prelude.{◌≡◌};
    ghost use Rattle.roll.specs.declared.pack_refusal.PackRefusal.TheVariants.{NoMemory};

    ghost from_gives = { λ _ r. r ≡ NoMemory };

    fn from(_error: AllocError) -> PackRefusal {
        PackRefusal::NoMemory
    }
}
