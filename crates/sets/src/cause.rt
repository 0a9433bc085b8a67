//! Why a set of this crate cannot read a string or write a character.
ghost use Rattle.std.specs.Prelude.{◌≡◌};
ghost use Rattle.sets.specs.Causes.{refusal};

use charset::SetRefusal;

/// Why a set of this crate cannot read a string or write a character, by the number that its
/// [`SetRefusal`] holds. The depth is 0.
#[derive(Clone, Copy, PartialEq, Eq, Debug)]
pub enum Cause {
    /// ISO/IEC 6937 and the single-byte sets: the first byte is no position in use.
    NotInUse = 31,
    /// ISO/IEC 6937: a diacritic stands before a byte with which it makes no pair (Table 4).
    NoPair = 32,
    /// UTF-8: the bytes begin no character (RFC 3629, section 4).
    Malformed = 33,
    /// Writing, in each of them: the set has no coding for the character.
    NoCoding = 38,
}

impl From<Cause> for SetRefusal {
    ghost from_gives = { λ cause r. r ≡ refusal cause };

    fn from(cause: Cause) -> SetRefusal {
        SetRefusal {
            cause: cause as u8,
            depth: 0,
        }
    }
}
