//! Why a layer itself cannot read a string or write a character.
ghost use Rattle.std.specs.Prelude.{◌≡◌};
ghost use Rattle.layers.specs.Causes.{refusal};

use charset::SetRefusal;

/// Why a layer itself cannot read a string, or write a character that the set below can, by the
/// number that its [`SetRefusal`] holds. The depth is 0.
#[derive(Clone, Copy, PartialEq, Eq, Debug)]
pub enum Cause {
    /// Parity: a byte has an odd number of ones. Writing: the coding below has a byte from 80 up.
    OddParity = 34,
    /// Shift: a byte from 80 up, or 19 before anything but 20 to 7F. Writing: the coding below has
    /// a 19, or a byte from 80 to 9F.
    NotShifted = 35,
    /// Shift: still open after four bytes. Writing: more than four bytes once shifted.
    TooLong = 36,
    /// Subrepertoire: the character in front, or to be written, is not on the list.
    NotListed = 37,
}

impl From<Cause> for SetRefusal {
    ghost from_gives = { λ cause r. r ≡ refusal cause };

    fn from(cause: Cause) -> SetRefusal {
        SetRefusal {
            cause: cause as u8,
            depth: 0,
        }
    }
}
