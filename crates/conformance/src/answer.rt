//! What a set answers to a question, and whether two answers agree.
ghost use Rattle.std.specs.Prelude.{◌≡◌, true};
ghost use Rattle.conformance.specs.Agreement.{told_reading, told_coding};
ghost use Rattle.conformance.specs.Held.{Agree};
ghost use Rattle.conformance.specs.Numbers.{number_of};

use charset::{Coding, Reading, SetRefusal};
use std::fmt;

/// What is answered to a question.
#[derive(Clone, Copy, PartialEq, Eq)]
pub enum Reply {
    /// A character's coding of so many bytes stands in front.
    Character(u32, usize),
    /// The whole string is an opening.
    Open,
    /// By its cause; 0 stands for that of the other converter, which gives none.
    Refused(u8),
    /// The bytes of a coding as a number, and how many they are.
    Bytes(u32, usize),
    /// The character has no coding; the other converter gives no cause.
    NoCoding,
}

impl From<Result<Reading, SetRefusal>> for Reply {
    ghost from_gives = { λ reading answer. answer ≡ told_reading reading };

    fn from(reading: Result<Reading, SetRefusal>) -> Reply {
        match reading {
            Ok(Reading::Found { character, length }) => Reply::Character(character, length),
            Ok(Reading::Open) => Reply::Open,
            Err(refusal) => Reply::Refused(refusal.cause),
        }
    }
}

impl From<Result<Coding, SetRefusal>> for Reply {
    ghost from_gives = { λ coding answer. answer ≡ told_coding coding };

    fn from(coding: Result<Coding, SetRefusal>) -> Reply {
        match coding {
            Ok(coding) => {
                let bytes = coding.as_bytes();
                Reply::Bytes(number_of(bytes), bytes.len())
            }
            Err(_) => Reply::NoCoding,
        }
    }
}

// Bytes as a number, the highest first; of more than four the last.
fn number_of(bytes: &[u8]) -> u32
    ensures { result ≡ number_of bytes.now }
{
    bytes.iter().fold(
        0u32,
        |number, byte| number.wrapping_mul(256).wrapping_add(u32::from(*byte)),
    )
}

impl Reply {
    /// Two answers agree if they are the same, or both refusals: the other converter gives no
    /// cause.
    pub fn agrees(self, other: Reply) -> bool
        ensures only_if_they_agree { result ≡ true → Agree self other }
        ensures whenever_they_agree { Agree self other → result ≡ true }
    {
        match (self, other) {
            (Reply::Refused(_), Reply::Refused(_)) => true,
            _ => self == other,
        }
    }
}

impl fmt::Display for Reply {
    ghost use Rattle.std.specs.Prelude.{Some};
    ghost use Rattle.conformance.specs.Texts.{answer_text};

    ghost output = { λ answer. Some (answer_text answer) };

    #[tactic(auto, using(crate::proofs::Texts::padded_is_hex_of))]
    fn fmt<W: fmt::Write>(&self, f: &mut fmt::Formatter<W>) -> fmt::Result {
        match self {
            Reply::Character(character, length) => write!(f, "U+{character:04X} of {length}"),
            Reply::Open => write!(f, "open"),
            Reply::Refused(cause) => write!(f, "refused {cause}"),
            Reply::Bytes(number, length) => {
                let width = length.saturating_mul(2);
                write!(f, "{number:0width$X}")
            }
            Reply::NoCoding => write!(f, "none"),
        }
    }
}
