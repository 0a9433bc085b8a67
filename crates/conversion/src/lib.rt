//! Characters from one set into another.
#![tactic(auto)]

ghost use Rattle.std.specs.Prelude.{◌≡◌};
ghost use Rattle.charset.specs.Sets.{set_of};
ghost use Rattle.conversion.specs.declared.Fault.TheVariants.{Unread, Unwritten};
ghost use Rattle.conversion.specs.Next.{ComesNext};

mod converter;
mod met;
mod two_sets;

use charset::{CharacterSet, Coding, Reading, SetRefusal};
pub use converter::Converter;

/// Why a conversion cannot go on.
#[derive(Clone, Copy, PartialEq, Eq, Debug)]
pub enum Fault {
    /// No coding stands in front, and what is left is no opening.
    Unread(SetRefusal),
    /// The character in front has no coding in the target set.
    Unwritten {
        /// Its code point.
        character: u32,
        /// Why the target set cannot write it.
        refusal: SetRefusal,
    },
    /// The input is closed while bytes wait for more.
    Unfinished,
}

/// The source set's refusal of bytes.
impl From<SetRefusal> for Fault {
    ghost from_gives = { λ e r. r ≡ Unread e };

    fn from(refusal: SetRefusal) -> Fault {
        Fault::Unread(refusal)
    }
}

/// The target set's refusal of a character.
impl From<(u32, SetRefusal)> for Fault {
    ghost from_gives = { λ e r. r ≡ Unwritten e.0 e.1 };

    fn from((character, refusal): (u32, SetRefusal)) -> Fault {
        Fault::Unwritten { character, refusal }
    }
}

/// Why a conversion ends where there is no fault.
#[derive(Clone, Copy, PartialEq, Eq, Debug)]
pub enum Pause {
    /// What is left of the input is an opening, or nothing.
    Open,
    /// The next coding is longer than what is left of the output.
    Full,
}

/// What comes of one character, where there is no fault.
#[derive(Clone, Copy)]
pub enum Advance {
    /// It was read from so many bytes, and written as so many.
    Written { read: usize, written: usize },
    /// Nothing was read or written.
    Paused(Pause),
}

/// How far a conversion came.
#[derive(Clone, Copy, Default)]
pub struct Run {
    /// How many characters were converted.
    pub characters: usize,
    /// How many bytes of the input they were read from.
    pub read: usize,
    /// How many bytes of the output they were written as.
    pub written: usize,
}

// The target coding of the character in front of the input, and how many bytes the character is
// read from; `None` where the input is open.
fn next_coding<S: CharacterSet, T: CharacterSet>(
    source: &S,
    target: &T,
    input: &[u8],
) -> Result<Option<(Coding, usize)>, Fault>
    ensures { ComesNext (set_of S.CharacterSet source.now)
        (set_of T.CharacterSet target.now) input.now result }
{
    let Reading::Found { character, length } = source.read(input)? else {
        return Ok(None);
    };
    let coding = target
        .write(character)
        .map_err(|refusal| (character, refusal))?;
    Ok(Some((coding, length)))
}
