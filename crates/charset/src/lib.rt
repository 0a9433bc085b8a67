//! What a character set is: its codings, openings and causes, of reading and of writing, the laws
//! that every set keeps, and what reading and writing answer.
#![tactic(auto)]

ghost use Rattle.std.specs.Prelude.{ℕ, Bool, List};
ghost use Rattle.charset.specs.declared.SetRefusal.{SetRefusal};
ghost use Rattle.charset.specs.Meaning.{Codings, meaning_of, Laws};
ghost use Rattle.charset.specs.Answers.{Reads, Writes};

mod by_laws;
mod coding;
mod front;

pub use by_laws::read_front;
pub use coding::Coding;
pub use front::Front;

/// Why a string cannot be read, or a character cannot be written.
#[derive(Clone, Copy, PartialEq, Eq, Debug)]
pub struct SetRefusal {
    /// The number of the cause. Any set may have causes of its own; those of the sets and layers
    /// here are 31 to 38.
    pub cause: u8,
    /// How many layers lie above the one that refused; 255 where there are more.
    pub depth: u8,
}

/// What stands in front of a string that can be read.
#[derive(Clone, Copy, PartialEq, Eq, Debug)]
pub enum Reading {
    /// The coding of a character: its code point, and how many bytes the coding has.
    Found { character: u32, length: usize },
    /// No coding yet: the whole string is an opening, which more bytes may complete.
    Open,
}

/// A character set: byte strings of one to four bytes, each of which codes a character. Its ghost
/// members say which; reading and writing answer by them, and they keep the laws of every set.
pub trait CharacterSet {
    // The character that a whole string codes, and the string that codes a character.
    ghost codings: { Self → Codings };

    // Whether a string is an opening.
    ghost openings: { Self → List ℕ → Bool };

    // The cause of a string that is no opening and has no coding in front.
    ghost causes: { Self → List ℕ → SetRefusal };

    // The cause of a character that has no coding.
    ghost write_causes: { Self → ℕ → SetRefusal };

    /// What stands in front of the bytes: the coding of a character, or an opening alone; else the
    /// cause of the shortest beginning that has one. No more than four bytes decide it.
    fn read(&self, bytes: &[u8]) -> Result<Reading, SetRefusal>
        ensures { Reads (meaning_of codings openings causes write_causes self.now)
            bytes.now result };

    /// The coding of the character with that code point; else why it has none. No number above
    /// U+10FFFF has one.
    fn write(&self, number: u32) -> Result<Coding, SetRefusal>
        ensures { Writes (meaning_of codings openings causes write_causes self.now)
            number result };

    // That the four keep the laws.
    ghost lawful: { (s : Self) → Laws (meaning_of codings openings causes write_causes s) };
}
