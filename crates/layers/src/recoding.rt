//! Byte forms: how a byte of the set below is written as one or two bytes, and read again.
ghost use Rattle.std.specs.Prelude.{◌≡◌};
ghost use Rattle.layers.specs.Depth.{own};
ghost use Rattle.layers.specs.Recoding.{Recoding, Agrees};

use charset::SetRefusal;

pub mod moves;

pub use moves::{Move, WrittenByte};

/// How each byte of a set below is written as one or two bytes, and read again.
pub trait ByteForm {
    ghost recoding: { Self → Recoding };

    /// What reading one more byte does, after a byte that is held or not; `None` if the byte cannot
    /// stand there.
    fn step(&self, held: bool, byte: u8) -> Option<Move>
        ensures { result ≡ (recoding self.now).step held byte };

    /// How a byte below is written; `None` if it cannot be.
    fn form(&self, byte: u8) -> Option<WrittenByte>
        ensures { result ≡ (recoding self.now).form byte };

    /// The refusal of a byte that cannot stand where it does.
    fn fault(&self) -> SetRefusal
        ensures { result ≡ own (recoding self.now).fault };

    // Reading and writing a byte undo one another.
    ghost agrees: { (f : Self) → Agrees (recoding f) };
}
