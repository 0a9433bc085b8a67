//! Control characters beside the characters of a set.
ghost use Rattle.std.specs.Prelude.{◌≡◌, [], ◌∷◌, is_err};
ghost use Rattle.charset.specs.Answers.{reading};
ghost use Rattle.charset.specs.Sets.{set_of};
ghost use Rattle.layers.specs.Layers.{added};
ghost use Rattle.layers.specs.Meanings.{meaning_of_controls};
ghost use Rattle.layers.specs.Laws.LayersKeep.{controls_laws};

use crate::deeper::from_below;
use charset::{CharacterSet, Coding, Reading, SetRefusal};

/// A set with control characters beside its own, each by its own byte: those chosen that the set
/// below refuses alone and does not write. Openings are those below, and so are the causes, of
/// reading and of writing, one layer up.
#[derive(Clone, Copy)]
pub struct Controls<S> {
    /// Whether each of U+0000 to U+001F is chosen.
    pub chosen: [bool; 32],
    /// The set below.
    pub below: S,
}

impl<S: CharacterSet> Controls<S> {
    // Whether the set below cannot read a byte alone. Kept out of line: few bytes are asked about,
    // and to read and write the others is faster so.
    #[inline(never)]
    fn is_refused_below(&self, byte: u8) -> bool
        ensures { result ≡ is_err (reading (set_of S.CharacterSet self.now.below) (byte ∷ [])) }
    {
        self.below.read(&[byte]).is_err()
    }

    // Whether a byte is chosen, and the set below refuses it alone and does not write its
    // character.
    fn adds(&self, byte: u8) -> bool
        ensures { result ≡ added self.now.chosen (set_of S.CharacterSet self.now.below) byte }
    {
        byte < 0x20
            && self.chosen[usize::from(byte)]
            && self.is_refused_below(byte)
            && self.below.write(u32::from(byte)).is_err()
    }
}

impl<S: CharacterSet> CharacterSet for Controls<S> {
    ghost codings = { λ p. (meaning_of_controls S.CharacterSet p).codings };

    ghost openings = { λ p. (meaning_of_controls S.CharacterSet p).openings };

    ghost causes = { λ p. (meaning_of_controls S.CharacterSet p).causes };

    ghost write_causes = { λ p. (meaning_of_controls S.CharacterSet p).write_causes };

    ghost lawful = { λ p. controls_laws p.chosen (S.lawful p.below) };

    fn read(&self, bytes: &[u8]) -> Result<Reading, SetRefusal> {
        match (self.below.read(bytes), bytes) {
            (Err(_), [first, ..]) if self.adds(*first) => Ok(Reading::Found {
                character: u32::from(*first),
                length: 1,
            }),
            (answer, _) => answer.map_err(from_below),
        }
    }

    fn write(&self, number: u32) -> Result<Coding, SetRefusal> {
        match number {
            0..=0x1F if self.adds(number as u8) => Ok(Coding::new(number as u8)),
            _ => self.below.write(number).map_err(from_below),
        }
    }
}
