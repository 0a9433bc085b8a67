//! The characters of a set that stand on a list.
ghost use Rattle.layers.specs.Meanings.{meaning_of_subrepertoire};
ghost use Rattle.layers.specs.Laws.LayersKeep.{sub_laws};

use crate::cause::Cause;
use crate::deeper::from_below;
use crate::list::CharacterList;
use charset::{CharacterSet, Coding, Reading, SetRefusal};

/// The characters of a set that stand on a list, with the codings and openings of that set. Another
/// character in front is refused with 37, and so is writing one that the set below can write; one
/// that it cannot is refused as there, one layer up.
#[derive(Drop)]
pub struct Subrepertoire<S> {
    /// The characters that are kept.
    pub list: CharacterList,
    /// The set below.
    pub below: S,
}

impl<S: CharacterSet> CharacterSet for Subrepertoire<S> {
    ghost codings = { λ p. (meaning_of_subrepertoire S.CharacterSet p).codings };

    ghost openings = { λ p. (meaning_of_subrepertoire S.CharacterSet p).openings };

    ghost causes = { λ p. (meaning_of_subrepertoire S.CharacterSet p).causes };

    ghost write_causes = { λ p. (meaning_of_subrepertoire S.CharacterSet p).write_causes };

    ghost lawful = { λ p. sub_laws p.list (S.lawful p.below) };

    fn read(&self, bytes: &[u8]) -> Result<Reading, SetRefusal> {
        match self.below.read(bytes).map_err(from_below)? {
            Reading::Found { character, .. } if !self.list.contains(character) => {
                Err(Cause::NotListed.into())
            },
            reading => Ok(reading),
        }
    }

    fn write(&self, number: u32) -> Result<Coding, SetRefusal> {
        let coding = self.below.write(number).map_err(from_below)?;
        if !self.list.contains(number) {
            return Err(Cause::NotListed.into());
        }
        Ok(coding)
    }
}
