//! ISO/IEC 6937:1994 in its 8-bit form.
ghost use Rattle.sets.specs.Causes.{no_coding_cause};
ghost use Rattle.sets.specs.Iso6937.{iso6937_codings, iso6937_openings, iso6937_causes};
ghost use Rattle.sets.specs.Laws.Iso6937.{iso6937_laws};

mod table;

use crate::cause::Cause;
use crate::reading::found;
use charset::{CharacterSet, Coding, Reading, SetRefusal};
use table::{accented, letters_of, pair_of, single, single_byte};

/// ISO/IEC 6937:1994 in its 8-bit form, by Table 4: a character is one byte, or a diacritic and the
/// letter under it. The thirteen diacritics are openings. A byte that is no position in use is
/// refused with 31, and a diacritic before a byte with which it makes no pair with 32. To write a
/// character without a coding is refused with 38.
#[derive(Clone, Copy)]
pub struct Iso6937;

impl CharacterSet for Iso6937 {
    ghost codings = { λ _. iso6937_codings };

    ghost openings = { λ _. iso6937_openings };

    ghost causes = { λ _. iso6937_causes };

    ghost write_causes = { λ _. no_coding_cause };

    ghost lawful = { λ s. iso6937_laws };

    fn read(&self, bytes: &[u8]) -> Result<Reading, SetRefusal> {
        let [first, ..] = bytes else {
            return Ok(Reading::Open);
        };
        if let Some(character) = single(*first) {
            return found(character, 1);
        }
        let letters = letters_of(*first).ok_or(Cause::NotInUse)?;
        let [_, letter, ..] = bytes else {
            return Ok(Reading::Open);
        };
        let character = accented(letters, *letter).ok_or(Cause::NoPair)?;
        found(character, 2)
    }

    fn write(&self, number: u32) -> Result<Coding, SetRefusal> {
        if let Some(byte) = single_byte(number) {
            return Ok(Coding::new(byte));
        }
        let (mark, letter) = pair_of(number).ok_or(Cause::NoCoding)?;
        Ok(Coding::new(mark).then(letter).unwrap())
    }
}
