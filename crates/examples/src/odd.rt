//! A set of our own making, lawful and odd, for the layers to stand on.
ghost use Rattle.std.specs.Prelude.{◌≡◌};
ghost use Rattle.examples.specs.Odd.{odd_single, odd_pair, odd_opens, odd_codings};
ghost use Rattle.examples.specs.Odd.{odd_string, odd_openings, odd_causes, odd_write_causes};
ghost use Rattle.examples.specs.Laws.Odd.{odd_laws};

use charset::{CharacterSet, Coding, Reading, SetRefusal};

/// A set that is lawful and odd: an opening that begins no coding, codings with bytes 19 and 80 to
/// 9F, a surrogate and U+0000 as characters, and causes as deep as can be.
#[derive(Clone, Copy)]
pub struct Odd;

const REFUSAL: SetRefusal = SetRefusal {
    cause: 77,
    depth: 255,
};

const WRITE_REFUSAL: SetRefusal = SetRefusal {
    cause: 78,
    depth: 255,
};

fn single(byte: u8) -> Option<u32>
    ensures { result ≡ odd_single byte }
{
    match byte {
        0x19 => Some(0),
        0x85 => Some(0xD800),
        0x20 => Some(0x20),
        _ => None,
    }
}

fn pair(first: u8, second: u8) -> Option<u32>
    ensures { result ≡ odd_pair first second }
{
    match (first, second) {
        (0x80, 0x9F) => Some(0x10FFFF),
        (0xA0, 0xA1) => Some(0x41),
        _ => None,
    }
}

fn opens(byte: u8) -> bool
    ensures { result ≡ odd_opens byte }
{
    matches!(byte, 0x80 | 0xA0 | 0x43)
}

fn coding_of(number: u32) -> Option<Coding>
    ensures { result ≡ odd_string number }
{
    match number {
        0 => Some(Coding::new(0x19)),
        0xD800 => Some(Coding::new(0x85)),
        0x20 => Some(Coding::new(0x20)),
        0x10FFFF => Coding::new(0x80).then(0x9F),
        0x41 => Coding::new(0xA0).then(0xA1),
        _ => None,
    }
}

impl CharacterSet for Odd {
    ghost codings = { λ _. odd_codings };

    ghost openings = { λ _. odd_openings };

    ghost causes = { λ _. odd_causes };

    ghost write_causes = { λ _. odd_write_causes };

    ghost lawful = { λ s. odd_laws };

    fn read(&self, bytes: &[u8]) -> Result<Reading, SetRefusal> {
        let [first, ..] = bytes else {
            return Ok(Reading::Open);
        };
        if let Some(character) = single(*first) {
            return Ok(Reading::Found {
                character,
                length: 1,
            });
        }
        if !opens(*first) {
            return Err(REFUSAL);
        }
        let [_, second, ..] = bytes else {
            return Ok(Reading::Open);
        };
        let character = pair(*first, *second).ok_or(REFUSAL)?;
        Ok(Reading::Found {
            character,
            length: 2,
        })
    }

    fn write(&self, number: u32) -> Result<Coding, SetRefusal> {
        coding_of(number).ok_or(WRITE_REFUSAL)
    }
}
