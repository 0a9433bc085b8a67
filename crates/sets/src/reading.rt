//! The answer that a character stands in front.
ghost use Rattle.std.specs.Prelude.{◌≡◌, Ok};
ghost use Rattle.charset.specs.declared.Reading.TheVariants.{Found};

use charset::{Reading, SetRefusal};

/// The answer that the coding of a character stands in front, `length` bytes long.
pub fn found(character: u32, length: usize) -> Result<Reading, SetRefusal>
    ensures { result ≡ Ok (Found character length) }
{
    Ok(Reading::Found { character, length })
}
