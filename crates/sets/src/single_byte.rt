//! The single-byte sets: ASCII in the lower half, and a table of their own in the upper.
ghost use Rattle.std.specs.Prelude.{◌≡◌, true};
ghost use Rattle.sets.specs.Causes.{no_coding_cause};
ghost use Rattle.sets.specs.Columns.{one_to_one};
ghost use Rattle.sets.specs.SingleByte.{single_byte_codings, single_byte_openings};
ghost use Rattle.sets.specs.SingleByte.{single_byte_causes};
ghost use Rattle.sets.specs.SingleByteTables.{iso8859_16, sami};
ghost use Rattle.sets.specs.Laws.SingleByte.{single_byte_laws};

use crate::cause::Cause;
use crate::columns::CodeTable;
use crate::reading::found;
use charset::{CharacterSet, Coding, Reading, SetRefusal};

// Columns 10 to 15, rows 0 to 15 of ISO/IEC 8859-16:2001, Table 1.
#[rattlefmt::skip]
const ISO_8859_16: CodeTable = CodeTable { columns: [
    [0x00A0, 0x0104, 0x0105, 0x0141, 0x20AC, 0x201E, 0x0160, 0x00A7, 0x0161, 0x00A9, 0x0218, 0x00AB, 0x0179, 0x00AD, 0x017A, 0x017B],
    [0x00B0, 0x00B1, 0x010C, 0x0142, 0x017D, 0x201D, 0x00B6, 0x00B7, 0x017E, 0x010D, 0x0219, 0x00BB, 0x0152, 0x0153, 0x0178, 0x017C],
    [0x00C0, 0x00C1, 0x00C2, 0x0102, 0x00C4, 0x0106, 0x00C6, 0x00C7, 0x00C8, 0x00C9, 0x00CA, 0x00CB, 0x00CC, 0x00CD, 0x00CE, 0x00CF],
    [0x0110, 0x0143, 0x00D2, 0x00D3, 0x00D4, 0x0150, 0x00D6, 0x015A, 0x0170, 0x00D9, 0x00DA, 0x00DB, 0x00DC, 0x0118, 0x021A, 0x00DF],
    [0x00E0, 0x00E1, 0x00E2, 0x0103, 0x00E4, 0x0107, 0x00E6, 0x00E7, 0x00E8, 0x00E9, 0x00EA, 0x00EB, 0x00EC, 0x00ED, 0x00EE, 0x00EF],
    [0x0111, 0x0144, 0x00F2, 0x00F3, 0x00F4, 0x0151, 0x00F6, 0x015B, 0x0171, 0x00F9, 0x00FA, 0x00FB, 0x00FC, 0x0119, 0x021B, 0x00FF],
] };

// Columns 10 to 15, rows 0 to 15 of the Sami set for ISO/IEC 8859 environments, ISO-IR 209.
#[rattlefmt::skip]
const SAMI: CodeTable = CodeTable { columns: [
    [0x00A0, 0x010C, 0x010D, 0x0110, 0x0111, 0x01E4, 0x01E5, 0x00A7, 0x01E6, 0x00A9, 0x01E7, 0x021E, 0x01E8, 0x00AD, 0x01E9, 0x014A],
    [0x00B0, 0x014B, 0x0160, 0x0161, 0x00B4, 0x0166, 0x00B6, 0x00B7, 0x0167, 0x017D, 0x017E, 0x021F, 0x01B7, 0x0292, 0x01EE, 0x01EF],
    [0x00C0, 0x00C1, 0x00C2, 0x00C3, 0x00C4, 0x00C5, 0x00C6, 0x00C7, 0x00C8, 0x00C9, 0x00CA, 0x00CB, 0x00CC, 0x00CD, 0x00CE, 0x00CF],
    [0x00D0, 0x00D1, 0x00D2, 0x00D3, 0x00D4, 0x00D5, 0x00D6, 0x00D7, 0x00D8, 0x00D9, 0x00DA, 0x00DB, 0x00DC, 0x00DD, 0x00DE, 0x00DF],
    [0x00E0, 0x00E1, 0x00E2, 0x00E3, 0x00E4, 0x00E5, 0x00E6, 0x00E7, 0x00E8, 0x00E9, 0x00EA, 0x00EB, 0x00EC, 0x00ED, 0x00EE, 0x00EF],
    [0x00F0, 0x00F1, 0x00F2, 0x00F3, 0x00F4, 0x00F5, 0x00F6, 0x00F7, 0x00F8, 0x00F9, 0x00FA, 0x00FB, 0x00FC, 0x00FD, 0x00FE, 0x00FF],
] };

/// A set of single bytes by its code table, in which no character stands twice. 00 to 1F and 7F to
/// 9F, as every byte whose position is not in use, are refused with 31. To write a character
/// without a coding is refused with 38.
#[derive(Clone, Copy)]
pub struct SingleByte {
    table: CodeTable,
    ghost unambiguous: { one_to_one table.columns ≡ true },
}

impl SingleByte {
    /// ISO/IEC 8859-16:2001, Table 1.
    pub fn iso8859_16() -> SingleByte
        ensures { result.table.columns ≡ iso8859_16 }
    {
        SingleByte { table: ISO_8859_16 }
    }

    /// The Sami set for ISO/IEC 8859 environments, whose upper half is ISO-IR 209.
    pub fn sami() -> SingleByte
        ensures { result.table.columns ≡ sami }
    {
        SingleByte { table: SAMI }
    }
}

impl CharacterSet for SingleByte {
    ghost codings = { λ s. single_byte_codings s.table.columns };

    ghost openings = { λ _. single_byte_openings };

    ghost causes = { λ _. single_byte_causes };

    ghost write_causes = { λ _. no_coding_cause };

    ghost lawful = { λ s. single_byte_laws s.table.columns s.unambiguous };

    fn read(&self, bytes: &[u8]) -> Result<Reading, SetRefusal> {
        let [first, ..] = bytes else {
            return Ok(Reading::Open);
        };
        let character = self.table.character_at(*first).ok_or(Cause::NotInUse)?;
        found(character, 1)
    }

    fn write(&self, number: u32) -> Result<Coding, SetRefusal> {
        let byte = self.table.byte_of(number).ok_or(Cause::NoCoding)?;
        Ok(Coding::new(byte))
    }
}
