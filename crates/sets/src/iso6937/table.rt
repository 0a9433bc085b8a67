//! ISO/IEC 6937:1994, Table 4: what the supplementary set codes in one byte, and the letters of
//! each diacritic.
ghost use Rattle.std.specs.Prelude.{◌≡◌, ℕ, is_some};
ghost use Rattle.std.specs.Option.{option_map};
ghost use Rattle.sets.specs.Columns.{byte_of};
ghost use Rattle.sets.specs.Iso6937Table.{supplementary};
ghost use Rattle.sets.specs.Iso6937.{single, letters_of, accented, letter_of, among, pair};
ghost use Rattle.sets.specs.Iso6937.{pair_of};

use crate::columns::CodeTable;

// A diacritical mark, and the letters that it may stand before with the code point of each pair.
#[derive(Clone, Copy)]
struct Diacritic {
    mark: u8,
    letters: &'static [(u8, u32)],
}

// Columns 10 to 15, rows 0 to 15; 0 where no character stands alone: a position not in use or a
// diacritic.
#[rattlefmt::skip]
const SUPPLEMENTARY: CodeTable = CodeTable { columns: [
    [0x00A0, 0x00A1, 0x00A2, 0x00A3, 0, 0x00A5, 0, 0x00A7, 0x00A4, 0x2018, 0x201C, 0x00AB, 0x2190, 0x2191, 0x2192, 0x2193],
    [0x00B0, 0x00B1, 0x00B2, 0x00B3, 0x00D7, 0x00B5, 0x00B6, 0x00B7, 0x00F7, 0x2019, 0x201D, 0x00BB, 0x00BC, 0x00BD, 0x00BE, 0x00BF],
    [0, 0, 0, 0, 0, 0, 0, 0, 0, 0, 0, 0, 0, 0, 0, 0],
    [0x2015, 0x00B9, 0x00AE, 0x00A9, 0x2122, 0x266A, 0x00AC, 0x00A6, 0, 0, 0, 0, 0x215B, 0x215C, 0x215D, 0x215E],
    [0x2126, 0x00C6, 0x0110, 0x00AA, 0x0126, 0, 0x0132, 0x013F, 0x0141, 0x00D8, 0x0152, 0x00BA, 0x00DE, 0x0166, 0x014A, 0x0149],
    [0x0138, 0x00E6, 0x0111, 0x00F0, 0x0127, 0x0131, 0x0133, 0x0140, 0x0142, 0x00F8, 0x0153, 0x00DF, 0x00FE, 0x0167, 0x014B, 0x00AD],
] };

// The small letters first, since they are met most often.
#[rattlefmt::skip]
const DIACRITICS: &[Diacritic; 13] = &[
    // grave
    Diacritic { mark: 0xC1, letters: &[
        (b'a', 0x00E0), (b'e', 0x00E8), (b'i', 0x00EC), (b'o', 0x00F2), (b'u', 0x00F9), (b'A', 0x00C0),
        (b'E', 0x00C8), (b'I', 0x00CC), (b'O', 0x00D2), (b'U', 0x00D9),
    ] },
    // acute
    Diacritic { mark: 0xC2, letters: &[
        (b'a', 0x00E1), (b'c', 0x0107), (b'e', 0x00E9), (b'g', 0x0123), (b'i', 0x00ED), (b'l', 0x013A),
        (b'n', 0x0144), (b'o', 0x00F3), (b'r', 0x0155), (b's', 0x015B), (b'u', 0x00FA), (b'y', 0x00FD),
        (b'z', 0x017A), (b'A', 0x00C1), (b'C', 0x0106), (b'E', 0x00C9), (b'I', 0x00CD), (b'L', 0x0139),
        (b'N', 0x0143), (b'O', 0x00D3), (b'R', 0x0154), (b'S', 0x015A), (b'U', 0x00DA), (b'Y', 0x00DD),
        (b'Z', 0x0179), (b' ', 0x00B4),
    ] },
    // circumflex
    Diacritic { mark: 0xC3, letters: &[
        (b'a', 0x00E2), (b'c', 0x0109), (b'e', 0x00EA), (b'g', 0x011D), (b'h', 0x0125), (b'i', 0x00EE),
        (b'j', 0x0135), (b'o', 0x00F4), (b's', 0x015D), (b'u', 0x00FB), (b'w', 0x0175), (b'y', 0x0177),
        (b'A', 0x00C2), (b'C', 0x0108), (b'E', 0x00CA), (b'G', 0x011C), (b'H', 0x0124), (b'I', 0x00CE),
        (b'J', 0x0134), (b'O', 0x00D4), (b'S', 0x015C), (b'U', 0x00DB), (b'W', 0x0174), (b'Y', 0x0176),
    ] },
    // tilde
    Diacritic { mark: 0xC4, letters: &[
        (b'a', 0x00E3), (b'i', 0x0129), (b'n', 0x00F1), (b'o', 0x00F5), (b'u', 0x0169), (b'A', 0x00C3),
        (b'I', 0x0128), (b'N', 0x00D1), (b'O', 0x00D5), (b'U', 0x0168),
    ] },
    // macron
    Diacritic { mark: 0xC5, letters: &[
        (b'a', 0x0101), (b'e', 0x0113), (b'i', 0x012B), (b'o', 0x014D), (b'u', 0x016B), (b'A', 0x0100),
        (b'E', 0x0112), (b'I', 0x012A), (b'O', 0x014C), (b'U', 0x016A), (b' ', 0x00AF),
    ] },
    // breve
    Diacritic { mark: 0xC6, letters: &[
        (b'a', 0x0103), (b'g', 0x011F), (b'u', 0x016D), (b'A', 0x0102), (b'G', 0x011E), (b'U', 0x016C),
        (b' ', 0x02D8),
    ] },
    // dot above
    Diacritic { mark: 0xC7, letters: &[
        (b'c', 0x010B), (b'e', 0x0117), (b'g', 0x0121), (b'z', 0x017C), (b'C', 0x010A), (b'E', 0x0116),
        (b'G', 0x0120), (b'I', 0x0130), (b'Z', 0x017B), (b' ', 0x02D9),
    ] },
    // diaeresis
    Diacritic { mark: 0xC8, letters: &[
        (b'a', 0x00E4), (b'e', 0x00EB), (b'i', 0x00EF), (b'o', 0x00F6), (b'u', 0x00FC), (b'y', 0x00FF),
        (b'A', 0x00C4), (b'E', 0x00CB), (b'I', 0x00CF), (b'O', 0x00D6), (b'U', 0x00DC), (b'Y', 0x0178),
        (b' ', 0x00A8),
    ] },
    // ring above
    Diacritic { mark: 0xCA, letters: &[
        (b'a', 0x00E5), (b'u', 0x016F), (b'A', 0x00C5), (b'U', 0x016E), (b' ', 0x02DA),
    ] },
    // cedilla
    Diacritic { mark: 0xCB, letters: &[
        (b'c', 0x00E7), (b'k', 0x0137), (b'l', 0x013C), (b'n', 0x0146), (b'r', 0x0157), (b's', 0x015F),
        (b't', 0x0163), (b'C', 0x00C7), (b'G', 0x0122), (b'K', 0x0136), (b'L', 0x013B), (b'N', 0x0145),
        (b'R', 0x0156), (b'S', 0x015E), (b'T', 0x0162), (b' ', 0x00B8),
    ] },
    // double acute
    Diacritic { mark: 0xCD, letters: &[
        (b'o', 0x0151), (b'u', 0x0171), (b'O', 0x0150), (b'U', 0x0170), (b' ', 0x02DD),
    ] },
    // ogonek
    Diacritic { mark: 0xCE, letters: &[
        (b'a', 0x0105), (b'e', 0x0119), (b'i', 0x012F), (b'u', 0x0173), (b'A', 0x0104), (b'E', 0x0118),
        (b'I', 0x012E), (b'U', 0x0172), (b' ', 0x02DB),
    ] },
    // caron
    Diacritic { mark: 0xCF, letters: &[
        (b'c', 0x010D), (b'd', 0x010F), (b'e', 0x011B), (b'l', 0x013E), (b'n', 0x0148), (b'r', 0x0159),
        (b's', 0x0161), (b't', 0x0165), (b'z', 0x017E), (b'C', 0x010C), (b'D', 0x010E), (b'E', 0x011A),
        (b'L', 0x013D), (b'N', 0x0147), (b'R', 0x0158), (b'S', 0x0160), (b'T', 0x0164), (b'Z', 0x017D),
        (b' ', 0x02C7),
    ] },
];

/// The code point that a byte codes alone; `None` if it codes none.
pub fn single(byte: u8) -> Option<u32>
    ensures { result ≡ single byte }
{
    SUPPLEMENTARY.character_at(byte)
}

/// The byte that codes a code point alone; `None` if none does.
pub fn single_byte(character: u32) -> Option<u8>
    ensures { result ≡ byte_of supplementary character }
{
    SUPPLEMENTARY.byte_of(character)
}

/// The letters that a diacritic may stand before, with the code point of each pair; `None` where
/// the byte is no diacritic.
pub fn letters_of(mark: u8) -> Option<&'static [(u8, u32)]>
    ensures diacritics { is_some result ≡ is_some (letters_of mark) }
    ensures pairs { (letter : ℕ) →
        among letter (option_map (λ x. x.now) result) ≡ pair mark letter }
{
    DIACRITICS.iter().find_map(|diacritic| (diacritic.mark == mark).then_some(diacritic.letters))
}

/// The code point of a letter under the diacritic with these letters; `None` if they make no pair.
pub fn accented(letters: &[(u8, u32)], letter: u8) -> Option<u32>
    ensures { result ≡ accented letter letters.now }
{
    letters
        .iter()
        .find_map(|pair| (pair.0 == letter).then_some(pair.1))
}

// The letter of a code point under the diacritic with these letters.
fn letter_of(letters: &[(u8, u32)], character: u32) -> Option<u8>
    ensures { result ≡ letter_of character letters.now }
{
    letters
        .iter()
        .find_map(|pair| (pair.1 == character).then_some(pair.0))
}

/// The diacritic and the letter that code a code point; `None` if no pair does.
pub fn pair_of(character: u32) -> Option<(u8, u8)>
    ensures { result ≡ pair_of character }
{
    DIACRITICS.iter().find_map(|diacritic| {
        letter_of(diacritic.letters, character).map(|letter| (diacritic.mark, letter))
    })
}
