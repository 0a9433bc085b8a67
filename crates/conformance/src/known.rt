//! The differences that are known and wanted: docs/CHARACTER-SETS.md says why each is right on our
//! side.
ghost use Rattle.std.specs.Prelude.{◌≡◌};
ghost use Rattle.conformance.specs.Differences.{control_position, front_of, ApartIn6937, Beyond};
ghost use Rattle.conformance.specs.Differences.{WaitsAt};

use crate::answer::Reply;
use crate::vector::Set;
use std::fmt;

/// In what the other converter differs.
#[derive(Clone, Copy)]
pub enum Known {
    /// It takes control characters for a part of the set.
    Control,
    /// It has characters of its own in columns 8 and 9 of the Sami set.
    Window,
    /// It reads 13/00 HORIZONTAL BAR as an em dash.
    Bar,
    /// It reads 14/02 LATIN CAPITAL LETTER D WITH STROKE as capital eth.
    Stroke,
    /// It has small g with cedilla at the cedilla and not at the acute.
    SmallG,
    /// It waits for more where no coding can come about any more.
    Waits,
    /// It drops tag characters without a word.
    Tags,
}

impl fmt::Display for Known {
    ghost use Rattle.std.specs.Prelude.{Some};
    ghost use Rattle.conformance.specs.Names.{name_of_known};

    ghost output = { λ known. Some (name_of_known known) };

    fn fmt<W: fmt::Write>(&self, f: &mut fmt::Formatter<W>) -> fmt::Result {
        f.write_str(match self {
            Known::Control => "control",
            Known::Window => "columns 8 and 9",
            Known::Bar => "horizontal bar",
            Known::Stroke => "d with stroke",
            Known::SmallG => "small g",
            Known::Waits => "waits",
            Known::Tags => "tags",
        })
    }
}

pub(crate) fn is_control(number: u32) -> bool
    ensures { result ≡ control_position number }
{
    number < 0x20 || (0x7F..0xA0).contains(&number)
}

// A character at a byte that is no position of ours.
pub(crate) fn beyond(set: Set, character: u32, byte: u32) -> Option<Known>
    ensures { Beyond set character byte result }
{
    if character == byte && is_control(byte) {
        return Some(Known::Control);
    }
    match set {
        Set::Sami if is_control(byte) => Some(Known::Window),
        _ => None,
    }
}

// A difference in what a string of ISO/IEC 6937, given as a number, is read as.
pub(crate) fn in_6937(string: u32, theirs: Reply, ours: Reply) -> Option<Known>
    ensures { ApartIn6937 string theirs ours result }
{
    match (string, theirs, ours) {
        (_, Reply::Character(0x2014, 1), Reply::Character(0x2015, 1)) => Some(Known::Bar),
        (_, Reply::Character(0xD0, 1), Reply::Character(0x110, 1)) => Some(Known::Stroke),
        (0xC267, Reply::Refused(_), Reply::Character(0x123, 2)) => Some(Known::SmallG),
        (0xCB67, Reply::Character(0x123, 2), Reply::Refused(32)) => Some(Known::SmallG),
        _ => None,
    }
}

// The first two bytes of a string as a number, by its digits and its number; of one byte, that byte
// and 0.
pub(crate) fn front(width: usize, number: u32) -> u32
    ensures { result ≡ front_of width number }
{
    match width {
        0..=2 => number % 256 * 256,
        3..=4 => number % 65536,
        5..=6 => number / 256 % 65536,
        _ => number / 65536,
    }
}

// A string with which no coding begins, by its first two bytes.
pub(crate) fn waits(set: Set, front: u32) -> Option<Known>
    ensures { WaitsAt set front result }
{
    match (set, front) {
        (Set::Iso6937, 0xC900 | 0xCC00) => Some(Known::Waits),
        (Set::Utf8, 0xE080..=0xE09F | 0xEDA0..=0xEDBF | 0xF080..=0xF08F | 0xF490..=0xFDFF) => {
            Some(Known::Waits)
        }
        _ => None,
    }
}
