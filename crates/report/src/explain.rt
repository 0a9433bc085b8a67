//! Refusals in words.
ghost use Rattle.std.specs.Prelude.{◌≡◌, drop};
ghost use Rattle.forms.specs.FormSets.{form_set};
ghost use Rattle.report.specs.Refused.{IsRefusedFront};

use crate::LONGEST_INPUT;
use charset::SetRefusal;
use conversion::Fault;
use forms::{form_name, is_opening};
use roll::{Form, MOST_PAGES, RollRefusal, SMALLEST_ROLL};
use std::fmt;
use transcript::{FaultAt, fault_number};

/// The bytes in front for which a text of a form ends there: the fewest that are no opening of its
/// set, or all that are left.
pub fn refused_bytes(form: Form, bytes: &[u8]) -> &[u8]
    ensures { IsRefusedFront (form_set form) bytes.now result.now }
{
    for len in 1..bytes.len() {
        if !is_opening(form, &bytes[..len]) {
            return &bytes[..len];
        }
    }
    bytes
}

/// A fault of a text in words, to be printed: its offset, the bytes there, and what is wrong, as in
/// `offset 6: C2 62: acute before a byte with which it makes no pair (refusal 6, cause 32, depth
/// 1)`.
#[derive(Clone, Copy)]
pub struct FaultWords<'a> {
    /// The fault and its place.
    pub at: FaultAt,
    /// The bytes at the fault that tell it.
    pub bytes: &'a [u8],
    /// The form into which the text goes.
    pub target: Form,
}

impl<'a> FaultWords<'a> {
    /// The words for a fault that a text of one form met on its way into another.
    pub fn new(source: Form, target: Form, text: &'a [u8], at: FaultAt) -> FaultWords<'a>
        ensures fault { (result.at ≡ at) × (result.target ≡ target) }
        ensures bytes { IsRefusedFront (form_set source) (drop at.offset text.now)
            result.bytes.now }
    {
        let rest = text.get(at.offset as usize..).unwrap_or(&[]);
        FaultWords {
            at,
            bytes: refused_bytes(source, rest),
            target,
        }
    }
}

impl fmt::Display for FaultWords<'_> {
    fn fmt<W: fmt::Write>(&self, f: &mut fmt::Formatter<W>) -> fmt::Result {
        let FaultWords { at, bytes, target } = *self;
        let offset = at.offset;
        let number = fault_number(at.fault);
        write!(f, "offset {offset}:")?;
        for byte in bytes {
            write!(f, " {byte:02X}")?;
        }
        f.write_str(": ")?;
        let refusal = match at.fault {
            Fault::Unread(refusal) => {
                let words = cause_words(refusal.cause, bytes);
                write!(f, "{words}")?;
                Some(refusal)
            }
            Fault::Unwritten { character, refusal } => {
                let target = form_name(target);
                let words = write_cause_words(refusal.cause);
                write!(f, "U+{character:04X} has no coding in {target}: {words}")?;
                Some(refusal)
            }
            Fault::Unfinished => {
                f.write_str("bytes at the very end that wait for more")?;
                None
            }
        };
        write!(f, " (refusal {number}")?;
        if let Some(SetRefusal { cause, depth }) = refusal {
            write!(f, ", cause {cause}, depth {depth}")?;
        }
        f.write_str(")")
    }
}

/// What a cause says, of the bytes for which a set or a layer refuses.
#[derive(Clone, Copy)]
struct CauseWords {
    /// The diacritic that the words begin with.
    diacritic: Option<&'static str>,
    words: &'static str,
}

impl fmt::Display for CauseWords {
    fn fmt<W: fmt::Write>(&self, f: &mut fmt::Formatter<W>) -> fmt::Result {
        if let Some(name) = self.diacritic {
            write!(f, "{name} ")?;
        }
        f.write_str(self.words)
    }
}

fn cause_words(cause: u8, bytes: &[u8]) -> CauseWords {
    let words = match cause {
        31 => "the first byte is no position in use",
        32 => "before a byte with which it makes no pair",
        33 => "the bytes begin no UTF-8 character",
        34 => "a byte with an odd number of ones",
        35 => "a byte from 80 up, or 19 before anything but 20 to 7F",
        36 => "still open after four bytes",
        37 => "a character that is not on the list",
        _ => "a cause of no set or layer here",
    };
    CauseWords {
        diacritic: (cause == 32).then_some(diacritic_name(bytes)),
        words,
    }
}

/// What a cause says of a character that a set or a layer cannot write.
fn write_cause_words(cause: u8) -> &'static str {
    match cause {
        34 => "its coding below has a byte from 80 up, to which parity cannot be added",
        35 => "its coding below has a byte 19, or one from 80 to 9F, which cannot be shifted",
        36 => "its coding below is over four bytes once it is shifted",
        37 => "it is not on the list",
        38 => "the set does not have it",
        _ => "by a cause of no set or layer here",
    }
}

/// The name of the diacritic in front of the bytes, which may be shifted, and with parity.
fn diacritic_name(bytes: &[u8]) -> &'static str {
    const SHIFT: u8 = 0x19;
    let diacritic = match bytes {
        [first, second, ..] if first & 0x7F == SHIFT => *second,
        [first, ..] => *first,
        [] => 0,
    };
    match diacritic & 0x7F {
        0x41 => "grave",
        0x42 => "acute",
        0x43 => "circumflex",
        0x44 => "tilde",
        0x45 => "macron",
        0x46 => "breve",
        0x47 => "dot above",
        0x48 => "diaeresis",
        0x4A => "ring above",
        0x4B => "cedilla",
        0x4D => "double acute",
        0x4E => "ogonek",
        0x4F => "caron",
        _ => "a diacritic",
    }
}

/// A refusal of a roll in words, to be printed, as in `entry 2 breaks a rule (refusal 17)`.
#[derive(Clone, Copy)]
pub struct RollWords(pub RollRefusal);

impl fmt::Display for RollWords {
    fn fmt<W: fmt::Write>(&self, f: &mut fmt::Formatter<W>) -> fmt::Result {
        let RollWords(refusal) = *self;
        match refusal {
            RollRefusal::WrongSize => {
                write!(f, "under {SMALLEST_ROLL} bytes or over {LONGEST_INPUT}")?;
            }
            RollRefusal::NoMark => f.write_str("the last four bytes are not ROLL")?,
            RollRefusal::WrongIndex => {
                write!(
                    f,
                    "more than {MOST_PAGES} pages, or an index that does not fit"
                )?;
            }
            RollRefusal::BadEntry(0) => {
                f.write_str("no pages, and an index that does not begin at 0")?;
            }
            RollRefusal::BadEntry(entry) => write!(f, "entry {entry} breaks a rule")?,
            RollRefusal::WrongTotal => f.write_str("the total is not the sum of the lengths")?,
            RollRefusal::NoSuchPage => f.write_str("page 0, or one above the count")?,
        }
        let number = refusal.told().number;
        write!(f, " (refusal {number})")
    }
}
