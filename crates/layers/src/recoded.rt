//! A set under another form of its bytes.
ghost use Rattle.std.specs.Prelude.{◌≡◌, ◌≤◌, length};
ghost use Rattle.layers.specs.Meanings.{meaning_of_recoded};
ghost use Rattle.layers.specs.Scans.{Scans, form_size, size_of, extended_if, Recodes};
ghost use Rattle.layers.specs.Laws.Recode.{recoded_laws};

use crate::cause::Cause;
use crate::deeper::from_below;
use crate::recoding::{ByteForm, Move, WrittenByte};
use charset::{CharacterSet, Coding, Front, Reading, SetRefusal};

mod scan;

use scan::Scan;

// How many bytes a coding has at most.
const LONGEST_CODING: usize = 4;

/// A set whose bytes are written in another form. A coding below that has a byte with no form, or
/// takes more than four bytes, has no coding here. A byte that cannot stand where it does is
/// refused by the form's fault, and a string still open after four bytes with 36. To write a
/// character is refused by the form's fault where its coding below has a byte with no form, and
/// else with 36 where it takes more than four bytes.
#[derive(Clone, Copy)]
pub struct Recoded<F, S> {
    /// How each byte of the set below is written.
    pub form: F,
    /// The set below.
    pub below: S,
}

// The bytes below that the first four bytes stand for, up to one that cannot stand there.
fn scan_front<F: ByteForm>(form: &F, string: &[u8]) -> Scan
    ensures { Scans (F.recoding form.now) string.now result }
{
    let mut below = Front::empty();
    let mut held = false;
    for byte in &string[..string.len().min(LONGEST_CODING)] {
        match form.step(held, *byte) {
            Some(Move::Emit(emitted)) => {
                below = below.then(emitted).unwrap();
                held = false;
            },
            Some(Move::Hold) => held = true,
            None => return Scan {
                below,
                broken: true,
            },
        }
    }
    Scan {
        below,
        broken: false,
    }
}

// How many bytes a byte below is written in, 0 if it cannot be.
fn form_size(form: Option<WrittenByte>) -> usize
    ensures { result ≡ form_size form }
{
    match form {
        Some(WrittenByte::One(_)) => 1,
        Some(WrittenByte::Two(_, _)) => 2,
        None => 0,
    }
}

// How many bytes here the bytes below are written in.
fn written_size<F: ByteForm>(form: &F, string: &[u8]) -> usize
    requires { length string.now ≤ 4 }
    ensures { result ≡ size_of (F.recoding form.now) string.now }
{
    string.iter().map(|byte| form_size(form.form(*byte))).sum()
}

// A byte below behind, as it is written here; `None` where these are more than four bytes.
fn append(front: Option<Front>, form: WrittenByte) -> Option<Front>
    ensures { result ≡ extended_if front form }
{
    match form {
        WrittenByte::One(byte) => front?.then(byte),
        WrittenByte::Two(first, second) => front?.then(first)?.then(second),
    }
}

// The bytes below as they are written here. Refused where one of them cannot be written, and else
// where they take more than four.
fn recode<F: ByteForm>(form: &F, bytes: &[u8]) -> Result<Front, SetRefusal>
    ensures { Recodes (F.recoding form.now) bytes.now result }
{
    let mut front = Some(Front::empty());
    for byte in bytes {
        let written = form.form(*byte).ok_or(form.fault())?;
        front = append(front, written);
    }
    Ok(front.ok_or(Cause::TooLong)?)
}

impl<F: ByteForm, S: CharacterSet> CharacterSet for Recoded<F, S> {
    ghost codings = { λ p. (meaning_of_recoded S.CharacterSet F.ByteForm p).codings };

    ghost openings = { λ p. (meaning_of_recoded S.CharacterSet F.ByteForm p).openings };

    ghost causes = { λ p. (meaning_of_recoded S.CharacterSet F.ByteForm p).causes };

    ghost write_causes = { λ p. (meaning_of_recoded S.CharacterSet F.ByteForm p).write_causes };

    ghost lawful = { λ p. recoded_laws _ _ (F.agrees p.form) (S.lawful p.below) };

    fn read(&self, bytes: &[u8]) -> Result<Reading, SetRefusal> {
        let scan = scan_front(&self.form, bytes);
        let below = scan.below.as_bytes();
        match self.below.read(below).map_err(from_below)? {
            Reading::Found { character, length } => Ok(Reading::Found {
                character,
                length: written_size(&self.form, &below[..length]),
            }),
            Reading::Open if scan.broken => Err(self.form.fault()),
            Reading::Open if bytes.len() >= LONGEST_CODING => Err(Cause::TooLong.into()),
            Reading::Open => Ok(Reading::Open),
        }
    }

    fn write(&self, number: u32) -> Result<Coding, SetRefusal> {
        let below = self.below.write(number).map_err(from_below)?;
        let front = recode(&self.form, below.as_bytes())?;
        Ok(Coding::of(front).unwrap())
    }
}
