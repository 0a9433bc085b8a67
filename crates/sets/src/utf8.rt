//! UTF-8, by RFC 3629.
ghost use Rattle.std.specs.Prelude.{◌≡◌, ◌+◌, ◌-◌, ◌*◌, ◌^◌, ◌<◌};
ghost use Rattle.std.specs.Prelude.{◌≤◌};
ghost use Rattle.charset.specs.Answers.{Reads};
ghost use Rattle.sets.specs.Causes.{no_coding_cause};
ghost use Rattle.sets.specs.Utf8.{utf8, OpeningsBeginCodings, utf8_codings, utf8_openings};
ghost use Rattle.sets.specs.Utf8.{utf8_causes, utf8_string, lead, second, tail, low_bits};
ghost use Rattle.sets.specs.Laws.Utf8.{utf8_laws};

use crate::cause::Cause;
use crate::reading::found;
use charset::{CharacterSet, Coding, Reading, SetRefusal};

/// UTF-8, by RFC 3629: one to four octets, no overlong forms, no surrogates, nothing above
/// U+10FFFF. The openings are the proper beginnings of codings. All else is refused with 33, at the
/// shortest beginning from which no coding can come about. To write a surrogate, or a number above
/// U+10FFFF, is refused with 38.
#[derive(Clone, Copy)]
pub struct Utf8;

// Whether `a` is the first octet of a character of two to four octets (section 4).
fn is_lead(a: u8) -> bool
    ensures { result ≡ lead a }
{
    matches!(a, 0xC2..=0xF4)
}

// Whether `b` may follow the first octet `a` (section 4).
fn is_second(a: u8, b: u8) -> bool
    ensures { result ≡ second a b }
{
    let seconds = match a {
        0xE0 => 0xA0..=0xBF,
        0xED => 0x80..=0x9F,
        0xF0 => 0x90..=0xBF,
        0xF4 => 0x80..=0x8F,
        _ => 0x80..=0xBF,
    };
    seconds.contains(&b)
}

// Whether `b` may stand behind the second octet (section 4).
fn is_tail(b: u8) -> bool
    ensures { result ≡ tail b }
{
    matches!(b, 0x80..=0xBF)
}

// The bits so far with the six of one more octet behind.
fn with_bits(so_far: u32, octet: u8) -> u32
    requires few { so_far < 2 ^ 20 }
    requires octet { 0x80 ≤ octet }
    ensures { result ≡ so_far * 64 + (octet - 0x80) }
{
    so_far * 64 + (octet as u32 - 0x80)
}

// The character in front, octet by octet, by the table of section 3.
fn front(bytes: &[u8]) -> Result<Reading, SetRefusal>
    ensures { Reads utf8 bytes.now result }
{
    match *bytes {
        [] => Ok(Reading::Open),
        [a, ..] if a < 0x80 => found(a as u32, 1),
        [a, ..] if !is_lead(a) => Err(Cause::Malformed.into()),
        [_] => Ok(Reading::Open),
        [a, b, ..] if !is_second(a, b) => Err(Cause::Malformed.into()),
        [a, b, ..] if a < 0xE0 => found(with_bits(a as u32 - 0xC0, b), 2),
        [_, _] => Ok(Reading::Open),
        [_, _, c, ..] if !is_tail(c) => Err(Cause::Malformed.into()),
        [a, b, c, ..] if a < 0xF0 => found(with_bits(with_bits(a as u32 - 0xE0, b), c), 3),
        [_, _, _] => Ok(Reading::Open),
        [_, _, _, d, ..] if !is_tail(d) => Err(Cause::Malformed.into()),
        [a, b, c, d, ..] => found(with_bits(with_bits(with_bits(a as u32 - 0xF0, b), c), d), 4),
    }
}

// A tail octet with the six lowest bits of `n`.
fn low_bits(n: u32) -> u8
    ensures { result ≡ low_bits n }
{
    (0x80 + n % 64) as u8
}

// The coding of a character, by the table of section 3; `None` if it has none.
fn coding_of(number: u32) -> Option<Coding>
    ensures { result ≡ utf8_string number }
{
    match number {
        0..=0x7F => Some(Coding::new(number as u8)),
        0x80..=0x7FF => Coding::new((0xC0 + number / 64) as u8).then(low_bits(number)),
        0x800..=0xD7FF | 0xE000..=0xFFFF => Coding::new((0xE0 + number / 4096) as u8)
            .then(low_bits(number / 64))?
            .then(low_bits(number)),
        0x1_0000..=0x10_FFFF => Coding::new((0xF0 + number / 262144) as u8)
            .then(low_bits(number / 4096))?
            .then(low_bits(number / 64))?
            .then(low_bits(number)),
        _ => None,
    }
}

impl CharacterSet for Utf8 {
    ghost codings = { λ _. utf8_codings };

    ghost openings = { λ _. utf8_openings };

    ghost causes = { λ _. utf8_causes };

    ghost write_causes = { λ _. no_coding_cause };

    ghost lawful = { λ s. utf8_laws };

    fn read(&self, bytes: &[u8]) -> Result<Reading, SetRefusal> {
        front(bytes)
    }

    fn write(&self, number: u32) -> Result<Coding, SetRefusal> {
        Ok(coding_of(number).ok_or(Cause::NoCoding)?)
    }
}

/// Proves that every opening of UTF-8 is a proper beginning of a coding: with some octets, one or
/// more, behind it, it is the coding of a character. There is nothing to run.
#[tactic(auto, using(crate::specs::Laws::Utf8::openings_begin_codings))]
pub fn openings_begin_codings()
    ensures { OpeningsBeginCodings }
{}
