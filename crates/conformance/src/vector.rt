//! A vector: a question about a run of strings or numbers, and the other converter's answer.
ghost use Rattle.charset.specs.Sets.{set_of};
ghost use Rattle.std.specs.Prelude.{◌≡◌};
ghost use Rattle.conformance.specs.Agreement.{TellsReading, Tells, answer_to};
ghost use Rattle.conformance.specs.Held.{our_answer};
ghost use Rattle.conformance.specs.Meanings.{named_meaning};

use crate::answer::Reply;
use charset::CharacterSet;
use sets::{Iso6937, SingleByte, Utf8};
use std::error::Error;
use std::fmt;
use std::num::ParseIntError;
use std::str::FromStr;

/// A set that vectors ask.
#[derive(Clone, Copy)]
pub enum Set {
    /// ISO/IEC 6937.
    Iso6937,
    /// ISO/IEC 8859-16.
    Iso8859v16,
    /// The Sami set, ISO-IR 209.
    Sami,
    /// UTF-8.
    Utf8,
}

/// By the name that vectors use.
impl fmt::Display for Set {
    ghost use Rattle.std.specs.Prelude.{Some};
    ghost use Rattle.conformance.specs.Names.{name_of};

    ghost output = { λ set. Some (name_of set) };

    fn fmt<W: fmt::Write>(&self, f: &mut fmt::Formatter<W>) -> fmt::Result {
        f.write_str(match self {
            Set::Iso6937 => "6937",
            Set::Iso8859v16 => "8859-16",
            Set::Sami => "sami",
            Set::Utf8 => "utf-8",
        })
    }
}

impl FromStr for Set {
    type Err = NotAVector;

    ghost use Rattle.conformance.specs.Names.{Named};

    ghost from_str_gives = { Named };

    fn from_str(name: &str) -> Result<Set, NotAVector> {
        match name {
            "6937" => Ok(Set::Iso6937),
            "8859-16" => Ok(Set::Iso8859v16),
            "sami" => Ok(Set::Sami),
            "utf-8" => Ok(Set::Utf8),
            _ => Err(NotAVector),
        }
    }
}

/// What is asked of each number of a run.
#[derive(Clone, Copy)]
pub enum Question {
    /// What is read in the string of so many hexadecimal digits.
    Read {
        /// How many digits.
        width: usize,
    },
    /// How the character is written.
    Write,
}

/// The answer of the other converter to a question of each number of a run.
#[derive(Clone, Copy)]
pub struct Vector {
    /// The set that is asked.
    pub set: Set,
    /// What it is asked.
    pub question: Question,
    /// The first number of the run.
    pub from: u32,
    /// The last one.
    pub to: u32,
    /// The answer, the same to all.
    pub answer: Reply,
}

/// A line is no vector.
#[derive(Clone, Copy, Debug, PartialEq, Eq)]
pub struct NotAVector;

impl fmt::Display for NotAVector {
    ghost use Rattle.std.specs.Prelude.{Some, codes};

    ghost output = { λ _. Some (codes "not a vector") };

    fn fmt<W: fmt::Write>(&self, f: &mut fmt::Formatter<W>) -> fmt::Result {
        f.write_str("not a vector")
    }
}

impl Error for NotAVector {}

impl From<ParseIntError> for NotAVector {
    fn from(_error: ParseIntError) -> NotAVector {
        NotAVector
    }
}

fn hex(text: &str) -> Result<u32, NotAVector> {
    Ok(u32::from_str_radix(text, 16)?)
}

// The other converter's answer to a reading, as `C1/2`, `open` or `refused`.
fn read_answer(text: &str) -> Result<Reply, NotAVector> {
    match text {
        "open" => Ok(Reply::Open),
        "refused" => Ok(Reply::Refused(0)),
        _ => {
            let (character, length) = text.split_once('/').ok_or(NotAVector)?;
            Ok(Reply::Character(hex(character)?, length.parse::<usize>()?))
        }
    }
}

// The other converter's answer to a writing, as `C241`, `none` or `-`.
fn write_answer(text: &str) -> Result<Reply, NotAVector> {
    match text {
        "none" => Ok(Reply::NoCoding),
        "-" => Ok(Reply::Bytes(0, 0)),
        _ => Ok(Reply::Bytes(hex(text)?, text.len() / 2)),
    }
}

impl FromStr for Vector {
    type Err = NotAVector;

    fn from_str(line: &str) -> Result<Vector, NotAVector> {
        let mut words = line.split(' ');
        let mut word = || words.next().ok_or(NotAVector);
        let kind = word()?;
        let set = word()?.parse::<Set>()?;
        let first = word()?;
        let from = hex(first)?;
        let to = hex(word()?)?;
        let answer = word()?;
        let (question, answer) = match kind {
            "read" => (Question::Read { width: first.len() }, read_answer(answer)?),
            "write" => (Question::Write, write_answer(answer)?),
            _ => return Err(NotAVector),
        };
        Ok(Vector {
            set,
            question,
            from,
            to,
            answer,
        })
    }
}

// What a set reads in a string.
fn reading_of<S: CharacterSet>(set: &S, bytes: &[u8]) -> Reply
    ensures { TellsReading (set_of S.CharacterSet set.now) bytes.now result }
{
    Reply::from(set.read(bytes))
}

fn ask<S: CharacterSet>(set: &S, question: Question, number: u32) -> Reply
    ensures tells { Tells (set_of S.CharacterSet set.now) question number result }
    ensures only { answer_to (set_of S.CharacterSet set.now) question number ≡ result }
{
    match question {
        Question::Read { width } => {
            let bytes = number.to_be_bytes();
            let start = 4usize.saturating_sub(width / 2);
            reading_of(set, &bytes[start..])
        }
        Question::Write => Reply::from(set.write(number)),
    }
}

impl Vector {
    // What our set answers to one question of the run. A `match`: each set is a type of its own.
    pub(crate) fn ask(&self, number: u32) -> Reply
        ensures tells { Tells (named_meaning self.now.set) self.now.question number result }
        ensures only { our_answer self.now number ≡ result }
    {
        match self.set {
            Set::Iso6937 => ask(&Iso6937, self.question, number),
            Set::Iso8859v16 => ask(&SingleByte::iso8859_16(), self.question, number),
            Set::Sami => ask(&SingleByte::sami(), self.question, number),
            Set::Utf8 => ask(&Utf8, self.question, number),
        }
    }
}
