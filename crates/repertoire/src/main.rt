//! Prints all that ISO/IEC 6937 reads in one and two bytes, and all that it writes, with equal
//! neighbours on one line.
#![tactic(auto)]

use charset::{CharacterSet, Coding, Reading, SetRefusal};
use sets::Iso6937;
use std::{fmt, io};

// An answer of `read`, shown as `U+00E9 2`, `open` or `refused 32 0`.
#[derive(Clone, Copy, PartialEq)]
struct ShownReading(Result<Reading, SetRefusal>);

impl fmt::Display for ShownReading {
    fn fmt<W: fmt::Write>(&self, f: &mut fmt::Formatter<W>) -> fmt::Result {
        match self.0 {
            Ok(Reading::Found { character, length }) => write!(f, "U+{character:04X} {length}"),
            Ok(Reading::Open) => f.write_str("open"),
            Err(SetRefusal { cause, depth }) => write!(f, "refused {cause} {depth}"),
        }
    }
}

// A coding, shown as its bytes, each behind a space.
#[derive(Clone, Copy)]
struct Bytes(Coding);

impl fmt::Display for Bytes {
    fn fmt<W: fmt::Write>(&self, f: &mut fmt::Formatter<W>) -> fmt::Result {
        for byte in self.0.as_bytes() {
            write!(f, " {byte:02X}")?;
        }
        Ok(())
    }
}

// What a byte alone is read as.
fn read_one(rt: &HostRuntime, byte: u8) -> io::Result<()> {
    let answer = ShownReading(Iso6937.read(&[byte]));
    println!(rt; "{byte:02X} {answer}")
}

// What each two bytes with this first one are read as.
fn read_two(rt: &HostRuntime, first: u8) -> io::Result<()> {
    let mut answers = [(0, ShownReading(Ok(Reading::Open))); 256];
    for (place, second) in answers.iter_mut().zip(0..=255u8) {
        *place = (second, ShownReading(Iso6937.read(&[first, second])));
    }
    for run in answers.chunk_by(|a, b| a.1 == b.1) {
        let (from, answer) = run[0];
        let (to, _) = run[run.len() - 1];
        println!(rt; "{first:02X} {from:02X}-{to:02X} {answer}")?;
    }
    Ok(())
}

// How a character is written, if it is.
fn write_one(rt: &HostRuntime, number: u32) -> io::Result<()> {
    match Iso6937.write(number).map(Bytes) {
        Ok(bytes) => println!(rt; "U+{number:04X}{bytes}"),
        Err(_) => Ok(()),
    }
}

fn main(rt: HostRuntime) -> io::Result<()> {
    for byte in 0..=255u8 {
        read_one(&rt, byte)?;
    }
    for first in 0..=255u8 {
        read_two(&rt, first)?;
    }
    // Every character, and what lies beyond.
    for number in (0..=0x11_0000).chain([u32::MAX]) {
        write_one(&rt, number)?;
    }
    Ok(())
}
