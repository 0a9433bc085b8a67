//! The examples of RFC 3629, section 7, the edges of UTF-8, and what a hasty reader of ISO/IEC 6937
//! gets wrong.
use crate::asserts::{opens, reads, refuses, writes, writes_nothing};
use charset::CharacterSet;
use sets::{Iso6937, SingleByte, Utf8};
use std::process::Abort;
use std::test::Fail;

fn both_ways<S: CharacterSet>(
    rt: &impl Abort,
    set: &S,
    bytes: &[u8],
    character: u32,
) -> Result<(), Fail> {
    reads(rt, set, bytes, character, bytes.len());
    writes(rt, set, character, bytes)
}

fn refused<S: CharacterSet>(rt: &impl Abort, set: &S, bytes: &[u8], cause: u8) {
    refuses(rt, set, bytes, cause, 0);
}

#[test]
fn utf8_codings(rt: HostRuntime) -> Result<(), Fail> {
    both_ways(&rt, &Utf8, &[0x41], 0x41)?;
    both_ways(&rt, &Utf8, &[0xE2, 0x89, 0xA2], 0x2262)?;
    both_ways(&rt, &Utf8, &[0xCE, 0x91], 0x391)?;
    both_ways(&rt, &Utf8, &[0xED, 0x95, 0x9C], 0xD55C)?;
    both_ways(&rt, &Utf8, &[0xEA, 0xB5, 0xAD], 0xAD6D)?;
    both_ways(&rt, &Utf8, &[0xEC, 0x96, 0xB4], 0xC5B4)?;
    both_ways(&rt, &Utf8, &[0xE6, 0x97, 0xA5], 0x65E5)?;
    both_ways(&rt, &Utf8, &[0xE6, 0x9C, 0xAC], 0x672C)?;
    both_ways(&rt, &Utf8, &[0xE8, 0xAA, 0x9E], 0x8A9E)?;
    both_ways(&rt, &Utf8, &[0xF0, 0xA3, 0x8E, 0xB4], 0x233B4)?;
    both_ways(&rt, &Utf8, &[0x00], 0)?;
    both_ways(&rt, &Utf8, &[0xEF, 0xBB, 0xBF], 0xFEFF)?;
    both_ways(&rt, &Utf8, &[0xEF, 0xBF, 0xBF], 0xFFFF)?;
    both_ways(&rt, &Utf8, &[0xF4, 0x8F, 0xBF, 0xBF], 0x10FFFF)
}

#[test]
fn utf8_refusals(rt: HostRuntime) {
    refused(&rt, &Utf8, &[0x80], 33);
    refused(&rt, &Utf8, &[0xC0, 0x80], 33);
    refused(&rt, &Utf8, &[0xC1], 33);
    refused(&rt, &Utf8, &[0xC3, 0x41], 33);
    refused(&rt, &Utf8, &[0xE0, 0x9F], 33);
    refused(&rt, &Utf8, &[0xED, 0xA0, 0x80], 33);
    refused(&rt, &Utf8, &[0xF0, 0x8F], 33);
    refused(&rt, &Utf8, &[0xF4, 0x90], 33);
    refused(&rt, &Utf8, &[0xF5], 33);
    opens(&rt, &Utf8, &[0xF4, 0x8F, 0xBF]);
    writes_nothing(&rt, &Utf8, 0xD800, 38, 0);
    writes_nothing(&rt, &Utf8, 0xDFFF, 38, 0);
    writes_nothing(&rt, &Utf8, 0x110000, 38, 0);
}

#[test]
fn iso6937_pairs(rt: HostRuntime) -> Result<(), Fail> {
    both_ways(&rt, &Iso6937, &[0xC2, b'g'], 0x123)?;
    both_ways(&rt, &Iso6937, &[0xCB, b's'], 0x15F)?;
    both_ways(&rt, &Iso6937, &[0xE2], 0x110)?;
    both_ways(&rt, &Iso6937, &[0xD0], 0x2015)?;
    refused(&rt, &Iso6937, &[0xC2, b'b'], 32);
    refused(&rt, &Iso6937, &[0xCB, b'g'], 32);
    refused(&rt, &Iso6937, &[0xC7, b'i'], 32);
    refused(&rt, &Iso6937, &[0xC2, 0xF5], 32);
    refused(&rt, &Iso6937, &[0xC1, b' '], 32);
    refused(&rt, &Iso6937, &[0xC9, b'a'], 31);
    refused(&rt, &Iso6937, &[0x0A], 31);
    writes_nothing(&rt, &Iso6937, 0x219, 38, 0);
    Ok(())
}

#[test]
fn single_bytes(rt: HostRuntime) -> Result<(), Fail> {
    let romanian = SingleByte::iso8859_16();
    both_ways(&rt, &romanian, &[0xAA], 0x218)?;
    both_ways(&rt, &romanian, &[0xDE], 0x21A)?;
    both_ways(&rt, &romanian, &[0xA4], 0x20AC)?;
    refused(&rt, &romanian, &[0x9F], 31);
    writes_nothing(&rt, &romanian, 0x15E, 38, 0);
    writes_nothing(&rt, &romanian, 0x15F, 38, 0);
    opens(&rt, &romanian, &[]);
    let sami = SingleByte::sami();
    both_ways(&rt, &sami, &[0xAF], 0x14A)?;
    refused(&rt, &sami, &[0x82], 31);
    writes_nothing(&rt, &sami, 0, 38, 0);
    Ok(())
}
