//! Rolls: every refusal at its edge, all eight forms, and what is written of a roll.
use report::report;
use roll::{Builder, PackRefusal, Roll, RollRefusal};
use std::process::Abort;
use std::test::Fail;

fn writes(rt: &(impl Abort + AllocGlobal), input: &[u8], output: &[u8]) -> Result<(), Fail> {
    let out = report(rt.alloc(), input)?;
    assert!(rt; out.as_slice() == output);
    Ok(())
}

// The roll of one page.
fn packed(rt: &(impl Abort + AllocGlobal), form: u8, page: &[u8]) -> Result<Vec<u8>, Fail> {
    let builder = Builder::new(rt.alloc()).with_page(form, page)?;
    Ok(builder.finish()?)
}

fn shows(
    rt: &(impl Abort + AllocGlobal),
    form: u8,
    page: &[u8],
    output: &[u8],
) -> Result<(), Fail> {
    let roll = packed(rt, form, page)?;
    writes(rt, &roll, output)
}

// The answer where a roll is refused; a roll that is not has no such answer.
fn refused(input: &[u8]) -> Option<RollRefusal> {
    Roll::open(input).err()
}

#[test]
fn sample(rt: HostRuntime) -> Result<(), Fail> {
    let builder = Builder::new(rt.alloc()).with_page(1, b"\xC2e\n")?;
    let roll = builder.with_page(2, b"\x19\x42")?.finish()?;
    assert_eq!(rt; roll.len(), 45);
    writes(&rt, &roll, b"\xC3\xA9\n\n1 1 2 ok\n\n2 2 0 9@0\n")
}

#[test]
fn forms(rt: HostRuntime) -> Result<(), Fail> {
    shows(&rt, 0, b"\xFF\xFF", b"\n1 0 0 ok\n")?;
    shows(&rt, 1, b"\xC2e\t\xC2b", b"\xC3\xA9\t\n1 1 2 6@3\n")?;
    shows(&rt, 2, b"\x19\x42e\x0D", b"\xC3\xA9\x0D\n1 2 2 ok\n")?;
    shows(&rt, 3, b"\x99\x42\x65\x8D", b"\xC3\xA9\x0D\n1 3 2 ok\n")?;
    shows(&rt, 4, b"\xA4\x0C", b"\xE2\x82\xAC\x0C\n1 4 2 ok\n")?;
    shows(&rt, 5, b"\xA1\n", b"\xC4\x8C\n\n1 5 2 ok\n")?;
    shows(&rt, 6, b"\xE2\x82\xAC", b"\xE2\x82\xAC\n1 6 1 ok\n")?;
    shows(&rt, 7, b"a=b\xC2e", b"a=b\n1 7 3 6@3\n")
}

// Pages of ISO/IEC 6937, read to their end and not.
#[test]
fn page_ends(rt: HostRuntime) -> Result<(), Fail> {
    shows(&rt, 1, b"\xC2e\xCAA", b"\xC3\xA9\xC3\x85\n1 1 2 ok\n")?;
    shows(
        &rt,
        1,
        b"\xD5\xE0 \xC5 ",
        b"\xE2\x99\xAA\xE2\x84\xA6 \xC2\xAF\n1 1 4 ok\n",
    )?;
    shows(&rt, 1, b"ab\xC2b", b"ab\n1 1 2 6@2\n")?;
    shows(&rt, 1, b"\xC2e\x0Bx", b"\xC3\xA9\n1 1 1 6@2\n")?;
    shows(&rt, 1, b"Antoni\xC2", b"Antoni\n1 1 6 9@6\n")
}

// All forms in one roll.
#[test]
fn eight_forms(rt: HostRuntime) -> Result<(), Fail> {
    let builder = Builder::new(rt.alloc()).with_page(0, b"\xFF")?;
    let builder = builder.with_page(1, b"\xC2e")?.with_page(2, b"\x19\x42e")?;
    let builder = builder
        .with_page(3, b"\x99\x42\x65")?
        .with_page(4, b"\xE9")?;
    let builder = builder.with_page(5, b"\xE9")?.with_page(6, b"\xC3\xA9")?;
    let roll = builder.with_page(7, b"e")?.finish()?;
    let expected = b"\n1 0 0 ok\n\xC3\xA9\n2 1 1 ok\n\xC3\xA9\n3 2 1 ok\n\xC3\xA9\n4 3 1 ok\n\
          \xC3\xA9\n5 4 1 ok\n\xC3\xA9\n6 5 1 ok\n\xC3\xA9\n7 6 1 ok\ne\n8 7 1 ok\n";
    writes(&rt, &roll, expected)
}

// The longest roll that `report` reads, and the last entry of two broken.
#[test]
fn longest_and_last(rt: HostRuntime) -> Result<(), Fail> {
    let page = vec![in rt.alloc(); b'a'; 65_508]?;
    let mut roll = packed(&rt, 1, &page)?;
    assert!(rt; roll.len() == 65_536);
    let out = report(rt.alloc(), &roll)?;
    assert!(rt; out.len() == 65_522);
    roll.push(0)?;
    writes(&rt, &roll, b"14\n")?;
    let builder = Builder::new(rt.alloc()).with_page(0, b"a")?;
    let mut two = builder.with_page(0, b"b")?.finish()?;
    assert!(rt; two.len() == 42);
    assert_eq!(rt; refused(&two), None);
    two[21] = 2;
    assert_eq!(rt; refused(&two), Some(RollRefusal::BadEntry(2)));
    Ok(())
}

#[test]
fn no_pages_and_empty_pages(rt: HostRuntime) -> Result<(), Fail> {
    writes(&rt, b"\0\0\0\0\0\0\0\0\0\0\0\0ROLL", b"")?;
    shows(&rt, 1, b"", b"\n1 1 0 ok\n")
}

#[test]
fn sizes_and_mark(rt: HostRuntime) -> Result<(), Fail> {
    assert_eq!(rt;
        refused(b"\0\0\0\0\0\0\0\0\0\0\0ROLL"),
        Some(RollRefusal::WrongSize)
    );
    assert_eq!(rt; refused(b"\0\0\0\0\0\0\0\0\0\0\0\0ROLL"), None);
    assert_eq!(rt;
        refused(b"\0\0\0\0\0\0\0\0\0\0\0\0ROLK"),
        Some(RollRefusal::NoMark)
    );
    let long = vec![in rt.alloc(); 0u8; 1_048_577]?;
    assert!(rt; long.len() == 1_048_577);
    assert_eq!(rt; refused(&long), Some(RollRefusal::WrongSize));
    assert_eq!(rt; refused(&long[1..]), Some(RollRefusal::NoMark));
    writes(&rt, &long[0..65_536], b"15\n")?;
    writes(&rt, &long[0..65_537], b"14\n")
}

#[test]
fn index_and_entries(rt: HostRuntime) -> Result<(), Fail> {
    // An index offset that does not fit, and none where there are no pages.
    assert_eq!(rt;
        refused(b"\0\0\0\x01\0\0\0\0\0\0\0\0ROLL"),
        Some(RollRefusal::WrongIndex)
    );
    assert_eq!(rt;
        refused(b"a\0\0\0\x01\0\0\0\0\0\0\0\0ROLL"),
        Some(RollRefusal::BadEntry(0))
    );
    assert_eq!(rt;
        refused(b"\0\0\0\0\0\0\0\0\0\0\0\x01ROLL"),
        Some(RollRefusal::WrongTotal)
    );
    // One page: `a`, then its entry, then the trailer.
    assert_eq!(rt;
        refused(b"a\0\0\0\0\0\0\0\x01\x01\0\0\0\0\0\0\x01\0\0\0\x01\0\0\0\x01ROLL"),
        None
    );
    assert_eq!(rt;
        refused(b"a\0\0\0\x01\0\0\0\x01\x01\0\0\0\0\0\0\x01\0\0\0\x01\0\0\0\x01ROLL"),
        Some(RollRefusal::BadEntry(1))
    );
    assert_eq!(rt;
        refused(b"a\0\0\0\0\0\0\0\x02\x01\0\0\0\0\0\0\x01\0\0\0\x01\0\0\0\x01ROLL"),
        Some(RollRefusal::BadEntry(1))
    );
    assert_eq!(rt;
        refused(b"a\0\0\0\0\0\0\0\x01\x08\0\0\0\0\0\0\x01\0\0\0\x01\0\0\0\x01ROLL"),
        Some(RollRefusal::BadEntry(1))
    );
    assert_eq!(rt;
        refused(b"a\0\0\0\0\0\0\0\x01\x01\0\0\x01\0\0\0\x01\0\0\0\x01\0\0\0\x01ROLL"),
        Some(RollRefusal::BadEntry(1))
    );
    assert_eq!(rt;
        refused(b"a\0\0\0\0\0\0\0\x01\x01\0\0\0\0\0\0\x01\0\0\0\x01\0\0\0\x02ROLL"),
        Some(RollRefusal::WrongTotal)
    );
    writes(
        &rt,
        b"a\0\0\0\0\0\0\0\x01\x08\0\0\0\0\0\0\x01\0\0\0\x01\0\0\0\x01ROLL",
        b"17\n",
    )
}

#[test]
fn pages_by_number(rt: HostRuntime) -> Result<(), Fail> {
    let bytes = b"a\0\0\0\0\0\0\0\x01\x01\0\0\0\0\0\0\x01\0\0\0\x01\0\0\0\x01ROLL";
    let roll = Roll::open(bytes).map_err(|_| Fail::new("refused"))?;
    assert_eq!(rt; roll.count(), 1);
    assert!(rt; roll.page(0).is_err());
    assert!(rt; roll.page(1).is_ok());
    assert!(rt; roll.page(2).is_err());
    assert_eq!(rt; roll.pages().count(), 1);
    Ok(())
}

// 1,024 pages are a roll, and one more is not.
#[test]
fn most_pages(rt: HostRuntime) -> Result<(), Fail> {
    let mut builder = Builder::new(rt.alloc());
    for _ in 0..1_024u32 {
        builder = builder.with_page(0, b"")?;
    }
    let roll = builder.finish()?;
    assert_eq!(rt; roll.len(), 12_304);
    assert_eq!(rt; refused(&roll), None);
    // A count of 1,025 with an index of that length.
    let mut more = vec![in rt.alloc(); 0u8; 12_316]?;
    assert!(rt; more.len() == 12_316);
    more[12_306] = 4;
    more[12_307] = 1;
    more[12_312..].copy_from_slice(b"ROLL");
    assert_eq!(rt; refused(&more), Some(RollRefusal::WrongIndex));
    Ok(())
}

// What a roll cannot hold.
#[test]
fn no_room(rt: HostRuntime) -> Result<(), Fail> {
    let Err(form) = Builder::new(rt.alloc()).with_page(8, b"") else {
        return Err(Fail::new("form 8 was packed"));
    };
    assert_eq!(rt; form, PackRefusal::FormTooHigh);
    let page = vec![in rt.alloc(); 0u8; 1_048_549]?;
    assert!(rt; page.len() == 1_048_549);
    let Err(long) = Builder::new(rt.alloc()).with_page(0, &page) else {
        return Err(Fail::new("a page that is too long was packed"));
    };
    assert_eq!(rt; long, PackRefusal::TooLong);
    let roll = packed(&rt, 0, &page[1..])?;
    assert!(rt; roll.len() == 1_048_576);
    assert_eq!(rt; refused(&roll), None);
    Ok(())
}

// A pair that the end of a sector cuts.
#[test]
fn pair_over_sectors(rt: HostRuntime) -> Result<(), Fail> {
    let mut page = vec![in rt.alloc(); b'a'; 4_095]?;
    page.extend_from_slice(b"\xC2e")?;
    let roll = packed(&rt, 1, &page)?;
    let out = report(rt.alloc(), &roll)?;
    assert!(rt; out.len() == 4_110);
    assert!(rt; out[4_094] == b'a' && out[4_095] == 0xC3 && out[4_096] == 0xA9);
    Ok(())
}
