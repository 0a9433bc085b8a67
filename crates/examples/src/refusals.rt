//! Which pages of a roll are refused, and the words for it.
use charset::SetRefusal;
use conversion::Fault;
use report::{FaultWords, RollFault, RollWords, refused_pages};
use roll::{Builder, Form, RollRefusal};
use std::process::Abort;
use std::test::Fail;
use transcript::{Done, FaultAt};

// The faults of the pages of a roll, each by its page, number, offset and cause.
#[test]
fn pages_refused(rt: HostRuntime) -> Result<(), Fail> {
    let builder = Builder::new(rt.alloc()).with_page(1, b"Ren\xC2e")?;
    let builder = builder.with_page(2, b"x\x19\x42b")?.with_page(0, b"\xFF")?;
    let roll = builder.with_page(1, b"\xC2")?.finish()?;
    let faults = refused_pages(rt.alloc(), &roll)?;
    assert_eq!(rt; faults.len(), 2);
    let (first, second) = (faults[0].told(), faults[1].told());
    assert_eq!(rt; (first.page, first.told.number), (2, 6));
    assert_eq!(rt; (first.told.offset, first.told.cause), (1, 32));
    assert_eq!(rt; (second.page, second.told.number), (4, 9));
    assert_eq!(rt; (second.told.offset, second.told.cause), (0, 0));
    Ok(())
}

#[test]
fn roll_refused(rt: HostRuntime) -> Result<(), Fail> {
    let faults = refused_pages(rt.alloc(), b"0000000000000000")?;
    let no_mark = [RollFault::Refused(RollRefusal::NoMark)];
    assert!(rt; faults.as_slice() == no_mark.as_slice());
    Ok(())
}

// The fault of the one page of a roll.
fn fault_of(rt: &(impl Abort + AllocGlobal), form: u8, page: &[u8]) -> Result<FaultAt, Fail> {
    let roll = Builder::new(rt.alloc()).with_page(form, page)?.finish()?;
    match refused_pages(rt.alloc(), &roll)?.as_slice() {
        [RollFault::Faulted { page: 1, fault }] => Ok(*fault),
        _ => Err("one page refused")?,
    }
}

fn says(rt: &(impl Abort + AllocGlobal), form: Form, page: &[u8], said: &str) -> Result<(), Fail> {
    let fault = fault_of(rt, u8::from(form), page)?;
    let words = FaultWords::new(form, Form::Unicode, page, fault);
    let words = format!(in rt.alloc(); "{words}")?;
    assert!(rt; words.as_str() == said, "{words}");
    Ok(())
}

#[test]
fn causes_in_words(rt: HostRuntime) -> Result<(), Fail> {
    says(
        &rt,
        Form::EightBit,
        b"a\xE5b",
        "offset 1: E5: \
        the first byte is no position in use (refusal 6, cause 31, depth 1)",
    )?;
    says(
        &rt,
        Form::EightBit,
        b"\xCAb",
        "offset 0: CA 62: \
        ring above before a byte with which it makes no pair (refusal 6, cause 32, depth 1)",
    )?;
    says(
        &rt,
        Form::SevenBit,
        b"\x19\x42b",
        "offset 0: 19 42 62: \
        acute before a byte with which it makes no pair (refusal 6, cause 32, depth 2)",
    )?;
    says(
        &rt,
        Form::Unicode,
        b"\xE2\x82e",
        "offset 0: E2 82 65: \
        the bytes begin no UTF-8 character (refusal 6, cause 33, depth 0)",
    )?;
    says(
        &rt,
        Form::SevenBitParity,
        b"\x19",
        "offset 0: 19: \
        a byte with an odd number of ones (refusal 6, cause 34, depth 0)",
    )?;
    says(
        &rt,
        Form::SevenBit,
        b"\x19\x19",
        "offset 0: 19 19: \
        a byte from 80 up, or 19 before anything but 20 to 7F (refusal 6, cause 35, depth 1)",
    )?;
    says(
        &rt,
        Form::Basic,
        b"\xC2e",
        "offset 0: C2 65: \
        a character that is not on the list (refusal 6, cause 37, depth 1)",
    )?;
    says(
        &rt,
        Form::EightBit,
        b"Antoni\xC2",
        "offset 6: C2: \
        bytes at the very end that wait for more (refusal 9)",
    )
}

// What is said where form 7 cannot take a character, for this cause.
fn says_unwritten(
    rt: &(impl Abort + AllocGlobal),
    character: u32,
    page: &[u8],
    refusal: SetRefusal,
    said: &str,
) -> Result<(), Fail> {
    let at = FaultAt {
        fault: Fault::Unwritten { character, refusal },
        offset: 1,
        done: Done::default(),
    };
    let words = FaultWords::new(Form::Unicode, Form::Basic, page, at);
    let words = format!(in rt.alloc(); "{words}")?;
    assert!(rt; words.as_str() == said, "{words}");
    Ok(())
}

#[test]
fn causes_of_writing_in_words(rt: HostRuntime) -> Result<(), Fail> {
    says_unwritten(
        &rt,
        0xE9,
        b"a\xC3\xA9",
        SetRefusal {
            cause: 34,
            depth: 0,
        },
        "offset 1: C3 A9: U+00E9 has no coding in iso6937-basic: \
        its coding below has a byte from 80 up, to which parity cannot be added \
        (refusal 7, cause 34, depth 0)",
    )?;
    says_unwritten(
        &rt,
        0x80,
        b"a\xC2\x80",
        SetRefusal {
            cause: 35,
            depth: 1,
        },
        "offset 1: C2 80: U+0080 has no coding in iso6937-basic: \
        its coding below has a byte 19, or one from 80 to 9F, which cannot be shifted \
        (refusal 7, cause 35, depth 1)",
    )?;
    says_unwritten(
        &rt,
        0x820,
        b"a\xE0\xA0\xA0",
        SetRefusal {
            cause: 36,
            depth: 2,
        },
        "offset 1: E0 A0 A0: U+0820 has no coding in iso6937-basic: \
        its coding below is over four bytes once it is shifted (refusal 7, cause 36, depth 2)",
    )?;
    says_unwritten(
        &rt,
        0xE9,
        b"a\xC3\xA9",
        SetRefusal {
            cause: 37,
            depth: 1,
        },
        "offset 1: C3 A9: U+00E9 has no coding in iso6937-basic: \
        it is not on the list (refusal 7, cause 37, depth 1)",
    )?;
    says_unwritten(
        &rt,
        0x219,
        b"a\xC8\x99",
        SetRefusal {
            cause: 38,
            depth: 2,
        },
        "offset 1: C8 99: U+0219 has no coding in iso6937-basic: \
        the set does not have it (refusal 7, cause 38, depth 2)",
    )
}

#[test]
fn roll_in_words(rt: HostRuntime) -> Result<(), Fail> {
    let words = format!(in rt.alloc(); "{}", RollWords(RollRefusal::BadEntry(3)))?;
    assert!(rt; words.as_str() == "entry 3 breaks a rule (refusal 17)");
    Ok(())
}
