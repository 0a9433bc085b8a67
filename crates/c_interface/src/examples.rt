//! The calls as a client makes them: what each refuses, and that a refused call changes nothing.
use crate::{
    StatusRecord, TranscriptRecord, finetalc_close, finetalc_offer, finetalc_open, finetalc_start,
    finetalc_status,
};
use std::alloc::Global;
use std::test::*;
use transcript::Told;

const ISO6937: u32 = 1;

const LATIN10: u32 = 4;

const UTF8: u32 = 6;

const BASIC: u32 = 7;

fn alone(number: u8) -> Told {
    Told {
        number,
        ..Told::default()
    }
}

fn done(taken: usize, written: usize) -> Told {
    Told {
        taken,
        written,
        ..Told::default()
    }
}

fn opened(source: u32, target: u32) -> TranscriptRecord {
    let mut transcript = TranscriptRecord::default();
    finetalc_open(source, target, &mut transcript, &mut Told::default());
    transcript
}

#[test]
fn a_pair_over_two_sectors(rt: HostRuntime) -> Result<(), Fail> {
    let mut transcript = TranscriptRecord::default();
    let mut status = StatusRecord::default();
    let mut answer = Told::default();
    let mut output = [0u8; 4];
    assert!(rt; finetalc_open(ISO6937, UTF8, &mut transcript, &mut answer));
    assert!(rt;
        finetalc_offer(
            rt.alloc(),
            &mut transcript,
            b"a\xC2",
            &mut output,
            &mut answer
        )
    );
    assert_eq!(rt; answer, done(2, 1));
    assert!(rt; finetalc_status(&transcript, &mut status, &mut answer));
    assert!(rt; status.taken == 2 && status.characters == 1 && status.written == 1);
    assert!(rt; status.held == 1 && status.state == 0);
    assert!(rt; finetalc_offer(rt.alloc(), &mut transcript, b"e", &mut output, &mut answer));
    assert_eq!(rt; answer, done(1, 2));
    assert!(rt; output[0] == 0xC3 && output[1] == 0xA9 && output[2] == 0);
    assert!(rt; finetalc_close(rt.alloc(), &mut transcript, &mut answer));
    assert_eq!(rt; answer, done(0, 0));
    assert!(rt; finetalc_status(&transcript, &mut status, &mut answer));
    assert!(rt; status.taken == 3 && status.characters == 2 && status.written == 3);
    assert!(rt; status.held == 0 && status.state == 2);
    Ok(())
}

#[test]
fn a_fault_stands_until_the_start(rt: HostRuntime) -> Result<(), Fail> {
    let mut transcript = opened(ISO6937, LATIN10);
    let mut answer = Told::default();
    let mut output = [0u8; 8];
    let fault = Told {
        offset: 1,
        taken: 1,
        written: 1,
        character: 0x15F,
        cause: 38,
        depth: 1,
        ..alone(7)
    };
    assert!(rt;
        !finetalc_offer(
            rt.alloc(),
            &mut transcript,
            b"A\xCBs",
            &mut output,
            &mut answer
        )
    );
    assert_eq!(rt; answer, fault);
    assert_eq!(rt; transcript.status.fault, fault);
    let standing = Told {
        number: 4,
        standing: 7,
        ..fault
    };
    let faulted = transcript;
    assert!(rt; !finetalc_offer(rt.alloc(), &mut transcript, b"A", &mut output, &mut answer));
    assert_eq!(rt; answer, standing);
    assert!(rt; !finetalc_close(rt.alloc(), &mut transcript, &mut answer));
    assert_eq!(rt; answer, standing);
    assert_eq!(rt; transcript, faulted);
    assert!(rt; finetalc_start(&mut transcript, &mut answer));
    assert_eq!(rt; transcript, opened(ISO6937, LATIN10));
    Ok(())
}

#[test]
fn bytes_held_at_the_close(rt: HostRuntime) -> Result<(), Fail> {
    let mut transcript = opened(ISO6937, UTF8);
    let mut answer = Told::default();
    let mut output = [0u8; 8];
    assert!(rt;
        finetalc_offer(
            rt.alloc(),
            &mut transcript,
            b"ab\xC2",
            &mut output,
            &mut answer
        )
    );
    assert!(rt; !finetalc_close(rt.alloc(), &mut transcript, &mut answer));
    let unfinished = Told {
        offset: 2,
        ..alone(9)
    };
    assert_eq!(rt; answer, unfinished);
    assert!(rt; transcript.status.state == 1 && transcript.status.held == 1);
    Ok(())
}

#[test]
fn an_output_that_is_full(rt: HostRuntime) -> Result<(), Fail> {
    let mut transcript = opened(ISO6937, UTF8);
    let mut answer = Told::default();
    let mut output = [0u8; 2];
    assert!(rt;
        !finetalc_offer(
            rt.alloc(),
            &mut transcript,
            b"abc",
            &mut output,
            &mut answer
        )
    );
    assert_eq!(rt;
        answer,
        Told {
            taken: 2,
            written: 2,
            ..alone(8)
        }
    );
    assert!(rt; finetalc_offer(rt.alloc(), &mut transcript, b"c", &mut output, &mut answer));
    assert_eq!(rt; answer, done(1, 1));
    Ok(())
}

#[test]
fn no_form_of_that_number(rt: HostRuntime) -> Result<(), Fail> {
    let mut transcript = opened(ISO6937, UTF8);
    let mut answer = Told::default();
    for (source, target) in [
        (0, UTF8),
        (8, UTF8),
        (ISO6937, 0),
        (257, UTF8),
        (ISO6937, u32::MAX),
    ] {
        assert!(rt; !finetalc_open(source, target, &mut transcript, &mut answer));
        assert_eq!(rt; answer, alone(101));
        assert_eq!(rt; transcript, opened(ISO6937, UTF8));
    }
    Ok(())
}

// Whether every call refuses the record as one that keeps no transcript, and changes nothing.
fn keeps_none(heap: Global, kept: TranscriptRecord) -> bool {
    let mut transcript = kept;
    let mut status = StatusRecord::default();
    let mut output = [7u8; 1];
    let none = alone(102);
    let mut empty = Told::default();
    let mut offered = Told::default();
    let mut closed = Told::default();
    let mut started = Told::default();
    let mut told = Told::default();
    let succeeded = finetalc_offer(heap, &mut transcript, b"", &mut output, &mut empty)
        || finetalc_offer(heap, &mut transcript, b"a", &mut output, &mut offered)
        || finetalc_close(heap, &mut transcript, &mut closed)
        || finetalc_start(&mut transcript, &mut started)
        || finetalc_status(&transcript, &mut status, &mut told);
    !succeeded
        && [empty, offered, closed, started, told] == [none; 5]
        && transcript == kept
        && status == StatusRecord::default()
        && output[0] == 7
}

// None is the record of a transcript, though each is nearly that of an opened one.
#[test]
fn numbers_of_no_transcript(rt: HostRuntime) -> Result<(), Fail> {
    let fresh = opened(ISO6937, BASIC);
    let status = fresh.status;
    let wrong = [
        TranscriptRecord::default(),
        TranscriptRecord { source: 8, ..fresh },
        TranscriptRecord { target: 0, ..fresh },
        TranscriptRecord {
            bytes: [0, 0, 0, 1],
            ..fresh
        },
        TranscriptRecord {
            status: StatusRecord { state: 3, ..status },
            ..fresh
        },
        TranscriptRecord {
            status: StatusRecord { state: 1, ..status },
            ..fresh
        },
        TranscriptRecord {
            status: StatusRecord {
                fault: alone(6),
                ..status
            },
            ..fresh
        },
        TranscriptRecord {
            status: StatusRecord { held: 1, ..status },
            ..fresh
        },
        TranscriptRecord {
            status: StatusRecord {
                characters: 1,
                ..status
            },
            ..fresh
        },
        TranscriptRecord {
            status: StatusRecord {
                written: 1,
                ..status
            },
            ..fresh
        },
        TranscriptRecord {
            status: StatusRecord {
                taken: 4_294_967_297,
                ..status
            },
            ..fresh
        },
    ];
    for kept in wrong {
        assert!(rt; keeps_none(rt.alloc(), kept));
    }
    let mut answer = Told::default();
    let mut output = [7u8; 2];
    assert!(rt;
        finetalc_offer(
            rt.alloc(),
            &mut opened(ISO6937, BASIC),
            b"a",
            &mut output,
            &mut answer
        )
    );
    Ok(())
}

// The held bytes must be an opening of the source set: none has four bytes.
#[test]
fn held_bytes_that_open_nothing(rt: HostRuntime) -> Result<(), Fail> {
    for source in [ISO6937, LATIN10, UTF8, BASIC] {
        let fresh = opened(source, UTF8);
        let four = StatusRecord {
            taken: 4,
            held: 4,
            ..fresh.status
        };
        let one = StatusRecord {
            taken: 1,
            held: 1,
            ..fresh.status
        };
        for (status, bytes) in [(four, *b"abcd"), (one, *b"a\0\0\0")] {
            let kept = TranscriptRecord {
                status,
                bytes,
                ..fresh
            };
            assert!(rt; keeps_none(rt.alloc(), kept));
        }
    }
    Ok(())
}

// A list changes no openings: where a form has one, its set is not wanted to know them.
#[test]
fn held_bytes_of_the_listed_form(rt: HostRuntime) -> Result<(), Fail> {
    let fresh = opened(BASIC, UTF8);
    let status = StatusRecord {
        taken: 1,
        held: 1,
        ..fresh.status
    };
    let mut transcript = TranscriptRecord {
        status,
        bytes: *b"\xC2\0\0\0",
        ..fresh
    };
    let mut told = StatusRecord::default();
    let mut answer = Told::default();
    assert!(rt; finetalc_status(&transcript, &mut told, &mut answer));
    assert!(rt; told == status);
    assert!(rt; finetalc_start(&mut transcript, &mut answer));
    assert_eq!(rt; transcript, fresh);
    Ok(())
}

// Faults that no transcript meets: a closing that took or wrote something, a character beyond
// U+10FFFF, and what is no fault.
#[test]
fn faults_that_cannot_stand(rt: HostRuntime) -> Result<(), Fail> {
    let fresh = opened(ISO6937, LATIN10);
    let unfinished = alone(9);
    let unwritten = Told {
        character: 0x10FFFF,
        cause: 255,
        depth: 255,
        ..alone(7)
    };
    let wrong = [
        Told {
            taken: 1,
            ..unfinished
        },
        Told {
            written: 1,
            ..unfinished
        },
        Told {
            character: 0x110000,
            ..unwritten
        },
        Told {
            character: u32::MAX,
            ..unwritten
        },
        alone(8),
    ];
    for fault in wrong {
        let status = StatusRecord {
            fault,
            state: 1,
            ..fresh.status
        };
        assert!(rt; keeps_none(rt.alloc(), TranscriptRecord { status, ..fresh }));
    }
    for fault in [unfinished, unwritten] {
        let status = StatusRecord {
            fault,
            state: 1,
            ..fresh.status
        };
        let kept = TranscriptRecord { status, ..fresh };
        let mut told = StatusRecord::default();
        assert!(rt; finetalc_status(&kept, &mut told, &mut Told::default()));
        assert!(rt; told == status);
    }
    Ok(())
}
