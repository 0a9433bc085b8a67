//! Transcripts between the sets of this repository: every refusal but 3 from every state, and the
//! edges of an offer.
use charset::{Front, SetRefusal};
use conversion::Fault;
use sets::{Iso6937, SingleByte, Utf8};
use std::test::*;
use transcript::{Done, FaultAt, Progress, Refusal, State, Status, Transcript};

fn done(taken: usize, written: usize) -> Done {
    Done { taken, written }
}

fn at(fault: Fault, offset: u64, done: Done) -> FaultAt {
    FaultAt {
        fault,
        offset,
        done,
    }
}

fn unread(cause: u8, depth: u8) -> Fault {
    Fault::Unread(SetRefusal { cause, depth })
}

fn unwritten(character: u32, cause: u8, depth: u8) -> Fault {
    let refusal = SetRefusal { cause, depth };
    Fault::Unwritten { character, refusal }
}

fn status(taken: u64, characters: u64, written: u64, held: usize, state: State) -> Status {
    Status {
        taken,
        characters,
        written,
        held,
        state,
    }
}

#[test]
fn a_pair_over_two_sectors(rt: HostRuntime) -> Result<(), Fail> {
    let mut transcript = Transcript::new(Iso6937, SingleByte::iso8859_16());
    let mut output = [0u8; 2];
    assert_eq!(rt; transcript.offer(b"\xC2", &mut output), Ok(done(1, 0)));
    assert_eq!(rt; transcript.status(), status(1, 0, 0, 1, State::Open));
    assert_eq!(rt; transcript.offer(b"e", &mut output), Ok(done(1, 1)));
    assert!(rt; output[0] == 0xE9 && output[1] == 0);
    assert_eq!(rt; transcript.close(), Ok(()));
    assert_eq!(rt; transcript.status(), status(2, 1, 1, 0, State::Closed));
    Ok(())
}

#[test]
fn put_down_and_taken_up(rt: HostRuntime) -> Result<(), Fail> {
    let mut first = Transcript::new(Iso6937, Utf8);
    let mut output = [0u8; 2];
    assert_eq!(rt; first.offer(b"a\xC2", &mut output), Ok(done(2, 1)));
    let progress = first.progress();
    let mut second = Transcript::resume(Iso6937, Utf8, progress).ok_or("not open")?;
    assert_eq!(rt; second.status(), status(2, 1, 1, 1, State::Open));
    assert_eq!(rt; second.offer(b"e", &mut output), Ok(done(1, 2)));
    assert!(rt; output[0] == 0xC3 && output[1] == 0xA9);
    assert_eq!(rt; second.status(), status(3, 2, 3, 0, State::Open));
    // From what was told and held; and where the counts cannot be those of a transcript.
    let held = progress.held();
    assert!(rt; Progress::of(status(2, 1, 1, 1, State::Open), held).is_some());
    assert!(rt; Progress::of(status(2, 1, 1, 0, State::Open), held).is_none());
    assert!(rt; Progress::of(status(2, 2, 2, 1, State::Open), held).is_none());
    assert!(rt; Progress::of(status(6, 1, 1, 1, State::Open), held).is_none());
    assert!(rt; Progress::of(status(2, 1, 0, 1, State::Open), held).is_none());
    assert!(rt; Progress::of(status(2, 1, 5, 1, State::Open), held).is_none());
    // Nor where the source set does not read the held bytes as open.
    let letters = Front::empty().followed_by(b"abcd");
    let passed = Progress::of(status(4, 0, 0, 4, State::Open), letters).ok_or("counts")?;
    assert!(rt; Transcript::resume(Iso6937, Utf8, passed).is_none());
    Ok(())
}

#[test]
fn no_target_coding(rt: HostRuntime) -> Result<(), Fail> {
    let mut transcript = Transcript::new(Iso6937, SingleByte::iso8859_16());
    let mut output = [0u8; 8];
    let fault = at(unwritten(0x15F, 38, 0), 1, done(1, 1));
    assert_eq!(rt;
        transcript.offer(b"A\xCBs", &mut output),
        Err(Refusal::Faulted(fault))
    );
    assert!(rt; output[0] == 0x41 && output[1] == 0);
    assert_eq!(rt;
        transcript.status(),
        status(1, 1, 1, 0, State::Faulted(fault))
    );
    Ok(())
}

#[test]
fn closing_with_bytes_held(rt: HostRuntime) -> Result<(), Fail> {
    let mut transcript = Transcript::new(Iso6937, SingleByte::iso8859_16());
    let mut output = [0u8; 8];
    assert_eq!(rt; transcript.offer(b"\xC2", &mut output), Ok(done(1, 0)));
    let fault = at(Fault::Unfinished, 0, done(0, 0));
    assert_eq!(rt; transcript.close(), Err(Refusal::Faulted(fault)));
    assert_eq!(rt;
        transcript.status(),
        status(1, 0, 0, 1, State::Faulted(fault))
    );
    Ok(())
}

// The fault points at the diacritic, which came in the sector before.
#[test]
fn a_fault_over_two_sectors(rt: HostRuntime) -> Result<(), Fail> {
    let mut transcript = Transcript::new(Iso6937, Utf8);
    let mut output = [0u8; 8];
    assert_eq!(rt; transcript.offer(b"ab\xC2", &mut output), Ok(done(3, 2)));
    let fault = at(unread(32, 0), 2, done(0, 0));
    assert_eq!(rt;
        transcript.offer(b"b", &mut output),
        Err(Refusal::Faulted(fault))
    );
    assert_eq!(rt;
        transcript.status(),
        status(3, 2, 2, 1, State::Faulted(fault))
    );
    Ok(())
}

#[test]
fn a_full_output_and_the_rest_again(rt: HostRuntime) -> Result<(), Fail> {
    let mut transcript = Transcript::new(Iso6937, Utf8);
    let mut none = [0u8; 0];
    let mut one = [0u8; 1];
    let mut output = [0u8; 3];
    assert_eq!(rt; transcript.offer(b"\xC2", &mut none), Ok(done(1, 0)));
    // With bytes held and no character written, they stay held.
    assert_eq!(rt;
        transcript.offer(b"eab", &mut one),
        Err(Refusal::Full(done(0, 0)))
    );
    assert_eq!(rt; transcript.status(), status(1, 0, 0, 1, State::Open));
    assert_eq!(rt;
        transcript.offer(b"eab", &mut output),
        Err(Refusal::Full(done(2, 3)))
    );
    assert!(rt; output[0] == 0xC3 && output[1] == 0xA9 && output[2] == b'a');
    assert_eq!(rt; transcript.offer(b"b", &mut output), Ok(done(1, 1)));
    assert!(rt; output[0] == b'b' && output[1] == 0xA9);
    assert_eq!(rt; transcript.close(), Ok(()));
    assert_eq!(rt; transcript.status(), status(4, 3, 4, 0, State::Closed));
    Ok(())
}

#[test]
fn empty_buffers(rt: HostRuntime) -> Result<(), Fail> {
    let mut transcript = Transcript::new(Iso6937, Utf8);
    let mut output = [7u8; 1];
    assert_eq!(rt; transcript.offer(b"", &mut output), Ok(done(0, 0)));
    assert_eq!(rt; transcript.offer(b"", &mut output[0..0]), Ok(done(0, 0)));
    assert_eq!(rt;
        transcript.offer(b"a", &mut output[0..0]),
        Err(Refusal::Full(done(0, 0)))
    );
    assert!(rt; output[0] == 7);
    assert_eq!(rt; transcript.status(), status(0, 0, 0, 0, State::Open));
    Ok(())
}

#[test]
fn size_limits(rt: HostRuntime) -> Result<(), Fail> {
    let sector = vec![in rt.alloc(); b'a'; 4_097]?;
    let mut output = vec![in rt.alloc(); 0u8; 65_537]?;
    assert!(rt; sector.len() == 4_097 && output.len() == 65_537);
    let mut transcript = Transcript::new(Iso6937, Utf8);
    assert_eq!(rt;
        transcript.offer(&sector, &mut output),
        Err(Refusal::SectorTooLong)
    );
    assert_eq!(rt;
        transcript.offer(&sector[0..4_096], &mut output),
        Err(Refusal::OutputTooLong)
    );
    assert_eq!(rt;
        transcript.offer(&sector[0..4_096], &mut output[0..65_536]),
        Ok(done(4_096, 4_096))
    );
    assert_eq!(rt;
        transcript.status(),
        status(4_096, 4_096, 4_096, 0, State::Open)
    );
    Ok(())
}

// A closed transcript answers 5 and a faulted one 4, whatever is offered; starting forgets both.
#[test]
fn refusals_by_state(rt: HostRuntime) -> Result<(), Fail> {
    let sector = vec![in rt.alloc(); b'a'; 4_097]?;
    let mut output = vec![in rt.alloc(); 0u8; 65_537]?;
    let mut transcript = Transcript::new(Iso6937, Utf8);
    assert_eq!(rt; transcript.close(), Ok(()));
    assert_eq!(rt;
        transcript.offer(&sector, &mut output),
        Err(Refusal::AlreadyClosed)
    );
    assert_eq!(rt; transcript.close(), Err(Refusal::AlreadyClosed));
    assert_eq!(rt; transcript.status(), status(0, 0, 0, 0, State::Closed));
    transcript.start();
    let fault = at(unread(31, 0), 1, done(1, 1));
    assert_eq!(rt;
        transcript.offer(b"a\xE5", &mut output[0..9]),
        Err(Refusal::Faulted(fault))
    );
    assert_eq!(rt;
        transcript.offer(&sector, &mut output),
        Err(Refusal::Standing(fault))
    );
    assert_eq!(rt; transcript.close(), Err(Refusal::Standing(fault)));
    assert_eq!(rt;
        transcript.status(),
        status(1, 1, 1, 0, State::Faulted(fault))
    );
    transcript.start();
    assert_eq!(rt; transcript.status(), status(0, 0, 0, 0, State::Open));
    Ok(())
}

#[test]
fn numbers(rt: HostRuntime) -> Result<(), Fail> {
    let fault = at(unread(35, 1), 6, done(4, 5));
    let told = Refusal::Standing(fault).told();
    assert!(rt; told.number == 4 && told.standing == 6 && told.offset == 6 && told.cause == 35);
    assert!(rt; told.depth == 1 && told.character == 0 && told.taken == 4 && told.written == 5);
    let unwritten = at(unwritten(0xE9, 37, 2), 6, done(4, 5));
    let told = Refusal::Faulted(unwritten).told();
    assert!(rt; told.number == 7 && told.standing == 0 && told.offset == 6 && told.cause == 37);
    assert!(rt; told.depth == 2 && told.character == 0xE9 && told.taken == 4 && told.written == 5);
    let standing = Refusal::Standing(unwritten).told();
    assert!(rt; standing.number == 4 && standing.standing == 7 && standing.cause == 37);
    assert!(rt; standing.depth == 2 && standing.character == 0xE9);
    assert_eq!(rt; Refusal::SectorTooLong.told().number, 1);
    assert_eq!(rt; Refusal::OutputTooLong.told().number, 2);
    assert_eq!(rt; Refusal::SourceTooLong.told().number, 3);
    assert_eq!(rt; Refusal::AlreadyClosed.told().number, 5);
    assert_eq!(rt; Refusal::Faulted(fault).told().number, 6);
    assert_eq!(rt; Refusal::Full(done(1, 2)).told().number, 8);
    Ok(())
}
