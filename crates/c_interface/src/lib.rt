//! The library for clients in C: a transcript is a record of numbers that the client keeps. Each
//! call reads the record, makes the call, and writes what the transcript has come to back into the
//! record. The library itself keeps nothing between calls. A call returns true where it succeeds;
//! the answer holds what an offer took and wrote, or the number of the refusal with its values.
#![tactic(auto)]

ghost use Rattle.transcript.specs.Stacks.{TheLaw};
ghost use Rattle.c_interface.specs.Records.{OneTranscript};
ghost use Rattle.c_interface.specs.Calls.{Answers, with_nothing, AnswersOffer, AnswersCall};
ghost use Rattle.c_interface.specs.Calls.{RecordLaw, Opens, Starts, Offers, Closes, Tells};

mod calls;
mod examples;
mod form_transcript;
mod record;
mod refusal;

pub use record::{StatusRecord, TranscriptRecord};
use refusal::CallRefusal;
use std::alloc::Global;
use transcript::{Done, Told};

// Answers a call.
fn tell(outcome: Result<Done, CallRefusal>, answer: &mut Told) -> bool
    ensures { Answers outcome answer.new result }
{
    let (told, succeeds) = match outcome {
        Ok(Done { taken, written }) => {
            let told = Told {
                taken,
                written,
                ..Told::default()
            };
            (told, true)
        }
        Err(refusal) => (refusal.told(), false),
    };
    *answer = told;
    succeeds
}

// The same for a call that is no offer.
fn tell_alone(outcome: Result<(), CallRefusal>, answer: &mut Told) -> bool
    ensures { Answers (with_nothing outcome) answer.new result }
{
    match outcome {
        Ok(()) => tell(Ok(Done::default()), answer),
        Err(refusal) => tell(Err(refusal), answer),
    }
}

/// Opens a transcript from one form of text into another, each by its number, 1 to 7. Refused with
/// 101 where a form has another number.
#[unsafe(no_mangle)]
pub extern "C" fn finetalc_open(
    source: u32,
    target: u32,
    transcript: &mut TranscriptRecord,
    answer: &mut Told,
) -> bool
    ensures { AnswersCall (Opens source target transcript.old transcript.new) answer.new result }
{
    tell_alone(calls::open(source, target, transcript), answer)
}

/// Starts a transcript again, and forgets all before. Refused with 102 where the record keeps none.
#[unsafe(no_mangle)]
pub extern "C" fn finetalc_start(transcript: &mut TranscriptRecord, answer: &mut Told) -> bool
    ensures { AnswersCall (Starts transcript.old transcript.new) answer.new result }
{
    tell_alone(calls::start(transcript), answer)
}

/// Reads the held bytes and then the sector from the front, and writes each character behind the
/// one before. Refused with 1 to 8 by the transcript, 102 where the record keeps none, and 0 for
/// want of memory.
#[unsafe(no_mangle)]
#[tactic(auto, using(transcript::proofs::Whole::the_law))]
pub extern "C" fn finetalc_offer(
    heap: Global,
    transcript: &mut TranscriptRecord,
    sector: &[u8],
    output: &mut [u8],
    answer: &mut Told,
) -> bool
    ensures offers { AnswersOffer
        (Offers transcript.old transcript.new sector.now output.old output.new) answer.new result }
    ensures one_transcript { OneTranscript }
    ensures its_law { RecordLaw transcript.old }
    ensures the_law { TheLaw }
{
    tell(calls::offer(heap, transcript, sector, output), answer)
}

/// Closes a transcript, unless bytes are held. Refused with 4, 5 or 9 by the transcript, 102 where
/// the record keeps none, and 0 for want of memory.
#[unsafe(no_mangle)]
pub extern "C" fn finetalc_close(
    heap: Global,
    transcript: &mut TranscriptRecord,
    answer: &mut Told,
) -> bool
    ensures { AnswersCall (Closes transcript.old transcript.new) answer.new result }
{
    tell_alone(calls::close(heap, transcript), answer)
}

/// Tells what a transcript has come to since it was started. Refused with 102 where the record
/// keeps none.
#[unsafe(no_mangle)]
pub extern "C" fn finetalc_status(
    transcript: &TranscriptRecord,
    status: &mut StatusRecord,
    answer: &mut Told,
) -> bool
    ensures { AnswersCall (Tells transcript.now status.old status.new) answer.new result }
{
    tell_alone(calls::status(transcript, status), answer)
}
