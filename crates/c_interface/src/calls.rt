//! The calls on a record.
ghost use Rattle.std.specs.Prelude.{◌≡◌, IfOk, IfErr};
ghost use Rattle.roll.specs.Forms.{form_number};
ghost use Rattle.c_interface.specs.Records.{NoForm};
ghost use Rattle.c_interface.specs.Calls.{Opens, Starts, Offers, Closes, Tells};

use crate::form_transcript::FormTranscript;
use crate::record::{StatusRecord, TranscriptRecord};
use crate::refusal::CallRefusal;
use roll::Form;
use std::alloc::Global;
use transcript::{Done, Progress};

// The form with that number.
fn form_of(number: u32) -> Result<Form, CallRefusal>
    ensures found { IfOk result (λ f. number ≡ form_number f) }
    ensures unknown { IfErr result (λ r. (r ≡ CallRefusal.UnknownForm) × NoForm number) }
{
    let number = u8::try_from(number)?;
    Ok(Form::try_from(number)?)
}

// Opens a transcript between the forms with these numbers.
pub(crate) fn open(source: u32, target: u32, kept: &mut TranscriptRecord) -> Result<(), CallRefusal>
    ensures { Opens source target kept.old kept.new result }
{
    let opened = FormTranscript {
        source: form_of(source)?,
        target: form_of(target)?,
        progress: Progress::fresh(),
    };
    *kept = opened.record();
    Ok(())
}

// Starts the transcript again.
pub(crate) fn start(kept: &mut TranscriptRecord) -> Result<(), CallRefusal>
    ensures { Starts kept.old kept.new result }
{
    let mut resumed = FormTranscript::of(kept).ok_or(CallRefusal::NoTranscript)?;
    resumed.progress = Progress::fresh();
    *kept = resumed.record();
    Ok(())
}

// Offers the transcript a sector and an output.
pub(crate) fn offer(
    heap: Global,
    kept: &mut TranscriptRecord,
    sector: &[u8],
    output: &mut [u8],
) -> Result<Done, CallRefusal>
    ensures { Offers kept.old kept.new sector.now output.old output.new result }
{
    let mut resumed = FormTranscript::of(kept).ok_or(CallRefusal::NoTranscript)?;
    let mut transcript = resumed.with_sets(heap)?;
    let outcome = transcript.offer(sector, output);
    resumed.progress = transcript.progress();
    *kept = resumed.record();
    Ok(outcome?)
}

// Closes the transcript.
pub(crate) fn close(heap: Global, kept: &mut TranscriptRecord) -> Result<(), CallRefusal>
    ensures { Closes kept.old kept.new result }
{
    let mut resumed = FormTranscript::of(kept).ok_or(CallRefusal::NoTranscript)?;
    let mut transcript = resumed.with_sets(heap)?;
    let outcome = transcript.close();
    resumed.progress = transcript.progress();
    *kept = resumed.record();
    Ok(outcome?)
}

// Tells what the transcript has come to.
pub(crate) fn status(kept: &TranscriptRecord, status: &mut StatusRecord) -> Result<(), CallRefusal>
    ensures { Tells kept.now status.old status.new result }
{
    let resumed = FormTranscript::of(kept).ok_or(CallRefusal::NoTranscript)?;
    *status = resumed.progress.status().into();
    Ok(())
}
