//! The text of a page, by its form.
ghost use Rattle.std.specs.Prelude.{◌≡◌, [], IfOk};
ghost use Rattle.transcript.specs.Failures.{IsTooLongOrWanting};
ghost use Rattle.sets.specs.Utf8.{utf8};
ghost use Rattle.transcript.specs.Carried.{fault_told_in, TranscribesInto};
ghost use Rattle.forms.specs.FormSets.{form_set};
ghost use Rattle.report.specs.Lines.{form_told};
ghost use Rattle.report.specs.Texts.{AlwaysWritten, page_failure, page_form, IsTextOf};
ghost use Rattle.report.specs.Texts.{TranscribesPage};

use crate::fault::RollFault;
use forms::FormSet;
use roll::{Form, Page, RollRefusal};
use sets::Utf8;
use std::alloc::{AllocError, Global};
use transcript::{Failure, Transcription, transcribe};

/// Transcribes bytes of a form into UTF-8, up to their end or to a fault. What was transcribed
/// replaces what `into` held.
pub fn form_text(
    heap: Global,
    form: Form,
    bytes: &[u8],
    into: &mut Transcription,
) -> Result<(), Failure>
    ensures text { TranscribesInto (form_set form) utf8 bytes.now into.new result }
    ensures too_long { IsTooLongOrWanting bytes.now result }
    ensures always_written { AlwaysWritten (fault_told_in result) }
{
    let set = FormSet::of(heap, form)?;
    transcribe(set, Utf8, bytes, into)
}

// Why a page is not transcribed to its end.
enum PageFailure {
    NoMemory,
    Fault(RollFault),
}

// The failure of the text of a page, with the page number. A page that is longer than a source may
// be, which no roll can hold, is refused as a roll of that size is.
impl From<(u32, Failure)> for PageFailure {
    ghost from_gives = { λ e r. r ≡ page_failure e.0 e.1 };

    fn from((page, failure): (u32, Failure)) -> PageFailure {
        match failure {
            Failure::NoMemory => PageFailure::NoMemory,
            Failure::TooLong => PageFailure::Fault(RollRefusal::WrongSize.into()),
            Failure::Faulted(fault) => PageFailure::Fault((page, fault).into()),
        }
    }
}

// A page into UTF-8, into a place where no text is. A picture has none.
fn transcribe_page(
    heap: Global,
    number: u32,
    page: &Page,
    into: &mut Transcription,
) -> Result<(), PageFailure>
    requires no_text { into.old.text.items ≡ [] }
    requires no_characters { into.old.characters ≡ 0 }
    ensures { TranscribesPage number page.now into.new result }
{
    let Page::Text { form, part, .. } = *page else {
        return Ok(());
    };
    form_text(heap, form, part, into).map_err(|failure| (number, failure))?;
    Ok(())
}

/// The text of a page up to its end or a fault.
#[derive(Drop)]
pub struct PageText {
    /// The number of the page's form, 1 to 7; 0 for a picture.
    pub form: u8,
    /// The text, in UTF-8.
    pub text: Vec<u8>,
    /// How many characters the text has.
    pub characters: u64,
    /// The fault, where the page is not transcribed to its end.
    pub outcome: Result<(), RollFault>,
}

// The number of a page's form; a picture has 0.
fn form_number(page: &Page) -> u8
    ensures { result ≡ form_told (page_form page.now) }
{
    match *page {
        Page::Text { form, .. } => form.into(),
        Page::Picture { .. } => 0,
    }
}

/// The text of a page; a fault carries `number`, the page's number from 1. Fails only where memory
/// is wanting. A page that is longer than a source may be, which no roll can hold, is refused as a
/// roll of that size is.
pub fn page_text(heap: Global, number: u32, page: &Page) -> Result<PageText, AllocError>
    ensures form { IfOk result (λ t. t.form ≡ form_told (page_form page.now)) }
    ensures text { IfOk result (IsTextOf number page.now) }
{
    let mut read = Transcription::empty(heap);
    let outcome = match transcribe_page(heap, number, page, &mut read) {
        Ok(()) => Ok(()),
        Err(PageFailure::Fault(fault)) => Err(fault),
        Err(PageFailure::NoMemory) => return Err(AllocError),
    };
    Ok(PageText {
        form: form_number(page),
        text: read.text,
        characters: read.characters,
        outcome,
    })
}
