//! A transcript between two forms of text, without its sets: what a record keeps.
ghost use Rattle.std.specs.Prelude.{◌≡◌};
ghost use Rattle.charset.specs.Padding.{padded};

use crate::record::{StatusRecord, TranscriptRecord};
use charset::Front;
use forms::{FormSet, is_opening};
use roll::Form;
use std::alloc::{AllocError, Global};
use transcript::{Progress, Transcript};

// The two forms, and what the transcript has come to.
#[derive(Clone, Copy)]
pub(crate) struct FormTranscript {
    pub(crate) source: Form,
    pub(crate) target: Form,
    pub(crate) progress: Progress,
}

// The bytes of a front, with 0 behind them.
fn places(front: Front) -> [u8; 4]
    ensures { result ≡ padded front }
{
    let bytes = front.as_bytes();
    let mut places = [0; 4];
    places[..bytes.len()].copy_from_slice(bytes);
    places
}

impl FormTranscript {
    ghost use Rattle.std.specs.Prelude.{MatchOption, IfOk, OnErr};
    ghost use Rattle.c_interface.specs.Records.{NoTranscript, WantsMemory};
    ghost use Rattle.c_interface.specs.FormTranscripts.{CanBeKept, KeepsTranscript, ResumesAs};

    // The transcript that a record keeps; `None` where it keeps none.
    pub(crate) fn of(kept: &TranscriptRecord) -> Option<FormTranscript>
        ensures { MatchOption result (NoTranscript kept.now) (KeepsTranscript kept.now) }
    {
        let source = Form::try_from(kept.source).ok()?;
        let target = Form::try_from(kept.target).ok()?;
        let status = kept.status.status()?;
        let held = Front::empty().followed_by(&kept.bytes[..status.held.min(4)]);
        let progress = Progress::of(status, held)?;
        if !is_opening(source, held.as_bytes()) {
            return None;
        }
        (places(held) == kept.bytes).then_some(FormTranscript {
            source,
            target,
            progress,
        })
    }

    // The record that keeps it.
    pub(crate) fn record(&self) -> TranscriptRecord
        requires { CanBeKept self.now }
        ensures { KeepsTranscript result self.now }
    {
        TranscriptRecord {
            status: StatusRecord::from(self.progress.status()),
            source: self.source.into(),
            target: self.target.into(),
            bytes: places(self.progress.held()),
        }
    }

    // The same, between the sets of its forms.
    pub(crate) fn with_sets(&self, heap: Global) -> Result<Transcript<FormSet, FormSet>, AllocError>
        requires { CanBeKept self.now }
        ensures resumed { IfOk result (ResumesAs self.now) }
        ensures no_memory { OnErr result (WantsMemory self.now.source self.now.target) }
    {
        let source = FormSet::of(heap, self.source)?;
        let target = FormSet::of(heap, self.target)?;
        let Some(transcript) = Transcript::resume(source, target, self.progress) else {
            unreachable!()
        };
        Ok(transcript)
    }
}
