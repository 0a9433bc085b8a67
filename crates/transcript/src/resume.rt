//! Where a transcript is put down and taken up again.
ghost use Rattle.std.specs.Prelude.{◌≡◌};
ghost use Rattle.transcript.specs.Snapshots.{snapshot, Restored};
ghost use Rattle.transcript.specs.Transcripts.{come_to, Resumed};

use crate::LONGEST_SOURCE;
use crate::answers::Status;
use crate::calls::Transcript;
use crate::progress::Progress;
use charset::{CharacterSet, Front, Reading};
use conversion::Converter;

impl Progress {
    /// The progress of which this status was told while these bytes were held; none where its
    /// counts break the bounds of every transcript, or it tells of another number of bytes held.
    pub fn of(status: Status, held: Front) -> Option<Progress>
        ensures { Restored status held result }
    {
        let Status {
            taken,
            characters,
            written,
            state,
            ..
        } = status;
        let bytes = held.len() as u64;
        // A character has one to four bytes, in the source and in the target.
        let counted = status.held == held.len()
            && bytes <= taken
            && taken <= LONGEST_SOURCE
            && characters <= taken - bytes
            && taken - bytes <= 4 * characters
            && characters <= written
            && written <= 4 * characters;
        if !counted {
            return None;
        }
        Some(Progress {
            state,
            taken,
            characters,
            written,
            held,
        })
    }

    /// The bytes that are held.
    pub fn held(&self) -> Front
        ensures { result ≡ (snapshot self.now).held }
    {
        self.held
    }
}

impl<S: CharacterSet + Drop, T: CharacterSet + Drop> Transcript<S, T> {
    /// A transcript that goes on from where one came to; none where the source set does not read
    /// the held bytes as open, as it does those of every transcript from it.
    pub fn resume(source: S, target: T, progress: Progress) -> Option<Transcript<S, T>>
        ensures { Resumed source target (snapshot progress) result }
    {
        let Ok(Reading::Open) = source.read(progress.held.as_bytes()) else {
            return None;
        };
        Some(Transcript {
            converter: Converter::new(source, target),
            progress,
        })
    }
}

impl<S: CharacterSet, T: CharacterSet> Transcript<S, T> {
    /// How far it has come, without the sets: enough to resume it.
    pub fn progress(&self) -> Progress
        ensures { snapshot result ≡ come_to self.now }
    {
        self.progress
    }
}
