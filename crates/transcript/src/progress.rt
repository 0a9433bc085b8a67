//! How far a transcript has come since it was started: its state, what it has counted, and the
//! bytes it holds.
ghost use Rattle.std.specs.Prelude.{◌+◌, ◌*◌, ◌≤◌, length};
ghost use Rattle.transcript.specs.declared.TheConstants.{LONGEST_SOURCE};

use crate::answers::{Done, FaultAt, Place, Refusal, State, Status};
use crate::{LONGEST_OUTPUT, LONGEST_SECTOR, LONGEST_SOURCE};
use charset::Front;
use conversion::{Fault, Pause, Run};

/// How far a transcript has come, without its sets.
#[derive(Clone, Copy)]
pub struct Progress {
    pub(crate) state: State,
    pub(crate) taken: u64,
    pub(crate) characters: u64,
    pub(crate) written: u64,
    pub(crate) held: Front,
    ghost read_least: { characters + length held ≤ taken },
    ghost read_most: { taken ≤ 4 * characters + length held },
    ghost written_least: { characters ≤ written },
    ghost written_most: { written ≤ 4 * characters },
    ghost limited: { taken ≤ LONGEST_SOURCE },
}

impl Progress {
    ghost use Rattle.std.specs.Prelude.{◌≡◌};
    ghost use Rattle.transcript.specs.declared.answers.State.TheVariants.{Open};
    ghost use Rattle.transcript.specs.Calls.{fresh, status_of, ClosedOn};
    ghost use Rattle.transcript.specs.Snapshots.{snapshot, kept_after, Limits, Possible, Settles};

    /// That of a transcript that is started.
    pub fn fresh() -> Progress
        ensures { snapshot result ≡ fresh }
    {
        Progress {
            state: State::Open,
            taken: 0,
            characters: 0,
            written: 0,
            held: Front::empty(),
        }
    }

    /// What it tells of itself.
    pub fn status(&self) -> Status
        ensures { result ≡ status_of (snapshot self.now) }
    {
        Status {
            taken: self.taken,
            characters: self.characters,
            written: self.written,
            held: self.held.len(),
            state: self.state,
        }
    }

    // Whether an offer is within the size limits.
    pub(crate) fn within_limits(&self, sector: &[u8], output: &[u8]) -> Result<(), Refusal>
        ensures { Limits self.now.taken sector.now output.now result }
    {
        if sector.len() > LONGEST_SECTOR {
            return Err(Refusal::SectorTooLong);
        }
        if output.len() > LONGEST_OUTPUT {
            return Err(Refusal::OutputTooLong);
        }
        if self.taken + sector.len() as u64 > LONGEST_SOURCE {
            return Err(Refusal::SourceTooLong);
        }
        Ok(())
    }

    // What stays held where something stops an offer after so many characters.
    fn kept(&self, characters: usize) -> Front
        ensures { result ≡ kept_after characters self.now.held }
    {
        if characters == 0 {
            self.held
        } else {
            Front::empty()
        }
    }

    // After the characters of an offer and what ended them: what it counts, what it holds, and what
    // it answers. What these can be depends on the held bytes and the sector, so it is asked for.
    pub(crate) fn settle(
        &mut self,
        run: Run,
        end: Result<Pause, Fault>,
        sector: &[u8],
    ) -> Result<Done, Refusal>
        requires { Possible (snapshot self.old) sector.now run end }
        ensures { Settles (snapshot self.old) sector.now run end result (snapshot self.new) }
    {
        let held = self.held.len();
        let offset = self.taken - held as u64 + run.read as u64;
        let (taken, rest) = match end {
            Ok(Pause::Open) => (sector.len(), self.held.window(sector, run.read)),
            _ => (run.read.saturating_sub(held), self.kept(run.characters)),
        };
        let done = Done {
            taken,
            written: run.written,
        };
        self.taken += done.taken as u64;
        self.characters += run.characters as u64;
        self.written += done.written as u64;
        self.held = rest;
        let placed = end.map_err(|fault| FaultAt::from((fault, Place { offset, done })));
        self.state = placed.map_or_else(State::Faulted, |_| State::Open);
        match placed? {
            Pause::Open => Ok(done),
            Pause::Full => Err(Refusal::Full(done)),
        }
    }

    // Closes an open transcript, unless it holds bytes: then it is faulted.
    pub(crate) fn finish(&mut self) -> Result<(), Refusal>
        ensures { ClosedOn Open self.old.held (snapshot self.old) result (snapshot self.new) }
    {
        let held = self.held.len();
        if held == 0 {
            self.state = State::Closed;
            return Ok(());
        }
        let place = Place {
            offset: self.taken - held as u64,
            done: Done::default(),
        };
        let unfinished = FaultAt::from((Fault::Unfinished, place));
        self.state = State::Faulted(unfinished);
        Err(unfinished.into())
    }
}
