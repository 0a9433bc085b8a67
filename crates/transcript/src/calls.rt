//! The calls of a transcript.
ghost use Rattle.std.specs.Prelude.{◌≡◌, [], ◌∷◌};
ghost use Rattle.transcript.specs.Calls.{fresh, status_of};
ghost use Rattle.transcript.specs.Uses.{Use, start, offer, close, status};

use crate::answers::{Answer, Done, Refusal, State, Status};
use crate::progress::Progress;
use charset::CharacterSet;
use conversion::{Converter, Run};

/// A transcript from a source set into a target set. It owns the sets: nothing else changes them.
#[derive(Drop)]
pub struct Transcript<S: CharacterSet, T: CharacterSet> {
    pub(crate) converter: Converter<S, T>,
    pub(crate) progress: Progress,
}

/// A call, with its buffers.
#[derive(Drop)]
pub enum Call<'a> {
    /// [`Transcript::start`].
    Start,
    /// [`Transcript::offer`].
    Offer {
        /// Bytes of the source.
        sector: &'a [u8],
        /// Where the target codings go, from the front.
        output: &'a mut [u8],
    },
    /// [`Transcript::close`].
    Close,
    /// [`Transcript::status`].
    Status,
}

impl<S: CharacterSet, T: CharacterSet> Transcript<S, T> {
    ghost use Rattle.transcript.specs.Transcripts.{source_set, target_set, come_to, Between};
    ghost use Rattle.transcript.specs.Transcripts.{GoesOn, Steps, Calls, OffersWhenOpen};

    /// A transcript that is started.
    pub fn new(source: S, target: T) -> Transcript<S, T>
        ensures between { Between source target fresh result }
        ensures started { Use (source_set result) (target_set result) (start ∷ [])
            (come_to result) }
    {
        Transcript {
            converter: Converter::new(source, target),
            progress: Progress::fresh(),
        }
    }

    // The work of an offer to an open transcript.
    fn feed(&mut self, sector: &[u8], output: &mut [u8]) -> Result<Done, Refusal>
        ensures { OffersWhenOpen self.old sector.now output.old result output.new self.new }
    {
        self.progress.within_limits(sector, output)?;
        let mut run = Run::default();
        let end = self
            .converter
            .convert(self.progress.held, sector, output, &mut run);
        self.progress.settle(run, end, sector)
    }

    /// One call, by the state of the transcript: one match shows what each call does in each state.
    /// Refused as the call of that name is.
    pub fn call(&mut self, call: Call) -> Result<Answer, Refusal>
        ensures { Calls self.old call.entry self.new call.exit result }
    {
        match (self.progress.state, call) {
            (State::Open, Call::Offer { sector, output }) => {
                self.feed(sector, output).map(Answer::Offered)
            }
            (State::Open, Call::Close) => {
                self.progress.finish()?;
                Ok(Answer::Closed)
            }
            (State::Faulted(fault), Call::Offer { .. } | Call::Close) => {
                Err(Refusal::Standing(fault))
            }
            (State::Closed, Call::Offer { .. } | Call::Close) => Err(Refusal::AlreadyClosed),
            (_, Call::Start) => {
                self.progress = Progress::fresh();
                Ok(Answer::Started)
            }
            (_, Call::Status) => Ok(Answer::Told(self.progress.status())),
        }
    }

    /// Starts again, and forgets all before. It always succeeds.
    pub fn start(&mut self)
        ensures { Steps self.old start self.new }
    {
        let _ = self.call(Call::Start);
    }

    /// Reads the held bytes and then the sector from the front, and writes each character behind
    /// the one before. Refused, in this order: 5 closed, 4 faulted, 1 and 2 a buffer that is too
    /// long, 3 a source that is too long; then 6 where no coding and no opening stands in front, 7
    /// where a character has no target coding, 8 where the next one does not fit.
    pub fn offer(&mut self, sector: &[u8], output: &mut [u8]) -> Result<Done, Refusal>
        ensures { Steps self.old (offer sector.now output.old result output.new) self.new }
    {
        let Answer::Offered(done) = self.call(Call::Offer { sector, output })? else {
            unreachable!()
        };
        Ok(done)
    }

    /// Closes. Refused: 5 closed, 4 faulted, and 9 where bytes are held, which is a fault.
    pub fn close(&mut self) -> Result<(), Refusal>
        ensures { Steps self.old (close result) self.new }
    {
        self.call(Call::Close)?;
        Ok(())
    }

    /// What it has come to since the start.
    pub fn status(&self) -> Status
        ensures told { result ≡ status_of (come_to self.now) }
        ensures goes_on { GoesOn self.now (status result) self.now }
    {
        self.progress.status()
    }
}
