//! A transcript between two forms of text, as numbers.
ghost use Rattle.std.specs.Prelude.{◌≡◌, MatchOption};
ghost use Rattle.c_interface.specs.Records.{fault_record, status_record, HasFault, HasState};
ghost use Rattle.c_interface.specs.Records.{HasStatus};
ghost use Rattle.c_interface.specs.Records.{NoFault, NoState, NoStatus};

use charset::SetRefusal;
use conversion::Fault;
use transcript::{Done, FaultAt, Place, State, Status, Told};

/// `finetalc_progress`: what a transcript has come to since it was started.
#[repr(C)]
#[derive(Clone, Copy, PartialEq, Eq, Debug, Default)]
pub struct StatusRecord {
    /// The fault that stands; all 0 where none does.
    pub fault: Told,
    /// How many bytes were taken, those held among them.
    pub taken: u64,
    /// How many characters were converted.
    pub characters: u64,
    /// How many bytes were written.
    pub written: u64,
    /// How many bytes are held.
    pub held: usize,
    /// 0 where it is open, 1 faulted, 2 closed.
    pub state: u32,
}

/// `finetalc_transcript`: a transcript between two forms of text.
#[repr(C)]
#[derive(Clone, Copy, PartialEq, Eq, Debug, Default)]
pub struct TranscriptRecord {
    /// What it has come to.
    pub status: StatusRecord,
    /// The number of its source form, 1 to 7.
    pub source: u8,
    /// The number of its target form, 1 to 7.
    pub target: u8,
    /// The bytes that are held, with 0 behind them.
    pub bytes: [u8; 4],
}

// The highest number of a character.
const LAST_CHARACTER: u32 = 0x10FFFF;

// A fault by its number and all its values.
fn fault_record(at: FaultAt) -> Told
    ensures { result ≡ fault_record at }
{
    Told {
        taken: at.done.taken,
        written: at.done.written,
        ..Told::from(at)
    }
}

// The fault with these numbers, if it can stand.
fn fault_of(told: &Told) -> Option<FaultAt>
    ensures { MatchOption result (NoFault told.now) (HasFault told.now) }
{
    let refusal = SetRefusal {
        cause: told.cause,
        depth: told.depth,
    };
    let fault = match told.number {
        6 => Fault::Unread(refusal),
        7 if told.character <= LAST_CHARACTER => Fault::Unwritten {
            character: told.character,
            refusal,
        },
        9 if told.taken == 0 && told.written == 0 => Fault::Unfinished,
        _ => return None,
    };
    let place = Place {
        offset: told.offset,
        done: Done {
            taken: told.taken,
            written: told.written,
        },
    };
    let at = FaultAt::from((fault, place));
    (fault_record(at) == *told).then_some(at)
}

impl From<Status> for StatusRecord {
    ghost from_gives = { λ u r. r ≡ status_record u };

    fn from(status: Status) -> StatusRecord {
        let (state, fault) = match status.state {
            State::Open => (0, Told::default()),
            State::Faulted(at) => (1, fault_record(at)),
            State::Closed => (2, Told::default()),
        };
        StatusRecord {
            fault,
            taken: status.taken,
            characters: status.characters,
            written: status.written,
            held: status.held,
            state,
        }
    }
}

impl StatusRecord {
    // The state with this number and fault.
    fn state(&self) -> Option<State>
        ensures { MatchOption result (NoState self.now) (HasState self.now) }
    {
        let unfaulted = self.fault == Told::default();
        match self.state {
            0 => unfaulted.then_some(State::Open),
            1 => fault_of(&self.fault).map(State::Faulted),
            2 => unfaulted.then_some(State::Closed),
            _ => None,
        }
    }

    // The status with these numbers.
    pub(crate) fn status(&self) -> Option<Status>
        ensures { MatchOption result (NoStatus self.now) (HasStatus self.now) }
    {
        let state = self.state()?;
        Some(Status {
            taken: self.taken,
            characters: self.characters,
            written: self.written,
            held: self.held,
            state,
        })
    }
}
