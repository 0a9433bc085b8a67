//! What a transcript answers.
ghost use Rattle.std.specs.Prelude.{◌≡◌};
ghost use Rattle.transcript.specs.declared.answers.Refusal.TheVariants.{Faulted};
ghost use Rattle.transcript.specs.Places.{placed};
ghost use Rattle.transcript.specs.Told.{alone, fault_number, told_fault, told};

use charset::SetRefusal;
use conversion::Fault;

/// What an offer did, in bytes.
#[derive(Clone, Copy, PartialEq, Eq, Debug, Default)]
pub struct Done {
    /// How many bytes of the sector it took.
    pub taken: usize,
    /// How many bytes of the output it wrote.
    pub written: usize,
}

/// A place in the source.
#[derive(Clone, Copy, PartialEq, Eq, Debug)]
pub struct Place {
    /// The bytes of the source before it, since the start.
    pub offset: u64,
    /// What the offer that came there took and wrote.
    pub done: Done,
}

/// A fault and its place. For a closing, `done` is nothing.
#[derive(Clone, Copy, PartialEq, Eq, Debug)]
pub struct FaultAt {
    /// Why the transcript cannot go on.
    pub fault: Fault,
    /// The bytes of the source before it, since the start: those of all characters written.
    pub offset: u64,
    /// What the offer that met it took and wrote.
    pub done: Done,
}

/// The fault at that place.
impl From<(Fault, Place)> for FaultAt {
    ghost from_gives = { λ e r. r ≡ placed e.0 e.1 };

    fn from((fault, place): (Fault, Place)) -> FaultAt {
        let Place { offset, done } = place;
        FaultAt {
            fault,
            offset,
            done,
        }
    }
}

/// A transcript is open until a fault or an accepted closing.
#[derive(Clone, Copy, PartialEq, Eq, Debug)]
pub enum State {
    /// Offers are taken.
    Open,
    /// A fault stands, until the next start.
    Faulted(FaultAt),
    /// Nothing was held at the end.
    Closed,
}

/// Why a call does not succeed. [`Refusal::told`] gives its number.
#[derive(Clone, Copy, PartialEq, Eq, Debug)]
pub enum Refusal {
    /// The sector is longer than [`LONGEST_SECTOR`](crate::LONGEST_SECTOR).
    SectorTooLong,
    /// The output is longer than [`LONGEST_OUTPUT`](crate::LONGEST_OUTPUT).
    OutputTooLong,
    /// All taken and the sector together are longer than
    /// [`LONGEST_SOURCE`](crate::LONGEST_SOURCE).
    SourceTooLong,
    /// The transcript met this fault before.
    Standing(FaultAt),
    /// The transcript is closed.
    AlreadyClosed,
    /// The transcript meets this fault with this call.
    Faulted(FaultAt),
    /// The next coding is longer than what is left of the output. The rest of the sector may be
    /// offered again.
    Full(Done),
}

impl From<FaultAt> for Refusal {
    ghost from_gives = { λ e r. r ≡ Faulted e };

    fn from(fault: FaultAt) -> Refusal {
        Refusal::Faulted(fault)
    }
}

/// A refusal by its number and its values, as docs/REFUSALS.md lists them. A value that does not
/// come with the number is 0. Laid out as C does, since C clients are answered by it.
#[repr(C)]
#[derive(Clone, Copy, PartialEq, Eq, Debug, Default)]
pub struct Told {
    /// Where the fault is: the bytes of the source before it, since the start.
    pub offset: u64,
    /// How many bytes of the sector the offer took.
    pub taken: usize,
    /// How many bytes of the output it wrote.
    pub written: usize,
    /// The code point that has no coding in the target set.
    pub character: u32,
    /// The number of the refusal.
    pub number: u8,
    /// The number of the fault that stands.
    pub standing: u8,
    /// Why a string cannot be read, 31 to 37, or a character cannot be written, 34 to 38.
    pub cause: u8,
    /// How many layers lie above the set or layer that says so, up to 255.
    pub depth: u8,
}

impl Refusal {
    /// The refusal by its number and values.
    pub fn told(&self) -> Told
        ensures { result ≡ told self.now }
    {
        match *self {
            Refusal::SectorTooLong => alone(1),
            Refusal::OutputTooLong => alone(2),
            Refusal::SourceTooLong => alone(3),
            Refusal::Standing(at) => Told {
                number: 4,
                standing: fault_number(at.fault),
                ..Told::from(at)
            },
            Refusal::AlreadyClosed => alone(5),
            Refusal::Faulted(at) => Told::from(at),
            Refusal::Full(Done { taken, written }) => Told {
                taken,
                written,
                ..alone(8)
            },
        }
    }
}

fn alone(number: u8) -> Told
    ensures { result ≡ alone number }
{
    Told {
        number,
        ..Told::default()
    }
}

/// A fault by its number and values.
impl From<FaultAt> for Told {
    ghost from_gives = { λ f r. r ≡ told_fault f };

    fn from(at: FaultAt) -> Told {
        let Done { taken, written } = at.done;
        let placed = Told {
            offset: at.offset,
            ..alone(fault_number(at.fault))
        };
        match at.fault {
            Fault::Unread(SetRefusal { cause, depth }) => Told {
                cause,
                depth,
                taken,
                written,
                ..placed
            },
            Fault::Unwritten { character, refusal } => Told {
                character,
                cause: refusal.cause,
                depth: refusal.depth,
                taken,
                written,
                ..placed
            },
            Fault::Unfinished => placed,
        }
    }
}

/// The number that a fault is told by: 6, 7 or 9.
pub fn fault_number(fault: Fault) -> u8
    ensures { result ≡ fault_number fault }
{
    match fault {
        Fault::Unread(_) => 6,
        Fault::Unwritten { .. } => 7,
        Fault::Unfinished => 9,
    }
}

/// What a transcript has come to since it was started.
#[derive(Clone, Copy, PartialEq, Eq, Debug)]
pub struct Status {
    /// How many bytes of the source were taken, those that are held among them.
    pub taken: u64,
    /// How many characters were written.
    pub characters: u64,
    /// How many bytes were written.
    pub written: u64,
    /// How many bytes are held, up to three: they wait for more.
    pub held: usize,
    /// Open, faulted or closed.
    pub state: State,
}

/// What a call that succeeds answers.
#[derive(Clone, Copy, PartialEq, Eq, Debug)]
pub enum Answer {
    /// To a start.
    Started,
    /// To an offer: the whole sector was taken.
    Offered(Done),
    /// To a closing.
    Closed,
    /// To a status call.
    Told(Status),
}
