//! A whole text from one character set into another, by the use of a transcript.
ghost use Rattle.std.specs.Prelude.{◌≡◌, ◌≤◌, [], length, Some};
ghost use Rattle.charset.specs.Sets.{set_of};
ghost use Rattle.transcript.specs.declared.TheConstants.{LONGEST_SOURCE};
ghost use Rattle.transcript.specs.declared.answers.FaultAt.{FaultAt as Placed};
ghost use Rattle.transcript.specs.declared.answers.Refusal.TheVariants.{Faulted as RefusedBy};
ghost use Rattle.transcript.specs.Law.{TranscriptionLaw};
ghost use Rattle.transcript.specs.SameBytes.{SameBytes};
ghost use Rattle.transcript.specs.Stacks.{TheLaw};
ghost use Rattle.transcript.specs.declared.transcription.Failure.TheVariants.{NoMemory, Faulted};
ghost use Rattle.transcript.specs.Calls.{fresh};
ghost use Rattle.transcript.specs.Failures.{IsTooLong, message};
ghost use Rattle.transcript.specs.Transcripts.{source_set, target_set, come_to};
ghost use Rattle.transcript.specs.Carried.{Transcribes, TranscribesInto};

use crate::answers::{Done, FaultAt, Refusal, fault_number};
use crate::calls::Transcript;
use crate::{LONGEST_SECTOR, LONGEST_SOURCE};
use charset::CharacterSet;
use std::alloc::{AllocError, AllocFailed, Global};
use std::error::Error;
use std::fmt;

/// Why a text is not transcribed to its end.
#[derive(Clone, Copy, PartialEq, Eq, Debug)]
pub enum Failure {
    /// Memory was wanting.
    NoMemory,
    /// The text is longer than [`LONGEST_SOURCE`].
    TooLong,
    /// The transcript met a fault.
    Faulted(FaultAt),
}

impl fmt::Display for Failure {
    ghost output = { λ f. Some (message f) };

    fn fmt<W: fmt::Write>(&self, f: &mut fmt::Formatter<W>) -> fmt::Result {
        match *self {
            Failure::NoMemory => f.write_str("out of memory"),
            Failure::TooLong => f.write_str("the text is too long"),
            Failure::Faulted(FaultAt { fault, offset, .. }) => {
                let number = fault_number(fault);
                write!(f, "refused {number} at offset {offset}")
            }
        }
    }
}

impl Error for Failure {}

impl From<AllocError> for Failure {
    ghost from_gives = { λ _ r. r ≡ NoMemory };

    fn from(_error: AllocError) -> Failure {
        Failure::NoMemory
    }
}

// Nothing here fails so; it is for callers that push.
impl<X: Drop> From<AllocFailed<X>> for Failure {
    ghost from_gives = { λ _ r. r ≡ NoMemory };

    fn from(_refused: AllocFailed<X>) -> Failure {
        Failure::NoMemory
    }
}

impl From<FaultAt> for Failure {
    ghost from_gives = { λ e r. r ≡ Faulted e };

    fn from(fault: FaultAt) -> Failure {
        Failure::Faulted(fault)
    }
}

/// What was transcribed.
#[derive(Drop)]
pub struct Transcription {
    /// The text in the target set.
    pub text: Vec<u8>,
    /// How many characters the text has.
    pub characters: u64,
}

impl Transcription {
    /// No text.
    pub fn empty(heap: Global) -> Transcription
        ensures text { result.text.items ≡ [] }
        ensures characters { result.characters ≡ 0 }
    {
        Transcription {
            text: Vec::new(heap),
            characters: 0,
        }
    }
}

// Room for what an offer can write: four bytes for each byte of a sector and each of the three that
// can be held.
const ROOM: usize = 4 * (LONGEST_SECTOR + 3);

// The fault that a refusal is.
fn fault_of(refusal: Refusal) -> FaultAt
    requires { (f : Placed) × (refusal ≡ RefusedBy f) }
    ensures { refusal ≡ RefusedBy result }
{
    let Refusal::Faulted(fault) = refusal else {
        unreachable!()
    };
    fault
}

// Offers the bytes to a transcript, sector after sector, until a fault or the end, and closes it at
// the end.
fn offer_all<S: CharacterSet, T: CharacterSet>(
    transcript: &mut Transcript<S, T>,
    bytes: &[u8],
    text: &mut Vec<u8>,
) -> Result<(), Failure>
    requires fresh { come_to transcript.old ≡ fresh }
    requires no_text { text.old.items ≡ [] }
    requires short { length bytes.now ≤ LONGEST_SOURCE }
    ensures transcribed { Transcribes (source_set transcript.old) (target_set transcript.old)
        bytes.now text.new.items (come_to transcript.new).characters result }
    ensures too_long { IsTooLong bytes.now result }
{
    let mut output = [0u8; ROOM];
    for sector in bytes.chunks(LONGEST_SECTOR) {
        let offered = transcript.offer(sector, &mut output).map_err(fault_of);
        let Done { written, .. } = offered.unwrap_or_else(|fault| fault.done);
        text.extend_from_slice(&output[..written])?;
        offered?;
    }
    transcript.close().map_err(fault_of)?;
    Ok(())
}

/// Transcribes bytes of the source set into the target set, up to their end or to a fault. What
/// was transcribed replaces what `into` held, also where the call fails. Besides, of transcripts
/// between these sets: the law of transcription, and that their causes of writing change nothing
/// but what a 7 says.
#[tactic(auto, using(crate::proofs::Whole::the_law))]
pub fn transcribe<S: CharacterSet + Drop, T: CharacterSet + Drop>(
    source: S,
    target: T,
    bytes: &[u8],
    into: &mut Transcription,
) -> Result<(), Failure>
    ensures transcribed { TranscribesInto (set_of S.CharacterSet source)
        (set_of T.CharacterSet target) bytes.now into.new result }
    ensures too_long { IsTooLong bytes.now result }
    ensures its_law { TranscriptionLaw (set_of S.CharacterSet source)
        (set_of T.CharacterSet target) }
    ensures same_bytes { SameBytes (set_of S.CharacterSet source) (set_of T.CharacterSet target) }
    ensures the_law { TheLaw }
{
    into.text.clear();
    into.characters = 0;
    if bytes.len() as u64 > LONGEST_SOURCE {
        return Err(Failure::TooLong);
    }
    let mut transcript = Transcript::new(source, target);
    let outcome = offer_all(&mut transcript, bytes, &mut into.text);
    into.characters = transcript.status().characters;
    outcome
}
