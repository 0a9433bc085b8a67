//! A transcript: text from one character set into another, sector by sector, with what it answers
//! and what it counts; and a whole text by the use of one.
#![tactic(auto)]

mod answers;
mod by_law;
mod calls;
mod progress;
mod resume;
mod transcription;

pub use answers::{Answer, Done, FaultAt, Place, Refusal, State, Status, Told, fault_number};
pub use by_law::offer_by_law;
pub use calls::{Call, Transcript};
pub use progress::Progress;
pub use transcription::{Failure, Transcription, transcribe};

/// How many bytes a sector may have; more are refused by 1.
pub const LONGEST_SECTOR: usize = 4096;

/// How many bytes an output may have; more are refused by 2.
pub const LONGEST_OUTPUT: usize = 65_536;

/// How many bytes a whole source may have; more are refused by 3.
pub const LONGEST_SOURCE: u64 = 4_294_967_296;
