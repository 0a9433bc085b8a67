//! Four layers, each a character set over any character set.
#![tactic(auto)]

mod cause;
mod controls;
mod deeper;
mod forms;
mod list;
mod recoded;
mod recoding;
mod stack;
mod subrepertoire;

pub use cause::Cause;
pub use controls::Controls;
pub use forms::{EvenParity, SingleShift};
pub use list::{CharacterList, LAST_CHARACTER, ListRefusal, MOST_CHARACTERS};
pub use recoded::Recoded;
pub use recoding::{ByteForm, Move, WrittenByte};
pub use stack::{Parity, Shift, with_controls, with_list, with_parity, with_shift};
pub use subrepertoire::Subrepertoire;
