//! The character sets that stand on no other: ISO/IEC 6937, ISO/IEC 8859-16, the Sami set and
//! UTF-8.
#![tactic(auto)]

mod cause;
mod columns;
mod iso6937;
mod reading;
mod single_byte;
mod utf8;

pub use cause::Cause;
pub use iso6937::Iso6937;
pub use single_byte::SingleByte;
pub use utf8::{Utf8, openings_begin_codings};
