//! The format of a roll: pages, then an index, then a trailer of sixteen bytes. Rolls are packed
//! and opened here.
#![tactic(auto)]

mod builder;
mod each_page;
mod index;
mod pack_refusal;
mod page;
mod refusal;
mod roll;

pub use builder::Builder;
pub use each_page::Pages;
pub use pack_refusal::PackRefusal;
pub use page::{Form, Page, UnknownForm};
pub use refusal::{RefusalTold, RollRefusal};
pub use roll::Roll;

/// The fewest bytes that a roll has: those of a trailer.
pub const SMALLEST_ROLL: usize = 16;

/// The most bytes that a roll has.
pub const LARGEST_ROLL: usize = 1_048_576;

/// The most pages that a roll has.
pub const MOST_PAGES: usize = 1_024;

// How many bytes an entry of the index has.
const ENTRY_BYTES: usize = 12;

// How many bytes the trailer has.
const TRAILER_BYTES: usize = 16;

/// The highest number of a form.
pub const LAST_FORM: u8 = 7;
