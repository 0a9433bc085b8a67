//! A roll, opened.
ghost use Rattle.std.specs.Prelude.{◌≡◌, IfOk, IfErr};
ghost use Rattle.roll.specs.Format.{page_count};
ghost use Rattle.roll.specs.Opened.{Accepted, RefusedAs, OneAnswer};
ghost use Rattle.std.proofs.Props.{props};

use crate::each_page::Pages;
use crate::index::{Index, word_at};
use crate::page::{Form, Page};
use crate::refusal::RollRefusal;
use crate::{ENTRY_BYTES, LARGEST_ROLL, MOST_PAGES, SMALLEST_ROLL, TRAILER_BYTES};

// The letters ROLL.
const MARK: u32 = 0x524F_4C4C;

/// A roll that keeps every rule of the format.
#[derive(Clone, Copy)]
pub struct Roll<'a> {
    index: Index<'a>,
    pub ghost accepted: { Accepted index.bytes.now } by { Prim.hlevel props },
}

impl<'a> Roll<'a> {
    ghost use Rattle.roll.specs.Pages.{PageAt};
    ghost use Rattle.roll.specs.Rolls.{bytes_of, IsRoll};
    ghost use Rattle.roll.specs.EachPage.{source};

    /// Checks every rule of the format, in the order of the refusals' numbers, and refuses the
    /// bytes by the first that they break.
    #[tactic(auto, using(crate::proofs::OneAnswer::one_answer))]
    pub fn open(bytes: &'a [u8]) -> Result<Roll<'a>, RollRefusal>
        ensures opened { IfOk result (IsRoll bytes.now) }
        ensures refused { IfErr result (RefusedAs bytes.now) }
        ensures one_answer { OneAnswer bytes.now }
    {
        let len = bytes.len();
        if len < SMALLEST_ROLL || len > LARGEST_ROLL {
            return Err(RollRefusal::WrongSize);
        }
        if word_at(bytes, len - 4) != MARK {
            return Err(RollRefusal::NoMark);
        }
        let start = word_at(bytes, len - TRAILER_BYTES) as usize;
        let count = word_at(bytes, len - 12) as usize;
        if count > MOST_PAGES || start + ENTRY_BYTES * count + TRAILER_BYTES != len {
            return Err(RollRefusal::WrongIndex);
        }
        let index = Index {
            bytes,
            start,
            count,
        };
        let total = index.checked_total()?;
        if word_at(bytes, len - 8) as usize != total {
            return Err(RollRefusal::WrongTotal);
        }
        Ok(Roll { index })
    }

    /// How many pages it has.
    pub fn count(&self) -> usize
        ensures { result ≡ page_count (bytes_of self.now) }
    {
        self.index.count
    }

    /// A page by its number, from 1; [`RollRefusal::NoSuchPage`] for 0 or a number above the count.
    #[tactic(auto, using(crate::proofs::Inside::page_inside))]
    pub fn page(&self, number: usize) -> Result<Page<'a>, RollRefusal>
        ensures { PageAt (bytes_of self.now) number result }
    {
        if number == 0 || number > self.index.count {
            return Err(RollRefusal::NoSuchPage);
        }
        let entry = self.index.entry(number - 1);
        let offset = entry.offset;
        let part = &self.index.bytes[offset..entry.end];
        // Each of the eight forms but a picture's is one of text.
        Ok(match Form::try_from(entry.form) {
            Ok(form) => Page::Text { form, part, offset },
            Err(_) => Page::Picture { part, offset },
        })
    }

    /// All its pages with their numbers, from the first.
    pub fn pages(&self) -> Pages<'a>
        ensures from_here { source result ≡ bytes_of self.now }
        ensures first { result.past ≡ 0 }
    {
        Pages {
            roll: *self,
            past: 0,
        }
    }
}
