//! The index of a roll, and the rules of its entries.
ghost use Rattle.std.specs.Prelude.{◌≡◌, ◌+◌, ◌<◌, ◌≤◌, length};
ghost use Rattle.roll.specs.Format.{word, index_offset, page_count, starts, Indexed};

use crate::refusal::RollRefusal;
use crate::{ENTRY_BYTES, LAST_FORM};

// Four bytes as a number, the highest first.
pub(crate) fn word_at(bytes: &[u8], at: usize) -> u32
    requires { at + 4 ≤ length bytes.now }
    ensures { result ≡ word bytes.now at }
{
    u32::from_be_bytes([bytes[at], bytes[at + 1], bytes[at + 2], bytes[at + 3]])
}

// What an entry says, whether it keeps the rules or not: where its page begins and ends, its form,
// whatever number that is, and whether the three bytes behind are 00.
#[derive(Clone, Copy)]
pub(crate) struct Entry {
    pub(crate) offset: usize,
    pub(crate) end: usize,
    pub(crate) form: u8,
    pub(crate) padded: bool,
}

// The bytes of a roll, where the index begins in them, and how many entries it has.
#[derive(Clone, Copy)]
pub(crate) struct Index<'a> {
    pub(crate) bytes: &'a [u8],
    pub(crate) start: usize,
    pub(crate) count: usize,
    pub(crate) ghost start_is: { start ≡ index_offset bytes.now },
    pub(crate) ghost count_is: { count ≡ page_count bytes.now },
    pub(crate) ghost indexed: { Indexed bytes.now },
}

impl Index<'_> {
    ghost use Rattle.roll.specs.Entries.{EntryAt, CheckedEnd};
    ghost use Rattle.roll.specs.Opened.{Checked};

    // An entry by its place from 0.
    pub(crate) fn entry(&self, place: usize) -> Entry
        requires { place < self.now.count }
        ensures { EntryAt self.now.bytes.now place result }
    {
        let bytes = self.bytes;
        let at = self.start + ENTRY_BYTES * place;
        let offset = word_at(bytes, at) as usize;
        Entry {
            offset,
            end: offset + word_at(bytes, at + 4) as usize,
            form: bytes[at + 8],
            padded: bytes[at + 9] == 0 && bytes[at + 10] == 0 && bytes[at + 11] == 0,
        }
    }

    // Where the page of an entry ends, if the entry keeps the rules and the page before ends at
    // `start`.
    fn checked_end(&self, place: usize, start: usize) -> Result<usize, RollRefusal>
        requires below { place < self.now.count }
        requires follows { start ≡ starts self.now.bytes.now place }
        ensures { CheckedEnd self.now.bytes.now place result }
    {
        let entry = self.entry(place);
        let holds = entry.offset == start
            && entry.form <= LAST_FORM
            && entry.padded
            && (place + 1 != self.count || entry.end == self.start);
        if !holds {
            return Err(RollRefusal::BadEntry(place as u32 + 1));
        }
        Ok(entry.end)
    }

    // Where the last page ends, which is the sum of the lengths, if every entry keeps the rules.
    pub(crate) fn checked_total(&self) -> Result<usize, RollRefusal>
        ensures { Checked self.now.bytes.now result }
    {
        if self.count == 0 && self.start != 0 {
            return Err(RollRefusal::BadEntry(0));
        }
        let mut end = 0;
        for place in 0..self.count {
            end = self.checked_end(place, end)?;
        }
        Ok(end)
    }
}
