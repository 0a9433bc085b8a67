//! A roll that is being packed.
ghost use Rattle.std.specs.Prelude.{◌≡◌, ◌+◌, ◌≤◌, [], ◌∷◌, ◌++◌, length};
ghost use Rattle.std.specs.Prelude.{sum_by, IfOk, OnOk};
ghost use Rattle.roll.specs.Packed.{trailer_of};
ghost use Rattle.roll.specs.Built.{index_of};

use crate::pack_refusal::PackRefusal;
use crate::{ENTRY_BYTES, LARGEST_ROLL, LAST_FORM, MOST_PAGES, TRAILER_BYTES};
use std::alloc::{AllocError, Global};
use std::marker::Model;

// The number of a page's form, 0 for a picture, and how many bytes the page has.
#[derive(Clone, Copy)]
struct NewEntry {
    form: u8,
    size: u32,
}

/// Packs pages into a roll. In contracts it is the pages so far, each a form and bytes.
#[derive(Drop)]
pub struct Builder {
    // The bytes of the pages, one page behind the other.
    bytes: Vec<u8>,
    // An entry for each page, in their order.
    entries: Vec<NewEntry>,
}

impl Model for Builder {
    ghost use Rattle.std.specs.Prelude.{List};
    ghost use Rattle.roll.specs.Packed.{PackedPage};

    ghost Value = { List PackedPage };

    ghost use Rattle.roll.specs.Built.{pages_in, IsBuilt};

    ghost view = { λ b. pages_in b.entries.items b.bytes.items };

    ghost invariant = { λ b. IsBuilt b.entries.items b.bytes.items };
}

impl Builder {
    ghost use Rattle.roll.specs.Packed.{PackedPage, page_of, used_by, packed, RoomFor, FitsRoll};
    ghost use Rattle.roll.specs.RollOf.{IsRollOf};

    /// No pages yet.
    pub fn new(heap: Global) -> Builder
        ensures { result ≡ [] }
    {
        Builder {
            bytes: Vec::new(heap),
            entries: Vec::new(heap),
        }
    }

    // How many pages there are.
    #[tactic(auto, using(crate::proofs::Built::the_pages))]
    fn page_count(&self) -> usize
        ensures { result ≡ length self.now }
    {
        self.entries.len()
    }

    // How many bytes the roll has as it stands.
    #[tactic(auto, using(crate::proofs::Built::the_pages))]
    fn roll_size(&self) -> usize
        ensures size { result ≡ used_by self.now + TRAILER_BYTES }
        ensures fits { FitsRoll self.now }
    {
        self.bytes.len() + ENTRY_BYTES * self.entries.len() + TRAILER_BYTES
    }

    /// One page more, behind the others, by the number of its form, 0 for a picture. Refused are a
    /// form above 7, a page beyond the 1,024th, and one with which the roll would have more than
    /// 1,048,576 bytes.
    #[tactic(auto, using(crate::proofs::Built::pages_in_push))]
    pub fn with_page(self, form: u8, page: &[u8]) -> Result<Builder, PackRefusal>
        ensures fits { FitsRoll self }
        ensures room { RoomFor form (length self) (used_by self) (length page.now) result }
        ensures added { IfOk result (λ b. b ≡ self ++ page_of form page.now ∷ []) }
    {
        let roll_size = self.roll_size() + ENTRY_BYTES + page.len();
        if form > LAST_FORM {
            return Err(PackRefusal::FormTooHigh);
        }
        if self.page_count() >= MOST_PAGES {
            return Err(PackRefusal::TooManyPages);
        }
        if roll_size > LARGEST_ROLL {
            return Err(PackRefusal::TooLong);
        }
        let Builder {
            mut bytes,
            mut entries,
        } = self;
        let size = page.len() as u32;
        entries
            .push(NewEntry { form, size })
            .map_err(AllocError::from)?;
        bytes.extend_from_slice(page)?;
        Ok(Builder { bytes, entries })
    }

    /// The bytes of the roll: the pages, the index and the trailer. They open, and the pages are
    /// these.
    #[tactic(auto, using(crate::proofs::Built::the_pages))]
    pub fn finish(self) -> Result<Vec<u8>, AllocError>
        ensures fits { FitsRoll self }
        ensures roll { IfOk result (λ roll. roll.items ≡ packed self) }
        ensures opens { IfOk result (λ roll. IsRollOf self roll.items) }
    {
        let Builder { bytes, entries } = self;
        let total = bytes.len() as u32;
        let mut roll = bytes;
        write_index(&mut roll, &entries)?;
        write_trailer(&mut roll, total, entries.len() as u32)?;
        Ok(roll)
    }
}

// Writes the index, an entry to a page.
fn write_index(roll: &mut Vec<u8>, entries: &[NewEntry]) -> Result<(), AllocError>
    requires { sum_by (λ e. e.size) entries.now ≤ LARGEST_ROLL }
    ensures { OnOk result (roll.new.items ≡ roll.old.items ++ index_of 0 entries.now) }
{
    let mut offset = 0u32;
    for entry in entries {
        roll.extend_from_slice(&offset.to_be_bytes())?;
        roll.extend_from_slice(&entry.size.to_be_bytes())?;
        roll.extend_from_slice(&[entry.form, 0, 0, 0])?;
        offset += entry.size;
    }
    Ok(())
}

// Writes the trailer, which has the total of the pages' lengths and their count.
fn write_trailer(roll: &mut Vec<u8>, total: u32, count: u32) -> Result<(), AllocError>
    ensures { OnOk result (roll.new.items ≡ roll.old.items ++ trailer_of total count) }
{
    roll.extend_from_slice(&total.to_be_bytes())?;
    roll.extend_from_slice(&count.to_be_bytes())?;
    roll.extend_from_slice(&total.to_be_bytes())?;
    roll.extend_from_slice(b"ROLL")?;
    Ok(())
}
