//! Reading in any set, by the laws.
ghost use Rattle.charset.specs.Sets.{set_of};
ghost use Rattle.charset.specs.Decoding.{ReadByLaws};

use crate::{CharacterSet, Reading, SetRefusal};

/// What stands in front of `bytes` in any set: the set's own answer, its refusal among them. By the
/// laws there is no other answer, no more than four bytes decide it, and what is read so, coding
/// after coding, is read in one way only.
pub fn read_front<S: CharacterSet>(set: &S, bytes: &[u8]) -> Result<Reading, SetRefusal>
    ensures { ReadByLaws (set_of S.CharacterSet set.now) bytes.now result }
{
    set.read(bytes)
}
