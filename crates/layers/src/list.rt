//! A subrepertoire's list of characters.
ghost use Rattle.std.specs.Prelude.{◌≡◌, ◌<◌, length, IfOk, IfErr, OnOk, OnErr};
ghost use Rattle.std.specs.Prelude.{MatchOption};
ghost use Rattle.layers.specs.declared.list.ListRefusal.TheVariants.{NoMemory};
ghost use Rattle.layers.specs.CharacterList.{required, on_list, rises_at, Rising, Complete, Sound};
ghost use Rattle.layers.specs.Refusals.{list_told};
ghost use Rattle.layers.specs.Filled.{FirstNotRising, FirstMissing, FirstUncoded, AllCoded};
ghost use Rattle.layers.specs.Filled.{Acceptable, HasGround, RefusedAs, OneAnswer};

use charset::CharacterSet;
use std::alloc::{AllocError, Global};
use std::marker::Model;

/// How many characters a list may have.
pub const MOST_CHARACTERS: usize = 512;

/// The last code point.
pub const LAST_CHARACTER: u32 = 0x10FFFF;

// The characters that every list holds (ISO/IEC 6937, clause 9): SPACE, A to Z, a to z, 0 to 9 and
// ' ( ) + , - . / : = ?
#[rattlefmt::skip]
const REQUIRED: [u32; 74] = [
    0x20, 0x27, 0x28, 0x29, 0x2B, 0x2C, 0x2D, 0x2E, 0x2F,
    0x30, 0x31, 0x32, 0x33, 0x34, 0x35, 0x36, 0x37, 0x38, 0x39,
    0x3A, 0x3D, 0x3F,
    0x41, 0x42, 0x43, 0x44, 0x45, 0x46, 0x47, 0x48, 0x49, 0x4A, 0x4B, 0x4C, 0x4D,
    0x4E, 0x4F, 0x50, 0x51, 0x52, 0x53, 0x54, 0x55, 0x56, 0x57, 0x58, 0x59, 0x5A,
    0x61, 0x62, 0x63, 0x64, 0x65, 0x66, 0x67, 0x68, 0x69, 0x6A, 0x6B, 0x6C, 0x6D,
    0x6E, 0x6F, 0x70, 0x71, 0x72, 0x73, 0x74, 0x75, 0x76, 0x77, 0x78, 0x79, 0x7A,
];

/// Why numbers do not become a list: the first of these that applies.
#[derive(Clone, Copy, PartialEq, Eq, Debug)]
pub enum ListRefusal {
    /// There are more than [`MOST_CHARACTERS`].
    TooMany,
    /// The number at this index, from 0, is the first that is not above the one before it or lies
    /// over U+10FFFF.
    NotIncreasing(usize),
    /// The smallest of the 74 required characters that is not among them.
    Missing(u32),
    /// The smallest of them that has no coding in the set.
    NoCoding(u32),
    /// There is no memory for the list.
    NoMemory,
}

impl ListRefusal {
    /// The number that the refusal is told by: 10 to 13, and 0 for want of memory.
    pub fn number(&self) -> u8
        ensures { result ≡ (list_told self.now).number }
    {
        match self {
            ListRefusal::TooMany => 10,
            ListRefusal::NotIncreasing(_) => 11,
            ListRefusal::Missing(_) => 12,
            ListRefusal::NoCoding(_) => 13,
            ListRefusal::NoMemory => 0,
        }
    }
}

impl From<AllocError> for ListRefusal {
    ghost from_gives = { λ _ r. r ≡ NoMemory };

    fn from(_error: AllocError) -> Self {
        Self::NoMemory
    }
}

/// At most 512 characters in increasing order, among them the 74 that every list has (ISO/IEC 6937,
/// clause 9). In contracts a list is its characters.
#[derive(Drop)]
pub struct CharacterList {
    characters: Vec<u32>,
}

impl Model for CharacterList {
    ghost use Rattle.std.specs.Prelude.{ℕ, List};
    ghost use Rattle.layers.specs.CharacterList.{Sound};

    ghost Value = { List ℕ };

    ghost view = { λ l. l.characters.items };

    ghost invariant = { λ l. Sound l.characters.items };
}

impl CharacterList {
    /// The required characters and no others; fails only for want of memory.
    pub fn new(heap: Global) -> Result<CharacterList, AllocError>
        ensures characters { IfOk result (λ l. l ≡ required) }
        ensures sound { IfOk result (λ l. Sound l) }
    {
        let characters = REQUIRED.to_vec(heap)?;
        Ok(CharacterList { characters })
    }

    /// Whether a character is on the list.
    pub fn contains(&self, character: u32) -> bool
        ensures found { result ≡ on_list self.now character }
        ensures sound { Sound self.now }
    {
        listed(self.characters.as_slice(), character)
    }

    /// Replaces the list by these code points, each of which must have a coding in the set. If it
    /// refuses them, the list stays as it was.
    pub fn fill<S: CharacterSet>(
        &mut self,
        heap: Global,
        numbers: &[u32],
        set: &S,
    ) -> Result<(), ListRefusal>
        ensures fit { OnOk result (Acceptable (S.codings set.now) numbers.now) }
        ensures replaced { OnOk result (self.new ≡ numbers.now) }
        ensures refused { IfErr result (RefusedAs (S.codings set.now) numbers.now) }
        ensures kept { OnErr result (self.new ≡ self.old) }
        ensures sound { Sound self.new }
        ensures one_answer { OneAnswer (S.codings set.now) numbers.now }
    {
        self.assert_sound();
        check(numbers, set)?;
        self.characters = numbers.to_vec(heap)?;
        Ok(())
    }

    // What every list keeps, told to callers that know its characters alone.
    pub(crate) fn assert_sound(&self)
        ensures { Sound self.now }
    {
        let _ = &self.characters;
    }
}

// Whether numbers make a list, whatever memory there is, or why not.
fn check<S: CharacterSet>(numbers: &[u32], set: &S) -> Result<(), ListRefusal>
    ensures fit { OnOk result (Acceptable (S.codings set.now) numbers.now) }
    ensures refused { IfErr result (HasGround (S.codings set.now) numbers.now) }
{
    if numbers.len() > MOST_CHARACTERS {
        return Err(ListRefusal::TooMany);
    }
    if let Some(index) = first_not_rising(numbers) {
        return Err(ListRefusal::NotIncreasing(index));
    }
    if let Some(character) = first_missing(numbers) {
        return Err(ListRefusal::Missing(character));
    }
    if let Some(character) = first_uncoded(numbers, set) {
        return Err(ListRefusal::NoCoding(character));
    }
    Ok(())
}

// Whether a character is among characters that rise.
fn listed(characters: &[u32], character: u32) -> bool
    requires { Rising characters.now }
    ensures { result ≡ on_list characters.now character }
{
    characters.binary_search(&character).is_ok()
}

// Whether the number at an index is at most U+10FFFF and above the one before it.
fn rises_at(numbers: &[u32], i: usize) -> bool
    requires { i < length numbers.now }
    ensures { result ≡ rises_at numbers.now i }
{
    numbers[i] <= LAST_CHARACTER && (i == 0 || numbers[i - 1] < numbers[i])
}

// The first index whose number is not above the one before it or lies over U+10FFFF.
fn first_not_rising(numbers: &[u32]) -> Option<usize>
    ensures { MatchOption result (Rising numbers.now) (λ i. FirstNotRising numbers.now i) }
{
    (0..numbers.len()).find(|i| !rises_at(numbers, *i))
}

// The smallest required character that is not among the numbers, which rise.
fn first_missing(numbers: &[u32]) -> Option<u32>
    requires { Rising numbers.now }
    ensures { MatchOption result (Complete numbers.now) (λ c. FirstMissing numbers.now c) }
{
    REQUIRED
        .iter()
        .copied()
        .find(|character| !listed(numbers, *character))
}

// The smallest of the numbers, which rise, that has no coding in the set.
fn first_uncoded<S: CharacterSet>(numbers: &[u32], set: &S) -> Option<u32>
    requires { Rising numbers.now }
    ensures { MatchOption result (AllCoded (S.codings set.now) numbers.now)
        (FirstUncoded (S.codings set.now) numbers.now) }
{
    numbers
        .iter()
        .copied()
        .find(|number| set.write(*number).is_err())
}
