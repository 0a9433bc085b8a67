//! Codings of one, two and three bytes, with the coding that each becomes, kept as they are met.
ghost use Rattle.std.specs.Prelude.{◌≡◌, ◌+◌, ◌*◌, ◌%◌, length, take, Some, None};
ghost use Rattle.std.specs.Prelude.{[], ◌∷◌, replicate};
ghost use Rattle.charset.specs.Meaning.{Meaning};
ghost use Rattle.conversion.specs.Becomes.{becomes};
ghost use Rattle.conversion.specs.Met.{found_in, kept_with, Right, IsPlain, FoundNext};

use charset::Coding;

// A coding of the source set, and the coding that it becomes.
#[derive(Clone, Copy)]
struct Met<const N: usize> {
    bytes: [u8; N],
    coding: Coding,
}

// A place for each coding, which it shares with others: the last one that was met stands there.
#[derive(Clone, Copy)]
struct Places<const N: usize> {
    kept: [Option<Met<N>>; 256],
}

impl<const N: usize> Places<N> {
    // Nothing is kept.
    fn empty() -> Places<N>
        ensures { result.kept ≡ replicate 256 None }
    {
        Places { kept: [None; 256] }
    }

    // What a coding becomes, if it is kept at that place.
    fn find(&self, place: u8, bytes: [u8; N]) -> Option<Coding>
        ensures { result ≡ found_in self.now.kept place bytes.entry }
    {
        let met = self.kept[usize::from(place)]?;
        (met.bytes == bytes).then_some(met.coding)
    }

    // Keeps what a coding becomes at that place, instead of what is kept there.
    fn keep(&mut self, place: u8, bytes: [u8; N], coding: Coding)
        ensures { self.new.kept ≡ kept_with self.old.kept place bytes.entry coding }
    {
        self.kept[usize::from(place)] = Some(Met { bytes, coding });
    }
}

// The place of a coding that ends in these bytes.
fn place(first: u8, second: u8) -> u8
    ensures { result ≡ (first % 8) * 32 + second % 32 }
{
    first % 8 * 32 + second % 32
}

// The codings that were met.
#[derive(Clone, Copy)]
pub(crate) struct MetCodings {
    // What a byte becomes that stands alone in both sets; none where that was not met.
    singles: [Option<u8>; 256],
    // Whether a coding of two bytes that was met begins with a byte; and one of three.
    begins_pair: [bool; 256],
    begins_triple: [bool; 256],
    pairs: Places<2>,
    triples: Places<3>,
}

impl MetCodings {
    // No coding was met.
    pub(crate) fn empty() -> MetCodings
        ensures { (S T : Meaning) → Right S T result }
    {
        MetCodings {
            singles: [None; 256],
            begins_pair: [false; 256],
            begins_triple: [false; 256],
            pairs: Places::empty(),
            triples: Places::empty(),
        }
    }

    // The byte that a byte becomes, if both stand alone in their sets and that was met.
    pub(crate) fn single(&self, byte: u8) -> Option<u8>
        ensures { (S T : Meaning) → Right S T self.now → IsPlain S T byte result }
    {
        self.singles[usize::from(byte)]
    }

    // What the coding in front of the input becomes, and how many bytes it has, if it is kept and
    // has two or three.
    pub(crate) fn find(&self, input: &[u8]) -> Option<(Coding, usize)>
        ensures { (S T : Meaning) → Right S T self.now → FoundNext S T input.now result }
    {
        let [first, second, ..] = *input else {
            return None;
        };
        if self.begins_pair[usize::from(first)]
            && let Some(coding) = self.pairs.find(place(first, second), [first, second])
        {
            return Some((coding, 2));
        }
        if !self.begins_triple[usize::from(first)] {
            return None;
        }
        let [_, _, third, ..] = *input else {
            return None;
        };
        let coding = self
            .triples
            .find(place(second, third), [first, second, third])?;
        Some((coding, 3))
    }

    // Keeps what so many bytes in front of the input become.
    pub(crate) fn keep(&mut self, input: &[u8], length: usize, coding: Coding)
        ensures { (S T : Meaning) → Right S T self.old
            → becomes S T (take length input.now) ≡ Some coding → Right S T self.new }
    {
        match (length, input) {
            (1, [first, ..]) => self.keep_single(*first, coding),
            (2, [first, second, ..]) => {
                self.begins_pair[usize::from(*first)] = true;
                self.pairs
                    .keep(place(*first, *second), [*first, *second], coding);
            }
            (3, [first, second, third, ..]) => {
                self.begins_triple[usize::from(*first)] = true;
                self.triples
                    .keep(place(*second, *third), [*first, *second, *third], coding);
            }
            _ => {}
        }
    }

    // Keeps what a byte alone becomes, if that is one byte.
    fn keep_single(&mut self, byte: u8, coding: Coding)
        ensures { (S T : Meaning) → Right S T self.old
            → becomes S T (byte ∷ []) ≡ Some coding → Right S T self.new }
    {
        if let [only] = coding.as_bytes() {
            self.singles[usize::from(byte)] = Some(*only);
        }
    }
}
