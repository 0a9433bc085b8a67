//! A run of a vector's questions to which our answer is the same.
ghost use Rattle.std.specs.Prelude.{◌≡◌, ◌≢◌, ◌+◌, ◌-◌, ◌≤◌};
ghost use Rattle.std.specs.Prelude.{true, IfOk, MatchOption};
ghost use Rattle.conformance.specs.Agreement.{Tells};
ghost use Rattle.conformance.specs.Differences.{first_byte, Apart, ApartInReading, ApartInWriting};
ghost use Rattle.conformance.specs.Held.{Accounted, AllAgree, AnsweredBy};
ghost use Rattle.conformance.specs.Meanings.{named_meaning};

use crate::answer::Reply;
use crate::known::{Known, beyond, front, in_6937, is_control, waits};
use crate::vector::{Question, Set, Vector};
use anyhow::bail;
use std::fmt;

/// Some numbers of a vector, and our answer to all of them.
#[derive(Clone, Copy)]
pub struct Stretch<'a> {
    vector: &'a Vector,
    from: u32,
    to: u32,
    ours: Reply,
    ghost some: { from ≤ to },
    ghost answered: { AnsweredBy vector.now from to ours },
}

impl<'a> Stretch<'a> {
    // A run of one question. An error, which names it, where our answer differs in no known way.
    pub(crate) fn at(vector: &'a Vector, number: u32) -> anyhow::Result<Stretch<'a>>
        ensures told { IfOk result (λ run.
            Tells (named_meaning vector.now.set) vector.now.question number run.ours) }
        ensures accounted { IfOk result (λ run. Accounted vector.now number run.ours) }
        ensures alone { IfOk result (λ run.
            (run.vector.now ≡ vector.now) × (run.from ≡ number) × (run.to ≡ number)) }
    {
        let run = Stretch {
            vector,
            from: number,
            to: number,
            ours: vector.ask(number),
        };
        if !run.is_accounted() {
            bail!("{run}");
        }
        Ok(run)
    }

    // Whether our answer agrees with theirs, or differs from it in a known way.
    fn is_accounted(&self) -> bool
        ensures { result ≡ true → Accounted self.now.vector.now self.now.from self.now.ours }
    {
        let agreed = self.ours.agrees(self.vector.answer);
        agreed || self.known().is_some()
    }

    // The run with the next one behind it, if our answer to both is the same.
    pub(crate) fn followed_by(self, next: Stretch<'a>) -> Option<Stretch<'a>>
        requires one_vector { next.vector.now ≡ self.vector.now }
        requires behind { self.from ≤ next.from }
        requires follows { next.from ≤ self.to + 1 }
        ensures { MatchOption result (next.entry.ours ≢ self.entry.ours) (λ run.
            (run.vector.now ≡ self.entry.vector.now) × (run.from ≡ self.entry.from)
            × (run.to ≡ next.entry.to) × (run.ours ≡ self.entry.ours)) }
    {
        if next.ours != self.ours {
            return None;
        }
        Some(Stretch {
            vector: self.vector,
            from: self.from,
            to: next.to,
            ours: self.ours,
        })
    }

    // Whether our answers to the numbers of the run agree with theirs.
    pub(crate) fn agrees(&self) -> bool
        ensures only_if_all_agree { result ≡ true →
            AllAgree self.now.vector.now self.now.from self.now.to }
        ensures whenever_all_agree { AllAgree self.now.vector.now self.now.from self.now.to →
            result ≡ true }
    {
        self.ours.agrees(self.vector.answer)
    }

    pub(crate) fn question_count(&self) -> u64
        ensures { result ≡ self.now.to + 1 - self.now.from }
    {
        (u64::from(self.to) + 1).saturating_sub(u64::from(self.from))
    }

    // The kind of the difference, if it is a known one.
    fn known(&self) -> Option<Known>
        ensures { Apart self.now.vector.now self.now.from self.now.ours result }
    {
        match self.vector.question {
            Question::Read { width } => self.in_reading(width),
            Question::Write => self.in_writing(),
        }
    }

    // A difference in what a string is read as.
    fn in_reading(&self, width: usize) -> Option<Known>
        ensures { ApartInReading self.now.vector.now.set width self.now.from
            self.now.vector.now.answer self.now.ours result }
    {
        let first = if width > 2 { self.from >> 8 } else { self.from };
        match (self.vector.set, self.vector.answer, self.ours) {
            (set, Reply::Open, Reply::Refused(_)) => waits(set, front(width, self.from)),
            (Set::Utf8, _, _) => None,
            (set, Reply::Character(character, 1), Reply::Refused(31)) => beyond(
                set, character, first,
            ),
            (Set::Iso6937, theirs, ours) => in_6937(self.from, theirs, ours),
            _ => None,
        }
    }

    // A difference in how a character is written.
    fn in_writing(&self) -> Option<Known>
        ensures { ApartInWriting self.now.vector.now.set self.now.from
            self.now.vector.now.answer self.now.ours result }
    {
        match (self.vector.set, self.from, self.vector.answer, self.ours) {
            (Set::Utf8, _, _, _) => None,
            (set, number, Reply::Bytes(byte, 1), Reply::NoCoding) if is_control(byte) => {
                beyond(set, number, byte)
            }
            (_, 0xE0000..=0xE007F, Reply::Bytes(0, 0), Reply::NoCoding) => Some(Known::Tags),
            (Set::Iso6937, 0x2014, Reply::Bytes(0xD0, 1), Reply::NoCoding) => Some(Known::Bar),
            (Set::Iso6937, 0x2015, Reply::NoCoding, Reply::Bytes(0xD0, 1)) => Some(Known::Bar),
            (Set::Iso6937, 0xD0, Reply::Bytes(0xE2, 1), Reply::NoCoding) => Some(Known::Stroke),
            (Set::Iso6937, 0x110, Reply::NoCoding, Reply::Bytes(0xE2, 1)) => Some(Known::Stroke),
            (Set::Iso6937, 0x123, Reply::Bytes(0xCB67, 2), Reply::Bytes(0xC267, 2)) => {
                Some(Known::SmallG)
            }
            _ => None,
        }
    }
}

/// A stretch, shown as if it ended at another number.
#[derive(Clone, Copy)]
pub struct ShownTo<'a> {
    pub run: Stretch<'a>,
    pub to: u32,
}

// Its text is not promised: the kind of a difference is a relation in the specs, and no function.
impl fmt::Display for ShownTo<'_> {
    fn fmt<W: fmt::Write>(&self, f: &mut fmt::Formatter<W>) -> fmt::Result {
        let Stretch {
            vector,
            from,
            ours,
            ..
        } = self.run;
        let Vector {
            set,
            question,
            answer,
            ..
        } = *vector;
        let to = self.to;
        match question {
            Question::Read { width } => write!(f, "read {set} {from:0width$X}-{to:0width$X}")?,
            Question::Write => write!(f, "write {set} U+{from:04X}-U+{to:04X}")?,
        }
        write!(f, ": {ours}, converter {answer}")?;
        match self.run.known() {
            Some(known) => write!(f, " ({known})"),
            None => write!(f, " (UNKNOWN)"),
        }
    }
}

impl fmt::Display for Stretch<'_> {
    fn fmt<W: fmt::Write>(&self, f: &mut fmt::Formatter<W>) -> fmt::Result {
        let shown = ShownTo {
            run: *self,
            to: self.to,
        };
        write!(f, "{shown}")
    }
}
