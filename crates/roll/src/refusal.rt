//! Why a roll is refused.
ghost use Rattle.std.specs.Prelude.{◌≡◌};
ghost use Rattle.roll.specs.Told.{refusal_told};

/// A rule of the format that a roll breaks, or a page that it does not have.
#[derive(Clone, Copy, PartialEq, Eq, Debug)]
pub enum RollRefusal {
    /// Under 16 or over 1,048,576 bytes.
    WrongSize,
    /// The last four bytes are not `ROLL`.
    NoMark,
    /// More than 1,024 pages, or the index does not end just where the trailer begins.
    WrongIndex,
    /// The first entry, from 1, that breaks a rule; 0 where there are no pages and the index does
    /// not begin at 0.
    BadEntry(u32),
    /// The total is not the sum of the lengths.
    WrongTotal,
    /// Page 0, or one above the count.
    NoSuchPage,
}

/// A refusal by its number, as it is printed.
#[derive(Clone, Copy, PartialEq, Eq, Debug)]
pub struct RefusalTold {
    /// The number, 14 to 19.
    pub number: u8,
    /// The entry that comes with 17; 0 with any other number.
    pub entry: u32,
}

impl RollRefusal {
    /// The refusal by its number and value.
    pub fn told(&self) -> RefusalTold
        ensures { result ≡ refusal_told self.now }
    {
        let (number, entry) = match *self {
            RollRefusal::WrongSize => (14, 0),
            RollRefusal::NoMark => (15, 0),
            RollRefusal::WrongIndex => (16, 0),
            RollRefusal::BadEntry(entry) => (17, entry),
            RollRefusal::WrongTotal => (18, 0),
            RollRefusal::NoSuchPage => (19, 0),
        };
        RefusalTold { number, entry }
    }
}
