//! Why a roll, or a page of it, is refused.
ghost use Rattle.std.specs.Prelude.{◌≡◌};
ghost use Rattle.report.specs.declared.fault.RollFault.TheVariants.{Refused, Faulted};
ghost use Rattle.report.specs.Told.{fault_told};

use roll::RollRefusal;
use transcript::{FaultAt, Told};

/// Why a roll, or a page of it, is not transcribed to its end.
#[derive(Clone, Copy, PartialEq, Eq, Debug)]
pub enum RollFault {
    /// The container is refused, or has no such page.
    Refused(RollRefusal),
    /// The transcript of a page met a fault.
    Faulted {
        /// The page, from 1.
        page: u32,
        /// The fault, with its place in the page.
        fault: FaultAt,
    },
}

impl From<RollRefusal> for RollFault {
    ghost from_gives = { λ e r. r ≡ Refused e };

    fn from(refusal: RollRefusal) -> RollFault {
        RollFault::Refused(refusal)
    }
}

/// The transcript's fault, with the page number.
impl From<(u32, FaultAt)> for RollFault {
    ghost from_gives = { λ e r. r ≡ Faulted e.0 e.1 };

    fn from((page, fault): (u32, FaultAt)) -> RollFault {
        RollFault::Faulted { page, fault }
    }
}

/// A roll's fault by its number and its values, as docs/REFUSALS.md lists them. What does not come
/// with the number is 0.
#[derive(Clone, Copy, PartialEq, Eq, Debug)]
pub struct RollTold {
    /// The number of the refusal, and all that comes with the fault of a page.
    pub told: Told,
    /// The first entry that breaks a rule, from 1, which comes with 17.
    pub entry: u32,
    /// The page that met a fault, from 1.
    pub page: u32,
}

impl RollFault {
    /// The fault by its number and values.
    pub fn told(&self) -> RollTold
        ensures { result ≡ fault_told self.now }
    {
        match *self {
            RollFault::Refused(refusal) => {
                let refused = refusal.told();
                RollTold {
                    told: Told {
                        number: refused.number,
                        ..Told::default()
                    },
                    entry: refused.entry,
                    page: 0,
                }
            }
            RollFault::Faulted { page, fault } => RollTold {
                told: Told::from(fault),
                entry: 0,
                page,
            },
        }
    }
}
