//! Why a call of a C client does not succeed.
ghost use Rattle.std.specs.Prelude.{◌≡◌};
ghost use Rattle.c_interface.specs.declared.refusal.CallRefusal.TheVariants as refusal;
ghost use Rattle.c_interface.specs.Refusals.{call_told};

use roll::UnknownForm;
use std::alloc::AllocError;
use std::num::TryFromIntError;
use transcript::{Refusal, Told};

/// Why a call of a C client does not succeed.
#[derive(Clone, Copy, PartialEq, Eq, Debug)]
pub enum CallRefusal {
    /// There is no memory for the list of a form.
    NoMemory,
    /// No form has that number.
    UnknownForm,
    /// The record's numbers are not those of a transcript.
    NoTranscript,
    /// The transcript refuses.
    Refused(Refusal),
}

impl CallRefusal {
    /// The refusal by its number and values: 0, 101, 102, or what the transcript tells.
    pub fn told(&self) -> Told
        ensures { result ≡ call_told self.now }
    {
        let number = match self {
            CallRefusal::NoMemory => 0,
            CallRefusal::UnknownForm => 101,
            CallRefusal::NoTranscript => 102,
            CallRefusal::Refused(refusal) => return refusal.told(),
        };
        Told {
            number,
            ..Told::default()
        }
    }
}

impl From<AllocError> for CallRefusal {
    ghost from_gives = { λ _ r. r ≡ refusal.NoMemory };

    fn from(_error: AllocError) -> CallRefusal {
        CallRefusal::NoMemory
    }
}

impl From<TryFromIntError> for CallRefusal {
    ghost from_gives = { λ _ r. r ≡ refusal.UnknownForm };

    fn from(_error: TryFromIntError) -> CallRefusal {
        CallRefusal::UnknownForm
    }
}

impl From<UnknownForm> for CallRefusal {
    ghost from_gives = { λ _ r. r ≡ refusal.UnknownForm };

    fn from(_error: UnknownForm) -> CallRefusal {
        CallRefusal::UnknownForm
    }
}

impl From<Refusal> for CallRefusal {
    ghost from_gives = { λ q r. r ≡ refusal.Refused q };

    fn from(refusal: Refusal) -> CallRefusal {
        CallRefusal::Refused(refusal)
    }
}
