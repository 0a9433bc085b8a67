//! A coding is a byte string of one to four bytes.
ghost use Rattle.std.specs.Prelude.{◌≡◌, [], ◌∷◌};
ghost use Rattle.charset.specs.Strings.{OneToFour, with_byte, unless_empty};

use crate::front::Front;
use std::marker::Model;

/// The coding of a character, one to four bytes. In contracts it is its list of bytes.
#[derive(Clone, Copy)]
pub struct Coding {
    front: Front,
}

impl Model for Coding {
    ghost use Rattle.std.specs.Prelude.{ℕ, ◌<◌, List, length};

    ghost Value = { List ℕ };

    ghost view = { λ k. k.front };

    ghost invariant = { λ k. 0 < length k.front };

    ghost inverse = { λ s. record { front = s } };
}

impl Coding {
    /// The coding of one byte.
    pub fn new(first: u8) -> Coding
        ensures { result ≡ first ∷ [] }
    {
        Coding {
            front: Front::of_one(first),
        }
    }

    /// The coding of these bytes; `None` if there are none.
    pub fn of(front: Front) -> Option<Coding>
        ensures { result ≡ unless_empty front }
    {
        if front.as_bytes().is_empty() {
            None
        } else {
            Some(Coding { front })
        }
    }

    /// The coding with one more byte behind; `None` if it has four already.
    pub fn then(self, byte: u8) -> Option<Coding>
        ensures { result ≡ with_byte self byte }
    {
        let front = self.front.then(byte)?;
        Some(Coding { front })
    }

    /// Its bytes, from the first.
    pub fn as_bytes(&self) -> &[u8]
        ensures bytes { result.now ≡ self.now }
        ensures sized { OneToFour result.now }
    {
        self.front.as_bytes()
    }
}
