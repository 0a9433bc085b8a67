//! The first bytes of a string, up to four: as many as decide what stands in front of it.
ghost use Rattle.std.specs.Prelude.{◌≡◌, ◌≤◌, [], ◌∷◌, ◌++◌};
ghost use Rattle.std.specs.Prelude.{length, take, drop};
ghost use Rattle.charset.specs.Strings.{with_byte};

use std::marker::Model;

/// A string of at most four bytes. In contracts it is its list of bytes.
#[derive(Clone, Copy)]
pub struct Front {
    bytes: [u8; 4],
    len: u8,
}

// The places behind the bytes hold 0.
impl Model for Front {
    ghost use Rattle.std.specs.Prelude.{ℕ, List, take, length};
    ghost use Rattle.std.proofs.Common.{ap₂};
    ghost use Rattle.charset.specs.Padding.{Padded, padded};
    ghost use Rattle.charset.specs.Laws.Padding.{places_back, size_back};

    ghost Value = { List ℕ };

    ghost view = { λ f. take f.len f.bytes };

    ghost invariant = { λ f. Padded f.bytes f.len };

    ghost inverse = { λ s. record { bytes = padded s; len = length s } };

    ghost inverse_ok = { λ f h. ap₂ (λ b n. record { bytes = b; len = n })
        (places_back f.bytes f.len h) (size_back f.bytes f.len h) };
}

impl Front {
    /// The empty string.
    pub fn empty() -> Front
        ensures { result ≡ [] }
    {
        Front {
            bytes: [0; 4],
            len: 0,
        }
    }

    // The string of one byte.
    pub(crate) fn of_one(first: u8) -> Front
        ensures { result ≡ first ∷ [] }
    {
        Front {
            bytes: [first, 0, 0, 0],
            len: 1,
        }
    }

    /// How many bytes there are.
    pub fn len(&self) -> usize
        ensures value { result ≡ length self.now }
        ensures few { result ≤ 4 }
    {
        self.as_bytes().len()
    }

    /// The string with one more byte behind; `None` if it has four already.
    pub fn then(self, byte: u8) -> Option<Front>
        ensures { result ≡ with_byte self byte }
    {
        if self.len >= 4 {
            return None;
        }
        let mut bytes = self.bytes;
        bytes[usize::from(self.len)] = byte;
        Some(Front {
            bytes,
            len: self.len + 1,
        })
    }

    /// The first four bytes of these and then `more`, or all where there are fewer.
    pub fn followed_by(self, more: &[u8]) -> Front
        ensures { result ≡ take 4 (self ++ more.now) }
    {
        let start = usize::from(self.len);
        let len = (4 - start).min(more.len());
        let mut bytes = self.bytes;
        bytes[start..start + len].copy_from_slice(&more[..len]);
        Front {
            bytes,
            len: (start + len) as u8,
        }
    }

    /// The first four bytes from the place `at` on, counted from 0, in these and then `more`.
    pub fn window(self, more: &[u8], at: usize) -> Front
        ensures { result ≡ take 4 (drop at (self ++ more.now)) }
    {
        let first = self.as_bytes();
        let start = at.min(first.len());
        let behind = (at - start).min(more.len());
        Front::empty()
            .followed_by(&first[start..])
            .followed_by(&more[behind..])
    }

    /// Its bytes, from the first.
    pub fn as_bytes(&self) -> &[u8]
        ensures bytes { result.now ≡ self.now }
        ensures few { length result.now ≤ 4 }
    {
        &self.bytes[0..usize::from(self.len)]
    }
}
