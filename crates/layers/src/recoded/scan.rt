//! What the front of a string stands for below.
use charset::Front;

/// What the first four bytes of a string stand for below.
#[derive(Clone, Copy)]
pub struct Scan {
    /// The bytes below, up to a byte that cannot stand where it does.
    pub below: Front,
    /// Whether there is such a byte.
    pub broken: bool,
}
