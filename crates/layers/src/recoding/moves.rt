//! The steps of reading and writing, where a byte below is written as one or two bytes.

/// What reading one more byte does.
#[derive(Clone, Copy, PartialEq, Eq, Debug)]
pub enum Move {
    /// This byte below is complete.
    Emit(u8),
    /// It takes one more byte.
    Hold,
}

/// How a byte below is written: as one byte, or as two in this order.
#[derive(Clone, Copy, PartialEq, Eq, Debug)]
pub enum WrittenByte {
    /// As itself or another byte.
    One(u8),
    /// As these two.
    Two(u8, u8),
}
