//! The two byte forms: even parity, and the single shift of 7-bit codes.
ghost use Rattle.std.specs.Prelude.{◌≡◌};
ghost use Rattle.layers.specs.Layers.{even, parity_bytes, shift_bytes};
ghost use Rattle.layers.specs.Laws.LayersKeep.{parity_agrees, shift_agrees};

use crate::cause::Cause;
use crate::recoding::{ByteForm, Move, WrittenByte};
use charset::SetRefusal;

/// Even parity: a byte below 80 has its top bit set where that makes the number of ones even. A
/// byte with an odd number of ones is refused with 34.
#[derive(Clone, Copy)]
pub struct EvenParity;

fn is_even(byte: u8) -> bool
    ensures { result ≡ even byte }
{
    byte.count_ones() % 2 == 0
}

impl ByteForm for EvenParity {
    ghost recoding = { λ _. parity_bytes };

    ghost agrees = { λ f. parity_agrees };

    fn step(&self, held: bool, byte: u8) -> Option<Move> {
        if !held && is_even(byte) {
            Some(Move::Emit(byte % 128))
        } else {
            None
        }
    }

    fn form(&self, byte: u8) -> Option<WrittenByte> {
        match byte {
            0x80..=0xFF => None,
            _ if is_even(byte) => Some(WrittenByte::One(byte)),
            _ => Some(WrittenByte::One(byte + 128)),
        }
    }

    fn fault(&self) -> SetRefusal {
        Cause::OddParity.into()
    }
}

/// The single shift SS2 at 01/09, by which ISO/IEC 6937 is written in seven bits (Annex A): a byte
/// from A0 to FF is 19 and that byte less 80, and one below 80 other than 19 stays. A byte that
/// cannot stand where it does is refused with 35.
#[derive(Clone, Copy)]
pub struct SingleShift;

impl ByteForm for SingleShift {
    ghost recoding = { λ _. shift_bytes };

    ghost agrees = { λ f. shift_agrees };

    fn step(&self, held: bool, byte: u8) -> Option<Move> {
        match (held, byte) {
            (false, 0x19) => Some(Move::Hold),
            (false, 0..=0x7F) => Some(Move::Emit(byte)),
            (true, 0x20..=0x7F) => Some(Move::Emit(byte + 0x80)),
            _ => None,
        }
    }

    fn form(&self, byte: u8) -> Option<WrittenByte> {
        match byte {
            0x19 | 0x80..=0x9F => None,
            0xA0..=0xFF => Some(WrittenByte::Two(0x19, byte - 0x80)),
            _ => Some(WrittenByte::One(byte)),
        }
    }

    fn fault(&self) -> SetRefusal {
        Cause::NotShifted.into()
    }
}
