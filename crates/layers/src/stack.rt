//! Putting a layer on a set. What is returned means that layer on the set below, keeps the laws as
//! the set below does, and means just what its last clause says. A cause of the set below is told
//! here by the same number, one layer deeper; the functions name the causes of the layers' own.
ghost use Rattle.std.specs.Prelude.{◌≡◌};
ghost use Rattle.charset.specs.Meaning.{Laws};
ghost use Rattle.charset.specs.Sets.{set_of};
ghost use Rattle.layers.specs.CharacterList.{Sound};
ghost use Rattle.layers.specs.Layers.{parity, shift, sub, controls};
ghost use Rattle.layers.specs.Words.{ParityMeaning, ShiftMeaning, SubMeaning, ControlsMeaning};

use crate::controls::Controls;
use crate::forms::{EvenParity, SingleShift};
use crate::list::CharacterList;
use crate::recoded::Recoded;
use crate::subrepertoire::Subrepertoire;
use charset::CharacterSet;

/// A set under even parity.
pub type Parity<S> = Recoded<EvenParity, S>;

/// A set in seven bits, by single shifts.
pub type Shift<S> = Recoded<SingleShift, S>;

/// Puts even parity on a set: each byte of a coding, below 80, gets a top bit that makes its number
/// of ones even. A byte with an odd number of ones is refused with 34, and so is writing a
/// character whose coding below has a byte from 80 up.
pub fn with_parity<S: CharacterSet>(below: S) -> Parity<S>
    ensures on { result.below ≡ below }
    ensures is_parity { set_of ⟦<Parity<S> as CharacterSet>⟧ result
        ≡ parity (set_of S.CharacterSet below) }
    ensures keeps_laws { Laws (parity (set_of S.CharacterSet below)) }
    ensures means_parity { ParityMeaning (set_of S.CharacterSet below) }
{
    Recoded {
        form: EvenParity,
        below,
    }
}

/// Puts the set in seven bits, as Annex A of ISO/IEC 6937 does: a byte from A0 to FF becomes 19 and
/// that byte less 80. A byte that cannot stand where it does is refused with 35, and a string still
/// open after four bytes with 36. To write a character is refused with 35 where its coding below
/// has a byte 19 or one from 80 to 9F, and else with 36 where it takes more than four bytes.
pub fn with_shift<S: CharacterSet>(below: S) -> Shift<S>
    ensures on { result.below ≡ below }
    ensures is_shift { set_of ⟦<Shift<S> as CharacterSet>⟧ result
        ≡ shift (set_of S.CharacterSet below) }
    ensures keeps_laws { Laws (shift (set_of S.CharacterSet below)) }
    ensures means_shift { ShiftMeaning (set_of S.CharacterSet below) }
{
    Recoded {
        form: SingleShift,
        below,
    }
}

/// Adds the chosen control characters, U+0000 to U+001F by number, each by its own byte, where the
/// set below refuses that byte alone and does not write that character. It has no cause of its own.
pub fn with_controls<S: CharacterSet>(chosen: [bool; 32], below: S) -> Controls<S>
    ensures on { (result.below ≡ below) × (result.chosen ≡ chosen) }
    ensures is_controls { set_of ⟦<Controls<S> as CharacterSet>⟧ result
        ≡ controls chosen (set_of S.CharacterSet below) }
    ensures keeps_laws { Laws (controls chosen (set_of S.CharacterSet below)) }
    ensures means_controls { ControlsMeaning chosen (set_of S.CharacterSet below) }
{
    Controls { chosen, below }
}

/// Keeps of a set the characters on a list. Another character in front is refused with 37, and so
/// is writing one that the set below can write.
pub fn with_list<S: CharacterSet>(list: CharacterList, below: S) -> Subrepertoire<S>
    ensures on { (result.below ≡ below) × (result.list ≡ list) }
    ensures sound { Sound list }
    ensures is_subrepertoire { set_of ⟦<Subrepertoire<S> as CharacterSet>⟧ result
        ≡ sub list (set_of S.CharacterSet below) }
    ensures keeps_laws { Laws (sub list (set_of S.CharacterSet below)) }
    ensures means_subrepertoire { SubMeaning list (set_of S.CharacterSet below) }
{
    list.assert_sound();
    Subrepertoire { list, below }
}
