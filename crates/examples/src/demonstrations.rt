//! Stacks of layers: that each is a character set follows from its type alone.
ghost use Rattle.charset.specs.Sets.{set_of};
ghost use Rattle.charset.specs.Decoding.{ReadByLaws};
ghost use Rattle.sets.specs.Iso6937.{iso6937};
ghost use Rattle.layers.specs.Layers.{parity, shift, controls};
ghost use Rattle.forms.specs.PageControls.{page_controls};

use charset::{CharacterSet, Reading, SetRefusal, read_front};
use forms::PAGE_CONTROLS;
use layers::{with_controls, with_parity, with_shift};
use sets::Iso6937;

/// What stands in front of a page of 7-bit ISO/IEC 6937 with the controls of a page, all under
/// parity.
pub fn read_with_parity(bytes: &[u8]) -> Result<Reading, SetRefusal>
    ensures { ReadByLaws (parity (controls page_controls (shift iso6937))) bytes.now result }
{
    let stack = with_parity(with_controls(PAGE_CONTROLS, with_shift(Iso6937)));
    read_front(&stack, bytes)
}

/// What stands in front of bytes under three layers, on any set. The controls lie under shift here:
/// layers stack in any order.
pub fn read_three_deep<S: CharacterSet + Drop>(
    chosen: [bool; 32],
    below: S,
    bytes: &[u8],
) -> Result<Reading, SetRefusal>
    ensures { ReadByLaws (parity (shift (controls chosen (set_of S.CharacterSet below))))
        bytes.now result }
{
    let stack = with_parity(with_shift(with_controls(chosen, below)));
    read_front(&stack, bytes)
}
