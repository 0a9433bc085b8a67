//! The character set of a form of text, chosen while the program runs.
#![tactic(auto)]

ghost use Rattle.std.specs.Prelude.{◌≡◌, MatchResult};
ghost use Rattle.roll.specs.declared.page.Form.TheVariants.{Basic};
ghost use Rattle.forms.specs.FormSets.{form_set};
ghost use Rattle.forms.specs.Chosen.{meaning_of};
ghost use Rattle.forms.specs.Laws.Chosen.{chosen_laws};

mod names;

use charset::{CharacterSet, Coding, Reading, SetRefusal};
use layers::{
    CharacterList, Controls, Parity, Shift, Subrepertoire, with_controls, with_list, with_parity,
    with_shift,
};
pub use names::{LISTED_FORMS, form_name, form_of_word};
use roll::Form;
use sets::{Iso6937, SingleByte, Utf8};
use std::alloc::{AllocError, Global};

/// The control characters of a page, chosen from U+0000 to U+001F: 09, 0A, 0C and 0D.
#[rattlefmt::skip]
pub const PAGE_CONTROLS: [bool; 32] = [
    // 00 to 0F
    false, false, false, false, false, false, false, false,
    false, true, true, false, true, true, false, false,
    // 10 to 1F
    false, false, false, false, false, false, false, false,
    false, false, false, false, false, false, false, false,
];

/// The character set of a form of text, one case for each type of stack: those of ISO/IEC 8859-16
/// and of the Sami set are of one type.
#[derive(Drop)]
pub enum FormSet {
    /// Form 1.
    EightBit(Controls<Iso6937>),
    /// Form 2.
    SevenBit(Controls<Shift<Iso6937>>),
    /// Form 3.
    SevenBitParity(Parity<Controls<Shift<Iso6937>>>),
    /// Forms 4 and 5.
    SingleByte(Controls<SingleByte>),
    /// Form 6.
    Unicode(Utf8),
    /// Form 7.
    Basic(Controls<Subrepertoire<Iso6937>>),
}

impl CharacterSet for FormSet {
    ghost codings = { λ s. (meaning_of s).codings };

    ghost openings = { λ s. (meaning_of s).openings };

    ghost causes = { λ s. (meaning_of s).causes };

    ghost write_causes = { λ s. (meaning_of s).write_causes };

    ghost lawful = { chosen_laws };

    fn read(&self, bytes: &[u8]) -> Result<Reading, SetRefusal> {
        match self {
            FormSet::EightBit(set) => set.read(bytes),
            FormSet::SevenBit(set) => set.read(bytes),
            FormSet::SevenBitParity(set) => set.read(bytes),
            FormSet::SingleByte(set) => set.read(bytes),
            FormSet::Unicode(set) => set.read(bytes),
            FormSet::Basic(set) => set.read(bytes),
        }
    }

    fn write(&self, number: u32) -> Result<Coding, SetRefusal> {
        match self {
            FormSet::EightBit(set) => set.write(number),
            FormSet::SevenBit(set) => set.write(number),
            FormSet::SevenBitParity(set) => set.write(number),
            FormSet::SingleByte(set) => set.write(number),
            FormSet::Unicode(set) => set.write(number),
            FormSet::Basic(set) => set.write(number),
        }
    }
}

impl FormSet {
    ghost use Rattle.std.specs.Prelude.{◌≢◌};

    // The set of a form, but for the list of the last.
    fn without_list(form: Form) -> FormSet
        ensures openings { (meaning_of result).openings ≡ (form_set form).openings }
        ensures others { form ≢ Basic → meaning_of result ≡ form_set form }
    {
        match form {
            Form::EightBit | Form::Basic => {
                FormSet::EightBit(with_controls(PAGE_CONTROLS, Iso6937))
            }
            Form::SevenBit => FormSet::SevenBit(with_controls(PAGE_CONTROLS, with_shift(Iso6937))),
            Form::SevenBitParity => {
                let seven_bit = with_controls(PAGE_CONTROLS, with_shift(Iso6937));
                FormSet::SevenBitParity(with_parity(seven_bit))
            }
            Form::Latin10 => {
                FormSet::SingleByte(with_controls(PAGE_CONTROLS, SingleByte::iso8859_16()))
            }
            Form::Sami => FormSet::SingleByte(with_controls(PAGE_CONTROLS, SingleByte::sami())),
            Form::Unicode => FormSet::Unicode(Utf8),
        }
    }

    /// The set of a form; fails only for want of memory, which form 7 alone needs, for its list.
    pub fn of(heap: Global, form: Form) -> Result<FormSet, AllocError>
        ensures { MatchResult result (λ s. meaning_of s ≡ form_set form) (λ _. form ≡ Basic) }
    {
        match form {
            Form::Basic => {
                let basic = with_list(CharacterList::new(heap)?, Iso6937);
                Ok(FormSet::Basic(with_controls(PAGE_CONTROLS, basic)))
            }
            _ => Ok(FormSet::without_list(form)),
        }
    }
}

/// Whether the bytes are an opening of the set of a form. A list changes no openings, so none is
/// made.
pub fn is_opening(form: Form, bytes: &[u8]) -> bool
    ensures { result ≡ (form_set form).openings bytes.now }
{
    let Ok(Reading::Open) = FormSet::without_list(form).read(bytes) else {
        return false;
    };
    true
}
