//! A page of a roll: text with its form, or a picture.
ghost use Rattle.std.specs.Prelude.{◌≡◌};
ghost use Rattle.roll.specs.Forms.{form_number, FormOf};

/// The form of a page of text: its character set with the layers on it. As a `u8` it is the number
/// in the index, from 1 to 7 in this order.
#[derive(Clone, Copy, PartialEq, Eq, Debug)]
pub enum Form {
    /// ISO/IEC 6937 in eight bits.
    EightBit,
    /// ISO/IEC 6937 in seven bits, by single shifts.
    SevenBit,
    /// The same with even parity.
    SevenBitParity,
    /// ISO/IEC 8859-16.
    Latin10,
    /// The Sami set, ISO-IR 209.
    Sami,
    /// UTF-8.
    Unicode,
    /// The 74 characters that every list has, in ISO/IEC 6937.
    Basic,
}

/// A number that no form of text has.
#[derive(Clone, Copy, PartialEq, Eq, Debug)]
pub struct UnknownForm(pub u8);

impl From<Form> for u8 {
    ghost from_gives = { λ form n. n ≡ form_number form };

    fn from(form: Form) -> u8 {
        match form {
            Form::EightBit => 1,
            Form::SevenBit => 2,
            Form::SevenBitParity => 3,
            Form::Latin10 => 4,
            Form::Sami => 5,
            Form::Unicode => 6,
            Form::Basic => 7,
        }
    }
}

impl TryFrom<u8> for Form {
    type Error = UnknownForm;

    ghost try_from_gives = { FormOf };

    fn try_from(number: u8) -> Result<Form, UnknownForm> {
        match number {
            1 => Ok(Form::EightBit),
            2 => Ok(Form::SevenBit),
            3 => Ok(Form::SevenBitParity),
            4 => Ok(Form::Latin10),
            5 => Ok(Form::Sami),
            6 => Ok(Form::Unicode),
            7 => Ok(Form::Basic),
            _ => Err(UnknownForm(number)),
        }
    }
}

/// A page: the part of the roll that it is, and at which byte of the roll that begins, from 0.
#[derive(Clone, Copy)]
pub enum Page<'a> {
    /// Text in a form.
    Text {
        form: Form,
        part: &'a [u8],
        offset: usize,
    },
    /// A picture, form 0, which has no text.
    Picture {
        part: &'a [u8],
        offset: usize,
    },
}
