//! The names of the forms.
ghost use Rattle.std.specs.Prelude.{◌≡◌};
ghost use Rattle.forms.specs.Names.{form_of_word, name_of};

use roll::Form;

/// The names of the forms of page, from 0 on.
const NAMES: [&str; 8] = [
    "picture",
    "iso6937",
    "iso6937-7bit",
    "iso6937-7bit-parity",
    "iso8859-16",
    "sami",
    "utf8",
    "iso6937-basic",
];

/// The forms of text by number and name, for the help of a program.
pub const LISTED_FORMS: &str = "\
Forms, by number or by name:
  1  iso6937              ISO/IEC 6937 in eight bits
  2  iso6937-7bit         ISO/IEC 6937 in seven bits
  3  iso6937-7bit-parity  ISO/IEC 6937 in seven bits, with even parity
  4  iso8859-16           ISO/IEC 8859-16
  5  sami                 the Sami set, ISO-IR 209
  6  utf8                 UTF-8
  7  iso6937-basic        ISO/IEC 6937, its 74 basic characters alone";

/// The number of the form of page that a word gives, by its name or its number: 0 for a picture,
/// and 1 to 7 as a [`Form`] has them. None for any other word.
pub fn form_of_word(word: &str) -> Option<u8>
    ensures { result ≡ form_of_word word.now }
{
    match word {
        "0" | "picture" => Some(0),
        "1" | "iso6937" => Some(1),
        "2" | "iso6937-7bit" => Some(2),
        "3" | "iso6937-7bit-parity" => Some(3),
        "4" | "iso8859-16" => Some(4),
        "5" | "sami" => Some(5),
        "6" | "utf8" => Some(6),
        "7" | "iso6937-basic" => Some(7),
        _ => None,
    }
}

/// The name of a form of text.
pub fn form_name(form: Form) -> &'static str
    ensures { result.now ≡ name_of form }
{
    NAMES[usize::from(u8::from(form))]
}
