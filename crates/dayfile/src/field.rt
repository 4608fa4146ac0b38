// One field of a line.
ghost use Rattle.std.specs.Prelude.{◌≡◌};
ghost use Rattle.std.specs.Str.{all_ascii_digits};
ghost use Rattle.dayfile.specs.Looks.{look_of, letter_of};
ghost use Rattle.dayfile.specs.Readers.{look};

// A field as a part of its line: no bytes, eight digits, other digits, or anything else.
#[derive(Clone, Copy, Debug, PartialEq, Eq)]
pub enum Field<'a> {
    Blank(&'a [u8]),
    Date(&'a [u8]),
    Number(&'a [u8]),
    Letter(&'a [u8]),
}

// What bytes look like.
impl<'a> From<&'a [u8]> for Field<'a> {
    ghost from_gives = { λ bytes field. look field ≡ look_of bytes.now };

    fn from(bytes: &'a [u8]) -> Field<'a> {
        if bytes.is_empty() {
            return Field::Blank(bytes);
        }
        if !all_digits(bytes) {
            return Field::Letter(bytes);
        }
        if bytes.len() == 8 {
            return Field::Date(bytes);
        }
        Field::Number(bytes)
    }
}

impl Field<'_> {
    // The one byte of a letter.
    pub(crate) fn letter(self) -> Option<char>
        ensures { result ≡ letter_of (look self.entry) }
    {
        match self {
            Field::Letter(&[byte]) => Some(char::from(byte)),
            _ => None,
        }
    }
}

// Whether every byte is a digit.
pub(crate) fn all_digits(bytes: &[u8]) -> bool
    ensures { result ≡ all_ascii_digits bytes.now }
{
    bytes.iter().all(|b| b.is_ascii_digit())
}
