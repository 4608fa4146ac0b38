// The values of fields.
ghost use Rattle.std.specs.Prelude.{◌≡◌, ◌≤◌, true, length, Option};
ghost use Rattle.std.specs.Str.{all_ascii_digits};
ghost use Rattle.dayfile.specs.Looks.{Look};
ghost use Rattle.dayfile.specs.Readers.{look};
ghost use Rattle.dayfile.specs.Values.{value, is_numeral, is_eight, number_of, date_of, side_of, sender_of, or_blank};

use crate::field::{Field, all_digits};
use calendar::Date;
use rulebook::{Sender, Side};

// What a field can say.
pub(crate) trait FromField: Sized {
    // what a field of that look says, if it is of the form
    ghost said: { Look → Option Self };

    // What the field says, if it is of the form.
    fn from_field(field: Field<'_>) -> Option<Self>
        ensures { result ≡ said (look field.entry) };
}

// The number that 1 to 16 digits write, without a needless leading 0.
impl FromField for u64 {
    ghost said = { number_of };

    fn from_field(field: Field<'_>) -> Option<u64> {
        match field {
            Field::Number(bytes) | Field::Date(bytes) if is_numeral(bytes) => Some(value(bytes)),
            _ => None,
        }
    }
}

impl FromField for usize {
    ghost said = { number_of };

    fn from_field(field: Field<'_>) -> Option<usize> {
        // there is no `From` between the two, and the cast is proved to keep the number
        u64::from_field(field).map(|number| number as usize)
    }
}

// The date that eight digits write.
impl FromField for Date {
    ghost said = { date_of };

    fn from_field(field: Field<'_>) -> Option<Date> {
        match field {
            // eight digits fit, and the cast is proved to keep the number
            Field::Date(bytes) if is_eight(bytes) => Some(Date {
                number: value(bytes) as u32,
            }),
            _ => None,
        }
    }
}

// The side that a letter names.
impl FromField for Side {
    ghost said = { side_of };

    fn from_field(field: Field<'_>) -> Option<Side> {
        match field.letter()? {
            'O' => Some(Side::Own),
            'C' => Some(Side::Customer),
            _ => None,
        }
    }
}

// The sender that a letter names.
impl FromField for Sender {
    ghost said = { sender_of };

    fn from_field(field: Field<'_>) -> Option<Sender> {
        match field.letter()? {
            'T' => Some(Sender::Transferor),
            'A' => Some(Sender::Acquirer),
            _ => None,
        }
    }
}

// Nothing, which a field without bytes says, or what the field says otherwise.
impl<T: FromField> FromField for Option<T> {
    ghost said = { or_blank T.said };

    fn from_field(field: Field<'_>) -> Option<Option<T>> {
        match field {
            Field::Blank(_) => Some(None),
            _ => T::from_field(field).map(Some),
        }
    }
}

// Whether bytes are 1 to 16 digits without a needless leading 0.
fn is_numeral(bytes: &[u8]) -> bool
    ensures { result ≡ is_numeral bytes.now }
{
    if bytes.is_empty() || bytes.len() > 16 {
        return false;
    }
    if bytes.len() > 1 && bytes[0] == b'0' {
        return false;
    }
    all_digits(bytes)
}

// Whether bytes are eight digits.
fn is_eight(bytes: &[u8]) -> bool
    ensures { result ≡ is_eight bytes.now }
{
    bytes.len() == 8 && all_digits(bytes)
}

// The number that digits write. A `fold` was tried: it cannot tell what bounds the sum at a step.
fn value(bytes: &[u8]) -> u64
    requires few { length bytes.now ≤ 16 }
    requires digits { all_ascii_digits bytes.now ≡ true }
    ensures { result ≡ value bytes.now }
{
    let mut number: u64 = 0;
    for b in bytes {
        number = number * 10 + u64::from(*b - b'0');
    }
    number
}
