// The fields of a line, one after the other.
ghost use Rattle.std.specs.Prelude.{◌≡◌, ◌==◌, ◌+◌, ◌≤◌, length};
ghost use Rattle.std.specs.Iterator.{YieldsFirstBy, item_count};
ghost use Rattle.std.specs.Result.{result_map_both};
ghost use Rattle.dayfile.specs.Text.{fields, FieldsParted};
ghost use Rattle.dayfile.specs.Readers.{shown, fields_left, line_fields};

use crate::field::Field;
use crate::fields::Fields;
use crate::reader::end_of;
use refusals::Refusal;

impl<'a> Fields<'a> {
    // A reader before the first field; an empty line, and one of more than 120 bytes, are refused.
    #[tactic(auto, using(crate::proofs::Parted::fields_parted, crate::proofs::Cuts::fields_few))]
    pub fn new(line: &'a [u8]) -> Result<Fields<'a>, Refusal>
        ensures fields { result_map_both fields_left (λ e. e) result ≡ line_fields line.now }
        ensures parted { FieldsParted }
    {
        if line.is_empty() || line.len() > 120 {
            return Err(Refusal::LineLength);
        }
        Ok(Fields {
            rest: Some(line),
            number: 0,
        })
    }

    // Whether so many fields are left.
    #[tactic(auto, using(crate::proofs::Numbers::numbered_length))]
    pub(crate) fn are_left(&self, count: usize) -> bool
        ensures { result ≡ (length (fields_left self.now) == count) }
    {
        self.rest.map_or(count == 0, |rest| has_fields(rest, count))
    }
}

// Whether bytes have so many fields, one more than commas. It looks no further than it takes to tell.
#[tactic(auto, using(crate::proofs::Cuts::fields_count))]
fn has_fields(bytes: &[u8], count: usize) -> bool
    ensures { result ≡ (length (fields bytes.now) == count) }
{
    bytes.iter().filter(|b| **b == b',').take(count).count() + 1 == count
}

// The fields that are left, each with its number.
impl<'a> Iterator for Fields<'a> {
    type Item = (usize, Field<'a>);

    ghost next_gives = { YieldsFirstBy shown fields_left };

    ghost remaining = { item_count fields_left };

    fn next(&mut self) -> Option<(usize, Field<'a>)> {
        let rest = self.rest?;
        let end = end_of(rest, b',');
        self.rest = rest.get(end + 1..);
        self.number = number_behind(self.number);
        Some((self.number, Field::from(&rest[..end])))
    }
}

// The number of the field behind one of that number, 0 for none.
fn number_behind(number: usize) -> usize
    requires { number ≤ 120 }
    ensures { result ≡ number + 1 }
{
    number + 1
}
