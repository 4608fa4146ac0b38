// Calls out of lines.
ghost use Rattle.std.specs.Prelude.{◌≡◌};
ghost use Rattle.dayfile.specs.Text.{rest_of};
ghost use Rattle.dayfile.specs.Readers.{fields_left};
ghost use Rattle.dayfile.specs.Calls.{read_call};
ghost use Rattle.dayfile.specs.Turns.{next_value, placement_in_turn, order_in_turn, pledge_in_turn, call_in_turn};
ghost use Rattle.dayfile.specs.Kinds.{kind_letter};
ghost use Rattle.dayfile.specs.Spelling.{kind_called, ReadSpelled};

use crate::fields::Fields;
use crate::kinds::Kind;
use crate::values::FromField;
use refusals::Refusal;
use rulebook::{Call, Fault, Order, Placement, Pledge};

// The call that a line makes. Every call that fits a line is read back from its spelling.
#[tactic(auto, using(crate::proofs::RoundTrip::read_spelled))]
pub fn read_call(line: &[u8]) -> Result<Call, Fault>
    ensures call { result ≡ read_call line.now }
    ensures back { ReadSpelled }
{
    let mut fields = Fields::new(line)?;
    let kind = fields.kind()?;
    fields.call(kind)
}

// The letter of a call's kind. A way over `Kind` would be two tables in place of this one.
pub fn call_letter(call: Call) -> char
    ensures { result ≡ kind_letter (kind_called call) }
{
    match call {
        Call::Opening => 'D',
        Call::NewIssue { .. } => 'N',
        Call::Placing(_) => 'P',
        Call::Instructing(_) => 'T',
        Call::Cancelling { .. } => 'X',
        Call::Blocking(_) => 'B',
        Call::Releasing { .. } => 'F',
        Call::Round => 'R',
        Call::Closing => 'E',
        Call::Redeeming { .. } => 'M',
        Call::AskingStatus { .. } => 'S',
        Call::AskingHolding { .. } => 'H',
    }
}

impl Fields<'_> {
    // The call of a kind by the fields behind it, read in turn.
    fn call(&mut self, kind: Kind) -> Result<Call, Fault>
        ensures { result ≡ call_in_turn kind (fields_left self.old) }
    {
        let call = match kind {
            Kind::Opening => Call::Opening,
            Kind::NewIssue => Call::NewIssue {
                issue: self.value()?,
                maturity: self.value()?,
            },
            Kind::Placing => Call::Placing(self.placement()?),
            Kind::Instructing => Call::Instructing(self.order()?),
            Kind::Cancelling => Call::Cancelling {
                participant: self.value()?,
                serial: self.value()?,
            },
            Kind::Blocking => Call::Blocking(self.pledge()?),
            Kind::Releasing => Call::Releasing {
                participant: self.value()?,
                blocking: self.value()?,
            },
            Kind::Round => Call::Round,
            Kind::Closing => Call::Closing,
            Kind::Redeeming => Call::Redeeming {
                issue: self.value()?,
                participant: self.value()?,
            },
            Kind::AskingStatus => Call::AskingStatus {
                serial: self.value()?,
            },
            Kind::AskingHolding => Call::AskingHolding {
                participant: self.value()?,
                issue: self.value()?,
            },
        };
        Ok(call)
    }

    fn placement(&mut self) -> Result<Placement, Fault>
        ensures { result ≡ placement_in_turn (fields_left self.old) }
    {
        Ok(Placement {
            issue: self.value()?,
            participant: self.value()?,
            side: self.value()?,
            nominal: self.value()?,
            price: self.value()?,
        })
    }

    fn order(&mut self) -> Result<Order, Fault>
        ensures { result ≡ order_in_turn (fields_left self.old) }
    {
        Ok(Order {
            sender: self.value()?,
            transferor: self.value()?,
            transferor_side: self.value()?,
            acquirer: self.value()?,
            acquirer_side: self.value()?,
            issue: self.value()?,
            nominal: self.value()?,
            price: self.value()?,
            value_date: self.value()?,
            return_date: self.value()?,
            return_price: self.value()?,
        })
    }

    fn pledge(&mut self) -> Result<Pledge, Fault>
        ensures { result ≡ pledge_in_turn (fields_left self.old) }
    {
        Ok(Pledge {
            participant: self.value()?,
            side: self.value()?,
            issue: self.value()?,
            nominal: self.value()?,
        })
    }

    // The value of the next field; one that is not of its form is refused with its number.
    fn value<T: FromField>(&mut self) -> Result<T, Fault>
        ensures value { result ≡ next_value T.said (fields_left self.old) }
        ensures rest { fields_left self.new ≡ rest_of (fields_left self.old) }
    {
        let (number, field) = self.next().ok_or(Refusal::FieldCount)?;
        T::from_field(field).ok_or(Fault {
            refusal: Refusal::FieldForm,
            field: Some(number),
        })
    }
}
