// The words of the register: what is called, and what is answered.
#![tactic(auto)]

ghost use Rattle.std.specs.Prelude.{◌≡◌};
ghost use Rattle.rulebook.specs.Answers.{of_no_field};

use calendar::Date;
use refusals::Refusal;

pub mod theorems;

// Whose nominal an entry holds: the participant's own, or its customers'.
#[derive(Clone, Copy, Debug, PartialEq, Eq)]
pub enum Side {
    Own,
    Customer,
}

// Who sent an instruction.
#[derive(Clone, Copy, Debug, PartialEq, Eq)]
pub enum Sender {
    Transferor,
    Acquirer,
}

// What an instruction orders; it never changes.
#[derive(Clone, Copy, Debug, PartialEq, Eq)]
pub struct Order {
    pub sender: Sender,
    pub transferor: usize,
    pub transferor_side: Side,
    pub acquirer: usize,
    pub acquirer_side: Side,
    pub issue: usize,
    pub nominal: u64,
    pub price: Option<u64>,
    pub value_date: Date,
    pub return_date: Option<Date>,
    pub return_price: Option<u64>,
}

// How far an instruction has come.
#[derive(Clone, Copy, Debug, PartialEq, Eq)]
pub enum Fate {
    Kept,
    Unmatched,
    Matched,
    // holds the partner's serial
    Joined(u64),
    Settled,
    RepoOut,
    RepoBack,
    Refused,
    ReturnRefused,
    Cancelled,
}

#[derive(Clone, Copy, Debug, PartialEq, Eq)]
pub struct Placement {
    pub issue: usize,
    pub participant: usize,
    pub side: Side,
    pub nominal: u64,
    pub price: u64,
}

#[derive(Clone, Copy, Debug, PartialEq, Eq)]
pub struct Pledge {
    pub participant: usize,
    pub side: Side,
    pub issue: usize,
    pub nominal: u64,
}

// A call on a register, with what its line gives.
#[derive(Clone, Copy, Debug, PartialEq, Eq)]
pub enum Call {
    Opening,
    NewIssue { issue: usize, maturity: Date },
    Placing(Placement),
    Instructing(Order),
    Cancelling { participant: usize, serial: u64 },
    Blocking(Pledge),
    Releasing { participant: usize, blocking: u64 },
    Round,
    Closing,
    Redeeming { issue: usize, participant: usize },
    AskingStatus { serial: u64 },
    AskingHolding { participant: usize, issue: usize },
}

// What a participant holds of an issue, and what of it is blocked.
#[derive(Clone, Copy, Debug, PartialEq, Eq)]
pub struct Holding {
    pub own: u64,
    pub customer: u64,
    pub blocked_own: u64,
    pub blocked_customer: u64,
}

// What closing came to: the legs that its last round settled, and the instructions and returns that it refused.
#[derive(Clone, Copy, Debug, PartialEq, Eq)]
pub struct Ending {
    pub legs: u64,
    pub refused: u64,
}

// The answer to a call that is accepted.
#[derive(Clone, Copy, Debug, PartialEq, Eq)]
pub enum Answer {
    // the business day on which the register is open now, if one is left
    Opened { today: Option<Date> },
    Registered { issue: usize },
    Placed { outstanding: u64 },
    Instructed { serial: u64 },
    Cancelled { serial: u64 },
    Blocked { blocking: u64 },
    Released { blocking: u64 },
    RoundMade { legs: u64 },
    Closed(Ending),
    Redeemed { amount: u64 },
    Status { fate: Fate, cause: Option<Refusal> },
    Holds(Holding),
}

// Why a line is not accepted: the refusal, and the first field that is not of its form, where that is why.
#[derive(Clone, Copy, Debug, PartialEq, Eq)]
pub struct Fault {
    pub refusal: Refusal,
    pub field: Option<usize>,
}

// A call that the rules refuse is refused for no field of its line.
impl From<Refusal> for Fault {
    ghost from_gives = { λ r f. f ≡ of_no_field r };

    fn from(refusal: Refusal) -> Fault {
        Fault {
            refusal,
            field: None,
        }
    }
}
