// Why a call is refused: the table of refusals, in the order in which checks run.
#![tactic(auto)]

ghost use Rattle.std.specs.Prelude.{◌≡◌, Some};
ghost use Rattle.std.specs.Fmt.{decimal};
ghost use Rattle.refusals.specs.Table.{number};

use std::error::Error;
use std::fmt;

// A refusal with its number in the table; the order is that in which checks run.
#[derive(Clone, Copy, Debug, PartialEq, Eq, PartialOrd, Ord, Hash)]
pub enum Refusal {
    LedgerLimits = 1,
    AgentTableLimits = 2,
    CalendarLimits = 3,
    ParticipantLimits = 4,
    FileTooLong = 5,
    LineLength = 6,
    UnknownKind = 7,
    FieldCount = 8,
    FieldForm = 9,
    WrongState = 10,
    UnknownParticipant = 11,
    WrongIssue = 12,
    AmountLimits = 13,
    WrongDate = 14,
    InstructionShape = 15,
    NoPlaceLeft = 16,
    NotFound = 17,
    OutstandingLimit = 18,
    NominalShort = 19,
    MoneyShort = 20,
    NoPartner = 21,
}

impl Refusal {
    // The refusal's number in the table, 1 to 21.
    pub fn number(self) -> u8
        ensures { result ≡ number self }
    {
        self as u8
    }
}

// A refusal is written as its number.
impl fmt::Display for Refusal {
    ghost output = { λ r. Some (decimal (number r)) };

    fn fmt<W: fmt::Write>(&self, f: &mut fmt::Formatter<W>) -> fmt::Result {
        write!(f, "{}", self.number())
    }
}

impl Error for Refusal {}
