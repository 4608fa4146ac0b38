// The kinds of lines, and how many fields they have.
ghost use Rattle.std.specs.Prelude.{◌≡◌, length};
ghost use Rattle.dayfile.specs.Text.{rest_of};
ghost use Rattle.dayfile.specs.Readers.{fields_left};
ghost use Rattle.dayfile.specs.Kinds.{named_kind, forms, fields_kind, read_kind};

use crate::fields::Fields;
use refusals::Refusal;

#[derive(Clone, Copy, Debug, PartialEq, Eq)]
pub enum Kind {
    Opening,
    NewIssue,
    Placing,
    Instructing,
    Cancelling,
    Blocking,
    Releasing,
    Round,
    Closing,
    Redeeming,
    AskingStatus,
    AskingHolding,
}

// The kind that a letter names.
impl TryFrom<char> for Kind {
    type Error = Refusal;

    ghost try_from_gives = { λ letter kind. kind ≡ named_kind letter };

    fn try_from(letter: char) -> Result<Kind, Refusal> {
        match letter {
            'D' => Ok(Kind::Opening),
            'N' => Ok(Kind::NewIssue),
            'P' => Ok(Kind::Placing),
            'T' => Ok(Kind::Instructing),
            'X' => Ok(Kind::Cancelling),
            'B' => Ok(Kind::Blocking),
            'F' => Ok(Kind::Releasing),
            'R' => Ok(Kind::Round),
            'E' => Ok(Kind::Closing),
            'M' => Ok(Kind::Redeeming),
            'S' => Ok(Kind::AskingStatus),
            'H' => Ok(Kind::AskingHolding),
            _ => Err(Refusal::UnknownKind),
        }
    }
}

impl Kind {
    // How many fields stand behind the kind.
    fn fields(self) -> usize
        ensures { result ≡ length (forms self) }
    {
        match self {
            Kind::Opening | Kind::Round | Kind::Closing => 0,
            Kind::AskingStatus => 1,
            Kind::NewIssue
            | Kind::Cancelling
            | Kind::Releasing
            | Kind::Redeeming
            | Kind::AskingHolding => 2,
            Kind::Blocking => 4,
            Kind::Placing => 5,
            Kind::Instructing => 11,
        }
    }
}

// The kind of a line; it is refused for its length, its first field, or the number of its fields.
pub fn read_kind(line: &[u8]) -> Result<Kind, Refusal>
    ensures { result ≡ read_kind line.now }
{
    Fields::new(line)?.kind()
}

impl Fields<'_> {
    // The kind that the first field names, if the right number of fields stands behind it: these are left.
    pub(crate) fn kind(&mut self) -> Result<Kind, Refusal>
        ensures kind { result ≡ fields_kind (fields_left self.old) }
        ensures rest { fields_left self.new ≡ rest_of (fields_left self.old) }
    {
        let (_, field) = self.next().ok_or(Refusal::UnknownKind)?;
        let letter = field.letter().ok_or(Refusal::UnknownKind)?;
        let kind = Kind::try_from(letter)?;
        if self.are_left(kind.fields()) {
            Ok(kind)
        } else {
            Err(Refusal::FieldCount)
        }
    }
}
