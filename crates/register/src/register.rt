// The register itself, with its state as a plain number.
ghost use Rattle.std.specs.Prelude.{◌≡◌, ◌<◌, ◌≤◌, IsSome};
ghost use Rattle.std.specs.Option.{ForSome};
ghost use Rattle.calendar.specs.Calendars.{days_of};
ghost use Rattle.rulebook.specs.States.{date_of};
ghost use Rattle.register.specs.Shows.{View};

use calendar::{Calendar, Date};
use std::marker::Model;

// The numbers of the states, plain ones by a rule of the project.
pub const SHUT: u8 = 0;

pub const ON_A_DAY: u8 = 1;

pub const ON_NO_DAY: u8 = 2;

// A register that is shut, open on a business day, or open on no day. Contracts see it as its calendar's business days
// and how it stands.
pub struct Register {
    calendar: Calendar,
    // a plain number by a rule of the project: the desk asks for it before every call
    state: u8,
    // the last business day on which it was opened
    day: Option<Date>,
}

impl Model for Register {
    ghost Value = { View };

    ghost view = { λ r. record { days = days_of r.calendar; standing = record { state = r.state; day = date_of r.day } } };

    // one of the three states; a day while it is open on one; and no business day is 0
    ghost invariant = { λ r. (r.state ≤ 2) × (r.state ≡ 1 → IsSome r.day) × ForSome r.day (λ d. 0 < d.number) };
}

pub mod calls;
pub mod shows;
