// Business days from month masks.
#![tactic(auto)]

ghost use Rattle.std.specs.Prelude.{◌≡◌, ◌≤◌, Some};
ghost use Rattle.std.specs.Fmt.{decimal};
ghost use Rattle.calendar.specs.Days.{month_length, is_date};

mod years;

use std::fmt;
pub use years::Calendar;

// A date as the number YYYYMMDD; the number need not name a day.
#[derive(Clone, Copy, Debug, PartialEq, Eq, PartialOrd, Ord, Hash)]
pub struct Date {
    pub number: u32,
}

// A date is written as its number.
impl fmt::Display for Date {
    ghost output = { λ d. Some (decimal d.number) };

    fn fmt<W: fmt::Write>(&self, f: &mut fmt::Formatter<W>) -> fmt::Result {
        write!(f, "{}", self.number)
    }
}

impl Date {
    // Whether the number names a day of the calendar year.
    pub fn is_date(self) -> bool
        ensures { result ≡ is_date self.number }
    {
        let year = self.number / 10000;
        let month = self.number / 100 % 100;
        let day = self.number % 100;
        (1..=12).contains(&month) && (1..=month_length(year, month)).contains(&day)
    }
}

// The lengths of the twelve months, but for a February of 29 days: a table by a rule of the project.
const LENGTHS: [u32; 12] = [31, 28, 31, 30, 31, 30, 31, 31, 30, 31, 30, 31];

// The length of a month: February has 29 days in years divisible by 4.
fn month_length(year: u32, month: u32) -> u32
    requires { (1 ≤ month) × (month ≤ 12) }
    ensures is { result ≡ month_length year month }
    ensures short { result ≤ 31 }
{
    if month == 2 && year % 4 == 0 {
        29
    } else {
        // there is no `From` to an index; the check proves that the cast keeps the number
        LENGTHS[(month - 1) as usize]
    }
}
