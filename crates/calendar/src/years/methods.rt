// What a calendar answers.
ghost use Rattle.std.specs.Prelude.{◌≡◌, is_ok, MatchResult};
ghost use Rattle.refusals.specs.declared.Refusal.TheVariants.{CalendarLimits};
ghost use Rattle.calendar.specs.Days.{is_business, first_from, next_after, count_between, count_upto};
ghost use Rattle.calendar.specs.Masks.{fits, Made};
ghost use Rattle.calendar.specs.Calendars.{days_of, dated};

use crate::Date;
use crate::years::{Calendar, MonthMasks};
use refusals::Refusal;

impl Calendar {
    // A calendar of some years from the masks of their months. It is refused exactly if it breaks the limits, if a mask
    // sets a bit past its month's end, or if no bit is set. The years stand beside the masks, as the rules give both, and
    // refuse a calendar where they differ.
    #[tactic(auto, using(crate::proofs::Marks::made))]
    pub fn new(first_year: u32, years: usize, masks: Vec<u32>) -> Result<Calendar, Refusal>
        ensures limits { is_ok result ≡ fits first_year years masks.items }
        ensures cases { MatchResult result (λ c. Made first_year masks.items (days_of c)) (λ e. e ≡ CalendarLimits) }
    {
        if !(2000..=2080).contains(&first_year)
            || !(1..=20).contains(&years)
            || masks.len() != 12 * years
        {
            return Err(Refusal::CalendarLimits);
        }
        let months = MonthMasks {
            first: first_year,
            masks,
        };
        if !months.all_within() || !months.some_set() {
            return Err(Refusal::CalendarLimits);
        }
        Ok(Calendar { months })
    }

    // Whether a date is a business day.
    #[tactic(auto, using(crate::proofs::Laws::calendar_first))]
    pub fn is_business_day(&self, date: Date) -> bool
        ensures { result ≡ is_business date.number (days_of self.now) }
    {
        self.first_from(date) == Some(date)
    }

    // The first business day on or after a date.
    pub fn first_from(&self, date: Date) -> Option<Date>
        ensures { result ≡ dated (first_from date.number (days_of self.now)) }
    {
        self.find(u64::from(date.number))
    }

    // The next business day after a date.
    pub fn next_after(&self, date: Date) -> Option<Date>
        ensures { result ≡ dated (next_after date.number (days_of self.now)) }
    {
        self.find(u64::from(date.number) + 1)
    }

    // How many business days lie after one date and up to another.
    #[tactic(auto, using(crate::proofs::Counts::between))]
    pub fn count_between(&self, after: Date, upto: Date) -> u32
        ensures { result ≡ count_between after.number upto.number (days_of self.now) }
    {
        let late = self.count_upto(upto);
        let early = self.count_upto(after);
        late.saturating_sub(early)
    }

    // How many business days lie up to a date.
    fn count_upto(&self, date: Date) -> u32
        ensures { result ≡ count_upto date.number (days_of self.now) }
    {
        self.months.count_upto(date.number)
    }

    // The first business day whose number is at least `from`.
    fn find(&self, from: u64) -> Option<Date>
        ensures { result ≡ dated (first_from from (days_of self.now)) }
    {
        self.months.first_from(from).map(|number| Date { number })
    }
}
