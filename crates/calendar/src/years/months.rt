// Single months, and lists of months.
ghost use Rattle.std.specs.Prelude.{◌≡◌, ◌-◌, ◌%◌, ◌^◌, ◌<◌, ◌≤◌, true, count_ones, nat_lt};
ghost use Rattle.calendar.specs.Days.{first_from, count_upto};
ghost use Rattle.calendar.specs.Masks.{number_of, length_of, is_set, days_from, business_days, within_months, some_set};

use super::MonthMasks;
use crate::month_length;

// A month of a calendar: its number YYYYMM00, its length, and the mask of its business days.
#[derive(Clone, Copy, Debug, PartialEq, Eq)]
struct Month {
    number: u32,
    length: u32,
    mask: u32,
    ghost early: { number ≤ 21000000 },
    ghost short: { length ≤ 31 },
}

impl Month {
    // Whether the mask sets no bit past the month's end.
    fn has_room(self) -> bool
        ensures { result ≡ nat_lt self.mask (2 ^ self.length) }
    {
        self.mask < 1u32 << self.length
    }

    // Whether the bit of a day is set.
    fn is_set(self, day: u32) -> bool
        requires { (1 ≤ day) × (day ≤ 32) }
        ensures { result ≡ is_set self.mask day }
    {
        (self.mask >> (day - 1)) % 2 == 1
    }

    // The first business day whose number is at least `from`. A month without business days is passed by one test, and so is
    // one that ends before `from`.
    #[tactic(auto, using(crate::proofs::Walks::month_empty, crate::proofs::Walks::month_ended))]
    fn first_from(self, from: u64) -> Option<u32>
        ensures { result ≡ first_from from (days_from self.number self.mask 1 self.length) }
    {
        if self.mask == 0 {
            return None;
        }
        if u64::from(self.number + self.length) < from {
            return None;
        }
        (1..self.length + 1)
            .find(|day| self.is_set(*day) && u64::from(self.number + *day) >= from)
            .map(|day| self.number + day)
    }

    // How many bits are set for days whose number is at most `upto`.
    fn count_upto(self, upto: u32) -> u32
        ensures is { result ≡ count_ones (self.mask % 2 ^ (upto - self.number)) }
        ensures few { result ≤ 32 }
    {
        let days = upto.saturating_sub(self.number);
        if days < 32 {
            (self.mask & ((1u32 << days) - 1)).count_ones()
        } else {
            self.mask.count_ones()
        }
    }
}

impl MonthMasks {
    // The month of a place, counted from 0, with its mask.
    fn month(&self, i: usize, mask: u32) -> Month
        requires { i < 240 }
        ensures number { result.number ≡ number_of self.now.first i }
        ensures long { result.length ≡ length_of self.now.first i }
        ensures marks { result.mask ≡ mask }
    {
        // both casts are proved to keep the number: there are at most 240 months
        let year = self.first + (i / 12) as u32;
        let month = (i % 12) as u32 + 1;
        Month {
            number: year * 10000 + month * 100,
            length: month_length(year, month),
            mask,
        }
    }

    // Whether no mask sets a bit past its month's end.
    pub(super) fn all_within(&self) -> bool
        ensures { result ≡ within_months self.now.first 0 self.now.masks.items }
    {
        self.masks
            .iter()
            .enumerate()
            .all(|(i, mask)| self.month(i, *mask).has_room())
    }

    // Whether some mask sets a bit.
    pub(super) fn some_set(&self) -> bool
        ensures { result ≡ some_set self.now.masks.items }
    {
        self.masks.iter().any(|mask| *mask > 0)
    }

    // The number of the first business day whose number is at least `from`.
    pub(super) fn first_from(&self, from: u64) -> Option<u32>
        ensures { result ≡ first_from from (business_days self.now.first self.now.masks.items) }
    {
        self.masks
            .iter()
            .enumerate()
            .find_map(|(i, mask)| self.month(i, *mask).first_from(from))
    }

    // How many business days lie up to a date.
    pub(super) fn count_upto(&self, upto: u32) -> u32
        requires { within_months self.now.first 0 self.now.masks.items ≡ true }
        ensures { result ≡ count_upto upto (business_days self.now.first self.now.masks.items) }
    {
        self.masks
            .iter()
            .enumerate()
            .map(|(i, mask)| self.month(i, *mask).count_upto(upto))
            .sum()
    }
}
