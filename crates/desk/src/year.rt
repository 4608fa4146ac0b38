// The calendar of the day program: the year 2025, Monday to Friday but 1 January.
ghost use Rattle.std.specs.Prelude.{◌≡◌, true, IfOk};
ghost use Rattle.calendar.specs.Masks.{business_days, fits};
ghost use Rattle.calendar.specs.Calendars.{days_of};
ghost use Rattle.desk.specs.Year.{business_days_2025};

use calendar::Calendar;
use std::alloc::{AllocError, Global};

// A mask for each month, whose bit of weight 2^(d-1) stands for day d.
const MASKS: [u32; 12] = [
    0x7cf9_f3e6,
    0x0f9f_3e7c,
    0x4f9f_3e7c,
    0x39f3_e7cf,
    0x3e7c_f9f3,
    0x27cf_9f3e,
    0x79f3_e7cf,
    0x1f3e_7cf9,
    0x33e7_cf9f,
    0x7cf9_f3e7,
    0x0f9f_3e7c,
    0x73e7_cf9f,
];

// The calendar of 2025; only want of memory keeps it from being made.
pub fn year_2025(heap: Global) -> Result<Calendar, AllocError>
    ensures { IfOk result (λ c. days_of c ≡ business_days_2025) }
{
    let masks = MASKS.to_vec(heap)?;
    Ok(calendar_of(masks))
}

// The calendar of 2025 by the masks of its months.
fn calendar_of(masks: Vec<u32>) -> Calendar
    requires { fits 2025 1 masks.items ≡ true }
    ensures { days_of result ≡ business_days 2025 masks.items }
{
    Calendar::new(2025, 1, masks).unwrap()
}
