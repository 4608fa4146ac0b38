ghost use Rattle.std.specs.Prelude.{◌≡◌, ◌≤◌, true, vec_len};
ghost use Rattle.calendar.specs.Masks.{within_months};

// The months from January of the first year on: a mask for each, whose bit of weight 2^(d-1) stands for day d.
#[derive(Drop)]
struct MonthMasks {
    first: u32,
    masks: Vec<u32>,
    ghost early: { first ≤ 2080 },
    ghost few: { vec_len masks ≤ 240 },
}

// The business days of some years, whose months set no bit past their ends. It has no model: that its business days
// rise follows from its fields, and a model would hide that from those who ask for them.
#[derive(Drop)]
pub struct Calendar {
    months: MonthMasks,
    ghost within: { within_months months.first 0 months.masks.items ≡ true },
}

mod methods;
mod months;
