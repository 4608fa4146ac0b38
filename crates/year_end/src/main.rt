// Walks past the end of the calendar of 2025: the year's last two business days, and two openings on no day.
#![tactic(auto)]

ghost use Rattle.std.specs.Prelude.{◌≡◌, Ok};
ghost use Rattle.rulebook.specs.States.{date_of};
ghost use Rattle.rulebook.specs.declared.Call.TheVariants.{Opening, Closing};
ghost use Rattle.rulebook.specs.declared.Answer.TheVariants.{Opened};
ghost use Rattle.register.specs.Shows.{next};

use calendar::Date;
use desk::year::year_2025;
use register::states::Shut;

// One day, opened and closed: the date that opening answered.
fn one_day(shut: Shut) -> (Option<Date>, Shut)
    ensures date { Ok (Opened result.0) ≡ (next shut.register Opening).1 }
    ensures after { result.1.register ≡ (next (next shut.register Opening).0 Closing).0 }
{
    let (today, open) = shut.open();
    let (_, shut) = open.close();
    (today, shut)
}

// The number of a day, 0 for none.
fn number(day: Option<Date>) -> u32
    ensures { result ≡ date_of day }
{
    day.map_or(0, |day| day.number)
}

// So many days, one after the other.
fn pass_days(shut: Shut, count: u32) -> Shut {
    (0..count).fold(shut, |shut, _| one_day(shut).1)
}

fn main(rt: HostRuntime) -> anyhow::Result<()> {
    let shut = pass_days(Shut::new(year_2025(rt.alloc())?), 258);
    let (first, shut) = one_day(shut);
    let (second, shut) = one_day(shut);
    let (third, shut) = one_day(shut);
    let (fourth, shut) = one_day(shut);
    let last = shut.finish();
    for today in [first, second, third, fourth] {
        println!(rt; "opened on {}", number(today))?;
    }
    println!(rt; "last business day {}", number(last))?;
    Ok(())
}
