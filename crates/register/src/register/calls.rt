// What can be asked of a register in any state: a call that its state does not take is refused.
ghost use Rattle.std.specs.Prelude.{◌≡◌, ◌<◌};
ghost use Rattle.std.specs.Option.{ForSome};
ghost use Rattle.std.specs.Result.{result_map_both};
ghost use Rattle.calendar.specs.Days.{next_after};
ghost use Rattle.calendar.specs.Calendars.{days_of, dated};
ghost use Rattle.rulebook.specs.States.{new_standing, last_day};
ghost use Rattle.rulebook.specs.declared.Call.TheVariants.{Opening, Closing};
ghost use Rattle.rulebook.specs.declared.Answer.TheVariants.{Opened, Closed};
ghost use Rattle.register.specs.Shows.{Serves, Stands};

use super::{ON_A_DAY, ON_NO_DAY, Register, SHUT};
use calendar::{Calendar, Date};
use refusals::Refusal;
use rulebook::{Answer, Call, Ending};

impl Register {
    // A new register is shut, before its first day.
    pub fn new(calendar: Calendar) -> Register
        ensures is { result ≡ record { days = days_of calendar; standing = new_standing } }
        ensures stands { Stands result }
    {
        let register = Register {
            calendar,
            state: SHUT,
            day: None,
        };
        register.stands();
        register
    }

    // Opens a shut register on the next business day, or on no day where none is left.
    pub fn open(&mut self) -> Result<Option<Date>, Refusal>
        ensures serves { Serves self.old self.new Opening (result_map_both Opened (λ e. e) result) }
        ensures stands { Stands self.old }
    {
        self.stands();
        if self.state != SHUT {
            return Err(Refusal::WrongState);
        }
        let today = self.next_day();
        match today {
            Some(_) => {
                self.state = ON_A_DAY;
                self.day = today;
            }
            None => self.state = ON_NO_DAY,
        }
        Ok(today)
    }

    // The business day after the last on which it was opened; before the first, the calendar's first: that from 0 on.
    #[tactic(auto, using(crate::proofs::Opening::first_day, crate::proofs::Opening::found_later))]
    fn next_day(&self) -> Option<Date>
        ensures is { result ≡ dated (next_after self.now.standing.day self.now.days) }
        ensures later { ForSome result (λ d. 0 < d.number) }
    {
        match self.day {
            Some(day) => self.calendar.next_after(day),
            None => self.calendar.first_from(Date { number: 0 }),
        }
    }

    // Shuts an open register: the legs settled, and the instructions refused.
    pub fn close(&mut self) -> Result<Ending, Refusal>
        ensures serves { Serves self.old self.new Closing (result_map_both Closed (λ e. e) result) }
        ensures stands { Stands self.old }
    {
        self.stands();
        if self.state == SHUT {
            return Err(Refusal::WrongState);
        }
        self.state = SHUT;
        Ok(Ending {
            legs: 0,
            refused: 0,
        })
    }

    // One call, whatever it is.
    pub fn serve(&mut self, call: Call) -> Result<Answer, Refusal>
        ensures serves { Serves self.old self.new call result }
        ensures stands { Stands self.old }
    {
        self.stands();
        match call {
            Call::Opening => Ok(Answer::Opened {
                today: self.open()?,
            }),
            Call::Closing => Ok(Answer::Closed(self.close()?)),
            _ => Err(Refusal::WrongState),
        }
    }

    // Ends the register, and answers the last business day on which it was opened, if there was one.
    pub fn finish(self) -> Option<Date>
        ensures last { result ≡ last_day self.standing }
        ensures stands { Stands self }
    {
        self.stands();
        let Register {
            calendar: _calendar,
            state: _,
            day,
        } = self;
        day
    }
}
