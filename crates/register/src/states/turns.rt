// From shut to open and back.
ghost use Rattle.std.specs.Prelude.{◌≡◌, Ok};
ghost use Rattle.calendar.specs.Calendars.{days_of};
ghost use Rattle.rulebook.specs.States.{new_standing, today, last_day};
ghost use Rattle.rulebook.specs.declared.Call.TheVariants.{Opening, Closing};
ghost use Rattle.rulebook.specs.declared.Answer.TheVariants.{Opened, Closed};
ghost use Rattle.register.specs.Shows.{Serves};

use super::{Open, Shut};
use crate::register::Register;
use calendar::{Calendar, Date};
use rulebook::Ending;

impl Shut {
    // A new register is shut.
    pub fn new(calendar: Calendar) -> Shut
        ensures { result.register ≡ record { days = days_of calendar; standing = new_standing } }
    {
        Shut {
            register: Register::new(calendar),
        }
    }

    // Opens it, never refused: today, if a business day is left, and the open register.
    pub fn open(self) -> (Option<Date>, Open)
        ensures { Serves self.register result.1.register Opening (Ok (Opened result.0)) }
    {
        let Shut { mut register } = self;
        let today = register.open().unwrap();
        register.stands();
        (today, Open { register })
    }

    // Ends it, and answers the last business day on which it was opened, if there was one.
    pub fn finish(self) -> Option<Date>
        ensures { result ≡ last_day self.register.standing }
    {
        let Shut { register } = self;
        register.finish()
    }
}

impl Open {
    // The business day on which it is open, if it is open on one.
    pub fn today(&self) -> Option<Date>
        ensures { result ≡ today self.now.register.standing }
    {
        self.register.today()
    }

    // Closes it, never refused: the legs settled, the instructions refused, and the shut register.
    pub fn close(self) -> (Ending, Shut)
        ensures { Serves self.register result.1.register Closing (Ok (Closed result.0)) }
    {
        let Open { mut register } = self;
        let ending = register.close().unwrap();
        register.stands();
        (ending, Shut { register })
    }
}
