// How a register stands.
ghost use Rattle.std.specs.Prelude.{◌≡◌, ◌≤◌};
ghost use Rattle.rulebook.specs.States.{today};
ghost use Rattle.register.specs.Shows.{Stands};

use super::{ON_A_DAY, Register};
use calendar::Date;

impl Register {
    // What is true of every register, for the clauses that say it: a value is seen by contracts as what it shows alone. It
    // does nothing.
    pub(crate) fn stands(&self)
        ensures { Stands self.now }
    {
        let _ = &self.state;
    }

    // The state's number: 0 shut, 1 open on a business day, 2 open on no day. By a rule of the project the desk asks for
    // this, and not for an enum.
    pub fn state(&self) -> u8
        ensures shown { result ≡ self.now.standing.state }
        ensures one_of_three { result ≤ 2 }
        ensures stands { Stands self.now }
    {
        self.stands();
        self.state
    }

    // The business day on which the register is open, if it is open on one.
    pub fn today(&self) -> Option<Date>
        ensures day { result ≡ today self.now.standing }
        ensures stands { Stands self.now }
    {
        self.stands();
        if self.state == ON_A_DAY {
            self.day
        } else {
            None
        }
    }
}
