// A register that is shut, and one that is open, as two types by a rule of the project: each is moved into the other, and
// neither may be let go.
ghost use Rattle.std.specs.Prelude.{◌≡◌, ◌<◌};
ghost use Rattle.register.specs.Shows.{Stands, stands_prop};

use crate::register::Register;

pub struct Shut {
    register: Register,
    ghost shut: { register.standing.state ≡ 0 },
    ghost stands: { Stands register } by { stands_prop register },
}

pub struct Open {
    register: Register,
    ghost open: { 0 < register.standing.state },
    ghost stands: { Stands register } by { stands_prop register },
}

pub mod turns;
