// Which letters each state takes.
ghost use Rattle.std.specs.Prelude.{◌≡◌, ◌≤◌};
ghost use Rattle.rulebook.specs.Laws.{suits};
ghost use Rattle.desk.specs.Letters.{call_letter, takes};

use dayfile::call_letter;
use register::register::{ON_A_DAY, ON_NO_DAY, SHUT};
use rulebook::Call;

// Whether a state takes calls of a kind, by its letter. The state is its plain number by a rule of the project: what
// drives the lines of a file has no enum of registers.
fn takes(letter: char, state: u8) -> bool
    ensures { result ≡ takes letter state }
{
    match letter {
        'D' if state == SHUT => true,
        'S' | 'H' if state == SHUT || state == ON_NO_DAY => true,
        'E' if state == ON_NO_DAY => true,
        'N' | 'P' | 'T' | 'X' | 'B' | 'F' | 'R' | 'E' | 'M' | 'S' | 'H' if state == ON_A_DAY =>
            true,
        _ => false,
    }
}

// Whether a state takes a call, by its letter; that is what the rules say of the three states. The state is a plain
// number by the same rule.
#[tactic(auto, using(crate::proofs::Suited::letters_suit))]
pub fn suits(call: Call, state: u8) -> bool
    ensures letters { result ≡ takes (call_letter call) state }
    ensures rules { state ≤ 2 → result ≡ suits state call }
{
    takes(call_letter(call), state)
}
