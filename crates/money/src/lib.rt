// The money side: one interface by its meaning, a ledger, and agent tables on any money side.
#![tactic(auto)]

mod agents;
mod ledger;
mod transfers;

ghost use Rattle.std.specs.Prelude.{◌≡◌, length};
ghost use Rattle.money.specs.Funds.{Funds, Sound, answer_to, funds_after, asked, account, balance};

pub use agents::AgentTable;
pub use ledger::Ledger;
use refusals::Refusal;
pub use transfers::{Payment, pay_both, pay_once};

// The fewest participants that a money side has.
const FEWEST_PARTICIPANTS: usize = 2;

// The most participants that a money side has.
const MOST_PARTICIPANTS: usize = 32;

// The most that a payment may move.
pub const MOST_AMOUNT: u64 = 100_000_000_000_000_000;

// The most that an account of a ledger may hold at first.
pub const MOST_AT_FIRST: u64 = 1_000_000_000_000_000;

pub trait Money {
    ghost meaning: { Self → Funds };

    ghost sound: { (s : Self) → Sound (meaning s) };

    // How many participants there are.
    fn participants(&self) -> usize
        ensures { result ≡ length (meaning self.now).accounts };

    // A participant's account.
    fn account(&self, participant: usize) -> Result<usize, Refusal>
        ensures { result ≡ asked (meaning self.now) participant (account (meaning self.now) participant) };

    // The balance of a participant's account.
    fn balance(&self, participant: usize) -> Result<u64, Refusal>
        ensures { result ≡ asked (meaning self.now) participant (balance (meaning self.now) participant) };

    // Makes a payment: the payer pays the payee.
    fn pay(&mut self, order: Payment) -> Result<(), Refusal>
        ensures answer { result ≡ answer_to (meaning self.old) order }
        ensures after { meaning self.new ≡ funds_after (meaning self.old) order };
}
