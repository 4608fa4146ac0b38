ghost use Rattle.std.specs.Prelude.{◌≡◌, ◌<◌, ◌≤◌, vec_len, ◌≢◌, slice_index};
ghost use Rattle.money.specs.Funds.{payable, shifted, asked};
ghost use Rattle.money.specs.Ledger.{ledger_funds, Opened};
ghost use Rattle.money.specs.Soundness.{ledger_sound};

use super::Ledger;
use crate::{FEWEST_PARTICIPANTS, MOST_AMOUNT, MOST_AT_FIRST, MOST_PARTICIPANTS, Money, Payment};
use refusals::Refusal;

impl Ledger {
    // A ledger of 2 to 32 accounts that hold these balances, none above 10^15.
    pub fn new(balances: Vec<u64>) -> Result<Ledger, Refusal>
        ensures { Opened balances.items result }
    {
        if !(FEWEST_PARTICIPANTS..=MOST_PARTICIPANTS).contains(&balances.len())
            || balances.iter().any(|balance| *balance > MOST_AT_FIRST)
        {
            return Err(Refusal::LedgerLimits);
        }
        Ok(Ledger { balances })
    }

    // The participant of a number, if there is one.
    #[tactic(auto, using(crate::proofs::Ledgers::by_balances))]
    fn known(&self, participant: usize) -> Result<usize, Refusal>
        ensures { result ≡ asked (ledger_funds self.now) participant participant }
    {
        if participant < self.balances.len() {
            Ok(participant)
        } else {
            Err(Refusal::UnknownParticipant)
        }
    }

    // Moves an amount that the payer's balance covers to another account.
    fn shift(&mut self, order: Payment)
        requires apart { order.payer ≢ order.payee }
        requires payer { order.payer < vec_len self.old.balances }
        requires payee { order.payee < vec_len self.old.balances }
        requires covered { order.amount ≤ slice_index self.old.balances.items order.payer }
        ensures { self.new.balances.items ≡ shifted self.old.balances.items order.payer order.payee order.amount }
    {
        self.balances[order.payer] -= order.amount;
        self.balances[order.payee] += order.amount;
    }
}

// Whether an amount may be paid at all.
fn payable(amount: u64) -> bool
    ensures { result ≡ payable amount }
{
    (1..=MOST_AMOUNT).contains(&amount)
}

impl Money for Ledger {
    ghost meaning = { ledger_funds };

    ghost sound = { ledger_sound };

    #[tactic(auto, using(crate::proofs::Ledgers::by_balances))]
    fn participants(&self) -> usize {
        self.balances.len()
    }

    #[tactic(auto, using(crate::proofs::Ledgers::by_balances))]
    fn account(&self, participant: usize) -> Result<usize, Refusal> {
        self.known(participant)
    }

    #[tactic(auto, using(crate::proofs::Ledgers::by_balances))]
    fn balance(&self, participant: usize) -> Result<u64, Refusal> {
        Ok(self.balances[self.known(participant)?])
    }

    #[tactic(auto, using(crate::proofs::Ledgers::by_balances))]
    fn pay(&mut self, order: Payment) -> Result<(), Refusal> {
        let payer = self.known(order.payer)?;
        let payee = self.known(order.payee)?;
        if !payable(order.amount) {
            return Err(Refusal::AmountLimits);
        }
        if payer == payee {
            return Ok(());
        }
        if self.balances[payer] < order.amount {
            return Err(Refusal::MoneyShort);
        }
        self.shift(order);
        Ok(())
    }
}
