ghost use Rattle.std.specs.Prelude.{◌≡◌, ◌<◌, All, MatchBool, slice_index};
ghost use Rattle.money.specs.Funds.{asked};
ghost use Rattle.money.specs.Agents.{agent, table_funds, Tabled};
ghost use Rattle.money.specs.Soundness.{table_sound};

use super::{AgentTable, Agents};
use crate::{FEWEST_PARTICIPANTS, MOST_PARTICIPANTS, Money, Payment};
use refusals::Refusal;

// Whether some row names none of so many participants.
fn name_nobody(rows: &[usize], known: usize) -> bool
    ensures { MatchBool result (All (λ row. row < known) rows.now → ⊥) (All (λ row. row < known) rows.now) }
{
    rows.iter().any(|row| *row >= known)
}

impl<M: Money> AgentTable<M> {
    // A table of 2 to 32 rows that all name participants below; else the money side comes back. The error is a pair, as
    // who gets it takes the two apart at once.
    pub fn new(below: M, rows: Vec<usize>) -> Result<AgentTable<M>, (Refusal, M)>
        ensures { Tabled M.Money.meaning below rows.items result }
    {
        let known = below.participants();
        if !(FEWEST_PARTICIPANTS..=MOST_PARTICIPANTS).contains(&rows.len())
            || name_nobody(rows.as_slice(), known)
        {
            return Err((Refusal::AgentTableLimits, below));
        }
        let agents = Agents { rows };
        Ok(AgentTable { below, agents })
    }

    // Ends the table, and gives the money side below back.
    pub fn into_below(self) -> M
        ensures { result ≡ self.below }
    {
        let AgentTable {
            below,
            agents: _agents,
        } = self;
        below
    }

    // The agent of a participant, if there is such a participant; a row that names nobody below reads as participant 0.
    #[tactic(auto, using(crate::proofs::Tables::by_rows))]
    fn agent(&self, participant: usize) -> Result<usize, Refusal>
        ensures { let table = self.now in
            result ≡ asked (table_funds M.Money.meaning table) participant (agent (M.Money.meaning table.below) (slice_index table.agents.rows.items participant)) }
    {
        let row = self
            .agents
            .rows
            .get(participant)
            .copied()
            .ok_or(Refusal::UnknownParticipant)?;
        if row < self.below.participants() {
            Ok(row)
        } else {
            Ok(0)
        }
    }
}

impl<M: Money> Money for AgentTable<M> {
    ghost meaning = { table_funds M.Money.meaning };

    ghost sound = { table_sound M.Money.meaning M.Money.sound };

    fn participants(&self) -> usize {
        self.agents.rows.len()
    }

    #[tactic(auto, using(crate::proofs::Tables::by_rows))]
    fn account(&self, participant: usize) -> Result<usize, Refusal> {
        self.below.account(self.agent(participant)?)
    }

    #[tactic(auto, using(crate::proofs::Tables::by_rows))]
    fn balance(&self, participant: usize) -> Result<u64, Refusal> {
        self.below.balance(self.agent(participant)?)
    }

    #[tactic(auto, using(crate::proofs::Tables::by_rows), unfolding(crate::specs::Funds::payment))]
    fn pay(&mut self, order: Payment) -> Result<(), Refusal> {
        let payer = self.agent(order.payer)?;
        let payee = self.agent(order.payee)?;
        self.below.pay(Payment {
            payer,
            payee,
            ..order
        })
    }
}
