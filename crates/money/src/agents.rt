ghost use Rattle.std.specs.Prelude.{ℕ, ◌≤◌, vec_len};

use crate::Money;

// For each participant the number of its agent.
#[derive(Drop)]
pub struct Agents {
    rows: Vec<usize>,
    ghost some: { 2 ≤ vec_len rows },
    ghost few: { vec_len rows ≤ 32 },
}

// Participants who pay and are paid through agents, the participants of the money side below. Its agents stand in an
// inner table by a rule of the project; it has no model for the ledger's reason. That every row names a participant below is
// no ghost field: it would cite the bound, and keep a table out of other bounds, and a table on a table out of the fields of
// generic structs.
pub struct AgentTable<M: Money> {
    below: M,
    agents: Agents,
}

pub mod rows;
