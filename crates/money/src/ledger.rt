ghost use Rattle.std.specs.Prelude.{ℕ, ◌≤◌, vec_len, sum};

// One balance for each participant; a participant's account has its number. It has no model: a money side's law speaks
// of all values of its type, and the funds of a model need not be sound.
#[derive(Drop)]
pub struct Ledger {
    balances: Vec<u64>,
    ghost some: { 2 ≤ vec_len balances },
    ghost few: { vec_len balances ≤ 32 },
    ghost total: { sum balances.items ≤ 100000000000000000 },
}

pub mod entries;
