// A slip of 120 bytes that is written from the front.
ghost use Rattle.std.specs.Prelude.{◌≡◌, ℕ, ◌-◌, ◌≤◌, List, take, drop, replicate};

use std::marker::Model;

mod pen;

// The first `size` bytes are written, and zeros stand behind them. Contracts see what is written. The bytes stand in an
// array with their number beside: an answer line needs no heap, and the kit's vector of fixed capacity would be one more
// library to trust.
#[derive(Drop)]
pub(crate) struct Slip {
    bytes: [u8; 120],
    size: usize,
}

impl Model for Slip {
    ghost Value = { List ℕ };

    ghost view = { λ s. take s.size s.bytes };

    ghost invariant = { λ s. (s.size ≤ 120) × (drop s.size s.bytes ≡ replicate (120 - s.size) 0) };
}
