// Ensemble size, write quorum and ack quorum of a ledger.
ghost use Rattle.std.specs.Prelude.{◌≤◌};

#[derive(Clone, Copy)]
pub struct Sizes {
    ensemble: u32,
    write: u32,
    ack: u32,
    // 5 ≥ ensemble ≥ write quorum ≥ ack quorum ≥ 1: so a write set has different positions, and an ack quorum is
    // some of them.
    ghost small: { ensemble ≤ 5 },
    ghost written: { write ≤ ensemble },
    ghost acked: { ack ≤ write },
    ghost some: { 1 ≤ ack },
}

pub mod making;
pub mod quorums;
