// The fences of all ledgers in one number: bit l - 1 for ledger l. A ledger that there cannot be has none. A memory bookie has its own
// two functions for the same questions, over an array of flags.
ghost use Rattle.std.specs.Prelude.{◌≡◌, true, false};
ghost use Rattle.ledgers.specs.Tables.{numbered, renumbered};
ghost use Rattle.journals.specs.Fences.{flags, word};

use ledgers::ids::LedgerId;

#[tactic(auto, using(crate::proofs::Bits::reads))]
pub(crate) fn has_fence(bits: u32, ledger: LedgerId) -> bool
    ensures { result ≡ numbered (flags bits) ledger.0 false }
{
    ledger.row().is_some_and(|row| (bits >> row) % 2 == 1)
}

// The number with one fence more, where none but those of the ledgers are set.
pub(crate) fn with_fence(bits: u32, ledger: LedgerId) -> u32
    requires { bits ≡ word (flags bits) }
    ensures { result ≡ word (renumbered (flags bits) ledger.0 true) }
{
    match ledger.row() {
        Some(row) => bits | (1 << row),
        None => bits,
    }
}
