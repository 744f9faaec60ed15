// Which ledgers are fenced, as a flag for each. A ledger that there cannot be has none. A journal has its own two functions for
// the same questions: there the fences are the bits of one number in a file, and no array.
ghost use Rattle.std.specs.Prelude.{◌≡◌, true, false};
ghost use Rattle.ledgers.specs.Tables.{numbered, renumbered};

use ledgers::ids::LedgerId;

pub(crate) fn is_raised(flags: &[bool; 16], ledger: LedgerId) -> bool
    ensures { result ≡ numbered flags.now ledger.0 false }
{
    ledger.row().is_some_and(|row| flags[row])
}

pub(crate) fn raise(flags: &mut [bool; 16], ledger: LedgerId)
    ensures { flags.new ≡ renumbered flags.old ledger.0 true }
{
    if let Some(row) = ledger.row() {
        flags[row] = true;
    }
}
