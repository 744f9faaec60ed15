// Lists of records in places that are lent to them, or handed over.
ghost use Rattle.std.specs.Prelude.{◌≡◌, ◌-◌, ◌≤◌, length, drop, replicate};
ghost use Rattle.places.specs.Memory.{contents};

use crate::Blank;
use memory::Places;

// The places that a list gets at first are all that it has. Lent ones go back to their owner once it is gone; a list with
// places of its own is kept for as long as one likes.
#[derive(Drop)]
pub struct LentList<'a, T: Blank> {
    places: Places<'a, T>,
    count: usize,
    // Of its places only the first ones count,
    ghost within: { count ≤ length (contents places) },
    // and blanks stand behind them.
    ghost clear: { ∥ drop count (contents places) ≡ replicate (length (contents places) - count) T.empty ∥₁ },
}

pub mod calls;
pub mod memory;
