// Which positions an entry is written to, and what a set of positions covers.
ghost use Rattle.std.specs.Prelude.{◌≡◌, ◌+◌, ◌%◌, ◌<◌, nat_le};
ghost use Rattle.layout.specs.WriteSets.{write_set, tally, marked, blocking, covers, member};

use super::Sizes;
use crate::marks::is_marked;
use ledgers::ids::{EntryId, Position};

impl Sizes {
    // How many positions of a write set leave no ack quorum among the others.
    pub fn blocking(&self) -> u32
        ensures { result ≡ blocking self.now }
    {
        self.write + 1 - self.ack
    }

    // The position so far after the one that an entry is written to first.
    pub fn position(&self, e: EntryId, offset: u32) -> Position
        ensures value { result.0 ≡ (e.0 + offset) % self.now.ensemble }
        ensures within { result.0 < 5 }
    {
        Position(((e.0 as usize + offset as usize) % self.ensemble as usize) as u32)
    }

    // The next position; behind the last one the first.
    pub(crate) fn position_after(&self, position: Position) -> Position
        requires { position.0 < self.now.ensemble }
        ensures { result.0 ≡ (position.0 + 1) % self.now.ensemble }
    {
        let next = position.0 + 1;
        Position(if next < self.ensemble { next } else { 0 })
    }

    // Whether an entry is written to a position.
    pub fn writes_to(&self, e: EntryId, position: Position) -> bool
        ensures { result ≡ member position.0 (write_set self.now e.0) }
    {
        self.write_set(e).as_slice().contains(&position.0)
    }

    // How many of the positions that an entry is written to are marked.
    pub fn marked(&self, e: EntryId, marks: &[bool; 5]) -> u32
        ensures { result ≡ tally (marked marks.now) (write_set self.now e.0) }
    {
        self.write_set(e)
            .as_slice()
            .iter()
            .filter(|position| is_marked(marks, **position))
            .count() as u32
    }

    // Whether the marked positions cover the ensemble: no write set has an ack quorum without one of them.
    pub fn covers(&self, marks: &[bool; 5]) -> bool
        ensures { result ≡ covers self.now (marked marks.now) }
    {
        // A loop, since of `all` over a range no proof was found: what is known of its run does not reach the definition.
        for e in 0..self.ensemble {
            if !self.is_blocked(EntryId(e), marks) {
                return false;
            }
        }
        true
    }

    // Whether the positions of a write set that are not marked have no ack quorum.
    fn is_blocked(&self, e: EntryId, marks: &[bool; 5]) -> bool
        ensures { result ≡ nat_le (blocking self.now) (tally (marked marks.now) (write_set self.now e.0)) }
    {
        self.marked(e, marks) >= self.blocking()
    }
}
