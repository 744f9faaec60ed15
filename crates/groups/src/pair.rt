// Two groups side by side: the numbers of the right one follow those of the left one.
#![tactic(auto, using(crate::proofs::Places::sides))]

ghost use Rattle.std.specs.Prelude.{◌++◌};

use crate::faults::GroupFault;
use crate::interface::Group;
use ledgers::ids::{BookieId, EntryId, Lac, LedgerId};
use messages::entries::Held;

// Each call asks once which side has the number. That match stands in each of them: the sides have two types and the calls their
// own arguments, so that one function for it would take a closure for each side, and be longer than the match.
#[derive(Drop)]
pub struct Pair<L, R> {
    pub left: L,
    pub right: R,
}

impl<L: Group, R: Group> Group for Pair<L, R> {
    ghost members = { λ s. L.Group.members s.left ++ R.Group.members s.right };

    fn past(&self, bookie: BookieId) -> Option<BookieId> {
        self.right.past(self.left.past(bookie)?)
    }

    fn add(
        &mut self,
        bookie: BookieId,
        ledger: LedgerId,
        entry: EntryId,
        lac: Lac,
        body: &[u8],
        recovery: bool,
    ) -> Result<(), GroupFault> {
        match self.left.past(bookie) {
            None => self.left.add(bookie, ledger, entry, lac, body, recovery),
            Some(other) => self.right.add(other, ledger, entry, lac, body, recovery),
        }
    }

    fn fence(&mut self, bookie: BookieId, ledger: LedgerId) -> Result<Lac, GroupFault> {
        match self.left.past(bookie) {
            None => self.left.fence(bookie, ledger),
            Some(other) => self.right.fence(other, ledger),
        }
    }

    fn read(
        &self,
        bookie: BookieId,
        ledger: LedgerId,
        entry: EntryId,
    ) -> Result<Option<Held>, GroupFault> {
        match self.left.past(bookie) {
            None => self.left.read(bookie, ledger, entry),
            Some(other) => self.right.read(other, ledger, entry),
        }
    }

    fn stop(&mut self, bookie: BookieId) -> Result<(), GroupFault> {
        match self.left.past(bookie) {
            None => self.left.stop(bookie),
            Some(other) => self.right.stop(other),
        }
    }

    fn start(&mut self, bookie: BookieId) -> Result<(), GroupFault> {
        match self.left.past(bookie) {
            None => self.left.start(bookie),
            Some(other) => self.right.start(other),
        }
    }
}
