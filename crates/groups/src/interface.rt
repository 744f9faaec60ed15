// A group, however many bookies it has.
ghost use Rattle.std.specs.Prelude.{◌≡◌, true, false, List, Ok};
ghost use Rattle.protocol.specs.Bookies.{Bookie, fence_answer, fence_after, read_answer, with_up};
ghost use Rattle.bookies.specs.Calls.{add_bytes_answer, add_bytes_after};
ghost use Rattle.groups.specs.Members.{answered, changed, beyond};

use crate::faults::GroupFault;
use ledgers::ids::{BookieId, EntryId, Lac, LedgerId};
use messages::entries::Held;

pub trait Group {
    // The bookies by number.
    ghost members: { Self → List Bookie };

    // None for the number of a bookie of the group; for any other, its number in a group that stands to the right.
    fn past(&self, bookie: BookieId) -> Option<BookieId>
        ensures { result ≡ beyond (members self.now) bookie };

    fn add(
        &mut self,
        bookie: BookieId,
        ledger: LedgerId,
        entry: EntryId,
        lac: Lac,
        body: &[u8],
        recovery: bool,
    ) -> Result<(), GroupFault>
        ensures answer { result ≡ answered (members self.old) bookie (λ b. add_bytes_answer b ledger entry lac body.now recovery) }
        ensures after { members self.new ≡ changed (members self.old) bookie (λ b. add_bytes_after b ledger entry lac body.now recovery) };

    fn fence(&mut self, bookie: BookieId, ledger: LedgerId) -> Result<Lac, GroupFault>
        ensures answer { result ≡ answered (members self.old) bookie (λ b. fence_answer b ledger) }
        ensures after { members self.new ≡ changed (members self.old) bookie (λ b. fence_after b ledger) };

    fn read(
        &self,
        bookie: BookieId,
        ledger: LedgerId,
        entry: EntryId,
    ) -> Result<Option<Held>, GroupFault>
        ensures { result ≡ answered (members self.now) bookie (λ b. read_answer b ledger entry) };

    fn stop(&mut self, bookie: BookieId) -> Result<(), GroupFault>
        ensures answer { result ≡ answered (members self.old) bookie (λ _. Ok tt) }
        ensures after { members self.new ≡ changed (members self.old) bookie (λ b. with_up b false) };

    fn start(&mut self, bookie: BookieId) -> Result<(), GroupFault>
        ensures answer { result ≡ answered (members self.old) bookie (λ _. Ok tt) }
        ensures after { members self.new ≡ changed (members self.old) bookie (λ b. with_up b true) };
}
