// One bookie as a group. The bookie is lent, since facts of its type may be about memory that is lent to it.
ghost use Rattle.std.specs.Prelude.{◌≡◌, [], ◌∷◌, Ok, nat_lt};
ghost use Rattle.messages.specs.Faults.{question};

use crate::faults::GroupFault;
use crate::interface::Group;
use bookies::interface::Bookie;
use ledgers::ids::{BookieId, EntryId, Lac, LedgerId};
use messages::entries::Held;

#[derive(Drop)]
pub struct One<'b, B> {
    pub bookie: &'b mut B,
}

// The one bookie has number 0.
fn is_there(bookie: BookieId) -> Result<(), GroupFault>
    ensures { result ≡ question (nat_lt bookie.0 1) GroupFault.Missing (Ok tt) }
{
    if bookie != BookieId(0) {
        return Err(GroupFault::Missing);
    }
    Ok(())
}

impl<B: Bookie> Group for One<'_, B> {
    ghost members = { λ s. B.Bookie.means s.bookie.now ∷ [] };

    fn past(&self, bookie: BookieId) -> Option<BookieId> {
        bookie.0.checked_sub(1).map(BookieId)
    }

    fn add(
        &mut self,
        bookie: BookieId,
        ledger: LedgerId,
        entry: EntryId,
        lac: Lac,
        body: &[u8],
        recovery: bool,
    ) -> Result<(), GroupFault> {
        is_there(bookie)?;
        Ok(self.bookie.add(ledger, entry, lac, body, recovery)?)
    }

    fn fence(&mut self, bookie: BookieId, ledger: LedgerId) -> Result<Lac, GroupFault> {
        is_there(bookie)?;
        Ok(self.bookie.fence(ledger)?)
    }

    fn read(
        &self,
        bookie: BookieId,
        ledger: LedgerId,
        entry: EntryId,
    ) -> Result<Option<Held>, GroupFault> {
        is_there(bookie)?;
        Ok(self.bookie.read(ledger, entry)?)
    }

    fn stop(&mut self, bookie: BookieId) -> Result<(), GroupFault> {
        is_there(bookie)?;
        self.bookie.stop();
        Ok(())
    }

    fn start(&mut self, bookie: BookieId) -> Result<(), GroupFault> {
        is_there(bookie)?;
        self.bookie.start();
        Ok(())
    }
}
