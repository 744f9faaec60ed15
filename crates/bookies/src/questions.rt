// Every make of bookie is a bookie: the questions in their order, 20 to 24, over the few things that a make says of its
// storage. The first that gets a no decides.
use crate::interface::Bookie;
use crate::storage::Storage;
use ledgers::bodies::Body;
use ledgers::ids::{EntryId, Lac, LedgerId};
use messages::entries::Held;
use messages::faults::BookieFault;

impl<S: Storage> Bookie for S {
    ghost means = { S.Storage.means };

    #[tactic(auto, using(crate::proofs::SameBody::same_body), unfolding(crate::specs::Calls::add_bytes_answer, crate::specs::Calls::add_bytes_after))]
    fn add(
        &mut self,
        ledger: LedgerId,
        entry: EntryId,
        lac: Lac,
        body: &[u8],
        recovery: bool,
    ) -> Result<(), BookieFault> {
        let body = Body::new(body).ok_or(BookieFault::Range)?;
        // A LAC counts entries and is no entry: so the numbers are compared.
        if !(ledger.is_in_range() && entry.is_in_range() && lac.0 <= entry.0) {
            return Err(BookieFault::Range);
        }
        // Put in each of the three calls: two lines, and no fewer to read than a call with `?` would be.
        if !self.is_up() {
            return Err(BookieFault::Stopped);
        }
        if self.is_fenced(ledger) && !recovery {
            return Err(BookieFault::Fenced);
        }
        let wanted = Held {
            ledger,
            entry,
            lac,
            body,
        };
        match self.copy_of(ledger, entry) {
            Some(held) if held.body == wanted.body => Ok(()),
            Some(_) => Err(BookieFault::OtherBody),
            None => self.keep(wanted),
        }
    }

    fn fence(&mut self, ledger: LedgerId) -> Result<Lac, BookieFault> {
        if !ledger.is_in_range() {
            return Err(BookieFault::Range);
        }
        if !self.is_up() {
            return Err(BookieFault::Stopped);
        }
        self.mark_fenced(ledger);
        Ok(self.highest_lac(ledger))
    }

    fn read(&self, ledger: LedgerId, entry: EntryId) -> Result<Option<Held>, BookieFault> {
        if !(ledger.is_in_range() && entry.is_in_range()) {
            return Err(BookieFault::Range);
        }
        if !self.is_up() {
            return Err(BookieFault::Stopped);
        }
        Ok(self.copy_of(ledger, entry))
    }

    fn stop(&mut self) {
        self.turn(false);
    }

    fn start(&mut self) {
        self.turn(true);
    }
}
