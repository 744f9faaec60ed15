// An ensemble change: another bookie stands at a position from the first pending entry on.
ghost use Rattle.std.specs.Prelude.{◌≡◌, suc, ◌≤◌, ◌<◌, [], map, length};
ghost use Rattle.places.specs.ShortLists.{listed};
ghost use Rattle.layout.specs.WriteSets.{member};
ghost use Rattle.messages.specs.Waiting.{sent};
ghost use Rattle.waiting.specs.Queues.{queue};
ghost use Rattle.ledgers.specs.Ids.{lac_id};
ghost use Rattle.messages.specs.declared.metadata.LedgerState.TheVariants.{Open};
ghost use Rattle.protocol.specs.Stores.{put_after};
ghost use Rattle.protocol.specs.Writers.{change_answer, change_fits, change_store, changed_writer, change_sends, fenced_writer, unmarked, adds_at, with_pending};
ghost use Rattle.writers.specs.Meaning.{meant};
ghost use Rattle.writers.specs.Puts.{after_put, adoption_answer, adopted, adoption_sends, change_after, change_stored, change_sent};

use super::Writer;
use layout::fragments::Layout;
use ledgers::ids::{BookieId, EntryId, Lac, LedgerId, Position, Version};
use messages::metadata::LedgerState;
use places::put;
use protocol::faults::ClientFault;
use stores::calls::Store;
use waiting::WaitingList;

impl Writer {
    // Puts a bookie at a position for every entry that is not confirmed, in the store first. Answers the first of these
    // entries, or none where the ledger was lost to a recovery.
    pub fn change_ensemble<S: Store>(
        &mut self,
        ledger: LedgerId,
        position: Position,
        bookie: BookieId,
        ledgers: &mut S,
        messages: &mut WaitingList<'_>,
    ) -> Result<Option<EntryId>, ClientFault>
        ensures answer { result ≡ change_answer (meant self.old) (S.means ledgers.old) ledger position bookie }
        ensures after { meant self.new ≡ change_after (meant self.old) (S.means ledgers.old) ledger position bookie }
        ensures stored { S.means ledgers.new ≡ change_stored (meant self.old) (S.means ledgers.old) ledger position bookie }
        ensures sends { queue messages.new ≡ sent (queue messages.old) (change_sent (meant self.old) (S.means ledgers.old) ledger position bookie) }
    {
        if !self.fits(position, bookie) {
            return Err(ClientFault::Ensemble);
        }
        self.ask_writing()?;
        if !self.layout.has_room(EntryId(self.lac.0)) {
            return Err(ClientFault::Fragments);
        }
        self.change(ledger, position, bookie, ledgers, messages)
    }

    // Changes the layout, where no question is left but the store's.
    fn change<S: Store>(
        &mut self,
        ledger: LedgerId,
        position: Position,
        bookie: BookieId,
        ledgers: &mut S,
        messages: &mut WaitingList<'_>,
    ) -> Result<Option<EntryId>, ClientFault>
        ensures answer { result ≡ adoption_answer (meant self.old) (S.means ledgers.old) ledger }
        ensures after { meant self.new ≡ after_put result (changed_writer (meant self.old) position bookie) (fenced_writer (meant self.old)) (meant self.old) }
        ensures stored { S.means ledgers.new ≡ after_put result (change_store (meant self.old) (S.means ledgers.old) ledger position bookie) (S.means ledgers.old) (S.means ledgers.old) }
        ensures sends { queue messages.new ≡ sent (queue messages.old) (after_put result (change_sends (meant self.old) ledger position bookie) [] []) }
    {
        let layout = self.layout.changed(EntryId(self.lac.0), position, bookie);
        self.change_to(&layout, ledger, position, bookie, ledgers, messages)
    }

    // Puts the store, and goes on with the layout where that is accepted.
    fn change_to<S: Store>(
        &mut self,
        layout: &Layout,
        ledger: LedgerId,
        position: Position,
        bookie: BookieId,
        ledgers: &mut S,
        messages: &mut WaitingList<'_>,
    ) -> Result<Option<EntryId>, ClientFault>
        ensures answer { result ≡ adoption_answer (meant self.old) (S.means ledgers.old) ledger }
        ensures after { meant self.new ≡ after_put result (adopted (meant self.old) layout.now (suc self.old.version.0) position) (fenced_writer (meant self.old)) (meant self.old) }
        ensures stored { S.means ledgers.new ≡ after_put result (put_after (S.means ledgers.old) ledger self.old.version Open layout.now (lac_id 0)) (S.means ledgers.old) (S.means ledgers.old) }
        ensures sends { queue messages.new ≡ sent (queue messages.old) (after_put result (adoption_sends (meant self.old) layout.now ledger position bookie) [] []) }
    {
        match self.put(ledger, LedgerState::Open, layout, Lac(0), ledgers)? {
            Some(version) => {
                self.adopt(layout, version, ledger, position, bookie, messages);
                Ok(Some(EntryId(self.lac.0)))
            }
            None => {
                self.lose();
                Ok(None)
            }
        }
    }

    // Whether a bookie is outside the ensemble, and a position inside.
    fn fits(&self, position: Position, bookie: BookieId) -> bool
        ensures { result ≡ change_fits self.now.layout position.0 bookie.0 }
    {
        let ensemble = self.layout.sizes().ensemble();
        let last = self.layout.last_fragment();
        // A position against a size: two kinds of number.
        !stands_among(&last.bookies[..ensemble as usize], bookie) && position.0 < ensemble
    }

    // Goes on with another layout: the bookie that comes gets what is pending, and what the one that leaves acknowledged counts
    // no more.
    fn adopt(
        &mut self,
        layout: &Layout,
        version: Version,
        ledger: LedgerId,
        position: Position,
        bookie: BookieId,
        messages: &mut WaitingList<'_>,
    )
        ensures after { meant self.new ≡ adopted (meant self.old) layout.now version.0 position }
        ensures sends { queue messages.new ≡ sent (queue messages.old) (adoption_sends (meant self.old) layout.now ledger position bookie) }
    {
        self.layout = *layout;
        self.version = version;
        self.send_at(ledger, position, bookie, messages);
        self.unmark(position);
    }

    // Clears the marks of all pending entries at a position.
    fn unmark(&mut self, position: Position)
        ensures { meant self.new ≡ with_pending (meant self.old) self.old.lac.0 (map (unmarked position.0) (listed self.old.pending)) }
    {
        // By number: a list that knows facts of its places lends its records only to be read. Lending them to be written was tried, and
        // got no proof.
        for k in 0..self.pending.len() {
            let mut add = self.pending.as_slice()[k];
            put(&mut add.marks[..], position.0 as usize, false);
            self.pending.replace(k, add);
        }
    }

    // Sends adds to a bookie for each pending entry whose write set has its position.
    fn send_at(
        &self,
        ledger: LedgerId,
        position: Position,
        bookie: BookieId,
        messages: &mut WaitingList<'_>,
    )
        ensures { queue messages.new ≡ sent (queue messages.old) (adds_at self.now.layout ledger self.now.lac.0 position.0 bookie self.now.lac.0 (listed self.now.pending)) }
    {
        let sizes = self.layout.sizes();
        for (k, add) in self.pending.as_slice().iter().enumerate() {
            let e = EntryId(self.lac.0 + k as u32);
            if sizes.writes_to(e, position) {
                messages.send(self.add_of(ledger, bookie, e, add.body));
            }
        }
    }
}

// Whether a bookie is among these.
fn stands_among(bookies: &[u32], bookie: BookieId) -> bool
    ensures { result ≡ member bookie.0 bookies.now }
{
    bookies.contains(&bookie.0)
}
