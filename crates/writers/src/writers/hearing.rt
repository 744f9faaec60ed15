// What a writer makes of a reply: marks, confirmed entries, or a fence.
ghost use Rattle.std.specs.Prelude.{◌≡◌, ◌+◌, ◌≤◌, length};
ghost use Rattle.places.specs.ShortLists.{listed};
ghost use Rattle.protocol.specs.Writers.{reply_after, with_pending, marked_adds, is_acknowledged, confirmed, with_front, fenced_writer};
ghost use Rattle.writers.specs.Meaning.{meant};
ghost use Rattle.writers.specs.Fronts.{first_acknowledged, without_first};

use super::Writer;
use ledgers::ids::{BookieId, EntryId, Lac};
use messages::entries::PendingAdd;
use messages::faults::BookieFault;
use places::short_lists::ShortList;
use protocol::writers::WriterState;

impl Writer {
    // A bookie's answer to the add of an entry: a good one marks the bookie's position, and entries are confirmed in order as
    // far as they are acknowledged.
    pub fn reply(&mut self, bookie: BookieId, e: EntryId, outcome: Result<(), BookieFault>)
        ensures { meant self.new ≡ reply_after (meant self.old) bookie.0 e.0 outcome }
    {
        if self.state != WriterState::Writing {
            return;
        }
        match outcome {
            Ok(()) => {
                self.mark(bookie, e);
                self.confirm();
            }
            Err(BookieFault::Fenced) => self.lose(),
            Err(_) => {}
        }
    }

    // A recovery took the ledger over: the pending adds are dropped.
    pub(crate) fn lose(&mut self)
        ensures { meant self.new ≡ fenced_writer (meant self.old) }
    {
        self.pending = ShortList::new();
        self.state = WriterState::Fenced;
    }

    // Marks the position at which a bookie stands in the write set of an entry, if that is pending.
    fn mark(&mut self, bookie: BookieId, e: EntryId)
        ensures { meant self.new ≡ with_pending (meant self.old) self.old.lac.0 (marked_adds self.old.layout e.0 bookie.0 self.old.lac.0 (listed self.old.pending)) }
    {
        let Some(at) = e.0.checked_sub(self.lac.0) else {
            return;
        };
        if let Some(add) = self.pending.as_slice().get(at as usize).copied() {
            let mut add = add;
            self.layout.mark_write_set(e, bookie, &mut add.marks);
            self.pending.replace(at as usize, add);
        }
    }

    // While the first pending entry has an ack quorum of marks, it is confirmed.
    fn confirm(&mut self)
        ensures { meant self.new ≡ with_front (meant self.old) (confirmed self.old.layout self.old.lac.0 (listed self.old.pending)) }
    {
        while self.is_first_acknowledged() {
            self.confirm_first();
        }
    }

    // Whether there is a first pending entry, and it has an ack quorum of marks.
    fn is_first_acknowledged(&self) -> bool
        ensures { result ≡ first_acknowledged (meant self.now) }
    {
        // By `match`: of `is_some_and` with this closure no proof was found.
        match self.pending.as_slice().first() {
            Some(add) => self.is_acknowledged(EntryId(self.lac.0), add),
            None => false,
        }
    }

    // Whether an entry has an ack quorum of marks.
    fn is_acknowledged(&self, e: EntryId, add: &PendingAdd) -> bool
        ensures { result ≡ is_acknowledged self.now.layout e.0 add.now }
    {
        let sizes = self.layout.sizes();
        sizes.marked(e, &add.marks) >= sizes.ack_quorum()
    }

    // The first pending entry is confirmed.
    fn confirm_first(&mut self)
        requires { 1 ≤ length (listed self.old.pending) }
        ensures after { meant self.new ≡ without_first (meant self.old) }
        ensures fewer { length (listed self.old.pending) ≡ length (listed self.new.pending) + 1 }
    {
        let _ = self.pending.remove(0);
        self.lac = Lac(self.lac.0 + 1);
    }
}
