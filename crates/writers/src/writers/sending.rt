// What a writer sends: the adds of an entry, as it is appended and again.
ghost use Rattle.std.specs.Prelude.{◌≡◌, ◌≤◌, true, Ok, length};
ghost use Rattle.ledgers.specs.Ids.{entry_id};
ghost use Rattle.places.specs.ShortLists.{listed};
ghost use Rattle.messages.specs.Waiting.{sent};
ghost use Rattle.messages.specs.declared.messages.Message.TheVariants.{Add};
ghost use Rattle.waiting.specs.Queues.{queue};
ghost use Rattle.protocol.specs.Writers.{if_writing, adds, append_answer, appended, append_sends, has_room, next_entry, resend_answer, resends};
ghost use Rattle.writers.specs.Meaning.{meant};
ghost use Rattle.writers.specs.Calls.{append_after, append_sent, resend_sent};

use super::{MAX_PENDING, Writer};
use layout::marks::is_marked;
use ledgers::bodies::Body;
use ledgers::ids::{BookieId, EntryId, LedgerId, Position};
use messages::entries::PendingAdd;
use messages::messages::Message;
use protocol::faults::ClientFault;
use protocol::writers::WriterState;
use waiting::WaitingList;

impl Writer {
    // One entry more, pending, whose adds go to its write set. Answers its number.
    pub fn append(
        &mut self,
        ledger: LedgerId,
        body: Body,
        messages: &mut WaitingList<'_>,
    ) -> Result<EntryId, ClientFault>
        ensures answer { result ≡ append_answer (meant self.old) }
        ensures after { meant self.new ≡ append_after (meant self.old) body }
        ensures sends { queue messages.new ≡ sent (queue messages.old) (append_sent (meant self.old) ledger body) }
    {
        self.ask_writing()?;
        if !self.has_room() {
            return Err(ClientFault::Full);
        }
        Ok(self.take_on(ledger, body, messages))
    }

    // Sends the adds of all pending entries again, to the positions that have not acknowledged them.
    pub fn resend(
        &self,
        ledger: LedgerId,
        messages: &mut WaitingList<'_>,
    ) -> Result<(), ClientFault>
        ensures answer { result ≡ resend_answer (meant self.now) }
        ensures sends { queue messages.new ≡ sent (queue messages.old) (resend_sent (meant self.now) ledger) }
    {
        self.ask_writing()?;
        self.send_pending(ledger, messages);
        Ok(())
    }

    // Asks whether it is free of a fence, and has not closed its ledger.
    pub(crate) fn ask_writing(&self) -> Result<(), ClientFault>
        ensures { result ≡ if_writing (meant self.now) (Ok tt) }
    {
        match self.state {
            WriterState::Fenced => Err(ClientFault::Fenced),
            WriterState::Closed => Err(ClientFault::Closed),
            WriterState::Absent | WriterState::Writing => Ok(()),
        }
    }

    // Whether one add more can be pending, and there is a next entry.
    fn has_room(&self) -> bool
        ensures { result ≡ has_room (meant self.now) }
    {
        self.pending.len() < MAX_PENDING && self.next_entry().is_in_range()
    }

    // The entry that an append gives.
    fn next_entry(&self) -> EntryId
        ensures { result ≡ entry_id (next_entry (meant self.now)) }
    {
        EntryId(self.lac.0 + self.pending.len() as u32)
    }

    // The next entry is pending, and its adds are on their way.
    fn take_on(&mut self, ledger: LedgerId, body: Body, messages: &mut WaitingList<'_>) -> EntryId
        requires { has_room (meant self.old) ≡ true }
        ensures answer { result ≡ entry_id (next_entry (meant self.old)) }
        ensures after { meant self.new ≡ appended (meant self.old) body }
        ensures sends { queue messages.new ≡ sent (queue messages.old) (append_sends (meant self.old) ledger body) }
    {
        let e = self.next_entry();
        let add = PendingAdd {
            body,
            marks: [false; 5],
        };
        self.send_adds(ledger, e, &add, messages);
        self.pending.push(add);
        e
    }

    // Sends the unmarked adds of all pending entries.
    fn send_pending(&self, ledger: LedgerId, messages: &mut WaitingList<'_>)
        ensures { queue messages.new ≡ sent (queue messages.old) (resends (meant self.now) ledger) }
    {
        for (k, add) in self.pending.as_slice().iter().enumerate() {
            self.send_adds(ledger, EntryId(self.lac.0 + k as u32), add, messages);
        }
    }

    // Sends the adds of an entry to the positions of its write set that have not acknowledged it.
    fn send_adds(
        &self,
        ledger: LedgerId,
        e: EntryId,
        add: &PendingAdd,
        messages: &mut WaitingList<'_>,
    )
        ensures { queue messages.new ≡ sent (queue messages.old) (adds self.now.layout ledger e.0 self.now.lac.0 add.now) }
    {
        let fragment = self.layout.fragment_of(e);
        for position in self.layout.sizes().write_set(e).as_slice() {
            if !is_marked(&add.marks, *position) {
                let bookie = fragment.bookie(Position(*position));
                messages.send(self.add_of(ledger, bookie, e, add.body));
            }
        }
    }

    // The add of an entry, with the LAC of now.
    pub(crate) fn add_of(
        &self,
        ledger: LedgerId,
        bookie: BookieId,
        e: EntryId,
        body: Body,
    ) -> Message
        ensures { result ≡ Add ledger bookie e self.now.lac body }
    {
        Message::Add {
            ledger,
            bookie,
            entry: e,
            lac: self.lac,
            body,
        }
    }
}
