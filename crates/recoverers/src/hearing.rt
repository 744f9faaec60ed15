// What a recoverer makes of a reply.
ghost use Rattle.std.specs.Prelude.{◌≡◌, not, ◌==◌};
ghost use Rattle.messages.specs.Waiting.{sent};
ghost use Rattle.waiting.specs.Queues.{queue};
ghost use Rattle.protocol.specs.Recoverers.{heard, heard_sends, asks, phase_number};
ghost use Rattle.protocol.specs.declared.recoverers.Recoverer.{Recoverer};

use crate::asking::ask;
use crate::phases::{is_awaited, one_more, read_on, write_back};
use ledgers::ids::{EntryId, RecovererId};
use messages::messages::Message;
use protocol::recoverers::{Phase, Recoverer};
use waiting::WaitingList;

pub trait Recovery {
    // The recoverer of the protocol.
    ghost means: { Self → Recoverer };

    // Hears a reply, and says whether a new phase began.
    fn hear(&mut self, reply: &Message) -> bool
        ensures after { means self.new ≡ heard (means self.old) reply.now }
        ensures fresh { result ≡ not (phase_number (means self.old).phase == phase_number (means self.new).phase) };

    // Sends the requests of its phase, again where they were sent before, to the positions that have not answered.
    fn ask_again(&self, number: RecovererId, messages: &mut WaitingList)
        ensures { queue messages.new ≡ sent (queue messages.old) (asks (means self.now) number) };

    // Hears a reply; a new phase sends its requests.
    fn deliver(&mut self, number: RecovererId, reply: &Message, messages: &mut WaitingList)
        ensures after { means self.new ≡ heard (means self.old) reply.now }
        ensures sends { queue messages.new ≡ sent (queue messages.old) (heard_sends (means self.old) number reply.now) }
    {
        if self.hear(reply) {
            self.ask_again(number, messages);
        }
    }
}

impl Recovery for Recoverer {
    ghost means = { λ x. x };

    fn hear(&mut self, reply: &Message) -> bool {
        if !is_awaited(self, reply) {
            return false;
        }
        let sizes = self.layout.sizes();
        // A method of `Lac` for the entry behind it was tried, and the proof of this match did not close with it.
        let next = EntryId(self.settled.0);
        self.phase = match (&mut self.phase, reply) {
            (Phase::Fencing { marks }, Message::Fenced { bookie, lac, .. }) => {
                self.layout.mark_ensemble(*bookie, marks);
                self.settled = self.settled.max(*lac);
                if !sizes.covers(marks) {
                    return false;
                }
                read_on(self.settled)
            }
            (Phase::Reading { absent }, Message::Absent { bookie, .. }) => {
                self.layout.mark_write_set(next, *bookie, absent);
                if sizes.marked(next, absent) < sizes.blocking() {
                    return false;
                }
                Phase::Ended
            }
            (Phase::Reading { .. }, Message::Found { lac, body, .. }) => write_back(*lac, *body),
            (Phase::Writing { good, .. }, Message::RecoveryAdded { bookie, .. }) => {
                self.layout.mark_write_set(next, *bookie, good);
                if sizes.marked(next, good) < sizes.ack_quorum() {
                    return false;
                }
                self.settled = one_more(self.settled);
                read_on(self.settled)
            }
            _ => return false,
        };
        true
    }

    fn ask_again(&self, number: RecovererId, messages: &mut WaitingList) {
        ask(self, number, messages);
    }
}
