// What a recoverer asks the bookies.
ghost use Rattle.std.specs.Prelude.{◌≡◌};
ghost use Rattle.messages.specs.Waiting.{sent};
ghost use Rattle.waiting.specs.Queues.{queue};
ghost use Rattle.protocol.specs.Recoverers.{asks};

use crate::rounds::Round;
use ledgers::ids::{EntryId, RecovererId};
use messages::messages::Message;
use protocol::recoverers::{Phase, Recoverer};
use waiting::WaitingList;

// Sends the requests of a recoverer's phase to the positions that have not answered.
pub(crate) fn ask(recoverer: &Recoverer, number: RecovererId, messages: &mut WaitingList)
    ensures { queue messages.new ≡ sent (queue messages.old) (asks recoverer.now number) }
{
    let ledger = recoverer.ledger;
    let layout = &recoverer.layout;
    let entry = EntryId(recoverer.settled.0);
    match &recoverer.phase {
        Phase::Fencing { marks } => {
            let request = |bookie| Message::Fence {
                recoverer: number,
                ledger,
                bookie,
            };
            Round::of_ensemble(layout, marks).send(request, messages);
        }
        Phase::Reading { absent } => {
            let request = |bookie| Message::RecoveryRead {
                recoverer: number,
                ledger,
                bookie,
                entry,
            };
            Round::of_entry(layout, entry, absent).send(request, messages);
        }
        Phase::Writing { good, lac, body } => {
            let request = |bookie| Message::RecoveryAdd {
                recoverer: number,
                ledger,
                bookie,
                entry,
                lac: *lac,
                body: *body,
            };
            Round::of_entry(layout, entry, good).send(request, messages);
        }
        Phase::Idle | Phase::Ended => {}
    }
}
