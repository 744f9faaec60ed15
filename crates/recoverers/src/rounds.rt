// Rounds of requests.
ghost use Rattle.std.specs.Prelude.{◌≡◌};
ghost use Rattle.ledgers.specs.declared.ids.BookieId.{BookieId};
ghost use Rattle.layout.specs.WriteSets.{write_set, ensemble};
ghost use Rattle.layout.specs.Layouts.{fragment_of, last_fragment};
ghost use Rattle.layout.specs.Positions.{listed_positions};
ghost use Rattle.messages.specs.Waiting.{sent};
ghost use Rattle.messages.specs.declared.messages.Message.{Message};
ghost use Rattle.waiting.specs.Queues.{queue};
ghost use Rattle.protocol.specs.Recoverers.{asks_to};
ghost use Rattle.recoverers.specs.Rounds.{Makes, requests};

use layout::fragments::{Fragment, Layout};
use layout::marks::is_marked;
use layout::positions::Positions;
use ledgers::ids::{BookieId, EntryId, Position};
use messages::messages::Message;
use waiting::WaitingList;

// The positions that are asked, the bookies that stand there, and which positions have answered.
#[derive(Clone, Copy)]
pub(crate) struct Round {
    positions: Positions,
    fragment: Fragment,
    answered: [bool; 5],
}

impl Round {
    // All of the ensemble of the last fragment are asked.
    pub(crate) fn of_ensemble(layout: &Layout, answered: &[bool; 5]) -> Self
        ensures { (f : BookieId → Message) → requests result f ≡ asks_to answered.now (last_fragment layout.now).bookies f (ensemble layout.now.sizes) }
    {
        Round {
            positions: layout.sizes().whole_ensemble(),
            fragment: layout.last_fragment(),
            answered: *answered,
        }
    }

    // Those that an entry is written to are asked.
    pub(crate) fn of_entry(layout: &Layout, entry: EntryId, answered: &[bool; 5]) -> Self
        ensures { (f : BookieId → Message) → requests result f ≡ asks_to answered.now (fragment_of layout.now entry.0).bookies f (write_set layout.now.sizes entry.0) }
    {
        Round {
            positions: layout.sizes().write_set(entry),
            fragment: layout.fragment_of(entry),
            answered: *answered,
        }
    }

    // Makes a request for each bookie that has not answered, and sends it.
    pub(crate) fn send<F: Fn(BookieId) -> Message>(&self, request: F, messages: &mut WaitingList)
        requires { F.IsAlwaysCallable request }
        ensures { (f : BookieId → Message) → Makes (F.post request) f → queue messages.new ≡ sent (queue messages.old) (requests self.now f) }
    {
        for position in self.positions.as_slice() {
            if !is_marked(&self.answered, *position) {
                messages.send(request(self.fragment.bookie(Position(*position))));
            }
        }
    }
}
