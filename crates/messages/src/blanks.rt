// The blank records of lists.
ghost use Rattle.messages.specs.Blanks.{no_message, no_held, no_add};

use crate::entries::{Held, PendingAdd};
use crate::messages::Message;
use ledgers::bodies::Body;
use ledgers::ids::{BookieId, EntryId, Lac, LedgerId, RecovererId};
use places::Blank;

impl Blank for Message {
    ghost empty = { no_message };

    fn blank() -> Message {
        Message::Fence {
            recoverer: RecovererId(0),
            ledger: LedgerId(0),
            bookie: BookieId(0),
        }
    }
}

impl Blank for Held {
    ghost empty = { no_held };

    fn blank() -> Held {
        Held {
            ledger: LedgerId(0),
            entry: EntryId(0),
            lac: Lac(0),
            body: Body::empty(),
        }
    }
}

impl Blank for PendingAdd {
    ghost empty = { no_add };

    fn blank() -> PendingAdd {
        PendingAdd {
            body: Body::empty(),
            marks: [false; 5],
        }
    }
}
