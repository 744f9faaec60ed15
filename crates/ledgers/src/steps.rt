// The steps that a cluster can be asked to take, with everything that a step names.
use crate::bodies::Body;
use crate::bookie_lists::BookieList;
use crate::ids::{BookieId, LedgerId, MessagePlace, Position, RecovererId};

#[derive(Clone, Copy)]
pub enum Step {
    // A new ledger with its sizes and the bookies of its first fragment.
    Create {
        ledger: LedgerId,
        ensemble: u32,
        write_quorum: u32,
        ack_quorum: u32,
        bookies: BookieList,
    },
    // The writer appends an entry.
    Append {
        ledger: LedgerId,
        body: Body,
    },
    // The writer's adds that are not acknowledged go again.
    Resend {
        ledger: LedgerId,
    },
    // The writer puts another bookie at a position.
    ChangeEnsemble {
        ledger: LedgerId,
        position: Position,
        bookie: BookieId,
    },
    // The writer closes its ledger.
    Close {
        ledger: LedgerId,
    },
    // A recoverer takes a ledger over.
    Recover {
        recoverer: RecovererId,
        ledger: LedgerId,
    },
    // A recoverer's requests that are not answered go again.
    AskAgain {
        recoverer: RecovererId,
    },
    // A recoverer closes its ledger.
    Finish {
        recoverer: RecovererId,
    },
    // A waiting message arrives.
    Deliver {
        message: MessagePlace,
    },
    // A waiting message is doubled.
    Duplicate {
        message: MessagePlace,
    },
    // A waiting message is lost.
    Discard {
        message: MessagePlace,
    },
    // A bookie stops.
    Stop {
        bookie: BookieId,
    },
    // A bookie starts again.
    Start {
        bookie: BookieId,
    },
}
