// Why a client or a step refuses. What a lower layer refuses comes through whole.
ghost use Rattle.std.specs.Prelude.{◌≡◌};
ghost use Rattle.protocol.specs.declared.faults.ClientFault.TheVariants.{Store as of_store};
ghost use Rattle.protocol.specs.declared.faults.StepFault.TheVariants.{Client as of_client};

use messages::faults::StoreFault;

// Why a client refuses, in the order of its questions.
#[derive(Clone, Copy, PartialEq, Eq)]
pub enum ClientFault {
    // Sizes out of order, not one different bookie for each position; or a bookie that is in the ensemble already, a
    // position that is not: 6.
    Ensemble,
    // The writer is fenced: 7.
    Fenced,
    // The writer, or the ledger to recover, is closed: 8.
    Closed,
    // Adds are pending: 10.
    Pending,
    // No add more can be pending, or there is no next entry: 11.
    Full,
    // There is no ninth fragment: 12.
    Fragments,
    // The recovery has not ended: 13.
    Unfinished,
    Store(StoreFault),
}

// Why a step is refused.
#[derive(Clone, Copy, PartialEq, Eq)]
pub enum StepFault {
    // What this word of the step names does not exist, the step's letter being word 0: 4.
    Missing { word: u32 },
    // The ledger is there already, or the recoverer is at work: 5.
    Taken,
    Client(ClientFault),
}

impl From<StoreFault> for ClientFault {
    ghost from_gives = { λ fault r. r ≡ of_store fault };

    fn from(fault: StoreFault) -> ClientFault {
        ClientFault::Store(fault)
    }
}

impl From<ClientFault> for StepFault {
    ghost from_gives = { λ fault r. r ≡ of_client fault };

    fn from(fault: ClientFault) -> StepFault {
        StepFault::Client(fault)
    }
}
