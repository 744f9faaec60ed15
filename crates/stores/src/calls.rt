// What every store can be asked.
ghost use Rattle.std.specs.Prelude.{◌≡◌};
ghost use Rattle.protocol.specs.Stores.{Store as ProtocolStore, get_answer, create_answer, create_after, put_answer, put_after};

use layout::fragments::Layout;
use ledgers::ids::{Lac, LedgerId, Version};
use messages::faults::StoreFault;
use messages::metadata::{LedgerState, Metadata};

pub trait Store {
    // For each ledger from 1 on nothing, or its version and record; and how many changes are left.
    ghost means: { Self → ProtocolStore };

    // The metadata of a ledger.
    fn get(&self, ledger: LedgerId) -> Result<Metadata, StoreFault>
        ensures { result ≡ get_answer (means self.now) ledger };

    // A new ledger, open and with this layout, gets version 1.
    fn create(&mut self, ledger: LedgerId, layout: &Layout) -> Result<Version, StoreFault>
        ensures answer { result ≡ create_answer (means self.old) ledger }
        ensures after { means self.new ≡ create_after (means self.old) ledger layout.now };

    // The record of a ledger is set and its version raised by one, if that is the one expected. What is put is no struct: a
    // `Metadata` has its version besides, which the store gives.
    fn put(
        &mut self,
        ledger: LedgerId,
        expected: Version,
        state: LedgerState,
        layout: &Layout,
        closing: Lac,
    ) -> Result<Version, StoreFault>
        ensures answer { result ≡ put_answer (means self.old) ledger expected }
        ensures after { means self.new ≡ put_after (means self.old) ledger expected state layout.now closing };
}
