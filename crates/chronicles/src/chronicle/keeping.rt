// A chronicle as a store.
ghost use Rattle.std.specs.Prelude.{◌≡◌, suc, ◌≤◌, [], ◌∷◌, ◌++◌, length, nat_le, slice_set};
ghost use Rattle.messages.specs.declared.metadata.LedgerState.TheVariants.{Open};
ghost use Rattle.ledgers.specs.Ids.{lac_id};
ghost use Rattle.protocol.specs.Stores.{kept, known, written, create_answer, create_after, put_answer, put_after};
ghost use Rattle.chronicles.specs.Chronicles.{history, in_chronicle, change_to, history_after, places_after};

use super::Chronicle;
use crate::changes::{Change, latest};
use layout::fragments::Layout;
use ledgers::ids::{Lac, LedgerId, Version};
use messages::faults::StoreFault;
use messages::metadata::{LedgerState, Metadata};
use stores::calls::Store;
use stores::questions::{ask_create, ask_get, ask_put};

impl Chronicle<'_> {
    // What is kept of a ledger; its version is not above the number of changes.
    fn kept(&self, ledger: LedgerId) -> Option<Metadata>
        ensures value { result ≡ kept (in_chronicle self.now) ledger.0 }
        ensures version { (known result).version.0 ≤ length (history self.now) }
    {
        latest(self.changes(), ledger)
    }

    // Whether a change is left.
    fn has_room(&self) -> bool
        ensures { result ≡ nat_le 1 (in_chronicle self.now).changes }
    {
        self.changes.has_room()
    }

    // Notes a change, which makes this the metadata of its ledger.
    fn write(&mut self, ledger: LedgerId, metadata: Metadata)
        requires left { 1 ≤ (in_chronicle self.old).changes }
        requires version { metadata.version.0 ≡ suc (known (kept (in_chronicle self.old) ledger.0)).version.0 }
        ensures after { in_chronicle self.new ≡ written (in_chronicle self.old) ledger.0 metadata }
        ensures history { history self.new ≡ history self.old ++ (change_to ledger metadata.state metadata.layout metadata.closing ∷ []) }
        ensures places { self.new.changes.places.now ≡ slice_set self.old.changes.places.now (length (history self.old)) (change_to ledger metadata.state metadata.layout metadata.closing) }
    {
        self.changes.push(Change {
            ledger,
            state: metadata.state,
            layout: metadata.layout,
            closing: metadata.closing,
        });
    }
}

impl Store for Chronicle<'_> {
    ghost means = { in_chronicle };

    fn get(&self, ledger: LedgerId) -> Result<Metadata, StoreFault> {
        ask_get(ledger, self.kept(ledger))
    }

    // The bodies of create and put are those of a table but for their last call; beside the table's stands why they are not one.
    fn create(&mut self, ledger: LedgerId, layout: &Layout) -> Result<Version, StoreFault>
        ensures answer { result ≡ create_answer (in_chronicle self.old) ledger }
        ensures after { in_chronicle self.new ≡ create_after (in_chronicle self.old) ledger layout.now }
        ensures history { history self.new ≡ history_after result self.old (change_to ledger Open layout.now (lac_id 0)) }
        ensures places { self.new.changes.places.now ≡ places_after result self.old (change_to ledger Open layout.now (lac_id 0)) }
    {
        ask_create(ledger, self.kept(ledger), self.has_room())?;
        let version = Version(1);
        let opened = Metadata {
            version,
            state: LedgerState::Open,
            layout: *layout,
            closing: Lac(0),
        };
        self.write(ledger, opened);
        Ok(version)
    }

    fn put(
        &mut self,
        ledger: LedgerId,
        expected: Version,
        state: LedgerState,
        layout: &Layout,
        closing: Lac,
    ) -> Result<Version, StoreFault>
        ensures answer { result ≡ put_answer (in_chronicle self.old) ledger expected }
        ensures after { in_chronicle self.new ≡ put_after (in_chronicle self.old) ledger expected state layout.now closing }
        ensures history { history self.new ≡ history_after result self.old (change_to ledger state layout.now closing) }
        ensures places { self.new.changes.places.now ≡ places_after result self.old (change_to ledger state layout.now closing) }
    {
        ask_put(ledger, self.kept(ledger), expected, self.has_room())?;
        let version = Version(expected.0 + 1);
        let next = Metadata {
            version,
            state,
            layout: *layout,
            closing,
        };
        self.write(ledger, next);
        Ok(version)
    }
}
