// A table as a store.
ghost use Rattle.std.specs.Prelude.{◌≡◌, ◌+◌, ◌<◌, ◌≤◌, true, Some, nat_le};
ghost use Rattle.ledgers.specs.Tables.{renumbered};
ghost use Rattle.ledgers.specs.Limits.{is_ledger};
ghost use Rattle.protocol.specs.Stores.{kept, known, written};
ghost use Rattle.stores.specs.Meaning.{new_store};
ghost use Rattle.stores.specs.Tables.{in_table};

use super::{TABLE_CHANGES, Table};
use crate::calls::Store;
use crate::questions::{ask_create, ask_get, ask_put};
use layout::fragments::Layout;
use ledgers::ids::{Lac, LedgerId, Version};
use messages::faults::StoreFault;
use messages::metadata::{LedgerState, Metadata};

impl Table {
    // A table without a ledger.
    pub fn new() -> Table
        ensures { in_table result ≡ new_store 60000 }
    {
        Table {
            ledgers: [None; 16],
            made: 0,
        }
    }

    // What is kept of a ledger; its version leaves room for a change that is left.
    fn kept(&self, ledger: LedgerId) -> Option<Metadata>
        ensures value { result ≡ kept (in_table self.now) ledger.0 }
        ensures version { (known result).version.0 ≤ self.now.made }
    {
        // By `match`: behind `?` no proof of the version was found.
        match ledger.row() {
            Some(row) => self.ledgers[row],
            None => None,
        }
    }

    // Whether a change is left.
    fn has_room(&self) -> bool
        ensures { result ≡ nat_le 1 (in_table self.now).changes }
    {
        self.made < TABLE_CHANGES
    }

    // Sets the metadata of a ledger, which takes a change.
    fn change(&mut self, ledger: LedgerId, metadata: Metadata)
        requires left { 1 ≤ (in_table self.old).changes }
        requires version { metadata.version.0 ≤ self.old.made + 1 }
        ensures { in_table self.new ≡ written (in_table self.old) ledger.0 metadata }
    {
        self.count_change();
        self.write(ledger, metadata);
    }

    // A change is taken.
    fn count_change(&mut self)
        requires { self.old.made < 60000 }
        ensures ledgers { self.new.ledgers ≡ self.old.ledgers }
        ensures made { self.new.made ≡ self.old.made + 1 }
    {
        self.made += 1;
    }

    // A row is set.
    fn write(&mut self, ledger: LedgerId, metadata: Metadata)
        requires version { metadata.version.0 ≤ self.old.made }
        ensures ledgers { self.new.ledgers ≡ renumbered self.old.ledgers ledger.0 (Some metadata) }
        ensures made { self.new.made ≡ self.old.made }
    {
        if let Some(row) = ledger.row() {
            self.ledgers[row] = Some(metadata);
        }
    }
}

impl Store for Table {
    ghost means = { in_table };

    fn get(&self, ledger: LedgerId) -> Result<Metadata, StoreFault> {
        ask_get(ledger, self.kept(ledger))
    }

    // The bodies of create and put are those of a chronicle but for their last call. One impl for both would need a call that sets a row
    // with a premise about its version, which everybody who has a store could make.
    fn create(&mut self, ledger: LedgerId, layout: &Layout) -> Result<Version, StoreFault> {
        ask_create(ledger, self.kept(ledger), self.has_room())?;
        let version = Version(1);
        let opened = Metadata {
            version,
            state: LedgerState::Open,
            layout: *layout,
            closing: Lac(0),
        };
        self.change(ledger, opened);
        Ok(version)
    }

    fn put(
        &mut self,
        ledger: LedgerId,
        expected: Version,
        state: LedgerState,
        layout: &Layout,
        closing: Lac,
    ) -> Result<Version, StoreFault> {
        ask_put(ledger, self.kept(ledger), expected, self.has_room())?;
        let version = Version(expected.0 + 1);
        let next = Metadata {
            version,
            state,
            layout: *layout,
            closing,
        };
        self.change(ledger, next);
        Ok(version)
    }
}
