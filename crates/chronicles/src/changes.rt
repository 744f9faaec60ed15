// A change of a ledger's metadata, as a chronicle notes it.
ghost use Rattle.std.specs.Prelude.{◌≡◌, ◌<◌, length, None};
ghost use Rattle.ledgers.specs.Tables.{numbered};
ghost use Rattle.protocol.specs.Stores.{known};
ghost use Rattle.chronicles.specs.Replays.{no_change, noted, replayed};

use layout::fragments::Layout;
use ledgers::ids::{Lac, LedgerId, Version};
use messages::metadata::{LedgerState, Metadata};
use places::Blank;

// What the ledger's record is from then on. The version is not noted: it is how many changes of the ledger there are.
#[derive(Clone, Copy)]
pub struct Change {
    pub ledger: LedgerId,
    pub state: LedgerState,
    pub layout: Layout,
    pub closing: Lac,
}

impl Blank for Change {
    ghost empty = { no_change };

    fn blank() -> Change {
        Change {
            ledger: LedgerId(0),
            state: LedgerState::Open,
            layout: Layout::blank(),
            closing: Lac(0),
        }
    }
}

impl Change {
    // The metadata of the ledger after this change.
    fn after(&self, kept: Option<Metadata>) -> Metadata
        requires { (known kept).version.0 < 4294967295 }
        ensures { result ≡ noted kept self.now }
    {
        let earlier = kept.map_or(0, |metadata| metadata.version.0);
        Metadata {
            version: Version(earlier + 1),
            state: self.state,
            layout: self.layout,
            closing: self.closing,
        }
    }
}

// The metadata of a ledger after these changes, from the first to the last.
pub(crate) fn latest(changes: &[Change], ledger: LedgerId) -> Option<Metadata>
    requires { length changes.now < 4294967296 }
    ensures { result ≡ numbered (replayed changes.now) ledger.0 None }
{
    if !ledger.is_in_range() {
        return None;
    }
    let mut found = None;
    for change in changes {
        if change.ledger == ledger {
            found = Some(change.after(found));
        }
    }
    found
}
