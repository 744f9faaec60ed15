// Some positions of an ensemble, in the order of sending.
ghost use Rattle.std.specs.Prelude.{◌≡◌, ◌≤◌};
ghost use Rattle.layout.specs.Positions.{listed_positions};
ghost use Rattle.layout.specs.WriteSets.{positions, write_set, ensemble};

use crate::sizes::Sizes;
use ledgers::bookie_lists::MAX_ENSEMBLE;
use ledgers::ids::EntryId;
use places::short_lists::ShortList;

#[derive(Clone, Copy, PartialEq, Eq)]
pub struct Positions(ShortList<u32, MAX_ENSEMBLE>);

impl Positions {
    // The positions, as numbers.
    pub fn as_slice(&self) -> &[u32]
        ensures { result.now ≡ listed_positions self.now }
    {
        self.0.as_slice()
    }
}

impl Sizes {
    // The positions that an entry is written to.
    pub fn write_set(&self, e: EntryId) -> Positions
        ensures { listed_positions result ≡ write_set self.now e.0 }
    {
        self.positions(e, self.write_quorum())
    }

    // All positions, in order.
    pub fn whole_ensemble(&self) -> Positions
        ensures { listed_positions result ≡ ensemble self.now }
    {
        self.positions(EntryId(0), self.ensemble())
    }

    // So many positions from that of an entry on.
    fn positions(&self, e: EntryId, count: u32) -> Positions
        requires { count ≤ 5 }
        ensures { listed_positions result ≡ positions count e.0 self.now.ensemble }
    {
        let mut positions = ShortList::new();
        // Each is the one after the last, so that only the first costs a division. Nothing collects into a list without memory of its own.
        let mut at = self.position(e, 0);
        for offset in 0..count {
            positions.push(at.0);
            at = self.position_after(at);
        }
        Positions(positions)
    }
}
