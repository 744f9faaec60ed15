// A store in memory: the present record of each ledger.
ghost use Rattle.std.specs.Prelude.{◌≡◌, ◌≤◌, true, length};
ghost use Rattle.stores.specs.Versions.{versions_within};

use messages::metadata::Metadata;

// The changes that a table can take.
pub const TABLE_CHANGES: u32 = 60000;

// Sixteen rows by value: a table allocates nothing.
#[derive(Clone, Copy)]
pub struct Table {
    // By number, from ledger 1 on.
    ledgers: [Option<Metadata>; 16],
    // How many changes it has taken.
    made: u32,
    ghost sixteen: { length ledgers ≡ 16 },
    ghost limited: { made ≤ 60000 },
    // So no version comes near the highest number that there is.
    ghost counted: { versions_within made ledgers ≡ true },
}

pub mod keeping;
