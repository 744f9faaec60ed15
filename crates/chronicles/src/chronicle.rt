// The chronicle: the changes that it accepted, in lent places.
ghost use Rattle.std.specs.Prelude.{◌≤◌};
ghost use Rattle.places.specs.LentLogs.{room};

use crate::changes::Change;
use places::lent_logs::LentLog;

// The most places that a chronicle takes.
pub const MAX_CHANGES: usize = 60000;

#[derive(Drop)]
pub struct Chronicle<'a> {
    // The changes that it has accepted.
    changes: LentLog<'a, Change>,
    ghost few: { room changes ≤ 60000 },
}

pub mod changing;
pub mod keeping;
