// How many bookies a cluster takes.
ghost use Rattle.std.specs.Prelude.{◌≡◌};
ghost use Rattle.groups.specs.Members.{group_fits};

use crate::interface::Group;
use ledgers::ids::BookieId;

pub const MAX_BOOKIES: u32 = 8;

// Whether the group has 1 to 8 bookies.
pub fn group_fits<G: Group>(group: &G) -> bool
    ensures { result ≡ group_fits (G.members group.now) }
{
    group.past(BookieId(0)).is_none() && group.past(BookieId(MAX_BOOKIES)).is_some()
}
