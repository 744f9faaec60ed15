// Why a group refuses.
ghost use Rattle.std.specs.Prelude.{◌≡◌};
ghost use Rattle.groups.specs.Numbers.{group_number};
ghost use Rattle.groups.specs.declared.faults.GroupFault.TheVariants.{Refused as of_bookie};

use messages::faults::BookieFault;

#[derive(Clone, Copy, PartialEq, Eq)]
pub enum GroupFault {
    // No bookie has the number: 4.
    Missing,
    // The bookie refuses, with its own number.
    Refused(BookieFault),
}

impl From<BookieFault> for GroupFault {
    ghost from_gives = { λ e r. r ≡ of_bookie e };

    fn from(e: BookieFault) -> GroupFault {
        GroupFault::Refused(e)
    }
}

impl From<GroupFault> for u32 {
    ghost from_gives = { λ fault number. number ≡ group_number fault };

    fn from(fault: GroupFault) -> u32 {
        match fault {
            GroupFault::Missing => 4,
            GroupFault::Refused(fault) => u32::from(fault),
        }
    }
}
