// A bookie in memory, over records that are lent to it.
use messages::entries::Held;
use places::lent_logs::LentLog;

#[derive(Drop)]
pub struct MemoryBookie<'a> {
    // The entries held, in the order of their adding.
    entries: LentLog<'a, Held>,
    // Whether each ledger is fenced, from ledger 1 on.
    fenced: [bool; 16],
    up: bool,
}

pub mod calls;
