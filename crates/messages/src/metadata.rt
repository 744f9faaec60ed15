// What a store keeps of a ledger.
use layout::fragments::Layout;
use ledgers::ids::{Lac, Version};

#[derive(Clone, Copy)]
pub enum LedgerState {
    Open,
    InRecovery,
    Closed,
}

#[derive(Clone, Copy)]
pub struct Metadata {
    pub version: Version,
    pub state: LedgerState,
    pub layout: Layout,
    // The closing entry of a closed ledger; of another it is no entry.
    pub closing: Lac,
}
