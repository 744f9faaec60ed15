// How it stands with the writer of a ledger.
#[derive(Clone, Copy, PartialEq, Eq)]
pub enum WriterState {
    // There is no such ledger. A state beside the others, and no Option of a writer: each rule asks for the state once,
    // and would ask for the writer first.
    Absent,
    Writing,
    // A recovery took its ledger over: it confirms nothing more.
    Fenced,
    Closed,
}
