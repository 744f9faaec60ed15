// Where the entries of a ledger are kept: how large its ensembles and quorums are, which positions an entry is
// written to, and which bookies stand there from which entry on.
//
// A client asks `Sizes` for the write set of an entry and whether the positions that answered cover the ensemble, and
// `Layout` for the fragment of an entry and for the layout after an ensemble change. Every value of `Sizes` is in order
// and every `Layout` has one to eight fragments by its type, so that none of these calls asks anything of its caller.
// Each is proved equal to its definition in `specs/`, and the layouts that are made here rise from entry 0 on as long as
// changes do.
#![tactic(auto)]

pub mod fragments;
pub mod marks;
pub mod positions;
pub mod sizes;
