// Groups of bookies: one bookie, or two groups side by side, with the bookies numbered from the left from 0.
//
// What a group means is the list of what its bookies mean. Each call names a bookie by its number and answers as that
// bookie does, and changes that one alone; a number that no bookie has is refused with 4. `sizes` says whether a group
// has the 1 to 8 bookies that a cluster takes.
#![tactic(auto)]

pub mod faults;
pub mod interface;
pub mod one;
pub mod pair;
pub mod sizes;
