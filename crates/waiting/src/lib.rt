// The list of the messages that wait to be delivered, place 0 first.
//
// A message that is sent goes to the end, and is lost where no place is free: the places that the list is lent, or is
// given as its own, are all that it has. Any message can be taken off, and those behind it move up.
#![tactic(auto)]

pub mod waiting_list;

pub use waiting_list::WaitingList;
