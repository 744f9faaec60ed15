// Scripts: lines that are played one after the other, and what is printed for them.
//
// A `players::Player` takes a line at a time and writes its answer into bytes that the caller lends. `inputs::play_input`
// plays a whole input, whatever bytes it has, and gives all that is printed for it. No cluster stands behind a script
// yet, so that whatever a line names is not there.
#![tactic(auto)]

pub mod inputs;
pub mod players;
pub mod printed;
pub mod printing;
pub mod refusals;
