// The writers of the machine's memory and tape, in buffers that the caller lends.
//
// All functions are internal, for the crates above. In a run only they write the cells' buffers, the tape and the output; they know of no
// register and no program.
#![tactic(auto)]

pub mod cells;
pub mod tape;
