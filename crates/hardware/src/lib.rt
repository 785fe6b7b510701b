// The machine's memory, in buffers that the caller lends: cells found and read, regions of addresses. The crate `storing` writes them.
//
// All functions are internal, for the crates above. In a run only they and those of `storing` touch the cells' buffers; they know of no
// register and no program.
#![tactic(auto)]

pub mod addresses;
pub mod cells;
pub mod regions;
