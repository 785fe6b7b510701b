// What the first word of a frame says: its opcode, and for each operand a kind and a register. What opcodes and kinds are.
//
// All functions are internal, for the crates above.
#![tactic(auto)]

pub mod first_word;
pub mod opcodes;
pub mod operand_kinds;
pub mod register_sets;
pub mod wants;
