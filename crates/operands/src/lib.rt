// The operands of an instruction that have to be computed or are refused, and the marks of registers.
//
// Internal, for the crates above: `values::compute`, `marks::{is_any, is_product_marked, with_mark}`.
#![tactic(auto)]

pub mod marks;
pub mod values;
