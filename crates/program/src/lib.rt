// Programs as frames of words: decoded, checked, and laid out as a table from pc. The words are only read; `load_words` writes the rows
// that it is lent, and nothing else is touched.
//
// Public: `binary_program::{frame_length, decode}`, `table::check_words`.
// Internal, for the crates above: `table::row_at`, `table::Loaded`, a program that passed its check, with its table, and the methods of
// `table::Row`.
#![tactic(auto)]

pub mod binary_program;
pub mod slots;
pub mod table;
