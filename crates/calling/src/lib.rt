// Calls, plain and guarded, as one core by mode: a program is loaded, what is handed in is tested, and the program runs. The public calls
// of crate `executor` are thin functions over it.
//
// Internal: each function takes any arguments, but a plain call is handed no marks.
#![tactic(auto)]

pub mod runs;
