// Step sheets: the traced run, as definitions in specs/, and what follows from them in proofs/. There is no code, only a type.
#![tactic(auto)]

// Which of op0, op1 and dst the line of a step has. The opcode alone says it, before there is a number, and it is a word of the line itself
// (`present_of` and `presence_word` in specs/Lines.antt, which theorem `SheetLines` reads): so it is no Option of each number.
#[derive(Clone, Copy)]
pub struct Present {
    pub op0: bool,
    pub op1: bool,
    pub dst: bool,
}
