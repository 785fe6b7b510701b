// The entry's tests alone: what a call is refused with at entry, else e3, as a run with budget 0 answers. What is lent is only read. The
// public checks of crate `executor` are thin functions over `check`.
//
// Internal: each function takes any arguments. `programs` has the forms in which a program is handed in: checks and runs are made once,
// for any of them.
#![tactic(auto)]

pub mod programs;

ghost use Rattle.std.specs.Prelude.{◌≡◌};
ghost use Rattle.rules.specs.Answers.{meaning};
ghost use Rattle.checking.specs.ModeCalls.{mode_entry, mode_call, handed_in};

use crate::programs::Program;
use effects::Mode;
use rules::{Answer, Machine, Refusal};

// What is handed in beside the program, to be read.
#[derive(Clone, Copy)]
pub struct HandedIn<'a> {
    pub mode: Mode,
    pub machine: Machine,
    pub addresses: &'a [u64],
    pub numbers: &'a [u64],
    pub moments: &'a [u64],
    pub marks: &'a [u64],
    pub tape: &'a [u64],
    pub output: &'a [u64],
}

impl HandedIn<'_> {
    // Is it fit? Marks are looked at in a guarded call only.
    pub fn is_fit(&self) -> bool
        ensures { result ≡ mode_entry self.now.mode.guarded (handed_in self.now) }
    {
        entry::accepts(
            self.machine,
            self.addresses,
            self.numbers,
            self.moments,
            self.tape,
            self.output,
        ) && (!self.mode.guarded
            || entry::accepts_marks(
                self.machine,
                self.mode.extras,
                self.addresses,
                self.numbers,
                self.marks,
            ))
    }
}

// The answer at entry: the program's refusal, else that of what is handed in, else e3, whatever the program's budget.
pub fn check<P: Program>(program: P, handed: &HandedIn) -> Answer
    ensures { meaning result
        ≡ (mode_call handed.now.mode.guarded (P.loaded program) 0 (handed_in handed.now)).answer }
{
    match program.check() {
        Ok(_) => {
            if handed.is_fit() {
                return Answer::Paused;
            }
            Answer::Refused(Refusal::BadState)
        }
        Err(refusal) => Answer::Refused(refusal),
    }
}
