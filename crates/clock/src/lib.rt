// The clock: how many steps a run may make, and what it answers after them.
//
// Internal, for the crates above, and for any arguments: `limit_of`, `end_answer`.
#![tactic(auto, using(std::proofs::lemmas::Bool::Decides::nat_tests), unfolding(rules::specs::Numbers::clock_end))]

ghost use Rattle.std.specs.Prelude.{◌≡◌};
ghost use Rattle.clock.specs.Clock.{left_of, limit_of, end_answer};

use rules::{Answer, Refusal};

// A step that neither ends nor calls is refused 17 where it leaves clk here or beyond.
pub const CLOCK_END: u64 = 1_000_000_000_000;

// What is left of the clock. At its end and beyond, one step more is made, which is refused 17 where it would let the run go on.
fn left(clk: u64) -> u64
    ensures { result ≡ left_of clk }
{
    CLOCK_END.saturating_sub(clk).max(1)
}

// The most steps that a run makes: its budget, or what is left of the clock, whichever is less.
pub fn limit_of(budget: u64, clk: u64) -> u64
    ensures { result ≡ limit_of budget clk }
{
    budget.min(left(clk))
}

// The answer of a run that made as many steps as it may; clk is the clock after them.
pub fn end_answer(clk: u64) -> Answer
    ensures { result ≡ end_answer clk }
{
    if clk < CLOCK_END {
        return Answer::Paused;
    }
    Answer::Refused(Refusal::ClockEnd)
}
