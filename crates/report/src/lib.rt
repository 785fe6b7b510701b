// What a caller is shown of a call: the used output, kilosteps, and the lines that `solve` prints. `print` writes into the buffer that
// it is lent; nothing else is touched.
//
// Public: `used_output`, `kilosteps`, `print`.
// Internal, for the crates above: `label::Label` of an answer, which has the one table of numbers.
#![tactic(auto)]

pub mod label;
mod lines;

ghost use Rattle.std.specs.Prelude.{◌≡◌, take};
ghost use Rattle.rules.specs.Solve.{printed, kilosteps};
ghost use Rattle.hexadecimal.specs.Writing.{Writes};
ghost use Rattle.report.specs.ReportLines.{reported};

use crate::label::Label;
use crate::lines::FirstLine;
use rules::{Answer, Machine};
use std::cmp::Ordering;

// The used part of the caller's output, as a part of it; all of it where the count is above its length.
pub fn used_output(count: usize, output: &[u64]) -> &[u64]
    ensures { result.now ≡ take count output.now }
{
    output.get(..count).unwrap_or(output)
}

// clk / 1000, to nearest, half to even, for every word.
#[tactic(auto, using(std::proofs::lemmas::Bool::Decides::nat_tests), unfolding(rules::specs::Solve::kilosteps))]
pub fn kilosteps(clk: u64) -> u64
    ensures { result ≡ kilosteps clk }
{
    let thousands = clk / 1000;
    match (clk % 1000).cmp(&500) {
        Ordering::Less => thousands,
        Ordering::Equal => thousands + thousands % 2,
        Ordering::Greater => thousands + 1,
    }
}

// Writes the lines that `solve` prints of a call, from the buffer's start on; where they do not fit, nothing is written. A call
// refused at entry shows zeros and no output.
pub fn print(
    answer: Answer,
    steps: u64,
    machine: Machine,
    output: &[u64],
    buffer: &mut [u8],
) -> Option<usize>
    ensures { Writes (printed (reported answer steps machine output.now))
        buffer.old 0 result buffer.new }
{
    let label = Label::from(answer);
    if label.is_entry_refusal() {
        let first = FirstLine {
            label,
            steps: 0,
            pc: 0,
            clk: 0,
        };
        return lines::put_lines(first, &[], buffer);
    }
    let first = FirstLine {
        label,
        steps,
        pc: machine.pc,
        clk: machine.clk,
    };
    lines::put_lines(first, used_output(machine.output_count, output), buffer)
}
