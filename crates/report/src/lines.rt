// The lines of a call. `put_lines` looks whether they fit; each other function that writes is handed a buffer in which its characters
// fit, and answers the place after them.
// By hand, and not by `write!` into the buffer: after one through a `&mut [u8]` nothing is known of what the buffer holds (tried with
// `put_decimal`), and `Writes`, the contract of `print`, says all of it. A place and a buffer are no cursor with a `&mut` field: each
// function would have to promise besides that the cursor keeps its buffer.
ghost use Rattle.std.specs.Prelude.{◌≡◌, ◌+◌, ◌≤◌, leb, length};
ghost use Rattle.rules.specs.Hexadecimal.{shortest_hex};
ghost use Rattle.rules.specs.Solve.{decimal, spaced, value_lines};
ghost use Rattle.hexadecimal.specs.Writing.{Writes};
ghost use Rattle.report.specs.Placing.{Placed};
ghost use Rattle.report.specs.ReportLines.{value_line, label_text, fields, frame_field, first_line, lines_from};

use crate::kilosteps;
use crate::label::Label;
use hexadecimal::{digit_count, put_shortest};

// What the first line shows.
#[derive(Clone, Copy)]
pub(crate) struct FirstLine {
    pub(crate) label: Label,
    pub(crate) steps: u64,
    pub(crate) pc: u64,
    pub(crate) clk: u64,
}

// A word in shortest hexadecimal. It fits, so that there is a next place.
fn put_hex(at: usize, v: u64, buffer: &mut [u8]) -> usize
    requires { at + length (shortest_hex v) ≤ length buffer.old }
    ensures { Placed (shortest_hex v) buffer.old at result buffer.new }
{
    put_shortest(at, v, buffer).unwrap()
}

// A space and a word.
fn put_field(at: usize, v: u64, buffer: &mut [u8]) -> usize
    requires { at + length (spaced v) ≤ length buffer.old }
    ensures { Placed (spaced v) buffer.old at result buffer.new }
{
    buffer[at] = b' ';
    put_hex(at + 1, v, buffer)
}

// A word and a line feed.
fn put_value(at: usize, v: u64, buffer: &mut [u8]) -> usize
    requires { at + length (value_line v) ≤ length buffer.old }
    ensures { Placed (value_line v) buffer.old at result buffer.new }
{
    let end = put_hex(at, v, buffer);
    buffer[end] = b'\n';
    end + 1
}

// A line for each value.
fn put_values(from: usize, values: &[u64], buffer: &mut [u8]) -> usize
    requires { from + length (value_lines values.now) ≤ length buffer.old }
    ensures { Placed (value_lines values.now) buffer.old from result buffer.new }
{
    let mut at = from;
    for v in values {
        at = put_value(at, *v, buffer);
    }
    at
}

// Do the lines of the values fit in so many places? Their lengths are taken off one by one, since a sum might not fit in a word.
fn values_fit(values: &[u64], places: usize) -> bool
    ensures { result ≡ leb (length (value_lines values.now)) places }
{
    let mut left = places;
    for v in values {
        let Some(others) = left.checked_sub(digit_count(*v) + 1) else {
            return false;
        };
        left = others;
    }
    true
}

// A number below 100 in decimal.
fn put_decimal(n: u8, buffer: &mut [u8]) -> usize
    requires { length (decimal n) ≤ length buffer.old }
    ensures { Placed (decimal n) buffer.old 0 result buffer.new }
{
    if n < 10 {
        buffer[0] = n + b'0';
        return 1;
    }
    buffer[0] = n / 10 + b'0';
    buffer[1] = n % 10 + b'0';
    2
}

// 'e' and an outcome's number, or a refusal's number.
fn put_label(label: Label, buffer: &mut [u8]) -> usize
    requires { length (label_text label) ≤ length buffer.old }
    ensures { Placed (label_text label) buffer.old 0 result buffer.new }
{
    match label {
        Label::Outcome(number) => {
            buffer[0] = b'e';
            put_hex(1, number as u64, buffer)
        }
        Label::Refusal(number) => put_decimal(number, buffer),
        Label::Malformed(_) => put_decimal(2, buffer),
    }
}

// Steps, pc, clk and kilosteps.
fn put_fields(at: usize, steps: u64, pc: u64, clk: u64, buffer: &mut [u8]) -> usize
    requires { at + length (fields steps pc clk) ≤ length buffer.old }
    ensures { Placed (fields steps pc clk) buffer.old at result buffer.new }
{
    let a = put_field(at, steps, buffer);
    let b = put_field(a, pc, buffer);
    let c = put_field(b, clk, buffer);
    put_field(c, kilosteps(clk), buffer)
}

// The frame that refusal 2 carries.
#[tactic(auto, using(crate::proofs::Placing::placing), unfolding(crate::specs::ReportLines::frame_field))]
fn put_frame(at: usize, label: Label, buffer: &mut [u8]) -> usize
    requires { at + length (frame_field label) ≤ length buffer.old }
    ensures { Placed (frame_field label) buffer.old at result buffer.new }
{
    match label {
        Label::Outcome(_) | Label::Refusal(_) => at,
        Label::Malformed(frame) => put_field(at, frame, buffer),
    }
}

impl FirstLine {
    // Label, fields, frame and line feed.
    fn put(self, buffer: &mut [u8]) -> usize
        requires { length (first_line self.label self.steps self.pc self.clk) ≤ length buffer.old }
        ensures { Placed (first_line self.label self.steps self.pc self.clk) buffer.old 0 result buffer.new }
    {
        let a = put_label(self.label, buffer);
        let b = put_fields(a, self.steps, self.pc, self.clk, buffer);
        let end = put_frame(b, self.label, buffer);
        buffer[end] = b'\n';
        end + 1
    }

    // How long it is, found by writing it into a buffer of its own.
    fn length(self) -> usize
        ensures { result ≡ length (first_line self.label self.steps self.pc self.clk) }
    {
        let mut scratch = [0u8; 128];
        self.put(&mut scratch)
    }
}

// Writes the first line and a line for each value from the buffer's start on. Nothing is written before all of it is known to fit.
pub(crate) fn put_lines(first: FirstLine, values: &[u64], buffer: &mut [u8]) -> Option<usize>
    ensures { Writes (lines_from first.label first.steps first.pc first.clk values.now) buffer.old 0 result buffer.new }
{
    let others = buffer.len().checked_sub(first.length())?;
    if !values_fit(values, others) {
        return None;
    }
    let from = first.put(buffer);
    Some(put_values(from, values, buffer))
}
