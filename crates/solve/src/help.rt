// What `solve --help` prints.
use std::io;
use std::io::Write;

pub(crate) fn print_help<W: Write>(out: &mut W) -> io::Result<()> {
    out.write_all(
        b"solve runs a program on the step machine, and prints what came of it.

    solve < FILE

It reads standard input: a budget line, the most steps to be done, then a line
for each frame, at most 512. A budget has 16 hexadecimal digits, a frame 16 for
each of its 1 to 4 words. Digits are 0 to 9 and a to f, and every line ends with
a line feed. This input, a budget of 100 and five frames,

    0000000000000064
    00000002000088040000000000000005
    0020080200009200
    0010000200008a0a0000000000000003
    000000000000091700000000000000030000000000000001
    000000000000000b

makes it print

    e0 5 8 5 0
    a

The first line is the answer, the steps, pc, clk and the kilosteps; then comes
each output value on a line of its own. The answer is e0 (ended), e1 (calling),
e2 (delegate calling), e3 (paused) or the number of a refusal, as
conformance/RULES.md lists them. Refusal 2 adds the number of the malformed
frame, which is 0 for the budget line. The refusal's number is decimal, every
other number hexadecimal.

A read or a write that fails is told on standard error. The exit status is
always 0.
",
    )
}
