// Effects carried out: on the registers, which are among the values, and on the buffers, which the functions of `storing` alone write.
//
// Internal, for the crates above: `carry_out`.
#![tactic(auto)]

ghost use Rattle.std.specs.Prelude.{◌≡◌, ◌++◌, ◌+◌, ◌≤◌, ◌<◌, length, take, drop};
ghost use Rattle.rules.specs.Numbers.{heap_end, marks_end};
ghost use Rattle.rules.specs.Cells as Cells;
ghost use Rattle.rules.specs.Step.{overlay};
ghost use Rattle.rules.specs.Guarded.{product_mark, clean_many};
ghost use Rattle.hardware.specs.Buffers.{cells_of, mark_cells_of, put_many, Ordered, Holding};
ghost use Rattle.effects.specs.Effects.{meant, Placed};
ghost use Rattle.effects.specs.Carrying.{part, call_values};
ghost use Rattle.carrying.specs.Cores.{core_of};
ghost use Rattle.carrying.specs.Steps.{call_answer, register_marks_after, clk_after, core_after, Carriable, CarriedOut};

use effects::{Counts, Effect, Mode};
use rules::{Answer, Marks};

// How a step leaves the run: it goes on; it ends or calls; or the step is refused. No `Result`: the last two leave a machine alike.
#[derive(Clone, Copy)]
pub enum Finish {
    GoesOn,
    Leaves(Answer),
    Refuses(Answer),
}

// What a step leaves, beside what it wrote into registers and buffers.
#[derive(Clone, Copy)]
pub struct Stepped {
    pub pc: u64,
    pub counts: Counts,
    pub extras: Marks,
    pub finish: Finish,
}

// The registers' marks after one register was written; in a plain run they rest.
#[tactic(auto, unfolding(crate::specs::Steps::register_marks_after))]
fn marks_after(mode: Mode, register: usize, mark: bool) -> Marks
    requires registers_lt_marks_end { mode.extras.registers < marks_end }
    requires register_bound { register < 10 }
    ensures { result ≡ register_marks_after mode register mark }
{
    if mode.guarded {
        return Marks {
            registers: operands::marks::with_mark(mode.extras.registers, register, mark),
        };
    }
    mode.extras
}

// The same for a product. The mode comes first here too: a plain run does not look whether a product is blanked.
#[tactic(auto, unfolding(crate::specs::Steps::register_marks_after))]
fn product_marks_after(
    mode: Mode,
    register: usize,
    op0: u64,
    op0_mark: bool,
    op1: u64,
    op1_mark: bool,
) -> Marks
    requires registers_lt_marks_end { mode.extras.registers < marks_end }
    requires register_bound { register < 10 }
    ensures { result ≡ register_marks_after mode register (product_mark op0_mark op0 op1_mark op1) }
{
    if mode.guarded {
        return marks_after(
            mode,
            register,
            operands::marks::is_product_marked(op0, op0_mark, op1, op1_mark),
        );
    }
    mode.extras
}

// Tape values to cells, all at one moment; how many cells are used afterwards.
fn load_tape(
    guarded: bool,
    count: usize,
    from: usize,
    n: usize,
    address: u64,
    moment: u64,
    addresses: &mut [u64],
    numbers: &mut [u64],
    moments: &mut [u64],
    marks: &mut [u64],
    tape: &[u64],
) -> usize
    requires ordered { Ordered guarded count addresses.old numbers.old moments.old marks.old }
    requires n_in_bounds { from + n ≤ length tape.now }
    requires n_bound { 0 < n → address + n ≤ heap_end }
    requires tape_in_bounds { Cells.count (put_many moment (cells_of count addresses.old numbers.old moments.old) address (part from n tape.now))
        ≤ length addresses.old }
    ensures { Holding guarded
        (put_many moment (cells_of count addresses.old numbers.old moments.old) address
        (part from n tape.now))
        (clean_many Cells.mark_cells (mark_cells_of count addresses.old marks.old) address
        (part from n tape.now))
        result
        addresses.old numbers.old moments.old marks.old
        addresses.new numbers.new moments.new marks.new }
{
    let end = from + n;
    storing::cells::store_many(
        guarded,
        count,
        address,
        &tape[from..end],
        moment,
        addresses,
        numbers,
        moments,
        marks,
    )
}

// The twelve words that a call leaves on the tape.
fn call_values(storage_addr: [u64; 4], callee: [u64; 4], delegate: bool) -> [u64; 12]
    ensures { result ≡ call_values storage_addr callee delegate }
{
    let [s0, s1, s2, s3] = storage_addr;
    let [c0, c1, c2, c3] = callee;
    if delegate {
        return [s0, s1, s2, s3, c0, c1, c2, c3, s0, s1, s2, s3];
    }
    [s0, s1, s2, s3, c0, c1, c2, c3, c0, c1, c2, c3]
}

// A call: its words go to the tape, behind the first `count` values; the answer names the callee.
fn call_contract(
    storage_addr: [u64; 4],
    count: usize,
    at: usize,
    delegate: bool,
    numbers: &[u64],
    tape: &mut [u64],
) -> Answer
    requires at_in_bounds { at + 4 ≤ length numbers.now }
    requires count_in_bounds { count + 12 ≤ length tape.old }
    ensures value { result ≡ call_answer delegate (part at 4 numbers.now) }
    ensures tape_after { tape.new
        ≡ overlay (take count tape.old ++ call_values storage_addr (part at 4 numbers.now) delegate)
        tape.old }
{
    let callee = hardware::cells::read_four(at, numbers);
    let values = call_values(storage_addr, callee, delegate);
    storing::tape::write_values(&values, &mut tape[count..]);
    let [c0, c1, c2, c3] = callee;
    if delegate {
        return Answer::DelegateCalling(c0, c1, c2, c3);
    }
    Answer::Calling(c0, c1, c2, c3)
}

// Carries an effect out: registers, which are the first of the values, and buffers are changed in place, the rest is handed back. `mark`
// is that of the registers that the effect's number is made of; clk, which is that before the step, is the moment of every cell that it
// writes. The buffers are parameters of their own: a struct of them would be one of `&mut`, beside which Rattle covers no ghost field.
pub fn carry_out(
    mode: Mode,
    effect: Effect,
    mark: bool,
    pc: u64,
    clk: u64,
    storage_addr: [u64; 4],
    counts: Counts,
    addresses: &mut [u64],
    numbers: &mut [u64],
    moments: &mut [u64],
    marks: &mut [u64],
    tape: &mut [u64],
    output: &mut [u64],
    values: &mut [u64],
) -> Stepped
    requires in_bounds { 10 ≤ length values.old }
    requires placed { Placed (take counts.cells addresses.old) effect }
    requires carriable { Carriable (meant mark effect)
        (core_of mode (take 10 values.old) pc clk counts
        addresses.old numbers.old moments.old marks.old tape.old output.old) }
    ensures carried_out { CarriedOut storage_addr (meant mark effect)
        (core_of mode (take 10 values.old) pc clk counts
        addresses.old numbers.old moments.old marks.old
        tape.old output.old)
        result.finish
        (core_after mode result (clk_after result.finish clk) (take 10 values.new)
        addresses.new numbers.new moments.new marks.new
        tape.new output.new) }
    ensures values_len_unchanged { (length values.new ≡ length values.old)
        × (drop 10 values.new ≡ drop 10 values.old) }
{
    let moment = clk;
    let stays = Stepped {
        pc,
        counts,
        extras: mode.extras,
        finish: Finish::GoesOn,
    };
    match effect {
        Effect::SetRegister {
            register,
            number,
            marked,
            next,
        } => {
            values[register] = number;
            Stepped {
                pc: next,
                extras: marks_after(mode, register, marked | mark),
                ..stays
            }
        }
        // the marks first: they are made of the operands, which are then no longer needed
        Effect::SetProduct {
            register,
            number,
            op0,
            op0_mark,
            op1,
            next,
        } => {
            let extras = product_marks_after(mode, register, op0, op0_mark, op1, mark);
            values[register] = number;
            Stepped {
                pc: next,
                extras,
                ..stays
            }
        }
        Effect::StoreAt {
            place,
            number,
            next,
            ..
        } => {
            storing::cells::write_at(
                mode.guarded,
                place,
                number,
                moment,
                mark,
                numbers,
                moments,
                marks,
            );
            Stepped { pc: next, ..stays }
        }
        Effect::Insert {
            place,
            address,
            number,
            next,
        } => {
            storing::cells::insert(
                mode.guarded,
                counts.cells,
                place,
                address,
                number,
                moment,
                mark,
                addresses,
                numbers,
                moments,
                marks,
            );
            Stepped {
                pc: next,
                counts: Counts {
                    cells: counts.cells + 1,
                    ..counts
                },
                ..stays
            }
        }
        Effect::Jump { next } => Stepped { pc: next, ..stays },
        Effect::LoadTape {
            from,
            count,
            address,
            next,
        } => {
            let cells = load_tape(
                mode.guarded,
                counts.cells,
                from,
                count,
                address,
                moment,
                addresses,
                numbers,
                moments,
                marks,
                tape,
            );
            Stepped {
                pc: next,
                counts: Counts { cells, ..counts },
                ..stays
            }
        }
        Effect::StoreTape { place, count, next } => {
            storing::cells::append_numbers(counts.tape, place, count, numbers, tape);
            storing::cells::append_numbers(counts.output, place, count, numbers, output);
            Stepped {
                pc: next,
                counts: Counts {
                    tape: counts.tape + count,
                    output: counts.output + count,
                    ..counts
                },
                ..stays
            }
        }
        Effect::CallContract {
            place,
            delegates,
            next,
        } => {
            let answer = call_contract(storage_addr, counts.tape, place, delegates, numbers, tape);
            Stepped {
                pc: next,
                counts: Counts {
                    tape: counts.tape + 12,
                    output: 0,
                    ..counts
                },
                finish: Finish::Leaves(answer),
                ..stays
            }
        }
        Effect::End { next } => Stepped {
            pc: next,
            finish: Finish::Leaves(Answer::Ended),
            ..stays
        },
        Effect::Refuse(refusal) => Stepped {
            finish: Finish::Refuses(Answer::Refused(refusal)),
            ..stays
        },
        Effect::Sink => Stepped {
            finish: Finish::Refuses(Answer::MarkedSink),
            ..stays
        },
    }
}
