// Marks of registers, bit r of a word is the mark of register r; and of a product of two numbers.
ghost use Rattle.std.specs.Prelude.{◌≡◌, ◌<◌, set};
ghost use Rattle.rules.specs.Guarded.{product_mark};
ghost use Rattle.rules.specs.Entry.{low_bits, word_of_bits};
ghost use Rattle.frames.specs.RegisterSets.{set_end, is_any};

// Is one of a set's registers marked?
pub fn is_any(marks: u64, registers: u64) -> bool
    ensures { result ≡ is_any marks registers }
{
    marks & registers != 0
}

// Is a product marked, by its operands and their marks? An unmarked 0 on either side blanks it.
pub fn is_product_marked(op0: u64, op0_mark: bool, op1: u64, op1_mark: bool) -> bool
    ensures { result ≡ product_mark op0_mark op0 op1_mark op1 }
{
    if op0_mark {
        return op1_mark | (op1 != 0);
    }
    op1_mark & (op0 != 0)
}

// The marks after a register was written. They are the number that rules' `Marks` has, and C's records, so no `RegisterSet`.
pub fn with_mark(marks: u64, register: usize, mark: bool) -> u64
    requires marks_lt_set_end { marks < set_end }
    requires register_bound { register < 10 }
    ensures { (result ≡ word_of_bits (set (low_bits 10 marks) register mark)) × (result < set_end) }
{
    let bit = 1 << register;
    if mark {
        marks | bit
    } else {
        marks - (marks & bit)
    }
}
