// The Ola step machine's types. What they mean stands in specs/, theorems about it in proofs/; there is no code.
#![tactic(auto)]

// Opcodes, in the source's order: a frame holds an opcode's place.
#[derive(Clone, Copy, PartialEq, Eq)]
pub enum OlaOpcode {
    Add,
    Mul,
    Eq,
    Assert,
    Mov,
    Jmp,
    Cjmp,
    Call,
    Ret,
    Mload,
    Mstore,
    End,
    Rc,
    And,
    Or,
    Xor,
    Not,
    Neq,
    Gte,
    Poseidon,
    Sload,
    Sstore,
    Tload,
    Tstore,
    Sccall,
    Sigcheck,
    Event,
}

// An operand, by the kind that a frame gives it. Registers are R0 to R9.
#[derive(Clone, Copy)]
pub enum OlaOperand {
    Absent,
    Immediate(u64),
    Register(usize),
    RegisterWithOffset { register: usize, offset: u64 },
    RegisterWithFactor { register: usize, factor: u64 },
    Psp,
    Pc,
}

#[derive(Clone, Copy)]
pub struct Instruction {
    pub opcode: OlaOpcode,
    pub op0: OlaOperand,
    pub op1: OlaOperand,
    pub dst: OlaOperand,
}

// The refusals that a plain run can give, in the order of their numbers, 1 to 17.
#[derive(Clone, Copy, PartialEq, Eq)]
pub enum Refusal {
    BadLength,
    MalformedFrame(u64),
    BadState,
    NoInstruction,
    UncoveredOpcode,
    BadOperand,
    NotInField,
    NotSmall,
    AssertFailed,
    RangeCheckFailed,
    CellAbsent,
    SpanPastRegion,
    TapeFault,
    StoreFault,
    ProphetStore,
    NoCapacity,
    ClockEnd,
}

// A run's outcome, e0 to e3, or its refusal. A calling outcome carries the callee's address. `MarkedSink` is refusal 18, which only a
// guarded run gives, `ShortBuffer` is refusal 19, which only a traced run gives.
//
// No `Result`: a machine and its steps are left beside a refusal too, so that nobody hands one on, and `meaning` (specs/Answers.antt)
// numbers these seven cases by one table.
#[derive(Clone, Copy, PartialEq, Eq)]
pub enum Answer {
    Ended,
    Calling(u64, u64, u64, u64),
    DelegateCalling(u64, u64, u64, u64),
    Paused,
    Refused(Refusal),
    MarkedSink,
    ShortBuffer,
}

// What a present cell holds: its number, and its moment, which is the clk before the step that last wrote it; a cell that is handed in
// brings its own.
#[derive(Clone, Copy)]
pub struct Held {
    pub number: u64,
    pub moment: u64,
}

// The state that is no buffer, and how much of each buffer is used.
#[derive(Clone, Copy)]
pub struct Machine {
    pub registers: [u64; 10],
    pub pc: u64,
    pub clk: u64,
    pub psp: u64,
    pub storage_addr: [u64; 4],
    pub cell_count: usize,
    pub tape_count: usize,
    pub output_count: usize,
}

// What a guarded run has beside the machine and the buffers: bit r of `registers` is the mark of register r.
#[derive(Clone, Copy)]
pub struct Marks {
    pub registers: u64,
}

// What a run gives: its answer, its steps, and the machine and marks that it leaves. A plain run leaves no marks.
#[derive(Clone, Copy)]
pub struct Ran {
    pub answer: Answer,
    pub steps: u64,
    pub machine: Machine,
    pub extras: Marks,
}
