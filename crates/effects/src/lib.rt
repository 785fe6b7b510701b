// What a step does, as an effect or a refusal: the effects of the opcodes, each from its operands as they were read. Nothing is written
// here: registers, cells and tape are only read, the crate `decision` decides a whole step, and `carrying` carries effects out.
//
// All functions are internal, for the crates above.
#![tactic(auto)]

pub mod arithmetic;
pub mod calls;
pub mod control;
pub mod marks;
pub mod memory;
pub mod seen;
pub mod tape;

ghost use Rattle.std.specs.Prelude.{◌≡◌, true, ◌||◌, List, ℕ};
ghost use Rattle.rules.specs.Guarded.{product_mark};
ghost use Rattle.hardware.specs.Buffers.{found_of};
ghost use Rattle.effects.specs.Effects.{SetRegister, Store, Jump, LoadTape, StoreTape, CallContract, End, Refuse, Sink, Means};

use rules::{Marks, Refusal};

// Which run it is, and the guarded run's extras; a plain run has no marks. Both stand there in either run, in the place of an
// `Option<Marks>`, with which a step of arithmetic took 74.5 instructions for 52.2.
#[derive(Clone, Copy)]
pub struct Mode {
    pub guarded: bool,
    pub extras: Marks,
}

impl Mode {
    pub const PLAIN: Mode = Mode {
        guarded: false,
        extras: Marks { registers: 0 },
    };
}

// How many cells, tape values and output values are used.
#[derive(Clone, Copy)]
pub struct Counts {
    pub cells: usize,
    pub tape: usize,
    pub output: usize,
}

// What a step does. `next` is the pc after it. The moment of what is stored is not here: it is the clk before the step.
#[derive(Clone, Copy)]
pub enum Effect {
    // A number to a register. `marked` says that a marked cell gave the number; the marks of the registers that it is made of are looked at
    // where it is written.
    SetRegister {
        register: usize,
        number: u64,
        marked: bool,
        next: u64,
    },
    // A product to a register: its mark is made where it is written, of the operands and their marks. An unmarked 0 blanks it.
    SetProduct {
        register: usize,
        number: u64,
        op0: u64,
        op0_mark: bool,
        op1: u64,
        next: u64,
    },
    // A number to the present cell at a place. The address says only what is meant. It stands last, where nothing that is read is moved by
    // it: before the number, a step of memory took 60.2 instructions for 53.6.
    StoreAt {
        place: usize,
        number: u64,
        next: u64,
        address: u64,
    },
    // A number to a new cell, which is put in at a place.
    Insert {
        place: usize,
        address: u64,
        number: u64,
        next: u64,
    },
    Jump {
        next: u64,
    },
    // Tape values from a place on to the cells from an address on.
    LoadTape {
        from: usize,
        count: usize,
        address: u64,
        next: u64,
    },
    // The numbers of cells from a place on to tape and output.
    StoreTape {
        place: usize,
        count: usize,
        next: u64,
    },
    // A call; the four cells from a place on name the callee.
    CallContract {
        place: usize,
        delegates: bool,
        next: u64,
    },
    End {
        next: u64,
    },
    Refuse(Refusal),
    // Refusal 18.
    Sink,
}

// A function for each effect says what it means. With the variants written where the opcodes' functions answer, the compiler kept the
// effect in memory: a step of arithmetic took 68.5 instructions for 46.5.
#[tactic(auto, unfolding(crate::specs::Effects::meant, crate::specs::Effects::Placed))]
impl Effect {
    pub(crate) fn set_register(register: usize, number: u64, marked: bool, next: u64) -> Effect
        ensures { (l : List ℕ) → Means l result (λ t. SetRegister register number (marked || t) next) }
    {
        Effect::SetRegister {
            register,
            number,
            marked,
            next,
        }
    }

    pub(crate) fn set_product(
        register: usize,
        number: u64,
        op0: u64,
        op0_mark: bool,
        op1: u64,
        next: u64,
    ) -> Effect
        ensures { (l : List ℕ) → Means l result (λ t. SetRegister register number (product_mark op0_mark op0 t op1) next) }
    {
        Effect::SetProduct {
            register,
            number,
            op0,
            op0_mark,
            op1,
            next,
        }
    }

    pub(crate) fn store_at(place: usize, address: u64, number: u64, next: u64) -> Effect
        ensures { (l : List ℕ) → Ok place ≡ found_of l address → Means l result (λ t. Store address number t next) }
    {
        Effect::StoreAt {
            place,
            number,
            next,
            address,
        }
    }

    pub(crate) fn insert(place: usize, address: u64, number: u64, next: u64) -> Effect
        ensures { (l : List ℕ) → Err place ≡ found_of l address → Means l result (λ t. Store address number t next) }
    {
        Effect::Insert {
            place,
            address,
            number,
            next,
        }
    }

    pub fn jump(next: u64) -> Effect
        ensures { (l : List ℕ) → Means l result (λ t. Jump next) }
    {
        Effect::Jump { next }
    }

    pub(crate) fn load_tape(from: usize, count: usize, address: u64, next: u64) -> Effect
        ensures { (l : List ℕ) → Means l result (λ t. LoadTape from count address next) }
    {
        Effect::LoadTape {
            from,
            count,
            address,
            next,
        }
    }

    pub(crate) fn store_tape(place: usize, count: usize, next: u64) -> Effect
        ensures { (l : List ℕ) → Means l result (λ t. StoreTape place count next) }
    {
        Effect::StoreTape { place, count, next }
    }

    pub(crate) fn call_contract(place: usize, delegates: bool, next: u64) -> Effect
        ensures { (l : List ℕ) → Means l result (λ t. CallContract place delegates next) }
    {
        Effect::CallContract {
            place,
            delegates,
            next,
        }
    }

    pub fn end(next: u64) -> Effect
        ensures { (l : List ℕ) → Means l result (λ t. End next) }
    {
        Effect::End { next }
    }

    pub fn refuse(refusal: Refusal) -> Effect
        ensures { (l : List ℕ) → Means l result (λ t. Refuse refusal) }
    {
        Effect::Refuse(refusal)
    }

    pub fn sink() -> Effect
        ensures { (l : List ℕ) → Means l result (λ t. Sink) }
    {
        Effect::Sink
    }
}
