// MLOAD and MSTORE, and the tests of a store.
#![tactic(auto, unfolding(crate::specs::Changes::check, rules::specs::Numbers::p))]

ghost use Rattle.std.specs.Prelude.{◌≡◌, List, ℕ, take};
ghost use Rattle.rules.specs.Step.{is_storable};
ghost use Rattle.hardware.specs.Buffers.{cells_of, mark_cells_of, cell_of};
ghost use Rattle.effects.specs.Effects.{Means};
ghost use Rattle.effects.specs.Operations.{with_mark, loads_at, stores_at, test_of, has_capacity, stores_where};

use crate::Effect;
use goldilocks::GoldilocksField;
use hardware::cells::{Cell, CellBuffers};
use hardware::regions::Region;
use rules::Refusal;

// Can a cell hold a number?
pub(crate) fn is_storable(n: u64) -> bool
    ensures { result ≡ is_storable n }
{
    n <= Cell::LARGEST
}

// The tests of a store of one number, the number's before the region's.
pub(crate) fn test_store(address: u64, number: u64) -> Result<(), Refusal>
    ensures { result ≡ test_of address number }
{
    if !is_storable(number) {
        return Err(Refusal::StoreFault);
    }
    match Region::of(address) {
        Region::Stack | Region::Heap => Ok(()),
        Region::Prophet => Err(Refusal::ProphetStore),
        Region::Outside => Err(Refusal::StoreFault),
    }
}

// One number to one cell, for CALL and MSTORE.
pub(crate) fn store_cell(cells: CellBuffers, address: u64, number: u64, next: u64) -> Effect
    ensures { Means (take cells.entry.count cells.entry.addresses.now) result
        (λ t. stores_where (has_capacity cells.entry.addresses.now cells.entry.count address 1) address number t next) }
{
    if let Err(f) = test_store(address, number) {
        return Effect::refuse(f);
    }
    match cells.used().find(address) {
        Ok(at) => Effect::store_at(at, address, number, next),
        Err(at) if cells.count < cells.addresses.len() => Effect::insert(at, address, number, next),
        Err(_) => Effect::refuse(Refusal::NoCapacity),
    }
}

// MLOAD, by the sum of its operands.
pub fn load(
    cells: CellBuffers,
    address: Option<GoldilocksField>,
    register: usize,
    next: u64,
) -> Effect
    ensures { (l : List ℕ)
        → Means l result (λ t. with_mark t (loads_at
        (cell_of cells.entry.guarded
        (cells_of cells.entry.count cells.entry.addresses.now cells.entry.numbers.now cells.entry.moments.now)
        (mark_cells_of cells.entry.count cells.entry.addresses.now cells.entry.marks.now)) address register next)) }
{
    let Some(x) = address else {
        return Effect::refuse(Refusal::NotInField);
    };
    match cells.read(x.value) {
        Some(Cell { number, marked, .. }) => Effect::set_register(register, number, marked, next),
        None => Effect::refuse(Refusal::CellAbsent),
    }
}

// MSTORE, by the sum of its operands.
pub fn store(cells: CellBuffers, address: Option<GoldilocksField>, number: u64, next: u64) -> Effect
    ensures { Means (take cells.entry.count cells.entry.addresses.now) result
        (λ t. stores_at cells.entry.addresses.now cells.entry.count address number t next) }
{
    let Some(x) = address else {
        return Effect::refuse(Refusal::NotInField);
    };
    store_cell(cells, x.value, number, next)
}
