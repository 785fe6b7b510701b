// CALL and RET: the two cells below R9.
#![tactic(auto, unfolding(crate::specs::Changes::check, crate::specs::Changes::sink_where))]

ghost use Rattle.std.specs.Prelude.{List, ℕ, ◌-◌, take};
ghost use Rattle.hardware.specs.Buffers.{cells_of, mark_cells_of};
ghost use Rattle.effects.specs.Effects.{Means};
ghost use Rattle.effects.specs.Changes.{returns_from};
ghost use Rattle.effects.specs.Operations.{with_mark, has_capacity, calls_where};

use crate::{Effect, memory};
use hardware::cells::CellBuffers;
use program::slots;
use rules::Refusal;

// CALL: the next pc goes below R9.
pub fn call(cells: CellBuffers, target: u64, next: u64, r9: u64) -> Effect
    ensures { Means (take cells.entry.count cells.entry.addresses.now) result
        (λ t. calls_where (has_capacity cells.entry.addresses.now cells.entry.count (r9 - 1) 1) r9 next t target) }
{
    if r9 == 0 {
        return Effect::refuse(Refusal::StoreFault);
    }
    memory::store_cell(cells, r9 - 1, next, target)
}

// RET: the pc from below R9, R9 from below that. The two cells stand side by side.
pub fn return_from(cells: CellBuffers, r9: u64) -> Effect
    ensures { (l : List ℕ)
        → Means l result (λ t. with_mark t (returns_from cells.entry.guarded
        (cells_of cells.entry.count cells.entry.addresses.now cells.entry.numbers.now cells.entry.moments.now)
        (mark_cells_of cells.entry.count cells.entry.addresses.now cells.entry.marks.now) r9)) }
{
    if r9 < 2 {
        return Effect::refuse(Refusal::CellAbsent);
    }
    let used = cells.used();
    let Ok(at) = used.find(r9 - 2) else {
        return Effect::refuse(Refusal::CellAbsent);
    };
    if !used.is_next(at, r9 - 1) {
        return Effect::refuse(Refusal::CellAbsent);
    }
    let high = at + 1;
    if cells.is_marked_at(high) {
        return Effect::sink();
    }
    let lower = cells.held_at(at);
    let upper = cells.held_at(high);
    Effect::set_register(
        slots::R9,
        lower.number,
        cells.is_marked_at(at),
        upper.number,
    )
}
