// TLOAD, TSTORE and SCCALL.
#![tactic(auto, unfolding(crate::specs::Changes::check, crate::specs::Changes::sink_where, rules::specs::Numbers::word_end, rules::specs::Numbers::p, rules::specs::Numbers::stack_end, rules::specs::Numbers::heap_end))]

ghost use Rattle.std.specs.Prelude.{◌≡◌, true, List, ℕ, ◌+◌, ◌≤◌, ◌<◌, leb, eqb, length, take};
ghost use Rattle.rules.specs.declared.Refusal.TheVariants.{NoCapacity};
ghost use Rattle.rules.specs.Numbers.{word_end};
ghost use Rattle.rules.specs.Step.{span_fits};
ghost use Rattle.rules.specs.Entry.{every};
ghost use Rattle.hardware.specs.Buffers.{Rising};
ghost use Rattle.effects.specs.Views.{used_addresses};
ghost use Rattle.effects.specs.Effects.{StoreTape, CallContract, Means};
ghost use Rattle.effects.specs.Changes.{check, sink_where, tape_from, tape_count};
ghost use Rattle.effects.specs.Operations.{tests_of, has_capacity, loads_part, on_tape_of, loads_tape, span_among, on_span, part_mark, more};

use crate::seen::{Seen, Written};
use crate::{Effect, memory};
use hardware::addresses::Addresses;
use hardware::cells;
use hardware::regions::Region;
use rules::Refusal;

// Do n numbers from a start on reach 2^64?
fn reaches_word_end(start: u64, n: u64) -> bool
    ensures { result ≡ leb word_end (start + n) }
{
    u64::MAX - n < start
}

// Does a span end before its region's end?
fn span_fits(start: u64, n: u64) -> bool
    ensures { result ≡ span_fits start n }
{
    if reaches_word_end(start, n) {
        return false;
    }
    match Region::of(start) {
        Region::Stack => start + n < Region::STACK_END,
        Region::Heap => start + n < Region::HEAP_END,
        Region::Prophet => start + n < Region::PROPHET_END,
        Region::Outside => true,
    }
}

// Where a span's first cell is, or its refusal: that it fits is tested before that its cells are present.
fn find_cells(used: Addresses, start: u64, n: u64) -> Result<usize, Refusal>
    ensures { result ≡ span_among used.entry.used.now start n }
{
    if !span_fits(start, n) {
        return Err(Refusal::SpanPastRegion);
    }
    if Region::PROPHET_END <= start {
        return Err(Refusal::CellAbsent);
    }
    used.find_span(start, n).ok_or(Refusal::CellAbsent)
}

// TSTORE: n cells from a start on go to tape and output.
pub fn store_tape(seen: &Seen, start: u64, n: u64, next: u64) -> Effect
    ensures { (l : List ℕ)
        → Means l result (λ t. on_span (span_among (used_addresses seen.now) start n)
        (λ at. sink_where (part_mark seen.now.cells.guarded seen.now.cells.marks.now at n)
        (check (more seen.now.tape.count n seen.now.tape.buffer.now) NoCapacity
        (check (more seen.now.output.count n seen.now.output.buffer.now) NoCapacity (StoreTape at n next))))) }
{
    let at = match find_cells(seen.cells.used(), start, n) {
        Ok(at) => at,
        Err(f) => return Effect::refuse(f),
    };
    let length = n as usize;
    if seen.cells.any_marked(at, length) {
        return Effect::sink();
    }
    if !seen.tape.has_room(length) || !seen.output.has_room(length) {
        return Effect::refuse(Refusal::NoCapacity);
    }
    Effect::store_tape(at, length, next)
}

// SCCALL: the four cells from a start on name the callee; it delegates where op1 is 1.
pub fn call_contract(seen: &Seen, start: u64, b: u64, next: u64) -> Effect
    ensures { (l : List ℕ)
        → Means l result (λ t. on_span (span_among (used_addresses seen.now) start 4)
        (λ at. sink_where (part_mark seen.now.cells.guarded seen.now.cells.marks.now at 4)
        (check (more seen.now.tape.count 12 seen.now.tape.buffer.now) NoCapacity (CallContract at (eqb b 1) next)))) }
{
    let at = match find_cells(seen.cells.used(), start, 4) {
        Ok(at) => at,
        Err(f) => return Effect::refuse(f),
    };
    if seen.cells.any_marked(at, 4) {
        return Effect::sink();
    }
    if !seen.tape.has_room(12) {
        return Effect::refuse(Refusal::NoCapacity);
    }
    Effect::call_contract(at, b == 1, next)
}

// Does the tape, of which `used` values are written, have what TLOAD asks for?
fn is_on_tape(a: u64, b: u64, used: usize) -> bool
    ensures { result ≡ on_tape_of a b used }
{
    if a == 0 {
        return b < used as u64;
    }
    if a == 1 {
        return b <= used as u64;
    }
    false
}

// Where that starts, and how much it is.
fn tape_from(a: u64, b: u64, used: usize) -> usize
    requires { on_tape_of a b used ≡ true }
    ensures { result ≡ tape_from a b used }
{
    if a == 0 {
        return b as usize;
    }
    used - b as usize
}

fn tape_count(a: u64, b: u64) -> usize
    ensures { result ≡ tape_count a b }
{
    if a == 0 {
        return 1;
    }
    b as usize
}

// A number that no value exceeds: all of them joined bit by bit.
fn bound_of(values: &[u64]) -> u64
    ensures { every (λ v. leb v result) values.now ≡ true }
{
    values.iter().fold(0, |bits, v| bits | v)
}

// The tests of a store of values, cell by cell.
fn test_each(start: u64, values: &[u64]) -> Result<(), Refusal>
    requires { start + length values.now < word_end }
    ensures { result ≡ tests_of start values.now }
{
    for (i, v) in values.iter().enumerate() {
        memory::test_store(start + i as u64, *v)?;
    }
    Ok(())
}

// The same. Where all cells lie in stack and heap, one number mostly tells that all pass.
fn test_values(start: u64, values: &[u64]) -> Result<(), Refusal>
    requires { start + length values.now < word_end }
    ensures { result ≡ tests_of start values.now }
{
    let end = start + values.len() as u64;
    if end <= Region::HEAP_END && memory::is_storable(bound_of(values)) {
        return Ok(());
    }
    test_each(start, values)
}

// n values of the tape from a place on go to the cells from an address on.
fn load_part(
    count: usize,
    addresses: &[u64],
    tape: &[u64],
    from: usize,
    n: usize,
    address: u64,
    next: u64,
) -> Effect
    requires rising { Rising count addresses.now }
    requires n_in_bounds { from + n ≤ length tape.now }
    ensures { (l : List ℕ)
        → Means l result (λ t. loads_part tape.now from n address (has_capacity addresses.now count address n) next) }
{
    if reaches_word_end(address, n as u64) {
        return Effect::refuse(Refusal::StoreFault);
    }
    let end = from + n;
    if let Err(f) = test_values(address, &tape[from..end]) {
        return Effect::refuse(f);
    }
    if !cells::has_capacity(count, address, n, addresses) {
        return Effect::refuse(Refusal::NoCapacity);
    }
    Effect::load_tape(from, n, address, next)
}

// TLOAD. It takes the addresses and the tape alone, as docs/PAPER.md names it: what else a step may look at it does not need.
pub fn load_tape(
    count: usize,
    addresses: &[u64],
    tape: &Written,
    a: u64,
    b: u64,
    address: u64,
    next: u64,
) -> Effect
    requires { Rising count addresses.now }
    ensures { (l : List ℕ)
        → Means l result (λ t. loads_tape a b tape.now.buffer.now tape.now.count address
        (has_capacity addresses.now count address (tape_count a b)) next) }
{
    let used = tape.count;
    if !is_on_tape(a, b, used) {
        return Effect::refuse(Refusal::TapeFault);
    }
    load_part(
        count,
        addresses,
        tape.buffer,
        tape_from(a, b, used),
        tape_count(a, b),
        address,
        next,
    )
}
