// Memory cells: a map from address to number and moment, and in a guarded run to a mark, in buffers whose first `count` elements are used.
// A cell's moment is the clk before the step that last wrote it.
ghost use Rattle.std.specs.Prelude.{◌≡◌, ◌&&◌, ◌+◌, ◌≤◌, ◌<◌, leb, eqb, length, get_or, take, drop};
ghost use Rattle.rules.specs.Numbers.{word_end};
ghost use Rattle.rules.specs.Memory.{held};
ghost use Rattle.hardware.specs.Buffers.{missing, Rising, cells_of, mark_cells_of, cell_of, any_mark, Ordered};

use crate::addresses::Addresses;
use goldilocks::GoldilocksField;
use rules::Held;

// What stands at an address where a cell is. A mark is told only in a guarded run.
#[derive(Clone, Copy)]
pub struct Cell {
    pub number: u64,
    pub moment: u64,
    pub marked: bool,
}

impl Cell {
    // The largest number that a cell can hold, which is p.
    pub const LARGEST: u64 = GoldilocksField::ORDER;
}

// The buffers of the cells, as a step looks at them. Those who write them have each as a `&mut`, beside which Rattle covers no ghost field.
#[derive(Clone, Copy)]
pub struct CellBuffers<'a> {
    pub guarded: bool,
    pub count: usize,
    pub addresses: &'a [u64],
    pub numbers: &'a [u64],
    pub moments: &'a [u64],
    pub marks: &'a [u64],
    pub ghost ordered: { Ordered guarded count addresses.now numbers.now moments.now marks.now },
}

impl<'a> CellBuffers<'a> {
    // The addresses of the cells.
    pub fn used(self) -> Addresses<'a>
        ensures { result.used.now ≡ take self.entry.count self.entry.addresses.now }
    {
        Addresses::of(self.count, self.addresses)
    }

    // The cell at an address; None where none is.
    pub fn read(self, address: u64) -> Option<Cell>
        ensures { result
            ≡ cell_of self.entry.guarded
            (cells_of self.entry.count self.entry.addresses.now self.entry.numbers.now self.entry.moments.now)
            (mark_cells_of self.entry.count self.entry.addresses.now self.entry.marks.now) address }
    {
        let Ok(at) = self.used().find(address) else {
            return None;
        };
        Some(Cell {
            number: self.numbers[at],
            moment: self.moments[at],
            marked: self.is_marked_at(at),
        })
    }

    // The number and the moment of the cell at a place.
    pub fn held_at(self, at: usize) -> Held
        requires { at < self.count }
        ensures { result ≡ held (get_or self.entry.numbers.now at 0) (get_or self.entry.moments.now at 0) }
    {
        held_at(at, self.numbers, self.moments)
    }

    // Is the cell at a place marked? None is in a plain run.
    pub fn is_marked_at(self, at: usize) -> bool
        requires { at < self.count }
        ensures { result ≡ (self.entry.guarded && eqb (get_or self.entry.marks.now at 0) 1) }
    {
        self.guarded && is_marked_at(at, self.marks)
    }

    // Is one of the n cells from a place on?
    pub fn any_marked(self, at: usize, n: usize) -> bool
        requires { at + n ≤ self.count }
        ensures { result ≡ (self.entry.guarded && any_mark (take n (drop at self.entry.marks.now))) }
    {
        self.guarded && any_marked(at, n, self.marks)
    }

    // Is there capacity for the n cells from an address on? Those that are present need none.
    pub fn has_capacity(self, start: u64, n: usize) -> bool
        requires { start + n < word_end }
        ensures { result
            ≡ leb (self.entry.count + missing (take self.entry.count self.entry.addresses.now) start n)
            (length self.entry.addresses.now) }
    {
        has_capacity(self.count, start, n, self.addresses)
    }
}

// The five functions that follow ask less than the methods of their names, and stand as docs/DECISIONS.md and docs/PAPER.md name them.

// Is there capacity for the n cells from an address on? Those that are present need none.
pub fn has_capacity(count: usize, start: u64, n: usize, addresses: &[u64]) -> bool
    requires rising { Rising count addresses.now }
    requires n_bound { start + n < word_end }
    ensures { result ≡ leb (count + missing (take count addresses.now) start n) (length addresses.now) }
{
    let free = addresses.len() - count;
    if n <= free {
        return true;
    }
    let used = Addresses::of(count, addresses);
    let low = used.rank_of(start);
    let high = used.rank_of(start + n as u64);
    n - (high - low) <= free
}

// The number and the moment of the cell at a place.
pub fn held_at(at: usize, numbers: &[u64], moments: &[u64]) -> Held
    requires at_in_bounds { at < length numbers.now }
    requires at_in_bounds_2 { at < length moments.now }
    ensures { result ≡ held (get_or numbers.now at 0) (get_or moments.now at 0) }
{
    Held {
        number: numbers[at],
        moment: moments[at],
    }
}

// Is the cell at a place marked?
pub fn is_marked_at(at: usize, marks: &[u64]) -> bool
    requires { at < length marks.now }
    ensures { result ≡ eqb (get_or marks.now at 0) 1 }
{
    marks[at] == 1
}

// Is one of the n cells from a place on marked?
pub fn any_marked(at: usize, n: usize, marks: &[u64]) -> bool
    requires { at + n ≤ length marks.now }
    ensures { result ≡ any_mark (take n (drop at marks.now)) }
{
    let end = at + n;
    marks[at..end].iter().any(|mark| *mark == 1)
}

// Is the cell behind a place the one at an address?
pub fn is_next(count: usize, at: usize, address: u64, addresses: &[u64]) -> bool
    requires at_lt_count { at < count }
    requires count_in_bounds { count ≤ length addresses.now }
    ensures { result ≡ leb (at + 2) count && eqb (get_or addresses.now (at + 1) 0) address }
{
    addresses[..count].get(at + 1) == Some(&address)
}

// The numbers of the four cells from a place on.
pub fn read_four(at: usize, numbers: &[u64]) -> [u64; 4]
    requires { at + 4 ≤ length numbers.now }
    ensures { result ≡ take 4 (drop at numbers.now) }
{
    [
        numbers[at],
        numbers[at + 1],
        numbers[at + 2],
        numbers[at + 3],
    ]
}

// The numbers of the n cells from a place on.
pub fn span_numbers(at: usize, n: usize, numbers: &[u64]) -> &[u64]
    requires { at + n ≤ length numbers.now }
    ensures { result.now ≡ take n (drop at numbers.now) }
{
    let end = at + n;
    &numbers[at..end]
}
