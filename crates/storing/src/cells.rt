// Memory cells written: numbers with their moment, and in a guarded run marks, at their places; new cells put in where their addresses go.
// The buffers are handed in one by one: C lends them so, and Rattle covers no ghost field beside a `&mut`, so that no struct could keep that
// they are `Ordered`.
ghost use Rattle.std.specs.Prelude.{◌≡◌, true, ◌++◌, ◌+◌, ◌≤◌, ◌<◌, length, set, take, drop};
ghost use Rattle.rules.specs.Numbers.{choose, bit, heap_end, word_end};
ghost use Rattle.rules.specs.Memory.{held};
ghost use Rattle.rules.specs.Cells as Cells;
ghost use Rattle.rules.specs.Cells.{put};
ghost use Rattle.rules.specs.Step.{overlay};
ghost use Rattle.rules.specs.Guarded.{clean_many};
ghost use Rattle.hardware.specs.Buffers.{rank, found_of, missing, Ordered, Holding};
ghost use Rattle.hardware.specs.Buffers.{cells_of, mark_cells_of, put_many};
ghost use Rattle.hardware.specs.Places.{insert_at, overwritten, filled, consecutive, spliced, moved};

use crate::tape;
use hardware::addresses::Addresses;
use hardware::cells;
use rules::Held;

// The numbers of n cells from a place on, copied to tape or output behind its first `count` values.
pub fn append_numbers(count: usize, at: usize, n: usize, numbers: &[u64], buffer: &mut [u64])
    requires n_in_bounds { at + n ≤ length numbers.now }
    requires n_in_bounds_2 { count + n ≤ length buffer.old }
    ensures { buffer.new
        ≡ overlay (take count buffer.old ++ take n (drop at numbers.now)) buffer.old }
{
    tape::write_values(cells::span_numbers(at, n, numbers), &mut buffer[count..]);
}

// The used elements from a place on, moved up by n places.
fn move_up(count: usize, from: usize, n: usize, buffer: &mut [u64])
    requires from_le_count { from ≤ count }
    requires n_in_bounds { count + n ≤ length buffer.old }
    ensures { buffer.new ≡ moved count from (from + n) buffer.old }
{
    for i in (from..count).rev() {
        buffer[i + n] = buffer[i];
    }
}

// Puts v in at a place of the first `count` elements, which move up by one from there on.
fn insert_at(count: usize, at: usize, v: u64, buffer: &mut [u64])
    requires at_le_count { at ≤ count }
    requires count_in_bounds { count < length buffer.old }
    ensures { buffer.new ≡ overlay (insert_at at v (take count buffer.old)) buffer.old }
{
    move_up(count, at, 1, buffer);
    buffer[at] = v;
}

// The same of a number and its moment, in two buffers. One loop for both: a step is faster for it than with one for each.
fn insert_held(count: usize, at: usize, held: Held, numbers: &mut [u64], moments: &mut [u64])
    requires at_le_count { at ≤ count }
    requires count_in_bounds { count < length numbers.old }
    requires count_in_bounds_2 { count < length moments.old }
    ensures numbers_after { numbers.new ≡ overlay (insert_at at held.number (take count numbers.old)) numbers.old }
    ensures moments_after { moments.new ≡ overlay (insert_at at held.moment (take count moments.old)) moments.old }
{
    for i in (at..count).rev() {
        numbers[i + 1] = numbers[i];
        moments[i + 1] = moments[i];
    }
    numbers[at] = held.number;
    moments[at] = held.moment;
}

// Writes a number with its moment, and in a guarded run its mark, to the cell at a place.
pub fn write_at(
    guarded: bool,
    at: usize,
    number: u64,
    moment: u64,
    mark: bool,
    numbers: &mut [u64],
    moments: &mut [u64],
    marks: &mut [u64],
)
    requires at_in_bounds { at < length numbers.old }
    requires at_in_bounds_2 { at < length moments.old }
    requires at_in_bounds_3 { guarded ≡ true → at < length marks.old }
    ensures numbers_after { numbers.new ≡ set numbers.old at number }
    ensures moments_after { moments.new ≡ set moments.old at moment }
    ensures marks_after { marks.new ≡ choose guarded (set marks.old at (bit mark)) marks.old }
{
    numbers[at] = number;
    moments[at] = moment;
    if guarded {
        marks[at] = mark as u64;
    }
}

// Puts a new cell in at the place where its address would go.
pub fn insert(
    guarded: bool,
    count: usize,
    at: usize,
    address: u64,
    number: u64,
    moment: u64,
    mark: bool,
    addresses: &mut [u64],
    numbers: &mut [u64],
    moments: &mut [u64],
    marks: &mut [u64],
)
    requires ordered { Ordered guarded count addresses.old numbers.old moments.old marks.old }
    requires count_in_bounds { count < length addresses.old }
    requires at_value { Err at ≡ found_of (take count addresses.old) address }
    ensures { Holding guarded
        (put (cells_of count addresses.old numbers.old moments.old) address (held number moment))
        (put (mark_cells_of count addresses.old marks.old) address (bit mark)) (count + 1)
        addresses.old numbers.old moments.old marks.old
        addresses.new numbers.new moments.new marks.new }
{
    insert_held(count, at, Held { number, moment }, numbers, moments);
    insert_at(count, at, address, addresses);
    if guarded {
        insert_at(count, at, mark as u64, marks);
    }
}

// Values in the place of the numbers from a place on, all with one moment. One loop for both, as in insert_held.
fn write_held(at: usize, values: &[u64], moment: u64, numbers: &mut [u64], moments: &mut [u64])
    requires values_in_bounds { at + length values.now ≤ length numbers.old }
    requires values_in_bounds_2 { at + length values.now ≤ length moments.old }
    ensures numbers_after { numbers.new ≡ overwritten at values.now numbers.old }
    ensures moments_after { moments.new ≡ overwritten at (filled moment values.now) moments.old }
{
    for i in 0..values.len() {
        numbers[at + i] = values[i];
        moments[at + i] = moment;
    }
}

// The same, unmarked in a guarded run.
fn overwrite(
    guarded: bool,
    at: usize,
    values: &[u64],
    moment: u64,
    numbers: &mut [u64],
    moments: &mut [u64],
    marks: &mut [u64],
)
    requires values_in_bounds { at + length values.now ≤ length numbers.old }
    requires moments_len { length moments.old ≡ length numbers.old }
    requires marks_len { guarded ≡ true → length marks.old ≡ length numbers.old }
    ensures numbers_after { numbers.new ≡ overwritten at values.now numbers.old }
    ensures moments_after { moments.new ≡ overwritten at (filled moment values.now) moments.old }
    ensures marks_after { marks.new
        ≡ choose guarded (overwritten at (filled 0 values.now) marks.old) marks.old }
{
    write_held(at, values, moment, numbers, moments);
    if guarded {
        let end = at + values.len();
        marks[at..end].fill(0);
    }
}

// The numbers from a place on with their moments, and in a guarded run their marks, moved up by n places.
fn move_contents(
    guarded: bool,
    count: usize,
    from: usize,
    n: usize,
    numbers: &mut [u64],
    moments: &mut [u64],
    marks: &mut [u64],
)
    requires from_le_count { from ≤ count }
    requires n_in_bounds { count + n ≤ length numbers.old }
    requires moments_len { length moments.old ≡ length numbers.old }
    requires marks_len { guarded ≡ true → length marks.old ≡ length numbers.old }
    ensures numbers_after { numbers.new ≡ moved count from (from + n) numbers.old }
    ensures moments_after { moments.new ≡ moved count from (from + n) moments.old }
    ensures marks_after { marks.new ≡ choose guarded (moved count from (from + n) marks.old) marks.old }
{
    move_up(count, from, n, numbers);
    move_up(count, from, n, moments);
    if guarded {
        move_up(count, from, n, marks);
    }
}

// Addresses without gaps, each made of the one before it: made of its place the compiler would take several at once, and load the constants
// for that in every step that reads or stores a cell.
fn number_cells(start: u64, addresses: &mut [u64])
    requires { start + length addresses.old < word_end }
    ensures { addresses.new ≡ consecutive start (length addresses.old) }
{
    if addresses.is_empty() {
        return;
    }
    addresses[0] = start;
    for i in 1..addresses.len() {
        addresses[i] = addresses[i - 1] + 1;
    }
}

// Puts in the n cells from an address on, at their place `low`; how many cells are used afterwards. What lies behind them moves up
// once, by as many places as cells are new. Their contents are still to be written.
fn insert_span(
    guarded: bool,
    count: usize,
    low: usize,
    start: u64,
    n: usize,
    addresses: &mut [u64],
    numbers: &mut [u64],
    moments: &mut [u64],
    marks: &mut [u64],
) -> usize
    requires ordered { Ordered guarded count addresses.old numbers.old moments.old marks.old }
    requires low_value { low ≡ rank (take count addresses.old) start }
    requires n_bound { start + n < word_end }
    requires n_in_bounds { count + missing (take count addresses.old) start n ≤ length addresses.old }
    ensures value { result ≡ count + missing (take count addresses.old) start n }
    ensures addresses_after { addresses.new
        ≡ overlay (spliced low (rank (take count addresses.old) (start + n)) (consecutive start n)
        (take count addresses.old)) addresses.old }
    ensures numbers_after { numbers.new
        ≡ moved count (rank (take count addresses.old) (start + n)) (low + n) numbers.old }
    ensures moments_after { moments.new
        ≡ moved count (rank (take count addresses.old) (start + n)) (low + n) moments.old }
    ensures marks_after { marks.new
        ≡ choose guarded (moved count (rank (take count addresses.old) (start + n)) (low + n) marks.old)
        marks.old }
{
    let high = Addresses::of(count, addresses).rank_of(start + n as u64);
    let new = n - (high - low);
    move_contents(guarded, count, high, new, numbers, moments, marks);
    move_up(count, high, new, addresses);
    let end = low + n;
    number_cells(start, &mut addresses[low..end]);
    count + new
}

// Stores values, unmarked and with one moment, to the cells from an address on; how many cells are used afterwards. Where all are present,
// none is moved.
pub fn store_many(
    guarded: bool,
    count: usize,
    start: u64,
    values: &[u64],
    moment: u64,
    addresses: &mut [u64],
    numbers: &mut [u64],
    moments: &mut [u64],
    marks: &mut [u64],
) -> usize
    requires ordered { Ordered guarded count addresses.old numbers.old moments.old marks.old }
    requires values_bound { 0 < length values.now → start + length values.now ≤ heap_end }
    requires values_in_bounds { Cells.count (put_many moment (cells_of count addresses.old numbers.old moments.old) start values.now)
        ≤ length addresses.old }
    ensures { Holding guarded
        (put_many moment (cells_of count addresses.old numbers.old moments.old) start values.now)
        (clean_many Cells.mark_cells (mark_cells_of count addresses.old marks.old) start values.now) result
        addresses.old numbers.old moments.old marks.old
        addresses.new numbers.new moments.new marks.new }
{
    let present = Addresses::of(count, addresses);
    match present.find_span(start, values.len() as u64) {
        Some(at) => {
            overwrite(guarded, at, values, moment, numbers, moments, marks);
            count
        }
        None => {
            let low = present.rank_of(start);
            let used = insert_span(
                guarded,
                count,
                low,
                start,
                values.len(),
                addresses,
                numbers,
                moments,
                marks,
            );
            overwrite(guarded, low, values, moment, numbers, moments, marks);
            used
        }
    }
}
