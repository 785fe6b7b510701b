// Where an address stands among those of the cells, which are strictly rising.
ghost use Rattle.std.specs.Prelude.{◌≡◌, true, ◌&&◌, ◌+◌, ◌≤◌, ◌<◌, leb, eqb, length, get_or, take};
ghost use Rattle.rules.specs.Numbers.{word_end};
ghost use Rattle.rules.specs.Entry.{rising_from};
ghost use Rattle.hardware.specs.Buffers.{rank, last_at_most, found_of, span_of, missing, Rising};

use crate::cells;

// The addresses of the cells that are there: the used part of a buffer.
#[derive(Clone, Copy)]
pub struct Addresses<'a> {
    pub used: &'a [u64],
    pub ghost rising: { rising_from 0 used.now ≡ true },
}

impl<'a> Addresses<'a> {
    // The first `count` of a buffer.
    pub fn of(count: usize, buffer: &'a [u64]) -> Addresses<'a>
        requires { Rising count buffer.now }
        ensures { result.used.now ≡ take count buffer.now }
    {
        Addresses {
            used: &buffer[..count],
        }
    }

    // The place where an address stands if none is missing between the first and this one. Whether it stands there, the caller has to see.
    fn place_without_gaps(self, address: u64) -> usize {
        let used = self.used;
        if 0 < used.len() {
            let first = used[0];
            if first <= address {
                return (address - first) as usize;
            }
        }
        used.len()
    }

    // The last address that is at most another, by its place; 0 where none is. Seven comparisons, added up, tell its eighth: a branch on
    // one of them could not be predicted. Called at two places and too long to be compiled into a step, which would be slower for it: with
    // std's `binary_search` a step of bitwise took 6 % more instructions.
    fn last_at_most(self, address: u64) -> usize
        ensures { result ≡ last_at_most self.entry.used.now address }
    {
        let used = self.used;
        let mut low = 0;
        let mut left = used.len();
        while 7 < left {
            let eighth = left / 8;
            let passed = (used[low + eighth] <= address) as usize
                + (used[low + 2 * eighth] <= address) as usize
                + (used[low + 3 * eighth] <= address) as usize
                + (used[low + 4 * eighth] <= address) as usize
                + (used[low + 5 * eighth] <= address) as usize
                + (used[low + 6 * eighth] <= address) as usize
                + (used[low + 7 * eighth] <= address) as usize;
            low += passed * eighth;
            left -= 7 * eighth;
        }
        let mut last = low;
        for i in 1..left {
            last += (used[low + i] <= address) as usize;
        }
        last
    }

    // How many addresses lie below another. One that stands at its place without gaps needs no search.
    #[tactic(auto, using(crate::proofs::SearchLaws::rank_laws))]
    pub fn rank_of(self, address: u64) -> usize
        ensures { result ≡ rank self.entry.used.now address }
    {
        let used = self.used;
        let near = self.place_without_gaps(address);
        if near < used.len() && used[near] == address {
            return near;
        }
        let last = self.last_at_most(address);
        if last < used.len() {
            return last + (used[last] < address) as usize;
        }
        last
    }

    // Where an address is, or where it would go, by a search.
    #[tactic(auto, using(crate::proofs::SearchLaws::found_laws))]
    fn search(self, address: u64) -> Result<usize, usize>
        ensures { result ≡ found_of self.entry.used.now address }
    {
        let used = self.used;
        let last = self.last_at_most(address);
        if last < used.len() {
            if used[last] == address {
                return Ok(last);
            }
            return Err(last + (used[last] < address) as usize);
        }
        Err(last)
    }

    // The same. An address that stands at its place without gaps needs no search, and this is little enough code to be compiled into a
    // step.
    #[tactic(auto, using(crate::proofs::SearchLaws::found_here))]
    pub fn find(self, address: u64) -> Result<usize, usize>
        ensures { result ≡ found_of self.entry.used.now address }
    {
        let near = self.place_without_gaps(address);
        if near < self.used.len() && self.used[near] == address {
            return Ok(near);
        }
        self.search(address)
    }

    // Is the address behind a place this one?
    pub fn is_next(self, at: usize, address: u64) -> bool
        requires { at < length self.used.now }
        ensures { result ≡ leb (at + 2) (length self.entry.used.now) && eqb (get_or self.entry.used.now (at + 1) 0) address }
    {
        cells::is_next(self.used.len(), at, address, self.used)
    }

    // Where the n cells from an address on are. Addresses rise, so all are present where the last of as many places has the last address.
    // That the span ends within a word is asked, here and where there is capacity for it: no value keeps its two numbers.
    #[tactic(auto, using(crate::proofs::SearchLaws::span_laws), unfolding(rules::specs::Numbers::word_end))]
    pub fn find_span(self, start: u64, n: u64) -> Option<usize>
        requires { start + n < word_end }
        ensures { result ≡ span_of self.entry.used.now start n }
    {
        let used = self.used;
        let at = self.rank_of(start);
        if n == 0 {
            return Some(at);
        }
        if ((used.len() - at) as u64) < n {
            return None;
        }
        if used[at + (n as usize - 1)] == start + (n - 1) {
            return Some(at);
        }
        None
    }
}
