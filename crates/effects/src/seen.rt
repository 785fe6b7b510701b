// What a step may look at, beside its row and the values.
ghost use Rattle.std.specs.Prelude.{◌≡◌, ◌≤◌, false, length};

use crate::Mode;
use hardware::cells::CellBuffers;
use rules::Marks;

// The tape or the output: a buffer whose first `count` values are written.
#[derive(Clone, Copy)]
pub struct Written<'a> {
    pub count: usize,
    pub buffer: &'a [u64],
    pub ghost fits: { count ≤ length buffer.now },
}

impl Written<'_> {
    ghost use Rattle.effects.specs.Operations.{more};

    // Do n more values fit behind those written?
    pub(crate) fn has_room(&self, n: usize) -> bool
        ensures { result ≡ more self.now.count n self.now.buffer.now }
    {
        n <= self.buffer.len() - self.count
    }
}

// The registers' marks, and the buffers. A step only reads them: what it writes is in its effect.
#[derive(Clone, Copy)]
pub struct Seen<'c, 't, 'o> {
    pub extras: Marks,
    pub cells: CellBuffers<'c>,
    pub tape: Written<'t>,
    pub output: Written<'o>,
    // in a plain run no register is marked
    pub ghost clean: { cells.guarded ≡ false → extras.registers ≡ 0 },
}

impl Seen<'_, '_, '_> {
    ghost use Rattle.effects.specs.Views.{mode_of};

    pub fn mode(&self) -> Mode
        ensures { result ≡ mode_of self.now }
    {
        Mode {
            guarded: self.cells.guarded,
            extras: self.extras,
        }
    }
}
