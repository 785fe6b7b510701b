// Marks as a step looks at them: in a plain run nothing is marked.
ghost use Rattle.std.specs.Prelude.{◌≡◌};
ghost use Rattle.effects.specs.Deciding.{stops_at_operands, watched_marked, sources_marked, Clean};

use crate::Mode;
use operands::marks;
use program::table::Row;

// Is a register marked at which a step stops right after its operands, in a guarded run? MUL watches op0's mark, but does not stop there.
pub fn is_operand_sink(mode: Mode, row: &Row) -> bool
    ensures { result ≡ stops_at_operands mode row.now }
{
    mode.guarded && marks::is_any(mode.extras.registers, row.watched()) && !row.is_mul()
}

// Is op0 of a MUL marked? As in `is_source_marked`, no test of the mode. These two take a mode, and not all that a step may look at:
// docs/DECISIONS.md and docs/PAPER.md name them, and so they ask no more than they need.
pub fn is_op0_marked(mode: Mode, row: &Row) -> bool
    requires { Clean mode }
    ensures { result ≡ watched_marked mode row.now }
{
    marks::is_any(mode.extras.registers, row.watched())
}

// Is a register marked that a step's number is made of? No test of the mode here, between a step's decision and its writing: in a plain
// run no register is marked.
pub fn is_source_marked(mode: Mode, row: &Row) -> bool
    requires { Clean mode }
    ensures { result ≡ sources_marked mode row.now }
{
    marks::is_any(mode.extras.registers, row.sources())
}
