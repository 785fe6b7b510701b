// ASSERT, RC and CJMP.
#![tactic(auto, unfolding(crate::specs::Changes::check, crate::specs::Changes::sink_where, crate::specs::Changes::on_result, rules::specs::Numbers::small_end))]

ghost use Rattle.std.specs.Prelude.{List, ℕ, leb, eqb};
ghost use Rattle.rules.specs.declared.Refusal.TheVariants.{AssertFailed, RangeCheckFailed};
ghost use Rattle.rules.specs.Numbers.{small_end};
ghost use Rattle.rules.specs.Results.{pass};
ghost use Rattle.effects.specs.Effects.{Jump, Means};
ghost use Rattle.effects.specs.Changes.{check, jumps_where};

use crate::{Effect, arithmetic};
use program::table::Row;
use rules::Refusal;

// ASSERT.
pub fn assert_one(a: u64, next: u64) -> Effect
    ensures { (l : List ℕ) → Means l result (λ t. check (eqb a 1) AssertFailed (Jump next)) }
{
    if a == 1 {
        return Effect::jump(next);
    }
    Effect::refuse(Refusal::AssertFailed)
}

// RC.
pub fn check_range(a: u64, next: u64) -> Effect
    ensures { (l : List ℕ) → Means l result (λ t. check (leb a small_end) RangeCheckFailed (Jump next)) }
{
    if a <= arithmetic::SMALL_END {
        return Effect::jump(next);
    }
    Effect::refuse(Refusal::RangeCheckFailed)
}

// CJMP. A marked op1 stops it after op0's test. The next pc is read only where it goes on there, so that this is a branch, which can be
// predicted: chosen without one, all that follows would wait for op0.
pub fn jump_where(row: &Row, a: u64, target: u64, mark: bool) -> Effect
    ensures { (l : List ℕ) → Means l result (λ t. jumps_where a (pass target) mark row.now.next) }
{
    if 1 < a {
        return Effect::refuse(Refusal::NotSmall);
    }
    if mark {
        return Effect::sink();
    }
    if a == 1 {
        return Effect::jump(target);
    }
    Effect::jump(row.next())
}
