// Numbers to a register: ADD, MUL and NOT in the field, EQ and NEQ, AND, OR, XOR and GTE of small operands, MOV.
#![tactic(auto, unfolding(crate::specs::Changes::check, rules::specs::Numbers::small_end))]

ghost use Rattle.std.specs.Prelude.{◌≡◌, List, ℕ};
ghost use Rattle.rules.specs.Numbers.{bit};
ghost use Rattle.rules.specs.Step.{is_small};
ghost use Rattle.rules.specs.Guarded.{product_mark};
ghost use Rattle.effects.specs.Effects.{SetRegister, Means};
ghost use Rattle.effects.specs.Changes.{sets_complement, sets_small};
ghost use Rattle.effects.specs.Operations.{sets_element};

use crate::Effect;
use goldilocks::GoldilocksField;
use rules::Refusal;

// AND, OR, XOR and GTE take operands below it, RC up to it.
pub(crate) const SMALL_END: u64 = 0xFFFF_FFFF;

// ADD, by its result.
pub fn sum(res: Option<GoldilocksField>, register: usize, next: u64) -> Effect
    ensures { (l : List ℕ) → Means l result (λ t. sets_element res register t next) }
{
    let Some(x) = res else {
        return Effect::refuse(Refusal::NotInField);
    };
    Effect::set_register(register, x.value, false, next)
}

// MUL, by its result, its operands and op0's mark.
pub fn product(
    res: Option<GoldilocksField>,
    op0: u64,
    op0_mark: bool,
    op1: u64,
    register: usize,
    next: u64,
) -> Effect
    ensures { (l : List ℕ) → Means l result (λ t. sets_element res register (product_mark op0_mark op0 t op1) next) }
{
    let Some(x) = res else {
        return Effect::refuse(Refusal::NotInField);
    };
    Effect::set_product(register, x.value, op0, op0_mark, op1, next)
}

// NOT.
pub fn complement(a: u64, register: usize, next: u64) -> Effect
    ensures { (l : List ℕ) → Means l result (λ t. sets_complement a register t next) }
{
    let Some(x) = goldilocks::complement(a) else {
        return Effect::refuse(Refusal::NotInField);
    };
    Effect::set_register(register, x.value, false, next)
}

// EQ and NEQ, by their result.
pub fn equality(res: bool, register: usize, next: u64) -> Effect
    ensures { (l : List ℕ) → Means l result (λ t. SetRegister register (bit res) t next) }
{
    Effect::set_register(register, res as u64, false, next)
}

fn is_small(n: u64) -> bool
    ensures { result ≡ is_small n }
{
    n < SMALL_END
}

// AND, OR, XOR and GTE, by their operands and their result.
pub fn small(a: u64, b: u64, res: u64, register: usize, next: u64) -> Effect
    ensures { (l : List ℕ) → Means l result (λ t. sets_small a b res register t next) }
{
    if !is_small(a) || !is_small(b) {
        return Effect::refuse(Refusal::NotSmall);
    }
    Effect::set_register(register, res, false, next)
}

// MOV.
pub fn mov(a: u64, register: usize, next: u64) -> Effect
    ensures { (l : List ℕ) → Means l result (λ t. SetRegister register a t next) }
{
    Effect::set_register(register, a, false, next)
}
