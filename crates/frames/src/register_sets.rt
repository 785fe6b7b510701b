// Sets of registers, bit r for register r.
ghost use Rattle.std.specs.Prelude.{◌≡◌, ◌<◌, ◌^◌, bit_or};
ghost use Rattle.frames.specs.RegisterSets.{set_end};

use std::ops::BitOr;

#[derive(Clone, Copy)]
pub struct RegisterSet {
    pub bits: u64,
    ghost ten_bits: { bits < set_end },
}

impl RegisterSet {
    pub(crate) const NONE: RegisterSet = RegisterSet { bits: 0 };

    pub(crate) const R9: RegisterSet = RegisterSet { bits: 0x200 };

    // One register.
    #[tactic(auto, using(crate::proofs::Sets::one_below))]
    pub(crate) fn of(register: usize) -> RegisterSet
        requires { register < 10 }
        ensures { result.bits ≡ 2 ^ register }
    {
        RegisterSet {
            bits: 1 << register,
        }
    }
}

impl BitOr for RegisterSet {
    type Output = RegisterSet;

    ghost bitor_gives = { λ a b r. r.bits ≡ bit_or a.bits b.bits };

    #[tactic(auto, using(crate::proofs::Sets::union_below))]
    fn bitor(self, other: RegisterSet) -> RegisterSet {
        RegisterSet {
            bits: self.bits | other.bits,
        }
    }
}
