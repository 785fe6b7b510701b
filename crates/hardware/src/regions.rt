// Regions of addresses.
ghost use Rattle.std.specs.Prelude.{◌≡◌};
ghost use Rattle.hardware.specs.Regions.{region_of};

use goldilocks::GoldilocksField;

// Where an address lies. Nothing is ever present in the prophet region, and from p on there is no memory.
#[derive(Clone, Copy)]
pub enum Region {
    Stack,
    Heap,
    Prophet,
    Outside,
}

impl Region {
    // Where the stack, the heap and the prophet region end. The last is p.
    pub const STACK_END: u64 = 0xFFFF_FFFD_0000_0003;

    pub const HEAP_END: u64 = 0xFFFF_FFFE_0000_0002;

    pub const PROPHET_END: u64 = GoldilocksField::ORDER;

    // The region of an address. Not `From`: `Region::of(address)` says what is asked.
    #[tactic(auto, using(std::proofs::lemmas::Bool::Decides::nat_tests), unfolding(rules::specs::Numbers::stack_end, rules::specs::Numbers::heap_end, rules::specs::Numbers::p))]
    pub fn of(address: u64) -> Region
        ensures { result ≡ region_of address }
    {
        match address {
            ..Region::STACK_END => Region::Stack,
            ..Region::HEAP_END => Region::Heap,
            ..Region::PROPHET_END => Region::Prophet,
            _ => Region::Outside,
        }
    }
}
