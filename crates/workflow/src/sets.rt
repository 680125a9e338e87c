// Sets of numbers below 64, bit i for i: actions, roles and states.
ghost use Rattle.std.specs.Prelude.{◌≡◌, ◌<◌};
ghost use Rattle.soda.specs.Bits.{bit, set_bit};

// Whether i is in a set.
pub(crate) fn has(set: u64, i: u8) -> bool
    requires { i < 64 }
    ensures { result ≡ bit i set }
{
    (set >> i) & 1 == 1
}

// The set with i.
pub(crate) fn with_one(set: u64, i: u8) -> u64
    requires { i < 64 }
    ensures { result ≡ set_bit i set }
{
    set | 1 << i
}
