// Numbers put one above the other, by sums that wrap at 2^64.
ghost use Rattle.std.specs.Prelude.{◌≡◌, ◌%◌};
ghost use Rattle.packed.specs.Stacked.{pushed, pushed_four};

// w moved up by m bits, and x put below it; of m the low six bits count.
#[tactic(auto, unfolding(crate::specs::Stacked::pushed))]
pub fn above(w: u64, m: u64, x: u64) -> u64
    ensures { result ≡ pushed (m % 64) w x }
{
    std::num::wrapping_add_u64(w << (m % 64), x)
}

// Four numbers, each m bits above the one before it.
pub fn four(m: u64, a: u64, b: u64, c: u64, d: u64) -> u64
    ensures { result ≡ pushed_four (m % 64) a b c d }
{
    above(above(above(d, m, c), m, b), m, a)
}
