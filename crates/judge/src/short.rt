// The short way: an accepted batch of bits is seen to be one with no listing read. A no says nothing of the batch but that the listing has
// to be walked.
ghost use Rattle.std.specs.Prelude.{true, ◌↔◌, ◌≡◌, ◌+◌, ◌*◌, ◌<◌, ◌≤◌, length, replicate};
ghost use Rattle.verdict.specs.Row.{element_at};
ghost use Rattle.packed.specs.Packed.{NamedCalled, named_called};
ghost use Rattle.packed.specs.Named.{NamedIn};
ghost use Rattle.judge.specs.Short.{short_bits, short_yes, ShortIn, ShortRow};

use crate::cycle::judge_cycles;
use field::Gf128;
use layout::Refusal;
use strict::Known;

// By its batch column; a public function in filler, which has the same, would ask something of its caller.
fn element(batch: &[u64], at: usize) -> Gf128
    requires { 2 * at + 1 < length batch.now }
    ensures { result ≡ element_at batch.now at }
{
    Gf128::of_words(batch[2 * at], batch[2 * at + 1])
}

// Of a batch of one cycle the packing stands apart: the two run faster as one piece of code.
fn pack(cpi: usize, batch: &[u64], out: &mut [u64]) -> Result<bool, Refusal>
    requires { NamedIn cpi batch.now out.old }
    ensures { ◌≡◌ {A = NamedCalled} (record { answer = result; out = out.new }) (named_called cpi batch.now out.old) }
{
    if cpi == 1 {
        return packed::pack_row(batch, out);
    }
    packed::pack_named(cpi, batch, out)
}

// Packs the batch into a slice that is lent, and judges each cycle.
#[tactic(auto, using(crate::proofs::Rules::packs))]
fn pack_and_judge(which: Known, cpi: usize, batch: &[u64], out: &mut [u64]) -> bool
    requires { NamedIn cpi batch.now out.old }
    ensures { result ≡ short_bits which cpi batch.now out.old }
{
    match pack(cpi, batch, out) {
        Ok(bits) => bits && judge_cycles(which, cpi, out, element(batch, 2048 * cpi + 1)),
        Err(_) => false,
    }
}

// With room for N words on the stack, 32 for each cycle.
fn short_in<const N: usize>(which: Known, cpi: usize, batch: &[u64]) -> bool
    requires { ShortIn cpi batch.now × (32 * cpi ≤ N) × (N ≤ 8192) }
    ensures { result ≡ short_bits which cpi batch.now (replicate (32 * cpi) 0) }
{
    let mut out = [0u64; N];
    pack_and_judge(which, cpi, batch, &mut out[..32 * cpi])
}

// By the size, so that a small batch clears a small slice.
#[tactic(auto, using(crate::proofs::Rules::few))]
fn short_bits(which: Known, cpi: usize, batch: &[u64]) -> bool
    requires { ShortIn cpi batch.now }
    ensures { result ≡ short_bits which cpi batch.now (replicate (32 * cpi) 0) }
{
    if cpi == 1 {
        return short_in::<32>(which, 1, batch);
    }
    if cpi < 17 {
        return short_in::<512>(which, cpi, batch);
    }
    short_in::<8192>(which, cpi, batch)
}

// Of a batch against a known listing.
#[tactic(auto, using(crate::proofs::Rules::asked))]
pub fn short_yes(which: Known, cpi: usize, batch: &[u64]) -> bool
    ensures { result ≡ short_yes which cpi batch.now }
{
    match layout::ask_batch(cpi, batch.len()) {
        Err(_) => false,
        Ok(()) => {
            if element(batch, 2048 * cpi) != Gf128::one() {
                return false;
            }
            short_bits(which, cpi, batch)
        }
    }
}

// Of a call that lends a listing, which has to be the known one, and scratch.
pub fn short_row(which: Known, cpi: usize, listing: &[u32], batch: &[u64], room: usize) -> bool
    ensures { (result ≡ true) ↔ ShortRow which cpi listing.now batch.now room }
{
    if !layout::scratch_fits(room) {
        return false;
    }
    if !strict::is_known(which, listing) {
        return false;
    }
    short_yes(which, cpi, batch)
}
