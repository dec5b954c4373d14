// Columns as bits of words, 64 columns a word. Here are the words that the check packs for itself, in cycle order: column c of cycle d is
// bit c % 64 of word 32 · d + c / 64. Packed storage of a batch is in `storage`.
#![tactic(auto)]

pub mod bytes;
mod many;
mod one;
mod order;
pub mod storage;
pub mod sums;
mod turn;
mod unpack;
mod words;

ghost use Rattle.std.specs.Prelude.{◌≡◌, ◌≤◌, length};
ghost use Rattle.packed.specs.Packed.{pack_asked, NamedCalled, named_called};
ghost use Rattle.packed.specs.Named.{Named, NamedIn};

use layout::{Question, Refusal};

// Words 0 to 14, 16 and 17. The answer is 0 exactly where their columns are bits. Size and batch stay two arguments here and below, as callers
// hand them over (docs/API.md).
#[tactic(auto, using(crate::proofs::Rules::ranges))]
fn pack_one(batch: &[u64], out: &mut [u64]) -> u64
    requires { NamedIn 1 batch.now out.old }
    ensures { Named 1 batch.now out.old out.new result }
{
    let low = one::pack_words(batch, 0, 15, out);
    let high = one::pack_words(batch, 16, 18, out);
    low | high
}

// How far apart the words of two cycles stand comes from the length and not as the number 2: knowing it, the compiler makes
// vectors of the loop over cycles, and they are slower.
#[tactic(auto, using(crate::proofs::Rules::ranges))]
fn pack_many(cpi: usize, batch: &[u64], acc: &mut [u64], out: &mut [u64]) -> u64
    requires { NamedIn cpi batch.now out.old × (length acc.old ≡ cpi) }
    ensures { Named cpi batch.now out.old out.new result }
{
    let step = (batch.len() >> layout::exponent(cpi)) / 4096;
    let low = many::pack_words(cpi, batch, step, 0, 15, acc, out);
    let high = many::pack_words(cpi, batch, step, 16, 18, acc, out);
    low | high
}

// The same, with room for N cycles on the stack: nothing here allocates.
fn pack_in<const N: usize>(cpi: usize, batch: &[u64], out: &mut [u64]) -> u64
    requires { NamedIn cpi batch.now out.old × (cpi ≤ N) × (N ≤ 256) }
    ensures { Named cpi batch.now out.old out.new result }
{
    let mut acc = [0u64; N];
    pack_many(cpi, batch, &mut acc[..cpi], out)
}

#[tactic(auto, using(crate::proofs::Rules::sizes))]
fn pack(cpi: usize, batch: &[u64], out: &mut [u64]) -> u64
    requires { NamedIn cpi batch.now out.old }
    ensures { Named cpi batch.now out.old out.new result }
{
    if cpi == 1 {
        return pack_one(batch, out);
    }
    if cpi < 17 {
        return pack_in::<16>(cpi, batch, out);
    }
    pack_in::<256>(cpi, batch, out)
}

// Questions 1, 2 and 18.
#[tactic(auto, using(crate::proofs::Rules::sizes), unfolding(crate::specs::Packed::pack_asked))]
fn ask(cpi: usize, words: usize, room: usize) -> Result<(), Refusal>
    ensures { result ≡ pack_asked cpi words room }
{
    layout::ask_batch(cpi, words)?;
    if room != 32 * cpi {
        return Err(Question::PackedLength.refused());
    }
    Ok(())
}

// The words of every cycle that hold columns which rows name, in cycle order: questions 1, 2 and 18. The answer is whether these columns
// are bits.
#[tactic(auto, using(crate::proofs::Rules::asked), unfolding(crate::specs::Packed::named_called))]
pub fn pack_named(cpi: usize, batch: &[u64], out: &mut [u64]) -> Result<bool, Refusal>
    ensures { ◌≡◌ {A = NamedCalled} (record { answer = result; out = out.new }) (named_called cpi batch.now out.old) }
{
    ask(cpi, batch.len(), out.len())?;
    Ok(pack(cpi, batch, out) == 0)
}

// The same of a batch of one cycle, whose shape stands apart: who has but one cycle need not carry the others.
#[tactic(auto, using(crate::proofs::Rules::asked), unfolding(crate::specs::Packed::named_called))]
pub fn pack_row(batch: &[u64], out: &mut [u64]) -> Result<bool, Refusal>
    ensures { ◌≡◌ {A = NamedCalled} (record { answer = result; out = out.new }) (named_called 1 batch.now out.old) }
{
    ask(1, batch.len(), out.len())?;
    Ok(pack_one(batch, out) == 0)
}
