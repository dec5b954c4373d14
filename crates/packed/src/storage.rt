// Packed storage of a batch: one bit a column below one_col, 64 to a word, in batch order or in cycle order.
ghost use Rattle.std.specs.Prelude.{◌≡◌, ◌*◌, ◌≤◌, length};
ghost use Rattle.layout.specs.Questions.{Called};
ghost use Rattle.packed.specs.Storage.{pack_called, pack_cycles_called, unpack_called, order_asked, to_cycles_called, to_batch_called};
ghost use Rattle.packed.specs.Named.{NamedIn};
ghost use Rattle.packed.specs.Stored.{Handed, store_called, rearrange_called};

use crate::ask;
use crate::one::pack_words;
use crate::order::{Order, put_into};
use crate::unpack::lay_words;
use layout::{Question, Refusal};

// The size and the batch stay two arguments, as callers hand them over (docs/API.md): a struct of both would be made and taken apart in
// each call. A column that is no bit is refused, and `out` must then be as it came: the words are made apart from it, in batch order.
fn hand_over(order: Order, cpi: usize, batch: &[u64], made: &mut [u64], out: &mut [u64]) -> bool
    requires { NamedIn cpi batch.now made.old × (length out.old ≡ 32 * cpi) }
    ensures { Handed order cpi batch.now out.old out.new result }
{
    if pack_words(batch, 0, 32 * cpi, made) != 0 {
        return false;
    }
    match order {
        Order::Batch => base::copy_at(made, out, 0),
        Order::Cycles => put_into(Order::Cycles, cpi, made, out),
    }
    true
}

// The words that are made stand on the stack, which is cleared first: few cycles get a short piece of it, which costs them less.
fn hand_in<const N: usize>(order: Order, cpi: usize, batch: &[u64], out: &mut [u64]) -> bool
    requires { NamedIn cpi batch.now out.old × (32 * cpi ≤ N) × (N ≤ 8192) }
    ensures { Handed order cpi batch.now out.old out.new result }
{
    let mut made = [0u64; N];
    hand_over(order, cpi, batch, &mut made[..32 * cpi], out)
}

#[tactic(auto, using(crate::proofs::Rules::sizes))]
fn hand(order: Order, cpi: usize, batch: &[u64], out: &mut [u64]) -> bool
    requires { NamedIn cpi batch.now out.old }
    ensures { Handed order cpi batch.now out.old out.new result }
{
    if cpi < 17 {
        return hand_in::<512>(order, cpi, batch, out);
    }
    hand_in::<8192>(order, cpi, batch, out)
}

// Questions 1, 2, 18 and 17.
#[tactic(auto, using(crate::proofs::Rules::asked), unfolding(crate::specs::Storage::store_asked))]
fn store(order: Order, cpi: usize, batch: &[u64], out: &mut [u64]) -> Result<(), Refusal>
    ensures { ◌≡◌ {A = Called} (record { answer = result; batch = out.new })
        (store_called order cpi batch.now out.old) }
{
    ask(cpi, batch.len(), out.len())?;
    if !hand(order, cpi, batch, out) {
        return Err(Question::LowerBits.refused());
    }
    Ok(())
}

// A batch in batch order: bit j of word k is batch column 64 k + j.
#[tactic(auto, unfolding(crate::specs::Storage::pack_called))]
pub fn pack(cpi: usize, batch: &[u64], out: &mut [u64]) -> Result<(), Refusal>
    ensures { ◌≡◌ {A = Called} (record { answer = result; batch = out.new })
        (pack_called cpi batch.now out.old) }
{
    store(Order::Batch, cpi, batch, out)
}

// A batch straight in cycle order: column c of cycle d is bit 2048 d + c.
#[tactic(auto, unfolding(crate::specs::Storage::pack_cycles_called))]
pub fn pack_cycles(cpi: usize, batch: &[u64], out: &mut [u64]) -> Result<(), Refusal>
    ensures { ◌≡◌ {A = Called} (record { answer = result; batch = out.new })
        (pack_cycles_called cpi batch.now out.old) }
{
    store(Order::Cycles, cpi, batch, out)
}

// Words in batch order, back into the columns below one_col of a batch; its public columns stay. Questions 1, 2 and 18.
#[tactic(auto, using(crate::proofs::Rules::unpacked), unfolding(crate::specs::Storage::unpack_called))]
pub fn unpack(cpi: usize, words: &[u64], batch: &mut [u64]) -> Result<(), Refusal>
    ensures { ◌≡◌ {A = Called} (record { answer = result; batch = batch.new })
        (unpack_called cpi words.now batch.old) }
{
    ask(cpi, batch.len(), words.len())?;
    lay_words(words, batch);
    Ok(())
}

// Questions 1 and 18, of the words that are read and of those that are written.
#[tactic(auto, using(crate::proofs::Rules::sizes), unfolding(crate::specs::Storage::order_asked))]
fn ask_order(cpi: usize, read: usize, written: usize) -> Result<(), Refusal>
    ensures { result ≡ order_asked cpi read written }
{
    if !layout::is_allowed(cpi) {
        return Err(Question::BatchSize.refused());
    }
    if read != 32 * cpi {
        return Err(Question::PackedLength.refused());
    }
    if written != 32 * cpi {
        return Err(Question::PackedLength.refused());
    }
    Ok(())
}

#[tactic(auto, using(crate::proofs::Rules::ordered))]
fn rearrange(order: Order, cpi: usize, words: &[u64], out: &mut [u64]) -> Result<(), Refusal>
    ensures { ◌≡◌ {A = Called} (record { answer = result; batch = out.new })
        (rearrange_called order cpi words.now out.old) }
{
    ask_order(cpi, words.len(), out.len())?;
    put_into(order, cpi, words, out);
    Ok(())
}

// From batch order into cycle order.
#[tactic(auto, unfolding(crate::specs::Storage::to_cycles_called))]
pub fn to_cycles(cpi: usize, words: &[u64], out: &mut [u64]) -> Result<(), Refusal>
    ensures { ◌≡◌ {A = Called} (record { answer = result; batch = out.new })
        (to_cycles_called cpi words.now out.old) }
{
    rearrange(Order::Cycles, cpi, words, out)
}

// From cycle order into batch order.
#[tactic(auto, unfolding(crate::specs::Storage::to_batch_called))]
pub fn to_batch(cpi: usize, words: &[u64], out: &mut [u64]) -> Result<(), Refusal>
    ensures { ◌≡◌ {A = Called} (record { answer = result; batch = out.new })
        (to_batch_called cpi words.now out.old) }
{
    rearrange(Order::Batch, cpi, words, out)
}
