// The filler: it writes every derived column of every cycle, and nothing else.
ghost use Rattle.std.specs.Prelude.{◌≡◌, ◌+◌, ◌*◌, ◌^◌, ◌<◌, true, length};
ghost use Rattle.layout.specs.Batch.{allowed, batch_words};
ghost use Rattle.verdict.specs.Promises.{Cycle};
ghost use Rattle.step.specs.Derived.{derived};
ghost use Rattle.step.specs.Filling.{filled};
ghost use Rattle.step.specs.Fill.{faulty, first_faulty, columns_asked, fill_asked, called, Passed};
ghost use Rattle.layout.specs.Questions.{Called};
ghost use Rattle.filler.specs.Words.{fill_cycle};

use crate::derive::{derive, taken_bit};
use crate::words::{element, put_word, read_given};
use field::Gf128;
use layout::columns::{CARRY_OFF, EQA, HALT, OPSYS, SHIFT_SRC, STORE_OLD, STORE_SRC, TAKEN, ZERO};
use layout::{Question, Refusal};

#[tactic(auto, unfolding(step::specs::Derived::derived))]
fn is_derived(column: usize) -> bool
    ensures { result ≡ derived column }
{
    ((448 <= column) & (column <= 511))
        | ((576 <= column) & (column <= 767))
        | (column == 773)
        | (column == 779)
        | ((896 <= column) & (column <= 953))
        | ((1024 <= column) & (column <= 1126))
}

// A given column above 1, in a batch of 2^k cycles. Nearly every column is a bit, so that is asked first.
fn is_faulty(k: u32, batch: &[u64], at: usize) -> bool
    requires { (k < 9) × (2 * at + 1 < length batch.now) }
    ensures { result ≡ faulty (2 ^ k) batch.now at }
{
    if element(batch, at).is_bit() {
        return false;
    }
    !is_derived(at >> k)
}

// The smallest batch column among the given ones that is above 1, or the number of witness columns where none is, as `first_faulty` has
// it. The size and the batch stay two arguments here and below, as callers hand them over (docs/API.md).
fn first_faulty(cpi: usize, batch: &[u64]) -> usize
    requires { (allowed cpi ≡ true) × (length batch.now ≡ batch_words cpi) }
    ensures { result ≡ first_faulty cpi batch.now }
{
    let columns = 2048 * cpi;
    let k = layout::exponent(cpi);
    for i in 0..columns {
        if is_faulty(k, batch, i) {
            return i;
        }
    }
    columns
}

// Questions 11 and 12.
fn ask_columns(cpi: usize, batch: &[u64]) -> Result<(), Refusal>
    requires { (allowed cpi ≡ true) × (length batch.now ≡ batch_words cpi) }
    ensures { result ≡ columns_asked cpi batch.now }
{
    let place = first_faulty(cpi, batch);
    if place < 2048 * cpi {
        let question = Question::GivenBits;
        return Err(Refusal { question, place });
    }
    if element(batch, 2048 * cpi) != Gf128::one() {
        return Err(Question::OneColumn.refused());
    }
    Ok(())
}

// Questions 1, 2, 11 and 12.
#[tactic(auto, unfolding(step::specs::Fill::fill_asked))]
pub fn ask(cpi: usize, batch: &[u64]) -> Result<(), Refusal>
    ensures { result ≡ fill_asked cpi batch.now }
{
    layout::ask_batch(cpi, batch.len())?;
    ask_columns(cpi, batch)
}

// The given words are read before any column is written. HALT is where the first opcode chain ends.
fn fill_cycle(batch: &mut [u64], cpi: usize, cycle: usize)
    requires { Cycle cpi cycle batch.old }
    ensures { batch.new ≡ fill_cycle cpi cycle batch.old }
{
    let g = read_given(batch, cpi, cycle);
    let w = derive(g);
    put_word(batch, cpi, cycle, CARRY_OFF, 64, w.carry);
    put_word(batch, cpi, cycle, SHIFT_SRC, 64, g.rs1);
    put_word(batch, cpi, cycle, STORE_OLD, 64, g.load);
    put_word(batch, cpi, cycle, STORE_SRC, 64, g.rs2);
    put_word(batch, cpi, cycle, HALT, 1, w.branches >> 6);
    put_word(batch, cpi, cycle, TAKEN, 1, taken_bit(w.branches));
    put_word(batch, cpi, cycle, EQA, 58, w.lanes);
    put_word(batch, cpi, cycle, ZERO, 64, w.zeros);
    put_word(batch, cpi, cycle, OPSYS, 39, w.branches);
}

fn fill_cycles(cpi: usize, batch: &mut [u64])
    requires { Passed cpi batch.old }
    ensures { batch.new ≡ filled cpi batch.old }
{
    for cycle in 0..cpi {
        fill_cycle(batch, cpi, cycle);
    }
}

// Question by question, and then the derived columns of every cycle, whatever stood there. A no leaves the batch as it came.
#[tactic(auto, unfolding(step::specs::Fill::called))]
pub fn fill(cpi: usize, batch: &mut [u64]) -> Result<(), Refusal>
    ensures { ◌≡◌ {A = Called} (record { answer = result; batch = batch.new }) (called cpi batch.old) }
{
    ask(cpi, batch)?;
    fill_cycles(cpi, batch);
    Ok(())
}
