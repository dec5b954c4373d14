// Columns that stand one after the other: those of one cycle, and those of a batch in batch order, whatever holds their words.
ghost use Rattle.std.specs.Prelude.{◌≡◌, ◌+◌, ◌*◌, ◌<◌, ◌≤◌, ◌↔◌, length};
ghost use Rattle.packed.specs.One.{row_sum, WordsFrom, BitsFrom, RowIn, InRow};

use crate::sums::four;
use crate::words::Words;

// The sum of four columns, whose words stand from word i on. This and the next two are no one function over the size: no const argument
// can be a quarter of another.
#[tactic(auto, using(crate::proofs::Rules::row_words))]
fn four_at<W: Words>(batch: W, i: usize) -> u64
    requires { WordsFrom (W.words batch) i 8 }
    ensures { result ≡ row_sum (W.words batch) i 4 }
{
    let a = batch.word(i);
    let b = batch.word(i + 2);
    let c = batch.word(i + 4);
    let d = batch.word(i + 6);
    four(1, a, b, c, d)
}

#[tactic(auto, using(crate::proofs::Rules::row_words))]
fn sixteen_at<W: Words>(batch: W, i: usize) -> u64
    requires { WordsFrom (W.words batch) i 32 }
    ensures { result ≡ row_sum (W.words batch) i 16 }
{
    let a = four_at(batch, i);
    let b = four_at(batch, i + 8);
    let c = four_at(batch, i + 16);
    let d = four_at(batch, i + 24);
    four(4, a, b, c, d)
}

#[tactic(auto, using(crate::proofs::Rules::row_words))]
fn word_at<W: Words>(batch: W, i: usize) -> u64
    requires { WordsFrom (W.words batch) i 128 }
    ensures { result ≡ row_sum (W.words batch) i 64 }
{
    let a = sixteen_at(batch, i);
    let b = sixteen_at(batch, i + 32);
    let c = sixteen_at(batch, i + 64);
    let d = sixteen_at(batch, i + 96);
    four(16, a, b, c, d)
}

// 0 exactly where the 64 elements from word i on are bits.
#[tactic(auto, using(crate::proofs::Rules::row_words))]
fn seen_at<W: Words>(batch: W, i: usize) -> u64
    requires { WordsFrom (W.words batch) i 128 }
    ensures { (result ≡ 0) ↔ BitsFrom (W.words batch) i }
{
    let mut low: u64 = 0;
    let mut high: u64 = 0;
    for j in 0..64 {
        low |= batch.word(i + 2 * j);
        high |= batch.word(i + 2 * j + 1);
    }
    (low >> 1) | high
}

// Words `first` to before `last`. The answer is 0 exactly where their columns are bits.
pub fn pack_words<W: Words>(batch: W, first: usize, last: usize, out: &mut [u64]) -> u64
    requires { RowIn (W.words batch) first last out.old }
    ensures { InRow (W.words batch) first last out.old out.new result }
{
    let mut bad: u64 = 0;
    for k in first..last {
        bad |= seen_at(batch, 128 * k);
        out[k] = word_at(batch, 128 * k);
    }
    bad
}
