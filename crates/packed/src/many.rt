// A batch of several cycles: four columns of every cycle at a time.
ghost use Rattle.std.specs.Prelude.{◌≡◌, ◌+◌, ◌*◌, ◌<◌, ◌≤◌, length};
ghost use Rattle.packed.specs.Columns.{pushed_at, seen_at, FourIn, FourPut, WordIn, WordPut};
ghost use Rattle.packed.specs.Ranges.{Scattered, RangeIn, Ranged};

use crate::sums::above;

// The low words of four columns put below w, the last column's first.
fn put_four(batch: &[u64], i: usize, s: usize, w: u64) -> u64
    requires { i + 3 * s < length batch.now }
    ensures { result ≡ pushed_at batch.now i s w }
{
    let d = above(w, 1, batch[i + 3 * s]);
    let c = above(d, 1, batch[i + 2 * s]);
    let b = above(c, 1, batch[i + s]);
    above(b, 1, batch[i])
}

// What was seen, and the words of four columns.
fn seen_four(batch: &[u64], i: usize, s: usize, seen: u64) -> u64
    requires { i + 3 * s < length batch.now }
    ensures { result ≡ seen_at batch.now i s seen }
{
    seen | batch[i] | batch[i + s] | batch[i + 2 * s] | batch[i + 3 * s]
}

// Four columns, whose words stand s apart, put below what acc has of each cycle. The answer is 0 exactly where all are bits.
fn four_columns(batch: &[u64], at: usize, s: usize, step: usize, acc: &mut [u64]) -> u64
    requires { FourIn batch.now at s step acc.old }
    ensures { FourPut batch.now at s acc.old acc.new result }
{
    let mut low: u64 = 0;
    let mut high: u64 = 0;
    for (d, word) in acc.iter_mut().enumerate() {
        let i = at + step * d;
        *word = put_four(batch, i, s, *word);
        low = seen_four(batch, i, s, low);
        high = seen_four(batch, i + 1, s, high);
    }
    (low >> 1) | high
}

// Word k of each cycle into acc, which is zero, from its last four columns down.
fn word_columns(cpi: usize, batch: &[u64], step: usize, k: usize, acc: &mut [u64]) -> u64
    requires { WordIn cpi batch.now step k acc.old }
    ensures { WordPut cpi batch.now k acc.new result }
{
    let mut bad: u64 = 0;
    for j in (0..16).rev() {
        let at = (64 * k + 4 * j) * (2 * cpi);
        bad |= four_columns(batch, at, 2 * cpi, step, acc);
    }
    bad
}

// Word k of each cycle into its place.
pub fn put_words(acc: &[u64], k: usize, out: &mut [u64])
    requires { (k < 32) × (32 * length acc.now ≤ length out.old) }
    ensures { Scattered acc.now k (length acc.now) out.old out.new }
{
    for (d, word) in acc.iter().enumerate() {
        out[32 * d + k] = *word;
    }
}

// Words `first` to before `last` of every cycle. The answer is 0 exactly where their columns are bits.
pub fn pack_words(
    cpi: usize,
    batch: &[u64],
    step: usize,
    first: usize,
    last: usize,
    acc: &mut [u64],
    out: &mut [u64],
) -> u64
    requires { RangeIn cpi batch.now first last out.old × ((length acc.old ≡ cpi) × (step ≡ 2)) }
    ensures { Ranged cpi batch.now first last out.old out.new result }
{
    let mut bad: u64 = 0;
    for k in first..last {
        verdict::clear(acc);
        bad |= word_columns(cpi, batch, step, k, acc);
        put_words(acc, k, out);
    }
    bad
}
