// A cycle's columns read as words, low bit first, and words put into columns. The batch, its size and the cycle are passed one by one:
// a struct that held the batch for writing would have to promise of every write that the other two stay, and one for reading would be made
// anew at each call.
ghost use Rattle.std.specs.Prelude.{◌≡◌, ◌+◌, ◌*◌, ◌<◌, ◌≤◌, length};
ghost use Rattle.base.specs.Bits.{digit, bit_at};
ghost use Rattle.verdict.specs.Row.{element_at, bits_of};
ghost use Rattle.verdict.specs.Promises.{Cycle};
ghost use Rattle.step.specs.Filling.{put};
ghost use Rattle.filler.specs.Blocks.{put_word};
ghost use Rattle.filler.specs.Words.{word_at, given_words};

use crate::derive::{GivenWords, word_of};
use field::Gf128;
use layout::columns::{ALU, FETCH, FLAGS, LOAD_VAL, RS1, RS2, T1, T2};

// An element of a batch, by its batch column. Each crate that reads one has such a function of its own: a public one would ask something
// of its caller.
pub fn element(batch: &[u64], at: usize) -> Gf128
    requires { 2 * at + 1 < length batch.now }
    ensures { result ≡ element_at batch.now at }
{
    Gf128::of_words(batch[2 * at], batch[2 * at + 1])
}

// The batch column of a witness column, with no question asked.
fn column_at(cpi: usize, cycle: usize, column: usize) -> usize
    requires { (cpi ≤ 256) × ((cycle < cpi) × (column < 2048)) }
    ensures { (result ≡ column * cpi + cycle) × (result < 2048 * cpi) }
{
    column * cpi + cycle
}

fn bit_at(batch: &[u64], cpi: usize, cycle: usize, column: usize) -> u64
    requires { Cycle cpi cycle batch.now × (column < 2048) }
    ensures { result ≡ digit (bits_of cpi batch.now cycle column) }
{
    let at = column_at(cpi, cycle, column);
    word_of(element(batch, at).low() == 1)
}

// The word of 64 columns from one on.
pub fn read_word(batch: &[u64], cpi: usize, cycle: usize, column: usize) -> u64
    requires { Cycle cpi cycle batch.now × (column + 64 ≤ 2048) }
    ensures { result ≡ word_at cpi batch.now cycle column }
{
    let mut w: u64 = 0;
    for i in (0..64).rev() {
        w = bit_at(batch, cpi, cycle, column + i) + 2 * w;
    }
    w
}

// The words that the derived columns depend on.
pub fn read_given(batch: &[u64], cpi: usize, cycle: usize) -> GivenWords
    requires { Cycle cpi cycle batch.now }
    ensures { result ≡ given_words cpi batch.now cycle }
{
    GivenWords {
        rs1: read_word(batch, cpi, cycle, RS1),
        rs2: read_word(batch, cpi, cycle, RS2),
        load: read_word(batch, cpi, cycle, LOAD_VAL),
        t1: read_word(batch, cpi, cycle, T1),
        t2: read_word(batch, cpi, cycle, T2),
        alu: read_word(batch, cpi, cycle, ALU),
        flags: read_word(batch, cpi, cycle, FLAGS),
        fetch: read_word(batch, cpi, cycle, FETCH),
    }
}

// The lowest bit of w, whatever stood there: the high word becomes 0, too.
fn put_bit(batch: &mut [u64], cpi: usize, cycle: usize, column: usize, w: u64)
    requires { Cycle cpi cycle batch.old × (column < 2048) }
    ensures { batch.new ≡ put batch.old (column * cpi + cycle) (bit_at w 0) }
{
    let low = 2 * column_at(cpi, cycle, column);
    batch[low] = w % 2;
    batch[low + 1] = 0;
}

// The low bits of w, as many as there are columns.
pub fn put_word(batch: &mut [u64], cpi: usize, cycle: usize, column: usize, columns: usize, w: u64)
    requires { Cycle cpi cycle batch.old × (column + columns ≤ 2048) }
    ensures { batch.new ≡ put_word cpi cycle column w columns batch.old }
{
    let mut rest = w;
    for i in 0..columns {
        put_bit(batch, cpi, cycle, column + i, rest);
        rest /= 2;
    }
}
