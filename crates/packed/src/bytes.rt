// A row that is handed over as bytes, 8 for each of its words and the lowest first: its words are read where they stand.
ghost use Rattle.std.specs.Prelude.{◌≡◌, ◌+◌, ◌*◌, ◌<◌, ◌≤◌, length, take, drop};
ghost use Rattle.verdict.specs.Row.{element_at};
ghost use Rattle.packed.specs.Bytes.{number_of, words_of, row_of};
ghost use Rattle.packed.specs.Packed.{packed_named, named_bits};

use crate::one::pack_words;
use crate::words::Words;
use field::Gf128;

// The bytes of a row. A row has 65,536, so none of these functions has to ask.
#[derive(Clone, Copy)]
pub struct RowBytes<'a> {
    pub bytes: &'a [u8],
    pub ghost whole: { length bytes.now ≡ 65536 },
}

fn word_at(bytes: &[u8], at: usize) -> u64
    requires { at + 8 ≤ length bytes.now }
    ensures { result ≡ number_of (take 8 (drop at bytes.now)) }
{
    u64::from_le_bytes(*bytes[at..].first_chunk().unwrap())
}

// Word i, or 0 behind the last.
fn word_or_zero(bytes: &[u8], i: usize) -> u64
    requires { length bytes.now ≡ 65536 }
    ensures { result ≡ number_of (take 8 (drop (8 * i) bytes.now)) }
{
    if i < 8192 { word_at(bytes, 8 * i) } else { 0 }
}

impl Words for RowBytes<'_> {
    ghost words = { λ row. row_of row.bytes.now };

    #[tactic(auto, using(crate::proofs::Rules::row_bytes))]
    fn word(self, i: usize) -> u64 {
        word_at(self.bytes, 8 * i)
    }
}

// An element of the row, which is two words.
#[tactic(auto, using(crate::proofs::Rules::row_bytes))]
fn element(row: RowBytes, at: usize) -> Gf128
    requires { at < 4096 }
    ensures { result ≡ element_at (row_of row.entry.bytes.now) at }
{
    Gf128::of_words(row.word(2 * at), row.word(2 * at + 1))
}

impl RowBytes<'_> {
    // The one column.
    pub fn one_column(self) -> Gf128
        ensures { result ≡ element_at (row_of self.entry.bytes.now) 2048 }
    {
        element(self, 2048)
    }

    // The public element behind it.
    pub fn output(self) -> Gf128
        ensures { result ≡ element_at (row_of self.entry.bytes.now) 2049 }
    {
        element(self, 2049)
    }

    // The words that hold columns which rows name. The answer is whether these columns are bits.
    #[tactic(auto, using(crate::proofs::Rules::row_bytes))]
    pub fn pack(self, out: &mut [u64; 32]) -> bool
        ensures bits { result ≡ named_bits 1 (row_of self.entry.bytes.now) }
        ensures words { out.new ≡ packed_named 1 (row_of self.entry.bytes.now) out.old }
    {
        let low = pack_words(self, 0, 15, out);
        let high = pack_words(self, 16, 18, out);
        low | high == 0
    }

    // As many words as there is room for, and 0 behind the last.
    pub fn read(self, words: &mut [u64])
        ensures { words.new ≡ words_of (length words.old) self.entry.bytes.now }
    {
        for (i, word) in words.iter_mut().enumerate() {
            *word = word_or_zero(self.bytes, i);
        }
    }
}
