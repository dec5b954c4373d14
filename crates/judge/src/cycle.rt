// A cycle judged from its packed words: word k has columns 64 k to 64 k + 63. The tests have no branch between them.
ghost use Rattle.std.specs.Prelude.{◌≡◌, ◌*◌, ◌<◌, ◌≤◌, length};
ghost use Rattle.filler.specs.Words.{low_blocks, flag_blocks, high_blocks, blocks};
ghost use Rattle.judge.specs.Words.{words_from, given_in, same_bits, all_written_in, judged_words, all_judged};

use field::Gf128;
use filler::conditions::{meets_all, step_words};
use filler::derive::{DerivedWords, GivenWords, derive, taken_bit};
use strict::Known;

// All 64 bits.
fn same_word(w: u64, v: u64) -> bool
    ensures { result ≡ same_bits 0 64 w v }
{
    w == v
}

// Bit k of w and the lowest of v.
fn same_bit(w: u64, k: u64, v: u64) -> bool
    requires { k < 64 }
    ensures { result ≡ same_bits k 1 w v }
{
    (w >> k) % 2 == v % 2
}

// The lowest N bits.
fn same_low<const N: u64>(w: u64, v: u64) -> bool
    requires { N < 64 }
    ensures { result ≡ same_bits 0 N w v }
{
    w % (1 << N) == v % (1 << N)
}

// The 32 words of a cycle.
#[derive(Clone, Copy)]
pub struct CycleWords<'a> {
    pub words: &'a [u64; 32],
}

impl CycleWords<'_> {
    fn word(self, k: usize) -> u64
        requires { k < 32 }
        ensures { result ≡ words_from self.entry.words.now 0 k }
    {
        self.words[k]
    }

    // CARRY_OFF, SHIFT_SRC, STORE_OLD and STORE_SRC.
    fn low_written(self, g: GivenWords, d: DerivedWords) -> bool
        ensures { result ≡ all_written_in (words_from self.entry.words.now 0) (low_blocks g d) }
    {
        same_word(self.word(7), d.carry)
            & (same_word(self.word(9), g.rs1)
                & (same_word(self.word(10), g.load) & same_word(self.word(11), g.rs2)))
    }

    // HALT and TAKEN.
    fn flags_written(self, d: DerivedWords) -> bool
        ensures { result ≡ all_written_in (words_from self.entry.words.now 0) (flag_blocks d) }
    {
        let w = self.word(12);
        same_bit(w, 5, d.branches >> 6) & same_bit(w, 11, taken_bit(d.branches))
    }

    // EQA to WNL, ZERO, and OPSYS to ZE8.
    fn high_written(self, d: DerivedWords) -> bool
        ensures { result ≡ all_written_in (words_from self.entry.words.now 0) (high_blocks d) }
    {
        same_low::<58>(self.word(14), d.lanes)
            & (same_word(self.word(16), d.zeros) & same_low::<39>(self.word(17), d.branches))
    }

    // Every derived column.
    fn derived_written(self, g: GivenWords, d: DerivedWords) -> bool
        ensures { result ≡ all_written_in (words_from self.entry.words.now 0) (blocks g d) }
    {
        self.low_written(g, d) & (self.flags_written(d) & self.high_written(d))
    }

    // What the derived columns depend on.
    fn given(self) -> GivenWords
        ensures { result ≡ given_in (words_from self.entry.words.now 0) }
    {
        GivenWords {
            rs1: self.word(0),
            rs2: self.word(1),
            load: self.word(3),
            t1: self.word(5),
            t2: self.word(6),
            alu: self.word(8),
            flags: self.word(12),
            fetch: self.word(13),
        }
    }

    // The conditions of a known listing, and whether every derived column holds what the filler would write.
    pub fn judge(self, which: Known, output: Gf128) -> bool
        ensures { result ≡ judged_words which (words_from self.entry.words.now 0) output }
    {
        let g = self.given();
        let w = step_words(g, self.word(2), self.word(4));
        let met = meets_all(which, w, g.flags, output);
        met & self.derived_written(g, derive(g))
    }
}

// Cycle after cycle, 32 words each.
pub fn judge_cycles(which: Known, cpi: usize, words: &[u64], output: Gf128) -> bool
    requires { (cpi ≤ 256) × (length words.now ≡ 32 * cpi) }
    ensures { result ≡ all_judged which words.now output cpi 0 }
{
    let (cycles, _) = words.as_chunks::<32>();
    for d in 0..cpi {
        let cycle = CycleWords { words: &cycles[d] };
        if !cycle.judge(which, output) {
            return false;
        }
    }
    true
}
