// Which of the ten step conditions is the first that a cycle does not meet (document 01, "Step conditions").
ghost use Rattle.std.specs.Prelude.{◌≡◌, ◌+◌, ◌<◌};
ghost use Rattle.layout.specs.Columns.{ONE-COL};
ghost use Rattle.verdict.specs.Row.{cycle_of, bits_of};
ghost use Rattle.verdict.specs.Promises.{Cycle};
ghost use Rattle.filler.specs.Met.{byte_of, arithmetic, shift, write, system, load_word, load_byte, load_half, upper_zero, second_zero, address, apart, one_width, conditions, conditions_of, all_true, first_false, first_unmet, step_words, flags_in, step_answer};

use crate::bits::{
    Flags, IS_ARITH_BIT, IS_SHIFT_BIT, IS_STORE_BIT, OFF_BIT, RAM_ADDR_BIT, SUB_BIT, flags_of, nth,
};
use crate::derive::{GivenWords, word_of};
use crate::fill::ask;
use crate::words::{element, read_given, read_word};
use field::Gf128;
use layout::columns::{ONE_COL, RD, SHIFT_OUT};
use layout::{Question, Refusal};
use strict::Known;

// The words that the conditions read; the opcode has seven bits.
#[derive(Clone, Copy)]
pub struct StepWords {
    pub rs1: u64,
    pub rd: u64,
    pub load_val: u64,
    pub shift_out: u64,
    pub t1: u64,
    pub t2: u64,
    pub alu: u64,
    pub opcode: u64,
}

// The flags that gates are made of, the others by their columns' names, and what stands behind them: OFF of three bits and the RAM
// address of eight. That `off` is below 8 is asked where it is used: a ghost fact here would have to be given in each definition of specs/
// that writes this record.
#[derive(Clone, Copy)]
struct StepFlags {
    gates: Flags,
    sub: bool,
    is_store: bool,
    is_arith: bool,
    is_shift: bool,
    off: u64,
    ram_addr: u64,
}

// Byte k of x: beyond the word there is nothing.
#[tactic(auto, unfolding(crate::specs::Met::byte_of))]
fn byte_of(x: u64, k: u64) -> u64
    ensures { result ≡ byte_of x k }
{
    if k < 8 { (x >> (8 * k)) % 256 } else { 0 }
}

fn arithmetic(w: StepWords, f: StepFlags) -> bool
    ensures { result ≡ arithmetic w f }
{
    let sum = w.t1.wrapping_add(w.t2).wrapping_add(word_of(f.sub));
    !f.is_arith | (w.alu == sum)
}

fn shift(w: StepWords, f: StepFlags) -> bool
    ensures { result ≡ shift w f }
{
    !f.is_shift | (w.alu == w.shift_out)
}

fn write(w: StepWords, f: StepFlags) -> bool
    ensures { result ≡ write w f }
{
    !(f.gates.write & !f.gates.load) | (w.rd == w.alu)
}

fn system(w: StepWords, output: Gf128) -> bool
    ensures { result ≡ system w output }
{
    !(w.opcode == 0x73) | ((w.rd == w.rs1) & (output == Gf128::of_words(w.rd, 0)))
}

fn load_word(w: StepWords, f: StepFlags) -> bool
    ensures { result ≡ load_word w f }
{
    !f.gates.whole | (w.rd == w.load_val)
}

fn load_byte(w: StepWords, f: StepFlags) -> bool
    ensures { result ≡ load_byte w f }
{
    !f.gates.byte | (byte_of(w.rd, 0) == byte_of(w.load_val, f.off))
}

fn load_half(w: StepWords, f: StepFlags) -> bool
    requires { f.off < 8 }
    ensures { result ≡ load_half w f }
{
    let first = byte_of(w.rd, 0) == byte_of(w.load_val, f.off);
    let second = byte_of(w.rd, 1) == byte_of(w.load_val, (f.off + 1) % 8);
    !f.gates.half | (first & second)
}

fn upper_zero(w: StepWords, f: StepFlags) -> bool
    ensures { result ≡ upper_zero w f }
{
    !(f.gates.load & !f.gates.whole) | (w.rd >> 16 == 0)
}

fn second_zero(w: StepWords, f: StepFlags) -> bool
    ensures { result ≡ second_zero w f }
{
    !(f.gates.load & !f.gates.whole & !f.gates.half) | (byte_of(w.rd, 1) == 0)
}

// Just one of load and store: both set cancel.
fn address(w: StepWords, f: StepFlags) -> bool
    ensures { result ≡ address w f }
{
    !(f.gates.load ^ f.is_store) | (f.ram_addr == (w.alu >> 3) % 256)
}

// Of the strict conditions (document 02, request 6): no cycle both loads and stores.
fn apart(f: StepFlags) -> bool
    ensures { result ≡ apart f }
{
    !(f.gates.load & f.is_store)
}

// A loading cycle has exactly one width, and others have none: as many widths as loads.
fn one_width(f: StepFlags) -> bool
    ensures { result ≡ one_width f }
{
    word_of(f.gates.byte) + word_of(f.gates.half) + word_of(f.gates.whole) == word_of(f.gates.load)
}

// The ten, in document 01's order.
#[tactic(auto, unfolding(crate::specs::Met::conditions))]
fn conditions(w: StepWords, f: StepFlags, output: Gf128) -> [bool; 10]
    requires { f.off < 8 }
    ensures { result ≡ conditions w f output }
{
    [
        arithmetic(w, f),
        shift(w, f),
        write(w, f),
        system(w, output),
        load_word(w, f),
        load_byte(w, f),
        load_half(w, f),
        upper_zero(w, f),
        second_zero(w, f),
        address(w, f),
    ]
}

fn first_false(met: [bool; 10]) -> Option<usize>
    ensures { result ≡ first_false met }
{
    let k = met.iter().position(|met| !*met)?;
    Some(k + 1)
}

// From the words that the derived columns depend on, and two that they do not.
pub fn step_words(g: GivenWords, rd: u64, shift: u64) -> StepWords
    ensures { result ≡ step_words g rd shift }
{
    StepWords {
        rs1: g.rs1,
        rd,
        load_val: g.load,
        shift_out: shift,
        t1: g.t1,
        t2: g.t2,
        alu: g.alu,
        opcode: g.fetch % 128,
    }
}

// Of the word of columns 768 on.
fn flags_in(w: u64) -> StepFlags
    ensures { result ≡ flags_in w }
{
    StepFlags {
        gates: flags_of(w),
        sub: nth(w, SUB_BIT),
        is_store: nth(w, IS_STORE_BIT),
        is_arith: nth(w, IS_ARITH_BIT),
        is_shift: nth(w, IS_SHIFT_BIT),
        off: (w >> OFF_BIT) % 8,
        ram_addr: (w >> RAM_ADDR_BIT) % 256,
    }
}

// Whether all ten are met, with no branch between the tests.
fn meets_ten(w: StepWords, f: StepFlags, output: Gf128) -> bool
    requires { f.off < 8 }
    ensures { result ≡ all_true (conditions w f output) }
{
    let met = conditions(w, f, output);
    let loads = met[4] & (met[5] & (met[6] & (met[7] & (met[8] & met[9]))));
    met[0] & (met[1] & (met[2] & (met[3] & loads)))
}

// Whether all conditions of a known listing are met; `flags` is the word of columns 768 on.
pub fn meets_all(which: Known, w: StepWords, flags: u64, output: Gf128) -> bool
    ensures { result ≡ all_true (conditions_of which w (flags_in flags) output) }
{
    let f = flags_in(flags);
    let ten = meets_ten(w, f, output);
    match which {
        Known::House => ten,
        Known::Strict => apart(f) & (one_width(f) & ten),
    }
}

// Of a cycle of the batch. The public element behind the one column is the same for every cycle.
fn unmet_in(batch: &[u64], cpi: usize, cycle: usize) -> Option<usize>
    requires { Cycle cpi cycle batch.now }
    ensures { result ≡ first_unmet (bits_of cpi batch.now cycle) (cycle_of cpi batch.now cycle (ONE-COL + 1)) }
{
    let g = read_given(batch, cpi, cycle);
    let rd = read_word(batch, cpi, cycle, RD);
    let w = step_words(g, rd, read_word(batch, cpi, cycle, SHIFT_OUT));
    let f = flags_in(g.flags);
    first_false(conditions(w, f, element(batch, ONE_COL * cpi + 1)))
}

// Questions 1, 2, 11, 12 and 15, and then the conditions in their order. The number is document 01's, of which `names-first` speaks, and
// no enum.
#[tactic(auto, unfolding(crate::specs::Met::step_answer))]
pub fn first_unmet(cpi: usize, batch: &[u64], cycle: usize) -> Result<Option<usize>, Refusal>
    ensures { result ≡ step_answer cpi batch.now cycle }
{
    ask(cpi, batch)?;
    if cpi <= cycle {
        return Err(Question::CycleRange.refused());
    }
    Ok(unmet_in(batch, cpi, cycle))
}
