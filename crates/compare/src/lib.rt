// What the comparison with the original calls from Rust: the product's own functions behind C names, on numbers alone. Not part of
// the product's C boundary. Those that differ in an operation alone stay apart, since C calls each by its name.
#![tactic(auto)]

pub mod check;
pub mod fills;
pub mod makers;
pub mod merges;
pub mod packing;
pub mod pages;
pub mod reader;
pub mod reads;
pub mod search;
pub mod storage;
pub mod tables;
pub mod words;

ghost use Rattle.std.specs.Prelude.{◌≡◌, ◌<◌, ◌^◌, get_or};
ghost use Rattle.field.specs.Gf.{of_words, added, product, shifted, power};
ghost use Rattle.base.specs.Bits.{digit};
ghost use Rattle.layout.specs.Batch.{exponent_of, scratch_fits, geometry_of, mapped, unmapped};
ghost use Rattle.strict.specs.Known.{listing_of};
ghost use Rattle.circuit.specs.Batched.{batched, unmapped_row};
ghost use Rattle.compare.specs.Numbers.{one_of, word_of, geometry_part, geometry_number, column_number, cycle_column_number, cycle_row_number, coefficient_number, mark_number, batch_word_number, batch_number};
ghost use Rattle.compare.specs.Replies.{chosen_listing, chosen_relation};

use crate::check::{by_relation, chosen_listing, chosen_relation, refused_at};
use circuit::batch::BatchWord;
use circuit::{Coefficient, Relation};
use field::Gf128;
use layout::{InstanceGeometry, Refusal};
use strict::Known;

// The first number for part 0, else the second.
pub fn one_of(part: u32, first: u64, second: u64) -> u64
    ensures { result ≡ one_of part first second }
{
    if part == 0 { first } else { second }
}

// Of two values, so it is no conversion.
fn word_of(e: Gf128, word: u32) -> u64
    ensures { result ≡ word_of word e }
{
    one_of(word, e.low(), e.high())
}

pub fn compare_add(alo: u64, ahi: u64, blo: u64, bhi: u64, word: u32) -> u64
    ensures { result ≡ word_of word (added (of_words alo ahi) (of_words blo bhi)) }
{
    word_of(
        Gf128::of_words(alo, ahi).add(Gf128::of_words(blo, bhi)),
        word,
    )
}

pub fn compare_mul(alo: u64, ahi: u64, blo: u64, bhi: u64, word: u32) -> u64
    ensures { result ≡ word_of word (product (of_words alo ahi) (of_words blo bhi)) }
{
    word_of(
        Gf128::of_words(alo, ahi).mul(Gf128::of_words(blo, bhi)),
        word,
    )
}

pub fn compare_shl(lo: u64, hi: u64, k: u32, word: u32) -> u64
    ensures { result ≡ word_of word (shifted (of_words lo hi) k) }
{
    word_of(Gf128::of_words(lo, hi).shl(k), word)
}

pub fn compare_times_power(lo: u64, hi: u64, k: u32, word: u32) -> u64
    ensures { result ≡ word_of word (product (of_words lo hi) (power k)) }
{
    word_of(Gf128::of_words(lo, hi).times_power(k), word)
}

fn geometry_part(g: InstanceGeometry, part: u32) -> u64
    ensures { result ≡ geometry_part part g }
{
    match part {
        0 => g.cpi as u64,
        1 => g.w_cols as u64,
        2 => g.m as u64,
        3 => g.one_col as u64,
        _ => g.w128 as u64,
    }
}

pub fn compare_geometry(cpi: usize, part: u32) -> u64
    ensures { result ≡ geometry_number part (geometry_of cpi) }
{
    match layout::geometry(cpi) {
        Ok(g) => geometry_part(g, part),
        Err(r) => refused_at(r),
    }
}

pub fn compare_exponent(cpi: usize) -> u32
    ensures { result ≡ exponent_of cpi }
{
    layout::exponent(cpi)
}

// 1 where scratch of so many words fits, else 0.
pub fn compare_scratch_fits(words: usize) -> u32
    ensures { result ≡ digit (scratch_fits words) }
{
    u32::from(layout::scratch_fits(words))
}

fn column_number(answer: Result<usize, Refusal>) -> u64
    ensures { result ≡ column_number answer }
{
    match answer {
        Ok(c) => c as u64,
        Err(r) => refused_at(r),
    }
}

pub fn compare_map_col(cpi: usize, column: usize, cycle: usize) -> u64
    ensures { result ≡ column_number (mapped 2048 cpi column cycle) }
{
    column_number(layout::map_col(cpi, column, cycle))
}

pub fn compare_map_z_col(cpi: usize, column: usize, cycle: usize) -> u64
    ensures { result ≡ column_number (mapped 4096 cpi column cycle) }
{
    column_number(layout::map_z_col(cpi, column, cycle))
}

pub fn compare_way_back(cpi: usize, column: usize, part: u32) -> u64
    ensures { result ≡ cycle_column_number part (unmapped cpi column) }
{
    match layout::unmap_col(cpi, column) {
        Ok(found) => one_of(part, found.column as u64, found.cycle as u64),
        Err(r) => refused_at(r),
    }
}

pub fn compare_row_way_back(cpi: usize, relation: u32, batch_row: usize, part: u32) -> u64
    ensures { result ≡ cycle_row_number part (unmapped_row cpi (chosen_relation relation) batch_row) }
{
    match circuit::batch::unmap_row(cpi, chosen_relation(relation), batch_row) {
        Ok(found) => one_of(part, found.row as u64, found.cycle as u64),
        Err(r) => refused_at(r),
    }
}

// Word i, or 0 past the end; `search::word_at` answers with another number there, and on places.
fn word_or_zero(words: &[u32], i: usize) -> u32
    ensures { result ≡ get_or words.now i 0 }
{
    words.get(i).copied().unwrap_or(0)
}

// Two arms, as the tables are arrays of two lengths.
pub fn compare_listing_word(which: u32, i: usize) -> u32
    ensures { result ≡ get_or (listing_of (chosen_listing which)) i 0 }
{
    match chosen_listing(which) {
        Known::House => word_or_zero(&circuit::build_circuit(), i),
        Known::Strict => word_or_zero(&strict::build_strict(), i),
    }
}

// 2^k is its exponent, zero is 255.
fn coefficient_number(k: Coefficient) -> u64
    ensures { result ≡ coefficient_number k }
{
    match k {
        Coefficient::Zero => 255,
        Coefficient::Power(e) => e as u64,
    }
}

fn mark_number(relation: Relation) -> u64
    ensures { result ≡ mark_number relation }
{
    by_relation(relation, 3, 4)
}

fn batch_word_number(w: BatchWord) -> u64
    requires { batch_word_number w < 2 ^ 64 }
    ensures { result ≡ batch_word_number w }
{
    match w {
        BatchWord::Row { relation, row } => row as u64 + mark_number(relation) * 0x10000000000,
        BatchWord::Term {
            side,
            coefficient,
            column,
        } => {
            column as u64
                + coefficient_number(coefficient) * 0x100000000
                + circuit::words::side_kind(side) as u64 * 0x10000000000
        }
    }
}

fn batch_number(answer: Result<BatchWord, Refusal>) -> u64
    requires { batch_number answer < 2 ^ 64 }
    ensures { result ≡ batch_number answer }
{
    match answer {
        Ok(w) => batch_word_number(w),
        Err(r) => refused_at(r),
    }
}

#[tactic(auto, using(crate::proofs::Fits::batched_fits))]
pub fn compare_batched(cpi: usize, cycle: usize, word: u32) -> u64
    ensures { result ≡ batch_number (batched cpi cycle word) }
{
    batch_number(circuit::batch::build_circuit_batched(cpi, cycle, word))
}
