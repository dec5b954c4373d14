// The check, by itself and behind the filler, a row's sums and the bit test.
ghost use Rattle.std.specs.Prelude.{◌≡◌, ◌+◌, ◌<◌, ◌≤◌, ◌^◌};
ghost use Rattle.verdict.specs.Check.{checked, known_checked};
ghost use Rattle.verdict.specs.Apply.{applied};
ghost use Rattle.verdict.specs.Bits.{bit_tested};
ghost use Rattle.judge.specs.FillCheck.{fill_checked};
ghost use Rattle.compare.specs.Numbers.{refused_at, by_relation};
ghost use Rattle.compare.specs.Replies.{counts_number, verdict_number, check_number, reply, check_reply, fill_check_reply, chosen_listing, chosen_relation, sum_words, apply_reply, found_number, bit_number};

use circuit::Relation;
use layout::Refusal;
use strict::Known;
use verdict::bits::NotBit;
use verdict::{Counts, Sums, Verdict};

// Where nothing is asked, since too few words are lent, and where there is no word.
pub const NONE: u64 = 0x8000000000000000;

pub fn refused_at(r: Refusal) -> u64
    ensures { result ≡ refused_at r }
{
    0x8000000000000000 + r.question.number() as u64 * 0x100000000 + r.place.min(0xffffffff) as u64
}

// One number for bin, another for fld.
pub fn by_relation(relation: Relation, bin: u64, fld: u64) -> u64
    ensures { (result ≡ by_relation relation bin fld) × (result ≤ bin + fld) }
{
    match relation {
        Relation::Bin => bin,
        Relation::Fld => fld,
    }
}

fn counts_number(counts: Counts) -> u64
    ensures { (result ≡ counts_number counts) × (result < 2 ^ 60) }
{
    counts.fld as u64 % 0x100000 * 0x10000000000 + counts.bin as u64 % 0x100000 * 0x100000
}

fn verdict_number(v: Verdict) -> u64
    ensures { result ≡ verdict_number v }
{
    match v {
        Verdict::Accepted { counts } => counts_number(counts),
        Verdict::Failed {
            relation,
            row,
            counts,
        } => {
            by_relation(relation, 0x4000000000000000, 0x6000000000000000)
                + counts_number(counts)
                + row as u64 % 0x100000
        }
    }
}

fn check_number(answer: Result<Verdict, Refusal>) -> u64
    ensures { result ≡ check_number answer }
{
    match answer {
        Ok(v) => verdict_number(v),
        Err(r) => refused_at(r),
    }
}

// Here and in the next, way 0 is the product's check, any other number the plain walk.
pub fn compare_check_row(
    way: u32,
    cpi: usize,
    listing: &[u32],
    batch: &[u64],
    scratch: &mut [u64],
) -> u64
    ensures { reply result scratch.new ≡ check_reply (checked cpi listing.now batch.now scratch.old) }
{
    check_number(if way == 0 {
        judge::check_row(cpi, listing, batch, scratch)
    } else {
        verdict::check_row(cpi, listing, batch, scratch)
    })
}

// Here and below, which 0 is the house listing, any other number the strict one. A function, since no crate but `strict` may write a `From`
// for `Known`.
pub fn chosen_listing(n: u32) -> Known
    ensures { result ≡ chosen_listing n }
{
    if n == 0 { Known::House } else { Known::Strict }
}

pub fn compare_check_known(which: u32, way: u32, cpi: usize, batch: &[u64]) -> u64
    ensures { result ≡ check_number (known_checked (chosen_listing which) cpi batch.now) }
{
    let known = chosen_listing(which);
    check_number(if way == 0 {
        judge::check_known(known, cpi, batch)
    } else {
        verdict::check_known(known, cpi, batch)
    })
}

// A batch is filled and then checked, in one call.
pub fn compare_fill_and_check(which: u32, cpi: usize, batch: &mut [u64]) -> u64
    ensures { reply result batch.new ≡ fill_check_reply (fill_checked (chosen_listing which) cpi batch.old) }
{
    check_number(judge::fill_and_check(chosen_listing(which), cpi, batch))
}

// 0 is bin, any other number fld: a function for the same reason.
pub fn chosen_relation(n: u32) -> Relation
    ensures { result ≡ chosen_relation n }
{
    if n == 0 { Relation::Bin } else { Relation::Fld }
}

fn sum_words(s: Sums) -> [u64; 6]
    ensures { result ≡ sum_words s }
{
    [
        s.a.low(),
        s.a.high(),
        s.b.low(),
        s.b.high(),
        s.c.low(),
        s.c.high(),
    ]
}

pub fn compare_apply(
    cpi: usize,
    listing: &[u32],
    batch: &[u64],
    relation: u32,
    row: usize,
    cycle: usize,
    out: &mut [u64],
) -> u64
    ensures { reply result out.new
        ≡ apply_reply (applied cpi listing.now batch.now (chosen_relation relation) row cycle) out.old }
{
    let Some(place) = out.first_chunk_mut::<6>() else {
        return NONE;
    };
    match verdict::apply(cpi, listing, batch, chosen_relation(relation), row, cycle) {
        Ok(s) => {
            *place = sum_words(s);
            0
        }
        Err(r) => refused_at(r),
    }
}

fn found_number(found: Option<NotBit>) -> u64
    requires { found_number found < 2 ^ 64 }
    ensures { result ≡ found_number found }
{
    match found {
        None => 0,
        Some(b) => {
            0x4000000000000000
                + b.cycle as u64 * 0x1000000000000
                + b.column as u64 * 0x100000000
                + b.at as u64
        }
    }
}

fn bit_number(answer: Result<Option<NotBit>, Refusal>) -> u64
    requires { bit_number answer < 2 ^ 64 }
    ensures { result ≡ bit_number answer }
{
    match answer {
        Ok(found) => found_number(found),
        Err(r) => refused_at(r),
    }
}

pub fn compare_bit_test(cpi: usize, batch: &[u64]) -> u64
    ensures { result ≡ bit_number (bit_tested cpi batch.now) }
{
    bit_number(verdict::bits::bit_test(cpi, batch))
}
