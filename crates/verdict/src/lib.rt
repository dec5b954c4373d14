// The verdict on a batch: which row of which cycle is the first that does not hold, and how many were tested in each relation.
#![tactic(auto)]

pub mod bits;
mod rows;
mod walk;

ghost use Rattle.std.specs.Prelude.{true, ◌≡◌, ◌≤◌, length, replicate};
ghost use Rattle.layout.specs.Batch.{allowed, batch_words};
ghost use Rattle.strict.specs.Known.{listing_of};
ghost use Rattle.verdict.specs.Apply.{RowFound, applied_at, applied_to, applied};
ghost use Rattle.verdict.specs.Counts.{rows};
ghost use Rattle.verdict.specs.Check.{Checked, asked, judged, checked, known_checked};

use crate::rows::{Cycle, row_sums};
use circuit::Relation;
use circuit::search::Place;
use field::Gf128;
use layout::{Question, Refusal};
use strict::Known;

// How many cycle-and-mark pairs were tested, the failing one included: those of bin, and those of fld, which is 0 until bin has passed.
// A batch has at most 131,072 of the one and 8,192 of the other.
#[derive(Clone, Copy)]
pub struct Counts {
    pub bin: u32,
    pub fld: u32,
}

impl Counts {
    // Both together.
    pub fn rows(self) -> usize
        ensures { result ≡ rows self }
    {
        self.bin as usize + self.fld as usize
    }
}

// A verdict: `row` is the batch row, 512 · d + r in bin and 32 · d + r in fld.
#[derive(Clone, Copy)]
pub enum Verdict {
    Accepted {
        counts: Counts,
    },
    Failed {
        relation: Relation,
        row: usize,
        counts: Counts,
    },
}

// What the terms of a row's sides A, B and C add up to.
#[derive(Clone, Copy)]
pub struct Sums {
    pub a: Gf128,
    pub b: Gf128,
    pub c: Gf128,
}

// Writes 0 in every word: so the check leaves its scratch.
pub fn clear(s: &mut [u64])
    ensures { s.new ≡ replicate (length s.old) 0 }
{
    base::clear(s);
}

// Questions 1, 2, 5, and 6 to 10.
#[tactic(auto, unfolding(crate::specs::Check::asked))]
fn ask(cpi: usize, listing: &[u32], words: usize, room: usize) -> Result<(), Refusal>
    ensures { result ≡ asked cpi listing.now words room }
{
    layout::ask_batch(cpi, words)?;
    if !layout::scratch_fits(room) {
        return Err(Question::ScratchLength.refused());
    }
    circuit::questions::validate(listing)
}

// The check of a batch of cpi cycles against a listing. No word of the lent scratch is read; a verdict leaves it zero, and a refusal as it
// came.
#[tactic(auto, unfolding(crate::specs::Check::checked))]
pub fn check_row(
    cpi: usize,
    listing: &[u32],
    batch: &[u64],
    scratch: &mut [u64],
) -> Result<Verdict, Refusal>
    ensures { ◌≡◌ {A = Checked} (record { answer = result; scratch = scratch.new })
        (checked cpi listing.now batch.now scratch.old) }
{
    ask(cpi, listing, batch.len(), scratch.len())?;
    clear(scratch);
    Ok(walk::walk(cpi, listing, batch))
}

// The verdict over the listing that is named, of a batch whose size is in order. Two arms, as the tables are arrays of two lengths. The
// size and the batch stay two arguments here and below, as callers hand them over (docs/API.md).
fn walk_known(which: Known, cpi: usize, batch: &[u64]) -> Verdict
    requires { (allowed cpi ≡ true) × (length batch.now ≡ batch_words cpi) }
    ensures { result ≡ judged cpi (listing_of which) batch.now }
{
    match which {
        Known::House => {
            let listing = circuit::build_circuit();
            walk::walk(cpi, &listing, batch)
        }
        Known::Strict => {
            let listing = strict::build_strict();
            walk::walk(cpi, &listing, batch)
        }
    }
}

// The check against a listing that is named, which is known to be in order: questions 1 and 2 are all there is to ask.
#[tactic(auto, unfolding(crate::specs::Check::known_checked))]
pub fn check_known(which: Known, cpi: usize, batch: &[u64]) -> Result<Verdict, Refusal>
    ensures { result ≡ known_checked which cpi batch.now }
{
    layout::ask_batch(cpi, batch.len())?;
    Ok(walk_known(which, cpi, batch))
}

// The sums of the row that was found, where the cycle is one of the batch.
#[tactic(auto, unfolding(crate::specs::Apply::applied_at))]
fn apply_row(
    cpi: usize,
    listing: &[u32],
    batch: &[u64],
    found: Result<Place, Refusal>,
    cycle: usize,
) -> Result<Sums, Refusal>
    requires { (cpi ≤ 256) × ((length batch.now ≡ batch_words cpi) × RowFound listing.now found) }
    ensures { result ≡ applied_at cpi listing.now batch.now cycle found }
{
    let place = found?;
    if cpi <= cycle {
        return Err(Question::CycleRange.refused());
    }
    let at = Cycle {
        cpi,
        batch,
        number: cycle,
    };
    let row = row_sums(at, listing, place.start + 1);
    Ok(row.sums)
}

// Questions 6 to 10, 13 and 15.
fn apply_listed(
    cpi: usize,
    listing: &[u32],
    batch: &[u64],
    relation: Relation,
    row: usize,
    cycle: usize,
) -> Result<Sums, Refusal>
    requires { (cpi ≤ 256) × (length batch.now ≡ batch_words cpi) }
    ensures { result ≡ applied_to cpi listing.now batch.now relation row cycle }
{
    circuit::questions::validate(listing)?;
    apply_row(
        cpi,
        listing,
        batch,
        circuit::search::find_row(listing, relation, row),
        cycle,
    )
}

// The sums of one row of the listing in one cycle: questions 1, 2, 6 to 10, 13 and 15.
#[tactic(auto, unfolding(crate::specs::Apply::applied))]
pub fn apply(
    cpi: usize,
    listing: &[u32],
    batch: &[u64],
    relation: Relation,
    row: usize,
    cycle: usize,
) -> Result<Sums, Refusal>
    ensures { result ≡ applied cpi listing.now batch.now relation row cycle }
{
    layout::ask_batch(cpi, batch.len())?;
    apply_listed(cpi, listing, batch, relation, row, cycle)
}
