// Batches judged from packed words: the check with no listing read where a batch is accepted, and the plain walk where it is not.
#![tactic(auto)]

mod cycle;
mod short;

ghost use Rattle.std.specs.Prelude.{◌≡◌, ◌*◌, ◌≤◌, get_or, Err, Ok};
ghost use Rattle.strict.specs.Known.{rows_each};
ghost use Rattle.verdict.specs.declared.Verdict.TheVariants.{Accepted};
ghost use Rattle.verdict.specs.Counts.{every_row_of};
ghost use Rattle.verdict.specs.Check.{Checked, after, checked, known_checked};
ghost use Rattle.judge.specs.FillCheck.{Promised};
ghost use Rattle.judge.specs.Words.{judged_words};

use crate::cycle::CycleWords;
use crate::short::{short_row, short_yes};
use circuit::Relation;
use field::Gf128;
use layout::Refusal;
use strict::Known;
use verdict::{Counts, Verdict};

// One cycle: word k has columns 64 k to 64 k + 63, and `output` is the public element behind the one column.
#[tactic(auto, unfolding(crate::specs::Words::judged_words))]
pub fn judge_words(which: Known, words: &[u64; 32], output: Gf128) -> bool
    ensures { result ≡ judged_words which (λ k. get_or words.now k 0) output }
{
    CycleWords { words }.judge(which, output)
}

// The rows of one relation, in so many cycles. That these are at most 256 is asked here and twice below: a type for the one number would be
// taken apart in each.
#[tactic(auto, using(crate::proofs::Rules::few))]
fn rows_in(which: Known, relation: Relation, cpi: usize) -> u32
    requires { cpi ≤ 256 }
    ensures { result ≡ rows_each which relation * cpi }
{
    strict::rows_each(which, relation) * cpi as u32
}

// Accepted, with every row of every cycle counted.
fn all_rows(which: Known, cpi: usize) -> Result<Verdict, Refusal>
    requires { cpi ≤ 256 }
    ensures { result ≡ Ok (Accepted (every_row_of which cpi)) }
{
    let counts = Counts {
        bin: rows_in(which, Relation::Bin, cpi),
        fld: rows_in(which, Relation::Fld, cpi),
    };
    Ok(Verdict::Accepted { counts })
}

// The same, with scratch as a verdict leaves it.
fn accept(which: Known, cpi: usize, scratch: &mut [u64]) -> Result<Verdict, Refusal>
    requires { cpi ≤ 256 }
    ensures { ◌≡◌ {A = Checked} (record { answer = result; scratch = scratch.new })
        (after (Ok tt) (Accepted (every_row_of which cpi)) scratch.old) }
{
    verdict::clear(scratch);
    all_rows(which, cpi)
}

// The check against a known listing, with none lent: questions 1 and 2.
#[tactic(auto, using(crate::proofs::Rules::known))]
pub fn check_known(which: Known, cpi: usize, batch: &[u64]) -> Result<Verdict, Refusal>
    ensures { result ≡ known_checked which cpi batch.now }
{
    if short_yes(which, cpi, batch) {
        return all_rows(which, cpi);
    }
    verdict::check_known(which, cpi, batch)
}

// The check against a listing that is lent: questions 1, 2, 5, and 6 to 10.
#[tactic(auto, using(crate::proofs::Rules::known))]
pub fn check_row(
    cpi: usize,
    listing: &[u32],
    batch: &[u64],
    scratch: &mut [u64],
) -> Result<Verdict, Refusal>
    ensures { ◌≡◌ {A = Checked} (record { answer = result; scratch = scratch.new })
        (checked cpi listing.now batch.now scratch.old) }
{
    for which in [Known::House, Known::Strict] {
        if short_row(which, cpi, listing, batch, scratch.len()) {
            return accept(which, cpi, scratch);
        }
    }
    verdict::check_row(cpi, listing, batch, scratch)
}

// Fills a batch and checks it against a known listing: the filler's questions, 1, 2, 11 and 12; a no leaves the batch as it came. What
// demand 3 says of acceptance is its promise: accepted exactly when every cycle meets the conditions of that listing, whatever stood in
// the derived columns.
pub fn fill_and_check(which: Known, cpi: usize, batch: &mut [u64]) -> Result<Verdict, Refusal>
    ensures { Promised which cpi batch.old result batch.new }
{
    filler::fill::fill(cpi, batch)?;
    check_known(which, cpi, batch)
}
