// The loops of the check: relation, cycle, row.
ghost use Rattle.std.specs.Prelude.{◌≡◌, true, ◌+◌, ◌*◌, ◌^◌, ◌<◌, ◌≤◌, length, Ok};
ghost use Rattle.layout.specs.Batch.{allowed, batch_words};
ghost use Rattle.circuit.specs.Found.{until};
ghost use Rattle.circuit.specs.Batched.{batch_row};
ghost use Rattle.circuit.specs.Valid.{validated};
ghost use Rattle.verdict.specs.Row.{cycle_of};
ghost use Rattle.verdict.specs.RowParts.{sorted};
ghost use Rattle.verdict.specs.Counts.{none, counted, rows};
ghost use Rattle.verdict.specs.Check.{met, run, judged};
ghost use Rattle.verdict.specs.Order.{is_fld_mark};
ghost use Rattle.verdict.specs.StillToTest.{all_parts};

use crate::rows::{Cycle, test_row};
use crate::{Counts, Verdict};
use circuit::Relation;

fn is_fld_mark(w: u32) -> bool
    ensures { result ≡ is_fld_mark w }
{
    if 2 < w >> 30 {
        return (w >> 29) % 2 == 1;
    }
    false
}

// Where the fld rows start: all rows before are bin, and all from there on fld, since question 9 asks for that order.
fn first_fld(listing: &[u32]) -> usize
    ensures { result ≡ until is_fld_mark listing.now }
{
    listing
        .iter()
        .position(|w| is_fld_mark(*w))
        .unwrap_or(listing.len())
}

fn batch_row(relation: Relation, cycle: usize, row: usize) -> usize
    requires { (cycle < 256) × (row < 512) }
    ensures { result ≡ batch_row relation cycle row }
{
    circuit::search::rows_a_cycle(relation) * cycle + row
}

// One more was tested, of a relation.
fn one_more(tested: Counts, relation: Relation) -> Counts
    requires { rows tested + 1 < 2 ^ 32 }
    ensures { result ≡ counted relation tested }
{
    match relation {
        Relation::Bin => Counts {
            bin: tested.bin + 1,
            fld: tested.fld,
        },
        Relation::Fld => Counts {
            bin: tested.bin,
            fld: tested.fld + 1,
        },
    }
}

// Bin rows and then fld rows, in every cycle; left by its label at the first row that does not hold. The label is a block's, as a `for`
// gives no value.
fn walk_parts(cpi: usize, bin: &[u32], fld: &[u32], batch: &[u64]) -> Verdict
    requires { (cpi ≤ 256) × ((length batch.now ≡ batch_words cpi)
        × ((length bin.now ≤ 16384) × ((length fld.now ≤ 16384) × ((sorted 3 bin.now ≡ true) × (sorted 3 fld.now ≡ true))))) }
    ensures { result ≡ run (met (cycle_of cpi batch.now)) none (all_parts cpi bin.now fld.now 0) }
{
    let mut tested = Counts { bin: 0, fld: 0 };
    'relations: {
        for part in [bin, fld] {
            'cycles: for cycle in 0..cpi {
                let here = Cycle {
                    cpi,
                    batch,
                    number: cycle,
                };
                // A row ends where its terms do, so this index jumps.
                let mut at: usize = 0;
                'rows: while at < part.len() {
                    let mark = part[at];
                    let kind = circuit::words::relation_of(mark);
                    let row = test_row(here, part, at + 1);
                    tested = one_more(tested, kind);
                    if !row.holds {
                        break 'relations Verdict::Failed {
                            relation: kind,
                            row: batch_row(kind, cycle, (mark % 512) as usize),
                            counts: tested,
                        };
                    }
                    at = row.end;
                }
            }
        }
        Verdict::Accepted { counts: tested }
    }
}

// The verdict on a batch whose size and listing are in order.
pub fn walk(cpi: usize, listing: &[u32], batch: &[u64]) -> Verdict
    requires { (allowed cpi ≡ true) × ((length batch.now ≡ batch_words cpi) × (validated listing.now ≡ Ok tt)) }
    ensures { result ≡ judged cpi listing.now batch.now }
{
    let split = first_fld(listing);
    walk_parts(cpi, &listing[..split], &listing[split..], batch)
}
