// Does the product read in the batch or the listing what stands in a vector? A refusal has its place in all answers but the check's.
use crate::Wrong;
use crate::numbers::low_half;
use crate::words::{all_are, part};
use compare::check::{by_relation, compare_apply, compare_bit_test};
use compare::fills::compare_first_unmet;
use compare::reader::compare_reader;
use verdict::{Counts, Verdict};

// What the check owes, as the vector file has it: 0 accepted, 1 fails in bin, 2 in fld, and 3 for a refusal, whose number stands in the
// place of the row.
#[derive(Clone, Copy)]
struct Owed {
    verdict: u64,
    row: u64,
    bin: u64,
    fld: u64,
}

impl Owed {
    fn counts_are(self, counts: Counts) -> bool {
        (u64::from(counts.bin) == self.bin) && (u64::from(counts.fld) == self.fld)
    }

    fn verdict_is(self, v: Verdict) -> bool {
        match v {
            Verdict::Accepted { counts } => (self.verdict == 0) && self.counts_are(counts),
            Verdict::Failed {
                relation,
                row,
                counts,
            } => {
                (by_relation(relation, 1, 2) == self.verdict)
                    && (row as u64 == self.row)
                    && self.counts_are(counts)
            }
        }
    }

    // The check against the house listing. Scratch holds ones before, zeros after a verdict, and the ones after a refusal.
    fn is_given(self, cpi: u64, batch: &[u64], scratch: &mut [u64]) -> bool {
        scratch.fill(1);
        let listing = circuit::build_circuit();
        match judge::check_row(cpi as usize, &listing, batch, scratch) {
            Ok(v) => self.verdict_is(v) && all_are(scratch, 0),
            Err(r) => {
                (self.verdict == 3)
                    && (u64::from(r.question.number()) == self.row)
                    && all_are(scratch, 1)
            }
        }
    }
}

// The check of the batch that was set up, from the most scratch that is taken and from the least.
pub fn check([cpi, verdict, row, bin, fld, ..]: [u64; 8], cells: &[u64]) -> Result<bool, Wrong> {
    let owed = Owed {
        verdict,
        row,
        bin,
        fld,
    };
    let batch = part(cells, 0, cpi % 0x100 * 0x2000)?;
    Ok(
        owed.is_given(cpi, batch, &mut [0; layout::SCRATCH_MOST])
            && owed.is_given(cpi, batch, &mut [0; layout::SCRATCH_STEP]),
    )
}

pub fn bits([cpi, words, answer, ..]: [u64; 8], cells: &[u64]) -> Result<bool, Wrong> {
    let batch = part(cells, 0, words)?;
    Ok(compare_bit_test(cpi as usize, batch) == answer)
}

pub fn conditions([cpi, words, cycle, answer, ..]: [u64; 8], cells: &[u64]) -> Result<bool, Wrong> {
    let batch = part(cells, 0, words)?;
    Ok(compare_first_unmet(cpi as usize, batch, cycle as usize) == answer)
}

// The house listing with one word changed; a place past its end changes none.
fn changed_listing(at: u64, word: u64) -> [u32; 0xdab] {
    let mut listing = circuit::build_circuit();
    if let Some(place) = listing.get_mut(at as usize) {
        *place = low_half(word);
    }
    listing
}

// The first lent words are the three sums; a refusal leaves the words 2 that stand there.
pub fn sums(
    [cpi, words, at, word, relation, row, cycle, answer]: [u64; 8],
    cells: &[u64],
    lent: &[u64],
) -> Result<bool, Wrong> {
    let batch = part(cells, 0, words)?;
    let mut out = [2; 6];
    let given = compare_apply(
        cpi as usize,
        &changed_listing(at, word),
        batch,
        low_half(relation),
        row as usize,
        cycle as usize,
        &mut out,
    );
    Ok((given == answer) && lent.starts_with(&out))
}

// The first lent words are what the reader says of the two rows.
pub fn rows(
    [at, word, relation, row, next_relation, next_row, i, answer]: [u64; 8],
    lent: &[u64],
) -> bool {
    let mut out = [2; 8];
    let given = compare_reader(
        &changed_listing(at, word),
        low_half(relation),
        row as usize,
        low_half(next_relation),
        next_row as usize,
        i as usize,
        &mut out,
    );
    (given == answer) && lent.starts_with(&out)
}
