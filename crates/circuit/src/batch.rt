// `build_circuit_batched`, word by word: a batch has no listing of its own, since each cycle's rows are those of the one listing.
// And the way back from a batch row, as a verdict names it, to the cycle and its row.
ghost use Rattle.std.specs.Prelude.{◌≡◌, true};
ghost use Rattle.layout.specs.Batch.{allowed, mapped};
ghost use Rattle.circuit.specs.Batched.{row_in, term_on, batched, unmapped_row};

use crate::search::rows_a_cycle;
use crate::{Coefficient, Relation, Side, Word, words};
use layout::{Question, Refusal};

// What a word of the listing stands for in a cycle of a batch: the mark of a batch row, or a term on a batch column. It is no `Word`, so
// that no row or column of a batch is taken for a cycle's.
#[derive(Clone, Copy)]
pub enum BatchWord {
    Row {
        relation: Relation,
        row: usize,
    },
    Term {
        side: Side,
        coefficient: Coefficient,
        column: usize,
    },
}

// A row of a cycle.
#[derive(Clone, Copy, Debug, PartialEq, Eq)]
pub struct CycleRow {
    pub cycle: usize,
    pub row: usize,
}

// The batch row of a mark's row.
#[tactic(auto, unfolding(crate::specs::Batched::row_in))]
fn row_in_cycle(
    relation: Relation,
    row: usize,
    cpi: usize,
    cycle: usize,
) -> Result<BatchWord, Refusal>
    requires { allowed cpi ≡ true }
    ensures { result ≡ row_in cpi cycle relation row }
{
    let rows = rows_a_cycle(relation);
    if rows <= row {
        return Err(Question::MarkOrder.refused());
    }
    if cpi <= cycle {
        return Err(Question::CycleRange.refused());
    }
    Ok(BatchWord::Row {
        relation,
        row: rows * cycle + row,
    })
}

// A term on the batch column of its column.
fn term_in_cycle(
    side: Side,
    coefficient: Coefficient,
    column: usize,
    cpi: usize,
    cycle: usize,
) -> Result<BatchWord, Refusal>
    ensures { result ≡ term_on side coefficient (mapped 4096 cpi column cycle) }
{
    let place = layout::map_z_col(cpi, column, cycle)?;
    Ok(BatchWord::Term {
        side,
        coefficient,
        column: place,
    })
}

// Total: questions 1, 7, 9 (a fld row above 31) and 15, and then the batch row, or the side, coefficient and batch column.
#[tactic(auto, unfolding(crate::specs::Batched::batched))]
pub fn build_circuit_batched(cpi: usize, cycle: usize, w: u32) -> Result<BatchWord, Refusal>
    ensures { result ≡ batched cpi cycle w }
{
    if !layout::is_allowed(cpi) {
        return Err(Question::BatchSize.refused());
    }
    if !words::is_clean(w) {
        return Err(Question::WordBits.refused());
    }
    let word = words::read_word(w);
    match word {
        Word::Mark { relation, row } => row_in_cycle(relation, row, cpi, cycle),
        Word::Term {
            side,
            coefficient,
            column,
        } => term_in_cycle(side, coefficient, column, cpi, cycle),
    }
}

// The way back: which row of which cycle a batch row is. Total: questions 1 and 14 (a batch row that the batch does not have).
#[tactic(auto, unfolding(crate::specs::Batched::unmapped_row))]
pub fn unmap_row(cpi: usize, relation: Relation, batch_row: usize) -> Result<CycleRow, Refusal>
    ensures { result ≡ unmapped_row cpi relation batch_row }
{
    if !layout::is_allowed(cpi) {
        return Err(Question::BatchSize.refused());
    }
    let rows = rows_a_cycle(relation);
    if rows * cpi <= batch_row {
        return Err(Question::ColumnRange.refused());
    }
    Ok(CycleRow {
        cycle: batch_row / rows,
        row: batch_row % rows,
    })
}
