// Where things stand: the columns of a cycle, their segments, and the batch that up to 256 cycles share.
#![tactic(auto)]

pub mod columns;
pub mod questions;
pub mod segments;

ghost use Rattle.std.specs.Prelude.{◌≡◌, true, ◌<◌, ◌≤◌};
ghost use Rattle.layout.specs.Batch.{DEFAULT-CPI, allowed, exponent_of, batch_asked, scratch_fits, geometry_of, column_at, mapped, unmapped};

use crate::columns::{M, ONE_COL, W_COLS};
pub use crate::questions::{Question, Refusal};

pub const DEFAULT_CPI: usize = 1; // cycles of a batch where nobody chooses

pub const ROW_WORDS: usize = 8192; // words of a row: 4,096 elements, of two words each

pub const SCRATCH_STEP: usize = 6; // the check's scratch has so many words, or a multiple of it

pub const SCRATCH_MOST: usize = 3072; // and at most so many

// The batch that cpi cycles share: its witness columns, all its columns, its one column, and its witness columns in words of 128.
#[derive(Clone, Copy)]
pub struct InstanceGeometry {
    pub cpi: usize,
    pub w_cols: usize,
    pub m: usize,
    pub one_col: usize,
    pub w128: usize,
}

// A column of a cycle.
#[derive(Clone, Copy)]
pub struct CycleColumn {
    pub column: usize,
    pub cycle: usize,
}

// The exponent of a batch size: 2 to it is cpi. A number that is no size gets 9, which `exponent_of` promises, and no Option.
pub fn exponent(cpi: usize) -> u32
    ensures { result ≡ exponent_of cpi }
{
    let k = usize::trailing_zeros(cpi);
    if 8 < k {
        return 9;
    }
    if 1 << k == cpi { k } else { 9 }
}

// Question 1: a batch has a power of two of cycles, 1 to 256.
pub fn is_allowed(cpi: usize) -> bool
    ensures { result ≡ allowed cpi }
{
    exponent(cpi) < 9
}

// Questions 1 and 2, of the number of a batch's words.
#[tactic(auto, unfolding(crate::specs::Batch::batch_asked))]
pub fn ask_batch(cpi: usize, words: usize) -> Result<(), Refusal>
    ensures { result ≡ batch_asked cpi words }
{
    if !is_allowed(cpi) {
        return Err(Question::BatchSize.refused());
    }
    if words != ROW_WORDS * cpi {
        return Err(Question::BatchLength.refused());
    }
    Ok(())
}

// Question 5, of the number of words of the check's scratch: a multiple of 6, from 6 to 3,072.
#[tactic(auto, unfolding(crate::specs::Batch::scratch_fits))]
pub fn scratch_fits(words: usize) -> bool
    ensures { result ≡ scratch_fits words }
{
    (words % SCRATCH_STEP == 0) & ((SCRATCH_STEP <= words) & (words <= SCRATCH_MOST))
}

pub fn default_cpi() -> usize
    ensures { result ≡ DEFAULT-CPI }
{
    DEFAULT_CPI
}

#[tactic(auto, unfolding(crate::specs::Batch::geometry_of))]
pub fn geometry(cpi: usize) -> Result<InstanceGeometry, Refusal>
    ensures { result ≡ geometry_of cpi }
{
    if !is_allowed(cpi) {
        return Err(Question::BatchSize.refused());
    }
    let w_cols = W_COLS * cpi;
    Ok(InstanceGeometry {
        cpi,
        w_cols,
        m: M * cpi,
        one_col: w_cols,
        w128: w_cols / 128,
    })
}

// The witness columns of the cycles stand interleaved, and the public columns after them, once for all cycles.
#[tactic(auto, unfolding(crate::specs::Batch::column_at))]
fn column_at(cpi: usize, column: usize, cycle: usize) -> usize
    requires { (allowed cpi ≡ true) × ((column < 4096) × (cycle < cpi)) }
    ensures { result ≡ column_at cpi column cycle }
{
    if column < W_COLS {
        column * cpi + cycle
    } else {
        W_COLS * cpi + (column - ONE_COL)
    }
}

// Questions 1, 14 and 15 with so many columns to choose from, and the batch column.
#[tactic(auto, unfolding(crate::specs::Batch::mapped))]
fn map_below(limit: usize, cpi: usize, column: usize, cycle: usize) -> Result<usize, Refusal>
    requires { limit ≤ 4096 }
    ensures { result ≡ mapped limit cpi column cycle }
{
    if !is_allowed(cpi) {
        return Err(Question::BatchSize.refused());
    }
    if limit <= column {
        return Err(Question::ColumnRange.refused());
    }
    if cpi <= cycle {
        return Err(Question::CycleRange.refused());
    }
    Ok(column_at(cpi, column, cycle))
}

// The batch column of a witness column.
pub fn map_col(cpi: usize, column: usize, cycle: usize) -> Result<usize, Refusal>
    ensures { result ≡ mapped 2048 cpi column cycle }
{
    map_below(W_COLS, cpi, column, cycle)
}

// The batch column of any column of a cycle's row. The cycle is asked for public columns too, which do not depend on it.
pub fn map_z_col(cpi: usize, column: usize, cycle: usize) -> Result<usize, Refusal>
    ensures { result ≡ mapped 4096 cpi column cycle }
{
    map_below(M, cpi, column, cycle)
}

// The way back: which column of which cycle stands at a batch column below one_col. Sizes are powers of two, so that a shift is the
// quotient by cpi, and a mask the remainder.
#[tactic(auto, unfolding(crate::specs::Batch::unmapped))]
pub fn unmap_col(cpi: usize, batch_column: usize) -> Result<CycleColumn, Refusal>
    ensures { result ≡ unmapped cpi batch_column }
{
    if !is_allowed(cpi) {
        return Err(Question::BatchSize.refused());
    }
    if W_COLS * cpi <= batch_column {
        return Err(Question::ColumnRange.refused());
    }
    Ok(CycleColumn {
        column: batch_column >> exponent(cpi),
        cycle: batch_column & (cpi - 1),
    })
}
