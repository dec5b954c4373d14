// The bit test: does every column below one_col hold 0 or 1? The check does not ask, as the original's does not.
ghost use Rattle.std.specs.Prelude.{◌≡◌, ◌*◌, ◌+◌, ◌<◌, ◌≤◌, length};
ghost use Rattle.field.specs.Gf.{is_bit};
ghost use Rattle.layout.specs.Batch.{unmapped};
ghost use Rattle.verdict.specs.Row.{element_at};
ghost use Rattle.base.specs.Tests.{first_from};
ghost use Rattle.verdict.specs.Bits.{above_one, placed, bit_tested};

use field::Gf128;
use layout::Refusal;

// A batch column above 1, which is this column of this cycle.
#[derive(Clone, Copy, Debug, PartialEq, Eq)]
pub struct NotBit {
    pub at: usize,
    pub column: usize,
    pub cycle: usize,
}

// A public function that reads an element would ask something of its caller, so this crate reads its own.
fn is_bit_at(batch: &[u64], at: usize) -> bool
    requires { 2 * at + 1 < length batch.now }
    ensures { result ≡ is_bit (element_at batch.now at) }
{
    Gf128::of_words(batch[2 * at], batch[2 * at + 1]).is_bit()
}

// The first of so many columns that is above 1, or their number where none is, as `first_from` has it.
fn first_above(batch: &[u64], columns: usize) -> usize
    requires { 2 * columns ≤ length batch.now }
    ensures { result ≡ first_from (above_one batch.now) 0 columns }
{
    for i in 0..columns {
        if !is_bit_at(batch, i) {
            return i;
        }
    }
    columns
}

fn place(cpi: usize, at: usize) -> Result<Option<NotBit>, Refusal>
    ensures { result ≡ placed at (unmapped cpi at) }
{
    let found = layout::unmap_col(cpi, at)?;
    Ok(Some(NotBit {
        at,
        column: found.column,
        cycle: found.cycle,
    }))
}

// Questions 1 and 2, and then the smallest batch column below one_col that is above 1, or none where all are bits.
#[tactic(auto, unfolding(crate::specs::Bits::bit_tested))]
pub fn bit_test(cpi: usize, batch: &[u64]) -> Result<Option<NotBit>, Refusal>
    ensures { result ≡ bit_tested cpi batch.now }
{
    layout::ask_batch(cpi, batch.len())?;
    let columns = 2048 * cpi;
    let at = first_above(batch, columns);
    if at < columns {
        place(cpi, at)
    } else {
        Ok(None)
    }
}
