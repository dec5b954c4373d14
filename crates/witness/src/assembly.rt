// The batch of cpi cycles: their witness columns, interleaved, and the upper half.
ghost use Rattle.std.specs.Prelude.{◌≡◌, ◌+◌, ◌*◌, ◌<◌, ◌≤◌, length};
ghost use Rattle.layout.specs.Questions.{Called};
ghost use Rattle.layout.specs.Batch.{batch_words};
ghost use Rattle.witness.specs.Assembly.{assembly_asked, cycle_word, assembled, Lent, assembly_called};
ghost use Rattle.base.specs.Written.{Written};

use crate::upper::{ask_public, write_upper};
use layout::{Question, Refusal};

// Questions 1 to 4, of the numbers of words.
#[tactic(auto, unfolding(crate::specs::Assembly::assembly_asked))]
fn ask(cpi: usize, cycles: usize, public: usize, batch: usize) -> Result<(), Refusal>
    ensures { result ≡ assembly_asked cpi cycles public batch }
{
    ask_public(cpi, public, batch)?;
    if cycles != 4096 * cpi {
        return Err(Question::CyclesLength.refused());
    }
    Ok(())
}

// A column of every cycle: one cycle after the other in the lent words, side by side in the batch. Size and cycles stay two arguments in these
// three, as callers hand them over (docs/API.md).
fn write_column(cpi: usize, cycles: &[u64], column: usize, batch: &mut [u64])
    requires { Lent cpi cycles.now × ((length batch.old ≡ batch_words cpi) × (column < 2048)) }
    ensures { Written (cycle_word cpi cycles.now) (2 * (column * cpi))
        (2 * (column * cpi) + 2 * cpi) batch.old batch.new }
{
    let start = 2 * (column * cpi);
    for cycle in 0..cpi {
        let lent = 2 * (2048 * cycle + column);
        batch[start + 2 * cycle] = cycles[lent];
        batch[start + 2 * cycle + 1] = cycles[lent + 1];
    }
}

fn write_columns(cpi: usize, cycles: &[u64], batch: &mut [u64])
    requires { Lent cpi cycles.now × (length batch.old ≡ batch_words cpi) }
    ensures { Written (cycle_word cpi cycles.now) 0 (4096 * cpi) batch.old batch.new }
{
    for column in 0..2048 {
        write_column(cpi, cycles, column, batch);
    }
}

fn assemble(cpi: usize, cycles: &[u64], public: &[u64], batch: &mut [u64])
    requires { Lent cpi cycles.now × ((length batch.old ≡ batch_words cpi)
        × (4096 * cpi + 2 + length public.now ≤ batch_words cpi)) }
    ensures { batch.new ≡ assembled cpi cycles.now public.now }
{
    write_columns(cpi, cycles, batch);
    write_upper(public, 4096 * cpi, batch);
}

// A no leaves the batch as it came; a yes leaves nothing of it.
#[tactic(auto, unfolding(crate::specs::Assembly::assembly_called))]
pub fn assemble_instance_z(
    cpi: usize,
    cycles: &[u64],
    public: &[u64],
    batch: &mut [u64],
) -> Result<(), Refusal>
    ensures { ◌≡◌ {A = Called} (record { answer = result; batch = batch.new })
        (assembly_called cpi cycles.now public.now batch.old) }
{
    ask(cpi, cycles.len(), public.len(), batch.len())?;
    assemble(cpi, cycles, public, batch);
    Ok(())
}
