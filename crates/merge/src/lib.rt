// Two batches of equal size in one of twice that: the first's cycles before the second's (document 02, request 8).
#![tactic(auto)]

ghost use Rattle.std.specs.Prelude.{◌≡◌, ◌+◌, ◌-◌, ◌*◌, ◌<◌, ◌≤◌, length};
ghost use Rattle.base.specs.Tests.{first_from};
ghost use Rattle.base.specs.Written.{Written};
ghost use Rattle.layout.specs.Batch.{batch_words};
ghost use Rattle.layout.specs.Questions.{Called};
ghost use Rattle.merge.specs.Merged.{merged_word, merged};
ghost use Rattle.merge.specs.Calls.{differs, sizes_asked, merge_asked, merge_called};
ghost use Rattle.merge.specs.Parts.{Parts};

use field::Gf128;
use layout::{Question, ROW_WORDS, Refusal};

fn differ_at(first: &[u64], second: &[u64], column: usize) -> bool
    requires { (2 * column + 1 < length first.now) × (2 * column + 1 < length second.now) }
    ensures { result ≡ differs first.now second.now column }
{
    let one = Gf128::of_words(first[2 * column], first[2 * column + 1]);
    let other = Gf128::of_words(second[2 * column], second[2 * column + 1]);
    one != other
}

// The first column from start on in which they differ, or end where none does, as `first_from` has it. `filler` and `verdict` search so, too,
// each with its own test: as a parameter it would need a clause of its own.
fn first_differing(first: &[u64], second: &[u64], start: usize, end: usize) -> usize
    requires { (start ≤ end) × ((2 * end ≤ length first.now) × (2 * end ≤ length second.now)) }
    ensures { result ≡ first_from (differs first.now second.now) start (end - start) }
{
    for i in start..end {
        if differ_at(first, second, i) {
            return i;
        }
    }
    end
}

// Questions 1 of either size, 19, and 2 of all three lengths.
#[tactic(auto, unfolding(crate::specs::Calls::sizes_asked))]
fn ask_sizes(
    first_cpi: usize,
    first: usize,
    second_cpi: usize,
    second: usize,
    room: usize,
) -> Result<(), Refusal>
    ensures { result ≡ sizes_asked first_cpi first second_cpi second room }
{
    if !layout::is_allowed(first_cpi) {
        return Err(Question::BatchSize.refused());
    }
    if !layout::is_allowed(second_cpi) {
        return Err(Question::BatchSize.refused());
    }
    if first_cpi != second_cpi {
        return Err(Question::MergeSizes.refused());
    }
    if 256 < 2 * first_cpi {
        return Err(Question::MergeSizes.refused());
    }
    if first != ROW_WORDS * first_cpi {
        return Err(Question::BatchLength.refused());
    }
    if second != ROW_WORDS * first_cpi {
        return Err(Question::BatchLength.refused());
    }
    if room != ROW_WORDS * (2 * first_cpi) {
        return Err(Question::BatchLength.refused());
    }
    Ok(())
}

// And then 20, whose place is a column of a given batch.
#[tactic(auto, unfolding(crate::specs::Calls::merge_asked))]
fn ask(
    first_cpi: usize,
    first: &[u64],
    second_cpi: usize,
    second: &[u64],
    room: usize,
) -> Result<(), Refusal>
    ensures { result ≡ merge_asked first_cpi first.now second_cpi second.now room }
{
    ask_sizes(first_cpi, first.len(), second_cpi, second.len(), room)?;
    let end = 4096 * first_cpi;
    let place = first_differing(first, second, 2048 * first_cpi, end);
    if place < end {
        let question = Question::PublicColumns;
        return Err(Refusal { question, place });
    }
    Ok(())
}

// A column of every cycle: a run of the first's words, and behind it one of the second's. Size and parts stay arguments in these four, as
// `merge` is handed them (docs/API.md).
fn write_column(cpi: usize, first: &[u64], second: &[u64], column: usize, batch: &mut [u64])
    requires { Parts cpi first.now second.now × ((length batch.old ≡ batch_words (2 * cpi))
        × (column * cpi + cpi ≤ 2048 * cpi)) }
    ensures { Written (merged_word cpi first.now second.now) (4 * (column * cpi))
        (4 * (column * cpi) + 4 * cpi) batch.old batch.new }
{
    let from = 2 * (column * cpi);
    let end = from + 2 * cpi;
    let start = 4 * (column * cpi);
    base::copy_at(&first[from..end], batch, start);
    base::copy_at(&second[from..end], batch, start + 2 * cpi);
}

fn write_columns(cpi: usize, first: &[u64], second: &[u64], batch: &mut [u64])
    requires { Parts cpi first.now second.now × (length batch.old ≡ batch_words (2 * cpi)) }
    ensures { Written (merged_word cpi first.now second.now) 0 (8192 * cpi)
        batch.old batch.new }
{
    for column in 0..2048 {
        write_column(cpi, first, second, column, batch);
    }
}

// Runs of a few words cost more in their loops than in their words: of small sizes the compiler knows the length, and makes no loop of a run.
fn write_lower(cpi: usize, first: &[u64], second: &[u64], batch: &mut [u64])
    requires { Parts cpi first.now second.now × (length batch.old ≡ batch_words (2 * cpi)) }
    ensures { Written (merged_word cpi first.now second.now) 0 (8192 * cpi)
        batch.old batch.new }
{
    match cpi {
        1 => write_columns(1, first, second, batch),
        2 => write_columns(2, first, second, batch),
        4 => write_columns(4, first, second, batch),
        _ => write_columns(cpi, first, second, batch),
    }
}

// The columns below one_col, the public ones that were given, and zeros behind them.
fn write_batch(cpi: usize, first: &[u64], second: &[u64], batch: &mut [u64])
    requires { Parts cpi first.now second.now × (length batch.old ≡ batch_words (2 * cpi)) }
    ensures { batch.new ≡ merged cpi first.now second.now }
{
    let public = 4096 * cpi;
    write_lower(cpi, first, second, batch);
    base::copy_at(&first[public..], batch, 8192 * cpi);
    base::clear_from(batch, 12288 * cpi);
}

// A no leaves the lent batch as it came; a yes leaves nothing of what stood there.
#[tactic(auto, unfolding(crate::specs::Calls::merge_called))]
pub fn merge(
    first_cpi: usize,
    first: &[u64],
    second_cpi: usize,
    second: &[u64],
    batch: &mut [u64],
) -> Result<(), Refusal>
    ensures { ◌≡◌ {A = Called} (record { answer = result; batch = batch.new })
        (merge_called first_cpi first.now second_cpi second.now batch.old) }
{
    ask(first_cpi, first, second_cpi, second, batch.len())?;
    write_batch(first_cpi, first, second, batch);
    Ok(())
}
