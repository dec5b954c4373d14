// What is printed: the bench page, which lays a row of a listing in a cycle of a batch out as paper (document 02, request 1), and the
// line of an answer.
#![tactic(auto)]

pub mod line;
mod lines;

ghost use Rattle.std.specs.Prelude.{◌≡◌, ◌≤◌, ◌<◌, ◌-◌, length, true};
ghost use Rattle.layout.specs.Batch.{allowed, batch_words};
ghost use Rattle.circuit.specs.Found.{rows_a_cycle};
ghost use Rattle.circuit.specs.Reader.{row_read};
ghost use Rattle.page.specs.Lines.{row_lines};
ghost use Rattle.page.specs.Pages.{Laid, page_bytes, pages, sides_at, bytes_for, laid_at, laid_out};
ghost use Rattle.page.specs.Promises.{RowAt};

use crate::lines::Cycle;
use circuit::Relation;
use circuit::search::rows_a_cycle;
use layout::{Question, Refusal};

#[tactic(auto, unfolding(crate::specs::Pages::page_bytes, crate::specs::Pages::page_count))]
fn bytes_of_lines(lines: usize) -> usize
    requires { lines ≤ 16384 }
    ensures { result ≡ page_bytes lines }
{
    3600 * ((lines + 59) / 60)
}

// How many bytes a caller lends for the pages of a row: questions 6 to 10 and 13.
#[tactic(auto, unfolding(crate::specs::Pages::bytes_for))]
pub fn page_bytes(listing: &[u32], relation: Relation, row: usize) -> Result<usize, Refusal>
    ensures { result ≡ bytes_for listing.now relation row }
{
    let place = circuit::reader::read_row(listing, relation, row)?;
    Ok(bytes_of_lines(place.end - place.start))
}

// Writes the pages of a row that was found: its head, its terms, and blanks to the end. Start and end are what `RowAt` speaks of.
fn write_pages(
    page: &mut [u8],
    cycle: &Cycle,
    listing: &[u32],
    relation: Relation,
    row: usize,
    start: usize,
    end: usize,
)
    requires { RowAt listing.now start end
        × ((row < rows_a_cycle relation) × (length page.old ≡ page_bytes (end - start))) }
    ensures { page.new
        ≡ pages (row_lines cycle.now.cpi cycle.now.batch.now cycle.now.number relation row (sides_at listing.now start)) }
{
    let number = rows_a_cycle(relation) * cycle.number + row;
    let head = lines::put_head(page, relation, number);
    let last = lines::put_words(page, head, cycle, &listing[start + 1..end]);
    let rest = page.len() - last;
    text::put_left(page, last, rest, b"");
}

// Questions 6 to 10, 13, 16 and 15. The size and the batch stay two arguments, as callers hand them over (docs/API.md).
#[tactic(auto, unfolding(crate::specs::Pages::laid_at))]
fn lay_row(
    cpi: usize,
    listing: &[u32],
    batch: &[u64],
    relation: Relation,
    row: usize,
    cycle: usize,
    page: &mut [u8],
) -> Result<(), Refusal>
    requires { (allowed cpi ≡ true) × (length batch.now ≡ batch_words cpi) }
    ensures { ◌≡◌ {A = Laid} (record { answer = result; page = page.new })
        (laid_at cpi listing.now batch.now relation row cycle page.old
        (row_read listing.now relation row)) }
{
    let place = circuit::reader::read_row(listing, relation, row)?;
    if page.len() != bytes_of_lines(place.end - place.start) {
        return Err(Question::PageLength.refused());
    }
    if cpi <= cycle {
        return Err(Question::CycleRange.refused());
    }
    let at = Cycle {
        cpi,
        batch,
        number: cycle,
    };
    write_pages(page, &at, listing, relation, row, place.start, place.end);
    Ok(())
}

// Lays a row of a listing in a cycle of a batch out on pages: questions 1, 2, 6 to 10, 13, 16 and 15.
#[tactic(auto, unfolding(crate::specs::Pages::laid_out))]
pub fn lay_out(
    cpi: usize,
    listing: &[u32],
    batch: &[u64],
    relation: Relation,
    row: usize,
    cycle: usize,
    page: &mut [u8],
) -> Result<(), Refusal>
    ensures { ◌≡◌ {A = Laid} (record { answer = result; page = page.new })
        (laid_out cpi listing.now batch.now relation row cycle page.old) }
{
    layout::ask_batch(cpi, batch.len())?;
    lay_row(cpi, listing, batch, relation, row, cycle, page)
}
