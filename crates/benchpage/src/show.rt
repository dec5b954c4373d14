// What is printed of the bytes that were read. A row of the house listing takes five pages at most: 18,000 bytes, and 300 line ends.
ghost use Rattle.std.specs.Prelude.{◌≡◌, ◌++◌, ◌+◌, ◌*◌, ◌/◌, ◌≤◌, length, Err, Ok};
ghost use Rattle.base.specs.Text.{ascii};
ghost use Rattle.text.specs.Put.{Placed};
ghost use Rattle.layout.specs.Batch.{ROW-WORDS};
ghost use Rattle.circuit.specs.Circuit.{circuit_words};
ghost use Rattle.page.specs.Pages.{bytes_for};
ghost use Rattle.cellprism.specs.Bytes.{row_of};
ghost use Rattle.benchpage.specs.Printed.{with_line_ends, pages_of, printed};
ghost use Rattle.benchpage.specs.Promises.{FivePages};

use circuit::Relation;
use verdict::Verdict;

// A line and its end at an index; gives the index behind them. `Placed` promises each byte and the index, in lent bytes: so an index goes
// along, and room is asked of each.
fn put_line(out: &mut [u8], at: usize, line: &[u8]) -> usize
    requires { at + length line.now + 1 ≤ length out.old }
    ensures { Placed at (line.now ++ ascii "\n") out.old out.new result }
{
    let end = text::put(out, at, line);
    text::put(out, end, b"\n")
}

// A text, with a line end after every 60 characters; gives how many bytes that takes.
fn put_lined(out: &mut [u8], text: &[u8]) -> usize
    requires { 61 * (length text.now / 60) ≤ length out.old }
    ensures { Placed 0 (with_line_ends text.now) out.old out.new result }
{
    let mut at = 0;
    for line in text.chunks_exact(60) {
        at = put_line(out, at, line);
    }
    at
}

// The pages of a row of the house listing over a row's words. They are laid out on as many lent bytes as they take.
fn put_laid(
    out: &mut [u8],
    pages: &mut [u8],
    listing: &[u32],
    words: &[u64],
    relation: Relation,
    row: usize,
) -> usize
    requires { (61 * (length pages.old / 60) ≤ length out.old) × ((listing.now ≡ circuit_words)
        × ((length words.now ≡ ROW-WORDS) × (bytes_for circuit_words relation row ≡ Ok (length pages.old)))) }
    ensures { Placed 0 (with_line_ends (pages_of words.now relation row)) out.old out.new result }
{
    let _ = page::lay_out(1, listing, words, relation, row, 0, pages);
    put_lined(out, pages)
}

// The same on five pages, which are enough.
fn put_pages(
    out: &mut [u8],
    pages: &mut [u8],
    words: &[u64],
    relation: Relation,
    row: usize,
) -> usize
    requires { (18300 ≤ length out.old) × ((18000 ≤ length pages.old)
        × ((length words.now ≡ ROW-WORDS) × FivePages relation row)) }
    ensures { Placed 0 (with_line_ends (pages_of words.now relation row)) out.old out.new result }
{
    let listing = circuit::build_circuit();
    match page::page_bytes(&listing, relation, row) {
        Err(_) => 0,
        Ok(n) => put_laid(out, &mut pages[..n], &listing, words, relation, row),
    }
}

// The same over the words of a row's bytes.
fn put_failing(out: &mut [u8], bytes: &[u8], relation: Relation, row: usize) -> usize
    requires { (18300 ≤ length out.old) × ((length bytes.now ≡ 65536) × FivePages relation row) }
    ensures { Placed 0 (with_line_ends (pages_of (row_of bytes.now) relation row)) out.old out.new result }
{
    let mut words = [0u64; layout::ROW_WORDS];
    let _ = cellprism::read_bytes(bytes, &mut words);
    let mut pages = [b' '; 18000];
    put_pages(out, &mut pages, &words, relation, row)
}

// Puts what is printed at the start, and gives how many bytes that takes.
pub fn show(bytes: &[u8], out: &mut [u8]) -> usize
    requires { 18300 ≤ length out.old }
    ensures { Placed 0 (printed bytes.now) out.old out.new result }
{
    let answer = cellprism::check_bytes(bytes);
    match answer {
        Err(_) => page::line::put_answer(out, 0, answer),
        Ok(v) => match v {
            Verdict::Accepted { .. } => page::line::put_answer(out, 0, answer),
            Verdict::Failed { relation, row, .. } => put_failing(out, bytes, relation, row),
        },
    }
}
