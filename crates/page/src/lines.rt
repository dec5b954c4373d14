// The lines of a bench page. A function here that puts a text at an index supposes room for it, and gives the index behind it, since
// `Placed` promises each byte and that index, in lent bytes. A term's place is its batch column. `Short` is asked of three: a type for a
// small exponent would stand beside `Coefficient`, which document 01 names.
ghost use Rattle.std.specs.Prelude.{◌≡◌, ◌+◌, ◌*◌, ◌-◌, ◌^◌, ◌<◌, ◌≤◌, length};
ghost use Rattle.base.specs.Lists.{joined};
ghost use Rattle.base.specs.Text.{left};
ghost use Rattle.text.specs.Digits.{right, hex};
ghost use Rattle.text.specs.Put.{Placed};
ghost use Rattle.field.specs.Gf.{value};
ghost use Rattle.layout.specs.Segments.{segment_name};
ghost use Rattle.circuit.specs.Words.{word_of};
ghost use Rattle.verdict.specs.Row.{element_at};
ghost use Rattle.page.specs.Lines.{relation_text, side_text, exponent_text, head_line, line_of, term_line};
ghost use Rattle.page.specs.Promises.{InBatch, Short, word_line, word_lines};

use circuit::{Coefficient, Relation, Side, Word};

// A cycle of a batch whose size is in order.
#[derive(Clone, Copy)]
pub struct Cycle<'a> {
    pub cpi: usize,
    pub batch: &'a [u64],
    pub number: usize,
    ghost in_batch: { InBatch cpi number batch.now },
}

// A text left-aligned in a width.
fn put_in(page: &mut [u8], at: usize, width: usize, part: &[u8]) -> usize
    requires { (at + width ≤ length page.old) × (length part.now ≤ width) }
    ensures { Placed at (left width part.now) page.old page.new result × (result ≡ at + width) }
{
    text::put_left(page, at, width, part)
}

// A number right-aligned, and blanks behind it as far as a width.
fn put_right(page: &mut [u8], at: usize, narrow: usize, width: usize, n: usize) -> usize
    requires { (at + width ≤ length page.old) × ((0 < narrow) × ((narrow ≤ width) × ((narrow ≤ 20) × (n < 10 ^ narrow)))) }
    ensures { Placed at (left width (right narrow n)) page.old page.new result × (result ≡ at + width) }
{
    let digits = text::decimal_digits(n);
    let bytes = digits.bytes;
    put_in(page, at, width, &bytes[20 - narrow..])
}

// This and the relation's name are bytes and no Display, since a page is promised byte by byte.
fn side_name(side: Side) -> [u8; 1]
    ensures { result ≡ side_text side }
{
    match side {
        Side::A => *b"A",
        Side::B => *b"B",
        Side::C => *b"C",
    }
}

fn put_exponent(page: &mut [u8], at: usize, k: Coefficient) -> usize
    requires { (at + 4 ≤ length page.old) × Short k }
    ensures { Placed at (left 4 (exponent_text k)) page.old page.new result × (result ≡ at + 4) }
{
    match k {
        Coefficient::Power(e) => put_right(page, at, 3, 4, e as usize),
        Coefficient::Zero => put_in(page, at, 4, b" --"),
    }
}

// The digits of a column's element: those of its high word, and then those of its low word.
fn put_element(page: &mut [u8], at: usize, batch: &[u64], place: usize) -> usize
    requires { (at + 36 ≤ length page.old) × (2 * place + 1 < length batch.now) }
    ensures { Placed at (left 36 (hex 32 (value (element_at batch.now place)))) page.old page.new result
        × (result ≡ at + 36) }
{
    let high = text::hex_digits(batch[2 * place + 1]);
    let low = text::hex_digits(batch[2 * place]);
    let middle = put_in(page, at, 16, &high);
    put_in(page, middle, 20, &low)
}

// The line of a term whose column stands at a batch column.
fn put_placed(
    page: &mut [u8],
    at: usize,
    batch: &[u64],
    side: Side,
    k: Coefficient,
    column: usize,
    place: usize,
) -> usize
    requires { (at + 60 ≤ length page.old) × ((2 * place + 1 < length batch.now) × ((place < 10 ^ 7) × Short k)) }
    ensures { Placed at (line_of side place (segment_name column) k (value (element_at batch.now place)))
        page.old page.new result × (result ≡ at + 60) }
{
    let letter = side_name(side);
    let number = put_in(page, at, 2, &letter);
    let segment = put_right(page, number, 7, 8, place);
    let name = layout::segments::segment_name(column);
    let exponent = put_in(page, segment, 10, &name);
    let element = put_exponent(page, exponent, k);
    put_element(page, element, batch, place)
}

fn put_term(
    page: &mut [u8],
    at: usize,
    cycle: &Cycle,
    side: Side,
    k: Coefficient,
    column: usize,
) -> usize
    requires { (at + 60 ≤ length page.old) × ((column < 4096) × Short k) }
    ensures { Placed at (term_line cycle.now.cpi cycle.now.batch.now cycle.now.number side k column) page.old page.new result
        × (result ≡ at + 60) }
{
    match layout::map_z_col(cycle.cpi, column, cycle.number) {
        Ok(place) => put_placed(page, at, cycle.batch, side, k, column, place),
        Err(_) => at,
    }
}

fn put_word(page: &mut [u8], at: usize, cycle: &Cycle, w: u32) -> usize
    requires { at + 60 ≤ length page.old }
    ensures { Placed at (word_line cycle.now.cpi cycle.now.batch.now cycle.now.number (word_of w)) page.old page.new result
        × (result ≤ at + 60) }
{
    match circuit::words::read_word(w) {
        Word::Term {
            side,
            coefficient,
            column,
        } => put_term(page, at, cycle, side, coefficient, column),
        Word::Mark { .. } => at,
    }
}

// The lines of words of a listing.
pub fn put_words(page: &mut [u8], at: usize, cycle: &Cycle, words: &[u32]) -> usize
    requires { at + 60 * length words.now ≤ length page.old }
    ensures { Placed at (joined (word_lines cycle.now.cpi cycle.now.batch.now cycle.now.number words.now))
        page.old page.new result × (result ≤ at + 60 * length words.now) }
{
    let mut k = at;
    for w in words {
        k = put_word(page, k, cycle, *w);
    }
    k
}

fn relation_name(relation: Relation) -> [u8; 3]
    ensures { result ≡ relation_text relation }
{
    match relation {
        Relation::Bin => *b"bin",
        Relation::Fld => *b"fld",
    }
}

pub fn put_head(page: &mut [u8], relation: Relation, row: usize) -> usize
    requires { (60 ≤ length page.old) × (row < 10 ^ 7) }
    ensures { Placed 0 (head_line relation row) page.old page.new result × (result ≡ 60) }
{
    let name = relation_name(relation);
    let number = put_in(page, 0, 4, &name);
    put_right(page, number, 7, 56, row)
}
