// The search for a row (question 13): where it starts and ends, and its part of the lent listing.
ghost use Rattle.std.specs.Prelude.{◌≡◌, ◌+◌, ◌-◌, ◌≤◌, length, take, drop};
ghost use Rattle.circuit.specs.Words.{is_mark, mark_word};
ghost use Rattle.circuit.specs.Found.{until, is_word, rows_a_cycle, found, part_of};

use crate::Relation;
use layout::{Question, Refusal};

// Where a row of a listing stands: its words are those from start on, up to but not including end.
#[derive(Clone, Copy, Debug, PartialEq, Eq)]
pub struct Place {
    pub start: usize,
    pub end: usize,
}

// How many rows a cycle has with its padding; so many row numbers a mark can carry.
pub fn rows_a_cycle(relation: Relation) -> usize
    ensures { result ≡ rows_a_cycle relation }
{
    match relation {
        Relation::Bin => 512,
        Relation::Fld => 32,
    }
}

// Of two values, so it is no conversion of one.
fn mark_word(relation: Relation, row: u32) -> u32
    requires { row ≤ 511 }
    ensures { result ≡ mark_word relation row }
{
    match relation {
        Relation::Bin => 0xc0000000 + row,
        Relation::Fld => 0xe0000000 + row,
    }
}

// Where the word w stands first, or the number of words where it does not. Indices here and in `next_mark`: `position` takes two
// instructions a word more, of five.
fn index_of(listing: &[u32], w: u32) -> usize
    ensures { result ≡ until (is_word w) listing.now }
{
    for i in 0..listing.len() {
        if listing[i] == w {
            return i;
        }
    }
    listing.len()
}

// Where the next mark stands from i on, or the number of words.
fn next_mark(listing: &[u32], i: usize) -> usize
    requires { i ≤ length listing.now }
    ensures { result ≡ i + until is_mark (drop i listing.now) }
{
    for k in i..listing.len() {
        if 2 < listing[k] >> 30 {
            return k;
        }
    }
    listing.len()
}

// Where a row starts and ends.
pub fn find_row(listing: &[u32], relation: Relation, row: usize) -> Result<Place, Refusal>
    ensures { result ≡ found listing.now relation row }
{
    if rows_a_cycle(relation) <= row {
        return Err(Question::RowSought.refused());
    }
    let start = index_of(listing, mark_word(relation, row as u32));
    if listing.len() <= start {
        return Err(Question::RowSought.refused());
    }
    let end = next_mark(listing, start + 1);
    Ok(Place { start, end })
}

// The words from start on, up to but not including end, as far as the listing has them. The parts of a `Place`, of which `take` and `drop`
// speak.
fn words_between(listing: &[u32], start: usize, end: usize) -> &[u32]
    ensures { result.now ≡ take (end - start) (drop start listing.now) }
{
    listing.get(start..end.min(listing.len())).unwrap_or(&[])
}

// The words of a place that was found, and none where it was not.
pub fn part_at<'a>(listing: &'a [u32], place: Result<Place, Refusal>) -> &'a [u32]
    ensures { result.now ≡ part_of place listing.now }
{
    match place {
        Ok(place) => words_between(listing, place.start, place.end),
        Err(_) => &[],
    }
}

// The row's mark with its terms, as a part of the listing; no words where the listing lacks the row.
pub fn row_part<'a>(listing: &'a [u32], relation: Relation, row: usize) -> &'a [u32]
    ensures { result.now ≡ part_of (found listing.now relation row) listing.now }
{
    part_at(listing, find_row(listing, relation, row))
}
