// The search for a row in any words, and the words of a part, one at a time.
ghost use Rattle.std.specs.Prelude.{◌≡◌};
ghost use Rattle.circuit.specs.Found.{found, part_of};
ghost use Rattle.compare.specs.Numbers.{entry_of};
ghost use Rattle.compare.specs.Replies.{chosen_relation};
ghost use Rattle.compare.specs.RowReplies.{chosen_place, found_number, sought};

use crate::check::{NONE, chosen_relation};
use crate::one_of;
use crate::reader::{end_number, start_number};
use circuit::Relation;
use circuit::search::Place;
use layout::{Question, Refusal};

// Word i, 2^63 past the end.
pub fn word_at(words: &[u32], i: usize) -> u64
    ensures { result ≡ entry_of i words.now }
{
    words.get(i).map_or(NONE, |word| u64::from(*word))
}

fn found_number(place: Result<Place, Refusal>, part: u32) -> u64
    ensures { result ≡ found_number part place }
{
    one_of(part, start_number(place), end_number(place))
}

// For `opened` 0 in any words, else in words that are opened first.
fn seek(opened: u32, listing: &[u32], relation: Relation, row: usize) -> Result<Place, Refusal>
    ensures { result ≡ sought opened listing.now relation row }
{
    if opened == 0 {
        circuit::search::find_row(listing, relation, row)
    } else {
        circuit::reader::read_row(listing, relation, row)
    }
}

pub fn compare_find_row(opened: u32, listing: &[u32], relation: u32, row: usize, part: u32) -> u64
    ensures { result ≡ found_number part (sought opened listing.now (chosen_relation relation) row) }
{
    found_number(seek(opened, listing, chosen_relation(relation), row), part)
}

pub fn compare_row_part(listing: &[u32], relation: u32, row: usize, i: usize) -> u64
    ensures { result ≡ entry_of i (part_of (found listing.now (chosen_relation relation) row) listing.now) }
{
    word_at(
        circuit::search::row_part(listing, chosen_relation(relation), row),
        i,
    )
}

// Of three values, so it is no conversion.
fn chosen_place(refused: u32, start: usize, end: usize) -> Result<Place, Refusal>
    ensures { result ≡ chosen_place refused start end }
{
    if refused == 0 {
        Ok(Place { start, end })
    } else {
        Err(Question::RowSought.refused())
    }
}

pub fn compare_part_at(listing: &[u32], refused: u32, start: usize, end: usize, i: usize) -> u64
    ensures { result ≡ entry_of i (part_of (chosen_place refused start end) listing.now) }
{
    word_at(
        circuit::search::part_at(listing, chosen_place(refused, start, end)),
        i,
    )
}
