// The listing reader: a listing is opened, and asked for two rows one after the other.
ghost use Rattle.std.specs.Prelude.{◌≡◌};
ghost use Rattle.compare.specs.Replies.{reply, chosen_relation};
ghost use Rattle.compare.specs.RowReplies.{two_rows, start_number, end_number, row_words, reader_reply};

use crate::check::{NONE, chosen_relation, refused_at};
use crate::fills::asked_number;
use crate::search::word_at;
use circuit::Relation;
use circuit::reader::ListingReader;
use circuit::search::Place;
use layout::Refusal;

// What the opening answered, and of each row the place, a word of the part, and the position afterwards.
#[derive(Clone, Copy)]
pub struct TwoRows {
    pub asked: Result<(), Refusal>,
    pub first: Result<Place, Refusal>,
    pub first_word: u64,
    pub between: usize,
    pub second: Result<Place, Refusal>,
    pub second_word: u64,
    pub last: usize,
}

fn two_rows(
    listing: &[u32],
    relation: Relation,
    row: usize,
    next_relation: Relation,
    next_row: usize,
    i: usize,
) -> TwoRows
    ensures { result ≡ two_rows listing.now relation row next_relation next_row i }
{
    let opened = ListingReader::open(listing);
    let mut reader = opened.reader;
    let first = reader.row(relation, row);
    let between = reader.position;
    let second = reader.row(next_relation, next_row);
    TwoRows {
        asked: opened.asked,
        first: first.place,
        first_word: word_at(first.part, i),
        between,
        second: second.place,
        second_word: word_at(second.part, i),
        last: reader.position,
    }
}

pub fn start_number(place: Result<Place, Refusal>) -> u64
    ensures { result ≡ start_number place }
{
    match place {
        Ok(found) => found.start as u64,
        Err(r) => refused_at(r),
    }
}

pub fn end_number(place: Result<Place, Refusal>) -> u64
    ensures { result ≡ end_number place }
{
    match place {
        Ok(found) => found.end as u64,
        Err(_) => 0,
    }
}

fn row_words(read: TwoRows) -> [u64; 8]
    ensures { result ≡ row_words read }
{
    [
        start_number(read.first),
        end_number(read.first),
        read.first_word,
        read.between as u64,
        start_number(read.second),
        end_number(read.second),
        read.second_word,
        read.last as u64,
    ]
}

pub fn compare_reader(
    listing: &[u32],
    relation: u32,
    row: usize,
    next_relation: u32,
    next_row: usize,
    i: usize,
    out: &mut [u64],
) -> u64
    ensures { reply result out.new ≡ reader_reply
        (two_rows listing.now (chosen_relation relation) row (chosen_relation next_relation) next_row i) out.old }
{
    let Some(place) = out.first_chunk_mut::<8>() else {
        return NONE;
    };
    let first = chosen_relation(relation);
    let second = chosen_relation(next_relation);
    let read = two_rows(listing, first, row, second, next_row, i);
    *place = row_words(read);
    asked_number(read.asked)
}
