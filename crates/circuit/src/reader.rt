// The listing reader: a listing is opened once, and its rows are asked for one after another.
ghost use Rattle.std.specs.Prelude.{◌≡◌};
ghost use Rattle.circuit.specs.Reader.{admitted, position_after, row_of, OpensTo, AnswersRow, row_read};

use crate::search::Place;
use crate::{Relation, questions, search};
use layout::Refusal;

// A listing in order is read, any other is a listing of no words.
fn admit<'a>(listing: &'a [u32], asked: Result<(), Refusal>) -> &'a [u32]
    ensures { result.now ≡ admitted asked listing.now }
{
    match asked {
        Ok(()) => listing,
        Err(_) => &[],
    }
}

// A refusal keeps the position.
fn position_after(place: Result<Place, Refusal>, position: usize) -> usize
    ensures { result ≡ position_after place position }
{
    match place {
        Ok(found) => found.end,
        Err(_) => position,
    }
}

// The refusal of the opening comes before that of the search.
fn row_of(asked: Result<(), Refusal>, place: Result<Place, Refusal>) -> Result<Place, Refusal>
    ensures { result ≡ row_of asked place }
{
    match asked {
        Ok(()) => place,
        Err(r) => Err(r),
    }
}

// The lent words, and the position: the index just after the part that was read last.
#[derive(Clone, Copy)]
pub struct ListingReader<'a> {
    pub listing: &'a [u32],
    pub position: usize,
}

// What questions 6 to 10 came to, and the reader, which has no words where they refused: `OpensTo` speaks of both, so the reader stands
// beside the answer and not in it.
#[derive(Clone, Copy)]
pub struct Opened<'a> {
    pub asked: Result<(), Refusal>,
    pub reader: ListingReader<'a>,
}

// Where a row stands, or question 13's refusal, and the row's words: none where it was refused. `AnswersRow` speaks of both fields, so
// the words stand beside the place and not in it.
#[derive(Clone, Copy)]
pub struct RowAnswer<'a> {
    pub place: Result<Place, Refusal>,
    pub part: &'a [u32],
}

impl<'a> ListingReader<'a> {
    pub fn open(listing: &'a [u32]) -> Opened<'a>
        ensures { OpensTo listing.now result }
    {
        let asked = questions::validate(listing);
        let reader = ListingReader {
            listing: admit(listing, asked),
            position: 0,
        };
        Opened { asked, reader }
    }

    // The search starts at the first word, wherever the position is.
    pub fn row(&mut self, relation: Relation, row: usize) -> RowAnswer<'a>
        ensures { AnswersRow self.old relation row result self.new }
    {
        let place = search::find_row(self.listing, relation, row);
        self.position = position_after(place, self.position);
        RowAnswer {
            place,
            part: search::part_at(self.listing, place),
        }
    }
}

// A listing is opened and asked for one row: where it stands, or the first refusal.
pub fn read_row(listing: &[u32], relation: Relation, row: usize) -> Result<Place, Refusal>
    ensures { result ≡ row_read listing.now relation row }
{
    let opened = ListingReader::open(listing);
    let mut reader = opened.reader;
    row_of(opened.asked, reader.row(relation, row).place)
}
