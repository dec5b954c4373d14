// The questions that are asked before any work, and the refusal that a no is answered with.
ghost use Rattle.std.specs.Prelude.{◌≡◌};
ghost use Rattle.layout.specs.Questions.{no, number_of};

// Each question by what is asked. Its number, which a caller gets, is document 01's; those from 16 on are document 02's.
#[derive(Clone, Copy, Debug, PartialEq, Eq)]
pub enum Question {
    BatchSize = 1, // a power of two of cycles, 1 to 256
    BatchLength = 2, // words of a row or batch
    PublicLength = 3, // words of the public columns
    CyclesLength = 4, // words of the cycles
    ScratchLength = 5, // words of the check's scratch
    ListingLength = 6, // words of a listing
    WordBits = 7, // bits of a listing's word that must be zero
    FirstMark = 8, // a mark before the first term
    MarkOrder = 9, // marks in order
    TermOrder = 10, // kinds of terms in order
    GivenBits = 11, // given columns 0 or 1
    OneColumn = 12, // the one column 1
    RowSought = 13, // a row that the listing has
    ColumnRange = 14, // a column of the row or batch
    CycleRange = 15, // a cycle of the batch
    PageLength = 16, // bytes of a row's pages
    LowerBits = 17, // columns below one_col 0 or 1
    PackedLength = 18, // words of packed storage
    MergeSizes = 19, // two batches of one size, of which there is a double
    PublicColumns = 20, // equal public columns
}

impl Question {
    pub fn number(self) -> u8
        ensures { result ≡ number_of self }
    {
        self as u8
    }

    // A no at no place of its own.
    pub fn refused(self) -> Refusal
        ensures { result ≡ no self 0 }
    {
        Refusal {
            question: self,
            place: 0,
        }
    }
}

// A question that was answered with no, and the place: a word's index for 7 to 10, the smallest batch column for 11, the first public
// column for 20, else 0.
#[derive(Clone, Copy, Debug, PartialEq, Eq)]
pub struct Refusal {
    pub question: Question,
    pub place: usize,
}
