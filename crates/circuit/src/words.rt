// The house format: what a word of a listing stands for. Each reading keeps the name under which docs/API.md promises it; a `From` beside
// it would be a second way to the same.
ghost use Rattle.std.specs.Prelude.{◌≡◌};
ghost use Rattle.circuit.specs.Words.{side_kind, side_of, clean_of, relation_of, coefficient_of, word_of};

use crate::{Coefficient, Relation, Side, Word};

// The kind of a side's terms.
pub fn side_kind(side: Side) -> u32
    ensures { result ≡ side_kind side }
{
    match side {
        Side::A => 0,
        Side::B => 1,
        Side::C => 2,
    }
}

fn side_of(w: u32) -> Side
    ensures { result ≡ side_of w }
{
    if w >> 30 == 0 {
        return Side::A;
    }
    if w >> 30 == 1 {
        return Side::B;
    }
    Side::C
}

// Question 7: the must-be-zero bits of a word are zero.
#[tactic(auto, unfolding(crate::specs::Words::clean_of))]
pub fn is_clean(w: u32) -> bool
    ensures { result ≡ clean_of w }
{
    if 2 < w >> 30 {
        return (w >> 9) % 1048576 == 0;
    }
    if (w >> 29) % 2 == 0 {
        return (w >> 18) % 2048 == 0;
    }
    (w >> 12) % 131072 == 0
}

pub fn relation_of(w: u32) -> Relation
    ensures { result ≡ relation_of w }
{
    if (w >> 29) % 2 == 0 {
        Relation::Bin
    } else {
        Relation::Fld
    }
}

pub fn coefficient_of(w: u32) -> Coefficient
    ensures { result ≡ coefficient_of w }
{
    if (w >> 29) % 2 == 0 {
        Coefficient::Power((w >> 12) % 64)
    } else {
        Coefficient::Zero
    }
}

// Every word stands for a mark or a term; the bits that question 7 wants to be zero are passed over.
#[tactic(auto, unfolding(crate::specs::Words::word_of))]
pub fn read_word(w: u32) -> Word
    ensures { result ≡ word_of w }
{
    if 2 < w >> 30 {
        Word::Mark {
            relation: relation_of(w),
            row: (w % 512) as usize,
        }
    } else {
        Word::Term {
            side: side_of(w),
            coefficient: coefficient_of(w),
            column: (w % 4096) as usize,
        }
    }
}
