// The constraint listing: its words, the rows that they stand for, the house listing, its questions, the search for a row, and the
// listing reader.
#![tactic(auto)]

pub mod batch;
pub mod questions;
pub mod reader;
pub mod search;
mod table;
pub mod words;

ghost use Rattle.std.specs.Prelude.{◌≡◌};
ghost use Rattle.circuit.specs.Circuit.{circuit_words};

use crate::table::HOUSE;

// The relation of a row: over bits, or over packed words. Both are checked over the field.
#[derive(Clone, Copy)]
pub enum Relation {
    Bin,
    Fld,
}

// The coefficient of a term: zero, or 2^k.
#[derive(Clone, Copy)]
pub enum Coefficient {
    Zero,
    Power(u32),
}

// The sides of a row, which holds when A · B = C.
#[derive(Clone, Copy)]
pub enum Side {
    A,
    B,
    C,
}

// What a word of a listing stands for: the mark of a row, or a term on one of its sides.
#[derive(Clone, Copy)]
pub enum Word {
    Mark {
        relation: Relation,
        row: usize,
    },
    Term {
        side: Side,
        coefficient: Coefficient,
        column: usize,
    },
}

// The house listing.
pub fn build_circuit() -> [u32; 3499]
    ensures { result ≡ circuit_words }
{
    HOUSE
}
