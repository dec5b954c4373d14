// What a word of a listing stands for, and what it says by itself.
ghost use Rattle.std.specs.Prelude.{◌≡◌, ◌<◌, ◌^◌};
ghost use Rattle.compare.specs.Numbers.{word_number, word_part};

use crate::{batch_word_number, coefficient_number, mark_number};
use circuit::Word;
use circuit::batch::BatchWord;

fn word_number(w: Word) -> u64
    requires { word_number w < 2 ^ 64 }
    ensures { result ≡ word_number w }
{
    match w {
        Word::Mark { relation, row } => batch_word_number(BatchWord::Row { relation, row }),
        Word::Term {
            side,
            coefficient,
            column,
        } => batch_word_number(BatchWord::Term {
            side,
            coefficient,
            column,
        }),
    }
}

#[tactic(auto, using(crate::proofs::Fits::word_fits))]
pub fn compare_read_word(word: u32, part: u32) -> u64
    ensures { result ≡ word_part part word }
{
    match part {
        0 => word_number(circuit::words::read_word(word)),
        1 => mark_number(circuit::words::relation_of(word)),
        2 => coefficient_number(circuit::words::coefficient_of(word)),
        _ => u64::from(circuit::words::is_clean(word)),
    }
}
