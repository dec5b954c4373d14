// Questions 6 to 10, asked of a listing word by word.
ghost use Rattle.std.specs.Prelude.{◌≡◌};
ghost use Rattle.circuit.specs.Valid.{after_mark, after_term, after_word, validated};

use crate::words;
use layout::{Question, Refusal};

// What is known after some words: low is the least place that the next mark may have in the order of marks, 0 before the first (so
// `after_term` has it, and no Option); kind is that of the last term of the row. Of two u32 the compiler would make one word at each
// turn, and take it apart again, which is a quarter more of `validate`.
#[derive(Clone, Copy)]
struct Progress {
    low: usize,
    kind: usize,
}

// Question 9.
#[tactic(auto, unfolding(crate::specs::Valid::after_mark))]
fn after_mark(low: usize, w: u32) -> Result<Progress, Question>
    ensures { result ≡ after_mark low w }
{
    let order = ((w >> 29) % 2 * 512 + w % 512) as usize;
    if order < low {
        return Err(Question::MarkOrder);
    }
    if 543 < order {
        return Err(Question::MarkOrder);
    }
    Ok(Progress {
        low: order + 1,
        kind: 0,
    })
}

// Questions 8 and 10.
#[tactic(auto, unfolding(crate::specs::Valid::after_term))]
fn after_term(low: usize, kind: usize, w: u32) -> Result<Progress, Question>
    ensures { result ≡ after_term low kind w }
{
    if low == 0 {
        return Err(Question::FirstMark);
    }
    if ((w >> 30) as usize) < kind {
        return Err(Question::TermOrder);
    }
    Ok(Progress {
        low,
        kind: (w >> 30) as usize,
    })
}

// Question 7, and then those of a mark or of a term.
#[tactic(auto, unfolding(crate::specs::Valid::after_word))]
fn after_word(low: usize, kind: usize, w: u32) -> Result<Progress, Question>
    ensures { result ≡ after_word low kind w }
{
    if !words::is_clean(w) {
        return Err(Question::WordBits);
    }
    if 2 < w >> 30 {
        after_mark(low, w)
    } else {
        after_term(low, kind, w)
    }
}

// Is the listing in order? The first word that is not gives the number and its place.
#[tactic(auto, unfolding(crate::specs::Valid::validated))]
pub fn validate(listing: &[u32]) -> Result<(), Refusal>
    ensures { result ≡ validated listing.now }
{
    if 16384 < listing.len() {
        return Err(Question::ListingLength.refused());
    }
    let mut low: usize = 0;
    let mut kind: usize = 0;
    for (i, w) in listing.iter().enumerate() {
        match after_word(low, kind, *w) {
            Ok(next) => (low, kind) = (next.low, next.kind),
            Err(question) => return Err(Refusal { question, place: i }),
        }
    }
    Ok(())
}
