// The C boundary of Cellprism: the check of one row, handed over as bytes and answered by one number.
#![tactic(auto)]

mod short;

ghost use Rattle.std.specs.Prelude.{◌≡◌, ◌≤◌};
ghost use Rattle.layout.specs.Questions.{Called};
ghost use Rattle.circuit.specs.Words.{flag_word};
ghost use Rattle.cellprism.specs.Bytes.{read_called};
ghost use Rattle.cellprism.specs.Answer.{row_checked, verdict_word, answer_word};

use circuit::Relation;
use layout::{Question, Refusal};
use packed::bytes::RowBytes;
use strict::Known;
use verdict::{Counts, Verdict};

// The relation as in a mark. A `From` for it, or for a verdict, may stand only in the crate of its type,
// where the numbers of this boundary have no place.
fn relation_bit(relation: Relation) -> u32
    ensures { (result ≡ flag_word relation) × (result ≤ 1) }
{
    match relation {
        Relation::Bin => 0,
        Relation::Fld => 1,
    }
}

fn verdict_word(v: Verdict) -> u32
    ensures { result ≡ verdict_word v }
{
    match v {
        Verdict::Accepted { counts } => (counts.rows() % 0x40000000) as u32,
        Verdict::Failed {
            relation,
            row,
            counts: _,
        } => 0x40000000 + relation_bit(relation) * 0x20000000 + (row % 512) as u32,
    }
}

fn answer_word(answer: Result<Verdict, Refusal>) -> u32
    ensures { result ≡ answer_word answer }
{
    match answer {
        Ok(v) => verdict_word(v),
        Err(r) => 0x80000000 + r.question.number() as u32,
    }
}

// The check of one row against the house listing: question 2 is all there is to ask. An accepted row is seen to be one from its bytes;
// another is read into words, and the listing walked.
#[tactic(auto, using(crate::proofs::Rules::short), unfolding(crate::specs::Answer::row_checked))]
pub fn check_bytes(bytes: &[u8]) -> Result<Verdict, Refusal>
    ensures { result ≡ row_checked bytes.now }
{
    if bytes.len() != 65536 {
        return Err(Question::BatchLength.refused());
    }
    let row = RowBytes { bytes };
    if short::short_yes(row) {
        let counts = Counts { bin: 483, fld: 31 };
        return Ok(Verdict::Accepted { counts });
    }
    let mut words = [0u64; layout::ROW_WORDS];
    row.read(&mut words);
    verdict::check_known(Known::House, 1, &words)
}

// Reads the bytes of one row into its words: question 2, of both.
#[tactic(auto, unfolding(crate::specs::Bytes::read_called))]
pub fn read_bytes(bytes: &[u8], words: &mut [u64]) -> Result<(), Refusal>
    ensures { ◌≡◌ {A = Called} (record { answer = result; batch = words.new })
        (read_called bytes.now words.old) }
{
    if bytes.len() != 8 * layout::ROW_WORDS {
        return Err(Question::BatchLength.refused());
    }
    if words.len() != layout::ROW_WORDS {
        return Err(Question::BatchLength.refused());
    }
    RowBytes { bytes }.read(words);
    Ok(())
}

// What the prover's host calls.
pub fn cellprism_check_row(bytes: &[u8]) -> u32
    ensures { result ≡ answer_word (row_checked bytes.now) }
{
    answer_word(check_bytes(bytes))
}
