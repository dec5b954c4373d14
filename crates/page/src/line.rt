// The line that an answer is printed as. Each of its numbers is given room for 20 digits, so 86 bytes are enough.
ghost use Rattle.std.specs.Prelude.{◌≡◌, ◌+◌, ◌≤◌, length};
ghost use Rattle.text.specs.Digits.{decimal};
ghost use Rattle.text.specs.Put.{Put, Placed};
ghost use Rattle.page.specs.Line.{failed_text, counts_text, verdict_line, answer_line};

use circuit::Relation;
use layout::Refusal;
use verdict::{Counts, Verdict};

// `Put` (docs/API.md) and `Placed` promise each byte and the index behind them, in lent bytes: so an index goes along, and no writer.
// That there is room is asked of each.
// Places a part at an index where there is room for it, and gives the index behind it. The next five do the same with their texts; three
// of them start at 0.
fn place(out: &mut [u8], at: usize, part: &[u8]) -> usize
    requires { at + length part.now ≤ length out.old }
    ensures { Placed at part.now out.old out.new result }
{
    text::put(out, at, part)
}

fn place_decimal(out: &mut [u8], at: usize, n: usize) -> usize
    requires { at + 20 ≤ length out.old }
    ensures { Placed at (decimal n) out.old out.new result × (result ≤ at + 20) }
{
    text::put_decimal(out, at, n)
}

fn place_counts(out: &mut [u8], at: usize, counts: Counts) -> usize
    requires { at + 50 ≤ length out.old }
    ensures { Placed at (counts_text counts) out.old out.new result }
{
    let bin = place(out, at, b"bin=");
    let between = place_decimal(out, bin, counts.bin as usize);
    let fld = place(out, between, b" fld=");
    let end = place_decimal(out, fld, counts.fld as usize);
    place(out, end, b"\n")
}

fn place_failed(out: &mut [u8], relation: Relation) -> usize
    requires { 15 ≤ length out.old }
    ensures { Placed 0 (failed_text relation) out.old out.new result × (result ≡ 15) }
{
    match relation {
        Relation::Bin => place(out, 0, b"failed bin row="),
        Relation::Fld => place(out, 0, b"failed fld row="),
    }
}

fn place_verdict(out: &mut [u8], v: Verdict) -> usize
    requires { 86 ≤ length out.old }
    ensures { Placed 0 (verdict_line v) out.old out.new result }
{
    match v {
        Verdict::Accepted { counts } => {
            let at = place(out, 0, b"accepted ");
            place_counts(out, at, counts)
        }
        Verdict::Failed {
            relation,
            row,
            counts,
        } => {
            let number = place_failed(out, relation);
            let end = place_decimal(out, number, row);
            let at = place(out, end, b" ");
            place_counts(out, at, counts)
        }
    }
}

fn place_answer(out: &mut [u8], answer: Result<Verdict, Refusal>) -> usize
    requires { 86 ≤ length out.old }
    ensures { Placed 0 (answer_line answer) out.old out.new result }
{
    match answer {
        Ok(v) => place_verdict(out, v),
        Err(r) => {
            let number = place(out, 0, b"refused ");
            let end = place_decimal(out, number, r.question.number() as usize);
            place(out, end, b"\n")
        }
    }
}

// Puts the line of an answer at an index, and gives the index behind it. Where it does not fit nothing is put, and the index stays.
pub fn put_answer(out: &mut [u8], at: usize, answer: Result<Verdict, Refusal>) -> usize
    ensures { Put at (answer_line answer) out.old out.new result }
{
    let mut line = [b' '; 88];
    let n = place_answer(&mut line, answer);
    text::put(out, at, &line[..n])
}
