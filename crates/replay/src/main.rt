// Replays a fixed list of the original's answers, which the file itself describes, and counts those that the product does not give.
#![tactic(auto)]

mod line;
mod makers;
mod numbers;
mod readings;
mod words;

use crate::line::Line;
use printer::input;
use std::{fmt, io};

// A line that is as it should be has nothing to answer, or the right answer.
#[derive(Clone, Copy)]
enum Outcome {
    Quiet,
    Right,
}

// What is wrong with a line: its letter, the place of its words, or its answer.
#[derive(Clone, Copy)]
pub enum Wrong {
    Letter,
    Place,
    Answer,
}

fn answered(right: bool) -> Result<Outcome, Wrong> {
    if right {
        Ok(Outcome::Right)
    } else {
        Err(Wrong::Answer)
    }
}

fn quiet(put: Result<(), Wrong>) -> Result<Outcome, Wrong> {
    put.map(|()| Outcome::Quiet)
}

// A line says nothing, puts words, or has an answer of the product: on numbers, on words that are read, on words that are made. The letters
// stand in the vector file's first lines, with the numbers of each. `cells` is the batch that is set up, `lent` is lent to the product, and in
// `made` it makes a row or a batch. They are three slices and no struct, since a loan of one field while another is used gets no generated
// proof.
fn replay(
    text: &[u8],
    cells: &mut [u64],
    lent: &mut [u64],
    made: &mut [u64],
) -> Result<Outcome, Wrong> {
    let line = Line::read(text).ok_or(Wrong::Letter)?;
    let n = line.numbers;
    match line.letter {
        b'#' => Ok(Outcome::Quiet),
        b'0' => {
            cells.fill(0);
            Ok(Outcome::Quiet)
        }
        b's' => quiet(words::put_one(cells, n)),
        b'w' => quiet(words::put_bits(cells, n)),
        b'Z' => {
            lent.fill(0);
            Ok(Outcome::Quiet)
        }
        b'r' => quiet(words::put_seven(lent, n)),
        b'W' => quiet(words::put_bits(lent, n)),
        b'm' => answered(numbers::product(n)),
        b'a' => answered(numbers::sum(n)),
        b'l' => answered(numbers::shift(n)),
        b'g' => answered(numbers::geometry(n)),
        b'c' => answered(numbers::witness_column(n)),
        b'z' => answered(numbers::any_column(n)),
        b'b' => answered(numbers::way_back(n)),
        b't' => answered(numbers::branch(n)),
        b'k' => answered(readings::check(n, cells)?),
        b'q' => answered(readings::bits(n, cells)?),
        b'u' => answered(readings::conditions(n, cells)?),
        b'p' => answered(readings::sums(n, cells, lent)?),
        b'o' => answered(readings::rows(n, lent)),
        b'v' => answered(makers::row(n, lent, made, cells)?),
        b'j' => answered(makers::batch(n, lent, made, cells)?),
        b'f' => answered(makers::filling(n, lent, cells)?),
        _ => Err(Wrong::Letter),
    }
}

// How many answers were right, and how many lines wrong.
#[derive(Clone, Copy)]
struct Tally {
    right: usize,
    wrong: usize,
}

impl fmt::Display for Tally {
    fn fmt<W: fmt::Write>(&self, f: &mut fmt::Formatter<W>) -> fmt::Result {
        let right = self.right;
        let wrong = self.wrong;
        write!(f, "{right} answers as they should be, {wrong} others")
    }
}

const MOST_BYTES: usize = 0x80000;

// A longer text is not replayed.
fn replay_all(text: &[u8], cells: &mut [u64], lent: &mut [u64], made: &mut [u64]) -> Tally {
    let mut tally = Tally { right: 0, wrong: 0 };
    if text.len() > MOST_BYTES {
        return tally;
    }
    for line in text.split_inclusive(|b| *b == b'\n') {
        let line = line.strip_suffix(b"\n").unwrap_or(line);
        match replay(line, cells, lent, made) {
            Ok(Outcome::Quiet) => {}
            Ok(Outcome::Right) => tally.right += 1,
            Err(_) => tally.wrong += 1,
        }
    }
    tally
}

// One byte more is read than is replayed, so that a longer text is seen and not cut.
fn main(rt: HostRuntime) -> io::Result<()> {
    let mut text = [0; MOST_BYTES + 1];
    let n = input::read_full(&mut rt.stdin(), &mut text)?;
    let mut cells = [0; 0x8000];
    let mut lent = [0; 0x8000];
    let mut made = [0; 0x8000];
    let tally = replay_all(&text[..n], &mut cells, &mut lent, &mut made);
    println!(rt; "{tally}")
}
