// Does the product make or fill the row or batch that is set up? The words lent to it were put line by line.
use crate::Wrong;
use crate::numbers::REFUSED;
use crate::words::{all_are, part};
use compare::fills::compare_fill;
use compare::makers::{compare_assemble, compare_witness_row};

// The first words of those where something is made. They hold 2 before, which no row of bits has.
fn room(made: &mut [u64], count: u64) -> Result<&mut [u64], Wrong> {
    let out = made.get_mut(..count as usize).ok_or(Wrong::Place)?;
    out.fill(2);
    Ok(out)
}

// The product has a refusal's number above its place, which is 0 for the questions of makers. After a yes the words are those that are set
// up, after a no as they were.
fn is_made(given: u64, answer: u64, out: &[u64], right: &[u64]) -> bool {
    if given == 0 {
        return (answer == 0) && right.starts_with(out);
    }
    (given & 0xffff_ffff == 0) && (answer == REFUSED | given >> 32 & 0x7fff_ffff) && all_are(out, 2)
}

// The record is lent from word 0 on, the ROM row from 0x1e and the public words from 0x40.
pub fn row(
    [public, words, answer, ..]: [u64; 8],
    lent: &[u64],
    made: &mut [u64],
    right: &[u64],
) -> Result<bool, Wrong> {
    let record = part(lent, 0, 0x1e)?;
    let rom = part(lent, 0x1e, 8)?;
    let public = part(lent, 0x40, public)?;
    let out = room(made, words)?;
    let given = compare_witness_row(record, rom, public, out);
    Ok(is_made(given, answer, out, right))
}

// The cycles are lent from word 0 on, the public words from 0x4000.
pub fn batch(
    [cpi, cycles, public, words, answer, ..]: [u64; 8],
    lent: &[u64],
    made: &mut [u64],
    right: &[u64],
) -> Result<bool, Wrong> {
    let cycles = part(lent, 0, cycles)?;
    let public = part(lent, 0x4000, public)?;
    let out = room(made, words)?;
    let given = compare_assemble(cpi as usize, cycles, public, out);
    Ok(is_made(given, answer, out, right))
}

// What is lent is filled, and is then the batch that is set up. A refusal has its place in the answer.
pub fn filling(
    [cpi, words, answer, ..]: [u64; 8],
    lent: &mut [u64],
    right: &[u64],
) -> Result<bool, Wrong> {
    let batch = lent.get_mut(..words as usize).ok_or(Wrong::Place)?;
    let given = compare_fill(cpi as usize, batch);
    Ok((given == answer) && right.starts_with(batch))
}
