// The words that lines set up, and those that are lent: put, and read. Places and counts are in hex, as in the vector file.
use crate::Wrong;

// A longer step leads outside all words.
const FAR: u64 = 0x1000000;

fn put_element(batch: &mut [u64], column: u64, element: [u64; 2]) -> Result<(), Wrong> {
    let (elements, _) = batch.as_chunks_mut();
    *elements.get_mut(column as usize).ok_or(Wrong::Place)? = element;
    Ok(())
}

// One element of a batch.
pub fn put_one(batch: &mut [u64], [column, lo, hi, ..]: [u64; 8]) -> Result<(), Wrong> {
    put_element(batch, column, [lo, hi])
}

// 0x40 columns that stand `step` apart from the given one on become the bits of a word, the lowest first.
pub fn put_bits(batch: &mut [u64], [column, step, word, ..]: [u64; 8]) -> Result<(), Wrong> {
    if step > FAR {
        return Err(Wrong::Place);
    }
    let mut at = column;
    for k in 0..u64::BITS {
        put_element(batch, at, [word >> k & 1, 0])?;
        at = at.saturating_add(step);
    }
    Ok(())
}

// Seven words from a place on. Their numbers are taken by index, since `[at, seven @ ..]` gets no generated proof.
pub fn put_seven(words: &mut [u64], n: [u64; 8]) -> Result<(), Wrong> {
    let at = n[0] as usize;
    for (k, word) in n[1..].iter().enumerate() {
        *words.get_mut(at.saturating_add(k)).ok_or(Wrong::Place)? = *word;
    }
    Ok(())
}

// So many words from one on.
pub fn part(words: &[u64], from: usize, count: u64) -> Result<&[u64], Wrong> {
    words
        .get(from..)
        .and_then(|rest| rest.get(..count as usize))
        .ok_or(Wrong::Place)
}

// A name for what is said three times.
pub fn all_are(words: &[u64], word: u64) -> bool {
    words.iter().all(|w| *w == word)
}
