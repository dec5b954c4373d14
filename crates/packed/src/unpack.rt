// Packed words laid out as a batch's columns again, an element of two words a bit.
ghost use Rattle.std.specs.Prelude.{length};
ghost use Rattle.packed.specs.Unpack.{WordTo, Laid, UnpackIn, Unpacked};

// The bits of w, as elements from word `at` of the batch on. `witness` has the same for a row: a public function for both would ask for
// room.
fn lay_word(w: u64, at: usize, batch: &mut [u64])
    requires { WordTo at batch.old }
    ensures { Laid w at 64 batch.old batch.new }
{
    let mut rest = w;
    for j in 0..64 {
        batch[at + 2 * j] = rest % 2;
        batch[at + 2 * j + 1] = 0;
        rest >>= 1;
    }
}

// Word after word; what stands behind the last word's elements stays.
pub fn lay_words(words: &[u64], batch: &mut [u64])
    requires { UnpackIn words.now batch.old }
    ensures { Unpacked words.now (length words.now) batch.old batch.new }
{
    for (k, word) in words.iter().enumerate() {
        lay_word(*word, 128 * k, batch);
    }
}
