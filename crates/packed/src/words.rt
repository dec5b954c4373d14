// Words that are read one by one, whatever holds them: a slice of words, or bytes that spell them.
ghost use Rattle.std.specs.Prelude.{◌≡◌, ℕ, ◌<◌, List, length, slice_index};

pub trait Words: Copy {
    ghost words: { Self → List ℕ };

    fn word(self, i: usize) -> u64
        requires { i < length (words self) }
        ensures { result ≡ slice_index (words self) i };
}

impl Words for &[u64] {
    ghost words = { λ s. s.now };

    fn word(self, i: usize) -> u64 {
        self[i]
    }
}
