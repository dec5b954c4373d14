// What a word of a listing stands for, and what it says by itself.
ghost use Rattle.std.specs.Prelude.{◌≡◌};
ghost use Rattle.compare.specs.Numbers.{word_part};

#[unsafe(no_mangle)]
pub extern "C" fn compare_read_word(word: u32, part: u32) -> u64
    ensures { result ≡ word_part part word }
{
    compare::words::compare_read_word(word, part)
}
