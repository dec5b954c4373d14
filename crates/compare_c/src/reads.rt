// What the benchmark holds the check against, compiled as the check is: one plain read of words or bytes, the clearing of
// scratch, and the comparison of a listing with the table.
ghost use Rattle.std.specs.Prelude.{◌↔◌, ◌≡◌, ◌<◌, length, replicate};
ghost use Rattle.strict.specs.Known.{listing_of};
ghost use Rattle.compare.specs.Reads.{ored};
ghost use Rattle.compare.specs.Replies.{chosen_listing};

// A loop that joins all it reads has to read all of it.
#[unsafe(no_mangle)]
pub extern "C" fn compare_read(words: &[u64]) -> u64
    ensures { result ≡ ored words.now }
{
    compare::reads::compare_read(words)
}

// The bytes are joined as bytes, so that as many are read at a time as of words.
#[unsafe(no_mangle)]
pub extern "C" fn compare_read_bytes(bytes: &[u8]) -> u64
    ensures { result ≡ ored bytes.now }
{
    compare::reads::compare_read_bytes(bytes)
}

#[unsafe(no_mangle)]
pub extern "C" fn compare_clear(scratch: &mut [u64])
    ensures { scratch.new ≡ replicate (length scratch.old) 0 }
{
    compare::reads::compare_clear(scratch)
}

// 1 where a listing is the one that is named, else 0.
#[unsafe(no_mangle)]
pub extern "C" fn compare_is_known(which: u32, listing: &[u32]) -> u64
    ensures { (result < 2) × ((result ≡ 1) ↔ (listing.now ≡ listing_of (chosen_listing which))) }
{
    compare::reads::compare_is_known(which, listing)
}
