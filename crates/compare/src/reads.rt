// What the benchmark holds the check against, compiled as the check is: one plain read of words or bytes, the clearing of
// scratch, and the comparison of a listing with the table.
#![tactic(auto, using(crate::proofs::Ored::read_one, crate::proofs::Ored::read_none))]

ghost use Rattle.std.specs.Prelude.{◌↔◌, ◌≡◌, ◌<◌, length, replicate};
ghost use Rattle.strict.specs.Known.{listing_of};
ghost use Rattle.compare.specs.Reads.{ored};
ghost use Rattle.compare.specs.Replies.{chosen_listing};

use crate::check::chosen_listing;

// A loop that joins all it reads has to read all of it.
pub fn compare_read(words: &[u64]) -> u64
    ensures { result ≡ ored words.now }
{
    let mut all = 0;
    for word in words {
        all |= *word;
    }
    all
}

// The bytes are joined as bytes, so that as many are read at a time as of words. The loop stands twice: what is promised is said of numbers,
// which the values of a type parameter are not.
pub fn compare_read_bytes(bytes: &[u8]) -> u64
    ensures { result ≡ ored bytes.now }
{
    let mut all = 0;
    for byte in bytes {
        all |= *byte;
    }
    u64::from(all)
}

pub fn compare_clear(scratch: &mut [u64])
    ensures { scratch.new ≡ replicate (length scratch.old) 0 }
{
    verdict::clear(scratch)
}

// 1 where a listing is the one that is named, else 0.
pub fn compare_is_known(which: u32, listing: &[u32]) -> u64
    ensures { (result < 2) × ((result ≡ 1) ↔ (listing.now ≡ listing_of (chosen_listing which))) }
{
    u64::from(strict::is_known(chosen_listing(which), listing))
}
