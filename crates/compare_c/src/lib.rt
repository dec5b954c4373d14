// What the comparison with the original calls from Rust: the functions of crate compare behind C names. Each promises what that one does.
#![tactic(auto)]

mod check;
mod fills;
mod makers;
mod merges;
mod packing;
mod pages;
mod reader;
mod reads;
mod search;
mod storage;
mod tables;
mod words;

ghost use Rattle.std.specs.Prelude.{◌≡◌, get_or};
ghost use Rattle.field.specs.Gf.{of_words, added, product, shifted, power};
ghost use Rattle.base.specs.Bits.{digit};
ghost use Rattle.layout.specs.Batch.{exponent_of, scratch_fits, geometry_of, mapped, unmapped};
ghost use Rattle.strict.specs.Known.{listing_of};
ghost use Rattle.circuit.specs.Batched.{batched, unmapped_row};
ghost use Rattle.compare.specs.Numbers.{word_of, geometry_number, column_number, cycle_column_number, cycle_row_number, batch_number};
ghost use Rattle.compare.specs.Replies.{chosen_listing, chosen_relation};

#[unsafe(no_mangle)]
pub extern "C" fn compare_add(alo: u64, ahi: u64, blo: u64, bhi: u64, word: u32) -> u64
    ensures { result ≡ word_of word (added (of_words alo ahi) (of_words blo bhi)) }
{
    compare::compare_add(alo, ahi, blo, bhi, word)
}

#[unsafe(no_mangle)]
pub extern "C" fn compare_mul(alo: u64, ahi: u64, blo: u64, bhi: u64, word: u32) -> u64
    ensures { result ≡ word_of word (product (of_words alo ahi) (of_words blo bhi)) }
{
    compare::compare_mul(alo, ahi, blo, bhi, word)
}

#[unsafe(no_mangle)]
pub extern "C" fn compare_shl(lo: u64, hi: u64, k: u32, word: u32) -> u64
    ensures { result ≡ word_of word (shifted (of_words lo hi) k) }
{
    compare::compare_shl(lo, hi, k, word)
}

#[unsafe(no_mangle)]
pub extern "C" fn compare_times_power(lo: u64, hi: u64, k: u32, word: u32) -> u64
    ensures { result ≡ word_of word (product (of_words lo hi) (power k)) }
{
    compare::compare_times_power(lo, hi, k, word)
}

#[unsafe(no_mangle)]
pub extern "C" fn compare_geometry(cpi: usize, part: u32) -> u64
    ensures { result ≡ geometry_number part (geometry_of cpi) }
{
    compare::compare_geometry(cpi, part)
}

#[unsafe(no_mangle)]
pub extern "C" fn compare_exponent(cpi: usize) -> u32
    ensures { result ≡ exponent_of cpi }
{
    compare::compare_exponent(cpi)
}

// 1 where scratch of so many words fits, else 0.
#[unsafe(no_mangle)]
pub extern "C" fn compare_scratch_fits(words: usize) -> u32
    ensures { result ≡ digit (scratch_fits words) }
{
    compare::compare_scratch_fits(words)
}

#[unsafe(no_mangle)]
pub extern "C" fn compare_map_col(cpi: usize, column: usize, cycle: usize) -> u64
    ensures { result ≡ column_number (mapped 2048 cpi column cycle) }
{
    compare::compare_map_col(cpi, column, cycle)
}

#[unsafe(no_mangle)]
pub extern "C" fn compare_map_z_col(cpi: usize, column: usize, cycle: usize) -> u64
    ensures { result ≡ column_number (mapped 4096 cpi column cycle) }
{
    compare::compare_map_z_col(cpi, column, cycle)
}

#[unsafe(no_mangle)]
pub extern "C" fn compare_way_back(cpi: usize, column: usize, part: u32) -> u64
    ensures { result ≡ cycle_column_number part (unmapped cpi column) }
{
    compare::compare_way_back(cpi, column, part)
}

#[unsafe(no_mangle)]
pub extern "C" fn compare_row_way_back(
    cpi: usize,
    relation: u32,
    batch_row: usize,
    part: u32,
) -> u64
    ensures { result ≡ cycle_row_number part (unmapped_row cpi (chosen_relation relation) batch_row) }
{
    compare::compare_row_way_back(cpi, relation, batch_row, part)
}

#[unsafe(no_mangle)]
pub extern "C" fn compare_listing_word(which: u32, i: usize) -> u32
    ensures { result ≡ get_or (listing_of (chosen_listing which)) i 0 }
{
    compare::compare_listing_word(which, i)
}

#[unsafe(no_mangle)]
pub extern "C" fn compare_batched(cpi: usize, cycle: usize, word: u32) -> u64
    ensures { result ≡ batch_number (batched cpi cycle word) }
{
    compare::compare_batched(cpi, cycle, word)
}
