// The search for a row in any words, and the words of a part, one at a time.
ghost use Rattle.std.specs.Prelude.{◌≡◌};
ghost use Rattle.circuit.specs.Found.{found, part_of};
ghost use Rattle.compare.specs.Numbers.{entry_of};
ghost use Rattle.compare.specs.Replies.{chosen_relation};
ghost use Rattle.compare.specs.RowReplies.{chosen_place, found_number, sought};

#[unsafe(no_mangle)]
pub extern "C" fn compare_find_row(
    opened: u32,
    listing: &[u32],
    relation: u32,
    row: usize,
    part: u32,
) -> u64
    ensures { result ≡ found_number part (sought opened listing.now (chosen_relation relation) row) }
{
    compare::search::compare_find_row(opened, listing, relation, row, part)
}

#[unsafe(no_mangle)]
pub extern "C" fn compare_row_part(listing: &[u32], relation: u32, row: usize, i: usize) -> u64
    ensures { result ≡ entry_of i (part_of (found listing.now (chosen_relation relation) row) listing.now) }
{
    compare::search::compare_row_part(listing, relation, row, i)
}

#[unsafe(no_mangle)]
pub extern "C" fn compare_part_at(
    listing: &[u32],
    refused: u32,
    start: usize,
    end: usize,
    i: usize,
) -> u64
    ensures { result ≡ entry_of i (part_of (chosen_place refused start end) listing.now) }
{
    compare::search::compare_part_at(listing, refused, start, end, i)
}
