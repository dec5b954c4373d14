// The listing reader: a listing is opened, and asked for two rows one after the other.
ghost use Rattle.std.specs.Prelude.{◌≡◌};
ghost use Rattle.compare.specs.Replies.{reply, chosen_relation};
ghost use Rattle.compare.specs.RowReplies.{two_rows, reader_reply};

#[unsafe(no_mangle)]
pub extern "C" fn compare_reader(
    listing: &[u32],
    relation: u32,
    row: usize,
    next_relation: u32,
    next_row: usize,
    i: usize,
    out: &mut [u64],
) -> u64
    ensures { reply result out.new ≡ reader_reply
        (two_rows listing.now (chosen_relation relation) row (chosen_relation next_relation) next_row i) out.old }
{
    compare::reader::compare_reader(listing, relation, row, next_relation, next_row, i, out)
}
