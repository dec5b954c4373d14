// Two batches into one.
ghost use Rattle.std.specs.Prelude.{◌≡◌};
ghost use Rattle.merge.specs.Calls.{merge_called};
ghost use Rattle.compare.specs.Replies.{reply, called_reply};

use crate::fills::asked_number;

pub fn compare_merge(
    first_cpi: usize,
    first: &[u64],
    second_cpi: usize,
    second: &[u64],
    batch: &mut [u64],
) -> u64
    ensures { reply result batch.new
        ≡ called_reply (merge_called first_cpi first.now second_cpi second.now batch.old) }
{
    asked_number(merge::merge(first_cpi, first, second_cpi, second, batch))
}
