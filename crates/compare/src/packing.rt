// The packed words of a batch.
ghost use Rattle.std.specs.Prelude.{◌≡◌};
ghost use Rattle.packed.specs.Packed.{named_called};
ghost use Rattle.compare.specs.Replies.{reply, packing_number, pack_reply};

use crate::check::refused_at;
use layout::Refusal;

fn packing_number(answer: Result<bool, Refusal>) -> u64
    ensures { result ≡ packing_number answer }
{
    match answer {
        Ok(true) => 0,
        Ok(false) => 1,
        Err(r) => refused_at(r),
    }
}

pub fn compare_pack_named(cpi: usize, batch: &[u64], out: &mut [u64]) -> u64
    ensures { reply result out.new ≡ pack_reply (named_called cpi batch.now out.old) }
{
    packing_number(packed::pack_named(cpi, batch, out))
}
