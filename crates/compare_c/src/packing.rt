// The packed words of a batch.
ghost use Rattle.std.specs.Prelude.{◌≡◌};
ghost use Rattle.packed.specs.Packed.{named_called};
ghost use Rattle.compare.specs.Replies.{reply, pack_reply};

#[unsafe(no_mangle)]
pub extern "C" fn compare_pack_named(cpi: usize, batch: &[u64], out: &mut [u64]) -> u64
    ensures { reply result out.new ≡ pack_reply (named_called cpi batch.now out.old) }
{
    compare::packing::compare_pack_named(cpi, batch, out)
}
