// Packed storage of a batch.
ghost use Rattle.std.specs.Prelude.{◌≡◌};
ghost use Rattle.packed.specs.Storage.{pack_called, pack_cycles_called, unpack_called, to_cycles_called, to_batch_called};
ghost use Rattle.compare.specs.Replies.{reply, called_reply};

#[unsafe(no_mangle)]
pub extern "C" fn compare_pack(cpi: usize, batch: &[u64], out: &mut [u64]) -> u64
    ensures { reply result out.new ≡ called_reply (pack_called cpi batch.now out.old) }
{
    compare::storage::compare_pack(cpi, batch, out)
}

#[unsafe(no_mangle)]
pub extern "C" fn compare_pack_cycles(cpi: usize, batch: &[u64], out: &mut [u64]) -> u64
    ensures { reply result out.new ≡ called_reply (pack_cycles_called cpi batch.now out.old) }
{
    compare::storage::compare_pack_cycles(cpi, batch, out)
}

#[unsafe(no_mangle)]
pub extern "C" fn compare_unpack(cpi: usize, words: &[u64], batch: &mut [u64]) -> u64
    ensures { reply result batch.new ≡ called_reply (unpack_called cpi words.now batch.old) }
{
    compare::storage::compare_unpack(cpi, words, batch)
}

#[unsafe(no_mangle)]
pub extern "C" fn compare_to_cycles(cpi: usize, words: &[u64], out: &mut [u64]) -> u64
    ensures { reply result out.new ≡ called_reply (to_cycles_called cpi words.now out.old) }
{
    compare::storage::compare_to_cycles(cpi, words, out)
}

#[unsafe(no_mangle)]
pub extern "C" fn compare_to_batch(cpi: usize, words: &[u64], out: &mut [u64]) -> u64
    ensures { reply result out.new ≡ called_reply (to_batch_called cpi words.now out.old) }
{
    compare::storage::compare_to_batch(cpi, words, out)
}
