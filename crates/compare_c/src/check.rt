// The check, by itself and behind the filler, a row's sums and the bit test.
ghost use Rattle.std.specs.Prelude.{◌≡◌};
ghost use Rattle.verdict.specs.Check.{checked, known_checked};
ghost use Rattle.verdict.specs.Apply.{applied};
ghost use Rattle.verdict.specs.Bits.{bit_tested};
ghost use Rattle.judge.specs.FillCheck.{fill_checked};
ghost use Rattle.compare.specs.Replies.{check_number, reply, check_reply, fill_check_reply, chosen_listing, chosen_relation, apply_reply, bit_number};

// Here and in the next, way 0 is the product's check, any other number the plain walk.
#[unsafe(no_mangle)]
pub extern "C" fn compare_check_row(
    way: u32,
    cpi: usize,
    listing: &[u32],
    batch: &[u64],
    scratch: &mut [u64],
) -> u64
    ensures { reply result scratch.new ≡ check_reply (checked cpi listing.now batch.now scratch.old) }
{
    compare::check::compare_check_row(way, cpi, listing, batch, scratch)
}

#[unsafe(no_mangle)]
pub extern "C" fn compare_check_known(which: u32, way: u32, cpi: usize, batch: &[u64]) -> u64
    ensures { result ≡ check_number (known_checked (chosen_listing which) cpi batch.now) }
{
    compare::check::compare_check_known(which, way, cpi, batch)
}

// A batch is filled and then checked, in one call.
#[unsafe(no_mangle)]
pub extern "C" fn compare_fill_and_check(which: u32, cpi: usize, batch: &mut [u64]) -> u64
    ensures { reply result batch.new ≡ fill_check_reply (fill_checked (chosen_listing which) cpi batch.old) }
{
    compare::check::compare_fill_and_check(which, cpi, batch)
}

#[unsafe(no_mangle)]
pub extern "C" fn compare_apply(
    cpi: usize,
    listing: &[u32],
    batch: &[u64],
    relation: u32,
    row: usize,
    cycle: usize,
    out: &mut [u64],
) -> u64
    ensures { reply result out.new
        ≡ apply_reply (applied cpi listing.now batch.now (chosen_relation relation) row cycle) out.old }
{
    compare::check::compare_apply(cpi, listing, batch, relation, row, cycle, out)
}

#[unsafe(no_mangle)]
pub extern "C" fn compare_bit_test(cpi: usize, batch: &[u64]) -> u64
    ensures { result ≡ bit_number (bit_tested cpi batch.now) }
{
    compare::check::compare_bit_test(cpi, batch)
}
