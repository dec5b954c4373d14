// The filler, and the first step condition that a cycle does not meet.
ghost use Rattle.std.specs.Prelude.{◌≡◌};
ghost use Rattle.step.specs.Fill.{called};
ghost use Rattle.filler.specs.Met.{step_answer};
ghost use Rattle.compare.specs.Replies.{reply, called_reply, step_number};

#[unsafe(no_mangle)]
pub extern "C" fn compare_fill(cpi: usize, batch: &mut [u64]) -> u64
    ensures { reply result batch.new ≡ called_reply (called cpi batch.old) }
{
    compare::fills::compare_fill(cpi, batch)
}

#[unsafe(no_mangle)]
pub extern "C" fn compare_first_unmet(cpi: usize, batch: &[u64], cycle: usize) -> u64
    ensures { result ≡ step_number (step_answer cpi batch.now cycle) }
{
    compare::fills::compare_first_unmet(cpi, batch, cycle)
}
