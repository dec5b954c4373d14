// The filler, and the first step condition that a cycle does not meet.
ghost use Rattle.std.specs.Prelude.{◌≡◌};
ghost use Rattle.step.specs.Fill.{called};
ghost use Rattle.filler.specs.Met.{step_answer};
ghost use Rattle.compare.specs.Replies.{reply, asked_number, called_reply, step_number};

use crate::check::refused_at;
use layout::Refusal;

pub fn asked_number(answer: Result<(), Refusal>) -> u64
    ensures { result ≡ asked_number answer }
{
    match answer {
        Ok(()) => 0,
        Err(r) => refused_at(r),
    }
}

pub fn compare_fill(cpi: usize, batch: &mut [u64]) -> u64
    ensures { reply result batch.new ≡ called_reply (called cpi batch.old) }
{
    asked_number(filler::fill::fill(cpi, batch))
}

fn step_number(answer: Result<Option<usize>, Refusal>) -> u64
    ensures { result ≡ step_number answer }
{
    match answer {
        Ok(None) => 0,
        Ok(Some(k)) => k as u64,
        Err(r) => refused_at(r),
    }
}

pub fn compare_first_unmet(cpi: usize, batch: &[u64], cycle: usize) -> u64
    ensures { result ≡ step_number (step_answer cpi batch.now cycle) }
{
    step_number(filler::conditions::first_unmet(cpi, batch, cycle))
}
