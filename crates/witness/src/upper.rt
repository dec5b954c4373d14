// What rows and batches share: questions 1 to 3, and the upper half, the one column, the public values, and zeros behind them.
ghost use Rattle.std.specs.Prelude.{◌≡◌, ◌+◌, ◌≤◌, length};
ghost use Rattle.witness.specs.Upper.{public_fits, public_asked, upper_from};
ghost use Rattle.base.specs.Written.{Written};

use layout::{Question, Refusal};

// Question 3: a public value has two words, and there is room for so many words at most.
#[tactic(auto, unfolding(crate::specs::Upper::public_fits))]
fn public_fits(words: usize, most: usize) -> bool
    ensures { result ≡ public_fits words most }
{
    if words % 2 != 0 {
        return false;
    }
    words <= most
}

// Questions 1 to 3, of the numbers of words: the public values', the batch's.
#[tactic(auto, unfolding(crate::specs::Upper::public_asked))]
pub fn ask_public(cpi: usize, public: usize, batch: usize) -> Result<(), Refusal>
    ensures { result ≡ public_asked cpi public batch }
{
    layout::ask_batch(cpi, batch)?;
    if !public_fits(public, 4096 * cpi - 2) {
        return Err(Question::PublicLength.refused());
    }
    Ok(())
}

// All words from start on, which is where the one column stands.
pub fn write_upper(public: &[u64], start: usize, out: &mut [u64])
    requires { start + 2 + length public.now ≤ length out.old }
    ensures { Written (upper_from start public.now) start (length out.old)
        out.old out.new }
{
    out[start] = 1;
    out[start + 1] = 0;
    base::copy_at(public, out, start + 2);
    base::clear_from(out, start + 2 + public.len());
}
