// The C boundary of Cellprism, as the prover's host links it: the function of crate cellprism behind its C name. It promises what that one does.
#![tactic(auto)]

ghost use Rattle.std.specs.Prelude.{◌≡◌};
ghost use Rattle.cellprism.specs.Answer.{row_checked, answer_word};

// What the prover's host calls.
#[unsafe(no_mangle)]
pub extern "C" fn cellprism_check_row(bytes: &[u8]) -> u32
    ensures { result ≡ answer_word (row_checked bytes.now) }
{
    cellprism::cellprism_check_row(bytes)
}
