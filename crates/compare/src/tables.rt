// The columns of a cycle, its segments and the widths of its fields, entry by entry: 2^63 past the end.
ghost use Rattle.std.specs.Prelude.{◌≡◌};
ghost use Rattle.layout.specs.Batch.{DEFAULT-CPI};
ghost use Rattle.layout.specs.Columns.{witness_layout, field_widths};
ghost use Rattle.compare.specs.Numbers.{entry_of, name_byte, segment_part};

use crate::check::NONE;
use layout::columns::{field_widths, witness_layout};
use layout::segments::{segment_lengths, segment_names, segment_starts};

// `search::word_at` for places: no one function serves both, since a `usize` has no `Into<u64>`.
fn entry_of(xs: &[usize], i: usize) -> u64
    ensures { result ≡ entry_of i xs.now }
{
    xs.get(i).map_or(NONE, |x| *x as u64)
}

pub fn compare_layout(i: usize) -> u64
    ensures { result ≡ entry_of i witness_layout }
{
    entry_of(&witness_layout(), i)
}

pub fn compare_width(i: usize) -> u64
    ensures { result ≡ entry_of i field_widths }
{
    entry_of(&field_widths(), i)
}

pub fn compare_default_cpi() -> u64
    ensures { result ≡ DEFAULT-CPI }
{
    layout::default_cpi() as u64
}

#[tactic(auto, using(crate::proofs::Names::past_names))]
fn name_byte(i: usize, k: u32) -> u64
    ensures { result ≡ name_byte i k }
{
    if 9 <= k || 19 <= i {
        return NONE;
    }
    u64::from(segment_names()[9 * i + k as usize])
}

pub fn compare_segment(i: usize, part: u32) -> u64
    ensures { result ≡ segment_part i part }
{
    match part {
        0 => entry_of(&segment_starts(), i),
        1 => entry_of(&segment_lengths(), i),
        _ => name_byte(i, part - 2),
    }
}
