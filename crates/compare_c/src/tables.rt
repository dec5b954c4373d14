// The columns of a cycle, its segments and the widths of its fields, entry by entry: 2^63 past the end.
ghost use Rattle.std.specs.Prelude.{◌≡◌};
ghost use Rattle.layout.specs.Batch.{DEFAULT-CPI};
ghost use Rattle.layout.specs.Columns.{witness_layout, field_widths};
ghost use Rattle.compare.specs.Numbers.{entry_of, segment_part};

#[unsafe(no_mangle)]
pub extern "C" fn compare_layout(i: usize) -> u64
    ensures { result ≡ entry_of i witness_layout }
{
    compare::tables::compare_layout(i)
}

#[unsafe(no_mangle)]
pub extern "C" fn compare_width(i: usize) -> u64
    ensures { result ≡ entry_of i field_widths }
{
    compare::tables::compare_width(i)
}

#[unsafe(no_mangle)]
pub extern "C" fn compare_default_cpi() -> u64
    ensures { result ≡ DEFAULT-CPI }
{
    compare::tables::compare_default_cpi()
}

#[unsafe(no_mangle)]
pub extern "C" fn compare_segment(i: usize, part: u32) -> u64
    ensures { result ≡ segment_part i part }
{
    compare::tables::compare_segment(i, part)
}
