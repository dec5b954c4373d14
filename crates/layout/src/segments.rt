// The segments of `SEGMENTS_CPU`, in one table; names, starts and lengths are handed out each in an array of its own.
ghost use Rattle.std.specs.Prelude.{◌≡◌};
ghost use Rattle.layout.specs.Segments.{segments, segment_names, segment_starts, segment_lengths, segment_name, padded};

use crate::columns::{
    ALU, CARRY_OFF, EQA, FETCH, FLAGS, LOAD_VAL, OFF, PC, RAM_ADDR, RD, RS1, RS2, SHIFT_OUT,
    SHIFT_SRC, STORE_OLD, STORE_SRC, T1, T2, W_BITS, ZERO,
};
use std::array;

// A segment, its name filled up with blanks.
#[derive(Clone, Copy)]
struct Segment {
    name: [u8; 9],
    start: usize,
    length: usize,
}

// A start is the column that `WITNESS_LAYOUT` gives, since sums of the lengths would put fetch at 808.
#[rattlefmt::skip]
macro_rules! segments {
    ($of:ident) => {
        $of![
            Segment { name: *b"rs1      ", start: RS1, length: W_BITS },
            Segment { name: *b"rs2      ", start: RS2, length: W_BITS },
            Segment { name: *b"rd       ", start: RD, length: W_BITS },
            Segment { name: *b"load-val ", start: LOAD_VAL, length: W_BITS },
            Segment { name: *b"shift-out", start: SHIFT_OUT, length: W_BITS },
            Segment { name: *b"t1       ", start: T1, length: W_BITS },
            Segment { name: *b"t2       ", start: T2, length: W_BITS },
            Segment { name: *b"carry    ", start: CARRY_OFF, length: W_BITS },
            Segment { name: *b"alu      ", start: ALU, length: W_BITS },
            Segment { name: *b"shift-src", start: SHIFT_SRC, length: W_BITS },
            Segment { name: *b"store-old", start: STORE_OLD, length: W_BITS },
            Segment { name: *b"store-src", start: STORE_SRC, length: W_BITS },
            Segment { name: *b"flags    ", start: FLAGS, length: 16 },
            Segment { name: *b"off      ", start: OFF, length: 8 },
            Segment { name: *b"ram-addr ", start: RAM_ADDR, length: 8 },
            Segment { name: *b"pc       ", start: PC, length: 8 },
            Segment { name: *b"fetch    ", start: FETCH, length: 64 },
            Segment { name: *b"eqaux    ", start: EQA, length: 64 },
            Segment { name: *b"crossaux ", start: ZERO, length: 1024 },
        ]
    };
}

macro_rules! rows {
    ($($row:expr,)*) => {
        [$($row),*]
    };
}

macro_rules! names {
    ($(Segment { name: $name:expr, start: $start:expr, length: $length:expr },)*) => {
        [$($name),*]
    };
}

static SEGMENTS: [Segment; 19] = segments!(rows);

// The names alone lie one after the other: where they are read, nothing is copied first.
static NAMES: [[u8; 9]; 19] = segments!(names);

// The names, 9 bytes each.
pub fn segment_names() -> [u8; 171]
    ensures { result ≡ segment_names segments }
{
    *NAMES.as_flattened().first_chunk().unwrap()
}

pub fn segment_starts() -> [usize; 19]
    ensures { result ≡ segment_starts segments }
{
    array::from_fn(|i| SEGMENTS[i].start)
}

pub fn segment_lengths() -> [usize; 19]
    ensures { result ≡ segment_lengths segments }
{
    array::from_fn(|i| SEGMENTS[i].length)
}

// The name of the segment that has the column, and blanks where none has it: in a gap, and from the one column on. docs/API.md promises the
// nine bytes under this name, and no Option.
#[tactic(auto, unfolding(crate::specs::Segments::segment_name))]
pub fn segment_name(column: usize) -> [u8; 9]
    ensures { result ≡ padded (segment_name column) }
{
    for s in &SEGMENTS {
        if (s.start <= column) & (column < s.start + s.length) {
            return s.name;
        }
    }
    *b"         "
}
