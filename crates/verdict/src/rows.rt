// The sums of a row in a cycle of a batch.
ghost use Rattle.std.specs.Prelude.{◌≡◌, true, ◌+◌, ◌*◌, ◌<◌, ◌≤◌, ◌%◌, ◌^◌, length, drop};
ghost use Rattle.layout.specs.Batch.{column_at};
ghost use Rattle.circuit.specs.Words.{coefficient_of};
ghost use Rattle.verdict.specs.Row.{cycle_of, times};
ghost use Rattle.verdict.specs.RowParts.{sorted};
ghost use Rattle.verdict.specs.Promises.{Cycle, SideSummed, RowSummed, RowTested};

use crate::Sums;
use circuit::Side;
use field::Gf128;

// A cycle of a batch whose size is in order.
#[derive(Clone, Copy)]
pub struct Cycle<'a> {
    pub cpi: usize,
    pub batch: &'a [u64],
    pub number: usize,
    ghost in_batch: { Cycle cpi number batch.now },
}

// The sum of a side, and the index behind its terms. This and the next two are no one generic struct: each field is named by a promise
// of its own (`SideSummed`, `RowSummed`, `RowTested`).
#[derive(Clone, Copy)]
pub struct SideSum {
    pub sum: Gf128,
    pub end: usize,
}

// The sums of a row, and the index behind it.
#[derive(Clone, Copy)]
pub struct RowSums {
    pub sums: Sums,
    pub end: usize,
}

// Whether a row holds, and the index behind it.
#[derive(Clone, Copy)]
pub struct Tested {
    pub holds: bool,
    pub end: usize,
}

// The mapping with no question asked, where `layout` asks: the loops below are the inside of the check, and a public one without would ask
// something of its caller.
#[tactic(auto, unfolding(layout::specs::Batch::column_at))]
fn column_at(cpi: usize, column: usize, cycle: usize) -> usize
    requires { (cpi ≤ 256) × ((column < 4096) × (cycle < cpi)) }
    ensures { (result ≡ column_at cpi column cycle) × (result < 4096 * cpi) }
{
    if column < 2048 {
        column * cpi + cycle
    } else {
        2048 * cpi + (column - 2048)
    }
}

// A term's coefficient times its column. A coefficient zero reads no column.
#[tactic(auto, unfolding(crate::specs::Row::cycle_of))]
fn term(cycle: Cycle, w: u32) -> Gf128
    ensures { result ≡ times (coefficient_of w) (cycle_of cycle.entry.cpi cycle.entry.batch.now cycle.entry.number (w % 2 ^ 12)) }
{
    if (w >> 29) % 2 == 0 {
        let at = 2 * column_at(cycle.cpi, (w % 4096) as usize, cycle.number);
        Gf128::of_words(cycle.batch[at], cycle.batch[at + 1]).times_power((w >> 12) % 64)
    } else {
        Gf128::zero()
    }
}

// The sum of one side, whose terms stand from `from` on. The index is half of the answer, so the loop goes over indices, and so is `from` one
// here and below: a part of the listing would lose it.
fn side_sum(cycle: Cycle, listing: &[u32], from: usize, side: Side) -> SideSum
    requires { from ≤ length listing.now }
    ensures { SideSummed (cycle_of cycle.entry.cpi cycle.entry.batch.now cycle.entry.number) listing.now from side result }
{
    let mut sum = Gf128::zero();
    for i in from..listing.len() {
        let w = listing[i];
        if circuit::words::side_kind(side) < w >> 30 {
            return SideSum { sum, end: i };
        }
        sum = sum.add(term(cycle, w));
    }
    SideSum {
        sum,
        end: listing.len(),
    }
}

// The sums of a row, whose terms stand from `from` on, in the order that question 10 asks for.
pub fn row_sums(cycle: Cycle, listing: &[u32], from: usize) -> RowSums
    requires { (from ≤ length listing.now) × (sorted 0 (drop from listing.now) ≡ true) }
    ensures { RowSummed (cycle_of cycle.entry.cpi cycle.entry.batch.now cycle.entry.number) listing.now from result }
{
    let a = side_sum(cycle, listing, from, Side::A);
    let b = side_sum(cycle, listing, a.end, Side::B);
    let c = side_sum(cycle, listing, b.end, Side::C);
    RowSums {
        sums: Sums {
            a: a.sum,
            b: b.sum,
            c: c.sum,
        },
        end: c.end,
    }
}

// A row holds when A · B = C.
pub fn test_row(cycle: Cycle, listing: &[u32], from: usize) -> Tested
    requires { (from ≤ length listing.now) × (sorted 0 (drop from listing.now) ≡ true) }
    ensures { RowTested (cycle_of cycle.entry.cpi cycle.entry.batch.now cycle.entry.number) listing.now from result }
{
    let row = row_sums(cycle, listing, from);
    let Sums { a, b, c } = row.sums;
    Tested {
        holds: a.mul(b) == c,
        end: row.end,
    }
}
