// Does the product give the answer that stands in a vector of numbers alone? Their order is in the vector file's first lines.
use compare::makers::compare_read_branch;
use field::Gf128;
use layout::Refusal;

// A refusal stands as this and its number.
pub const REFUSED: u64 = 0x8000000000000000;

fn refused_as(r: Refusal, n: u64) -> bool {
    n == REFUSED + u64::from(r.question.number())
}

// A narrow number stands in the low half of its own.
pub fn low_half(n: u64) -> u32 {
    (n & 0xffff_ffff) as u32
}

// Two elements, and what comes of them.
fn elements([alo, ahi, blo, bhi, lo, hi, ..]: [u64; 8]) -> (Gf128, Gf128, Gf128) {
    (
        Gf128::of_words(alo, ahi),
        Gf128::of_words(blo, bhi),
        Gf128::of_words(lo, hi),
    )
}

pub fn product(n: [u64; 8]) -> bool {
    let (a, b, product) = elements(n);
    a.mul(b) == product
}

pub fn sum(n: [u64; 8]) -> bool {
    let (a, b, sum) = elements(n);
    a.add(b) == sum
}

pub fn shift([alo, ahi, k, lo, hi, ..]: [u64; 8]) -> bool {
    Gf128::of_words(alo, ahi).shl(low_half(k)) == Gf128::of_words(lo, hi)
}

pub fn geometry([cpi, w_cols, m, one_col, w128, ..]: [u64; 8]) -> bool {
    match layout::geometry(cpi as usize) {
        Ok(g) => {
            (g.w_cols as u64 == w_cols)
                && (g.m as u64 == m)
                && (g.one_col as u64 == one_col)
                && (g.w128 as u64 == w128)
        }
        Err(r) => refused_as(r, w_cols),
    }
}

fn column_is(answer: Result<usize, Refusal>, n: u64) -> bool {
    match answer {
        Ok(c) => c as u64 == n,
        Err(r) => refused_as(r, n),
    }
}

// Two, and no function over the mapping: one as a parameter would need a clause of its own.
pub fn witness_column([cpi, column, cycle, at, ..]: [u64; 8]) -> bool {
    column_is(
        layout::map_col(cpi as usize, column as usize, cycle as usize),
        at,
    )
}

pub fn any_column([cpi, column, cycle, at, ..]: [u64; 8]) -> bool {
    column_is(
        layout::map_z_col(cpi as usize, column as usize, cycle as usize),
        at,
    )
}

pub fn way_back([cpi, at, column, cycle, ..]: [u64; 8]) -> bool {
    match layout::unmap_col(cpi as usize, at as usize) {
        Ok(found) => (found.column as u64 == column) && (found.cycle as u64 == cycle),
        Err(r) => refused_as(r, column),
    }
}

// The answer is 0 for no branch, 1 taken, 2 not taken, 3 reserved.
pub fn branch([opcode, funct3, rs1, rs2, answer, ..]: [u64; 8]) -> bool {
    compare_read_branch(low_half(opcode), low_half(funct3), rs1, rs2) == answer
}
