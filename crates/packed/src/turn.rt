// A block of 64 columns, a word for each cycle, turned: word d gets the 64 bits of cycle d. Six steps do it for every size from 2 on,
// with no division and no case of its own for a size.
ghost use Rattle.packed.specs.Turn.{Masks, Exchanged, StepIn, Stepped, TurnIn, Turned};

#[derive(Clone, Copy)]
struct Two {
    low: u64,
    high: u64,
}

// Of two words, the odd runs of j bits of the first exchanged with the even runs of the second. m has the even runs.
fn exchange(x: u64, y: u64, j: u32, m: u64) -> Two
    requires { Masks j m }
    ensures { Exchanged x y j result.low result.high }
{
    let t = ((x >> j) ^ y) & m;
    Two {
        low: x ^ (t << j),
        high: y ^ t,
    }
}

// One step: of the words k and h + k of a, exchanged, the words 2 k and 2 k + 1 of b.
fn queue(a: &[u64], b: &mut [u64], h: usize, j: u32, m: u64)
    requires { StepIn a.now b.old h j m }
    ensures { Stepped h j a.now b.new }
{
    for k in 0..h {
        let t = exchange(a[k], a[h + k], j, m);
        b[2 * k] = t.low;
        b[2 * k + 1] = t.high;
    }
}

// `queue` and `unqueue` stay two: one function with a const parameter for the direction makes both orders 6 to 11 percent slower.
// A step undone: of the words 2 k and 2 k + 1 of b, exchanged, the words k and h + k of a.
fn unqueue(b: &[u64], a: &mut [u64], h: usize, j: u32, m: u64)
    requires { StepIn b.now a.old h j m }
    ensures { Stepped h j a.new b.now }
{
    for k in 0..h {
        let t = exchange(b[2 * k], b[2 * k + 1], j, m);
        a[k] = t.low;
        a[h + k] = t.high;
    }
}

// A block of 2 h words turned into a. b is lent for the steps between.
pub fn turn(p: &[u64], a: &mut [u64], b: &mut [u64], h: usize)
    requires { TurnIn p.now a.old b.old h }
    ensures { Turned h p.now a.new }
{
    queue(p, b, h, 32, 0x00000000ffffffff);
    queue(b, a, h, 16, 0x0000ffff0000ffff);
    queue(a, b, h, 8, 0x00ff00ff00ff00ff);
    queue(b, a, h, 4, 0x0f0f0f0f0f0f0f0f);
    queue(a, b, h, 2, 0x3333333333333333);
    queue(b, a, h, 1, 0x5555555555555555);
}

// A block turned back into p: a has the 64 bits of each cycle, and is used with b for the steps between.
pub fn unturn(a: &mut [u64], b: &mut [u64], p: &mut [u64], h: usize)
    requires { TurnIn p.old a.old b.old h }
    ensures { Turned h p.new a.old }
{
    unqueue(a, b, h, 1, 0x5555555555555555);
    unqueue(b, a, h, 2, 0x3333333333333333);
    unqueue(a, b, h, 4, 0x0f0f0f0f0f0f0f0f);
    unqueue(b, a, h, 8, 0x00ff00ff00ff00ff);
    unqueue(a, b, h, 16, 0x0000ffff0000ffff);
    unqueue(b, p, h, 32, 0x00000000ffffffff);
}
