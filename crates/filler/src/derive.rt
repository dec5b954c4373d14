// The derived columns of a cycle, worked out by words. The row maker calls this, too.
ghost use Rattle.std.specs.Prelude.{◌≡◌, ◌*◌, ◌^◌, ◌<◌, ◌&&◌};
ghost use Rattle.base.specs.Bits.{digit, ◌⊻◌, bit_at};
ghost use Rattle.base.specs.Fields.{pack, flags};
ghost use Rattle.filler.specs.Lanes.{hot, pair};
ghost use Rattle.filler.specs.Derive.{carry_word, run_word, gate_bits, compare_word, opcode_run, taken_bit};
ghost use Rattle.filler.specs.Words.{top_bits_of, lanes_of, branches_of, derived_words};

use crate::bits::{
    BEQ, BGE, BGE_BIT, BGEU, BGEU_BIT, BLT, BLTU, BNE, BNE_BIT, CEQ_BIT, CLT_BIT, CLU_BIT,
    FUNCT3_BIT, Flags, OFF_BIT, OPBR_BIT, SUB_BIT, TOP_BIT, flags_of, nth,
};
use layout::columns::OPSYS;

// The words of a cycle that its derived columns depend on; `flags` has columns 768 to 831.
#[derive(Clone, Copy)]
pub struct GivenWords {
    pub rs1: u64,
    pub rs2: u64,
    pub load: u64,
    pub t1: u64,
    pub t2: u64,
    pub alu: u64,
    pub flags: u64,
    pub fetch: u64,
}

// What they determine: columns 448 to 511, 896 to 953, 1024 to 1087 and 1088 to 1126.
#[derive(Clone, Copy)]
pub struct DerivedWords {
    pub carry: u64,
    pub lanes: u64,
    pub zeros: u64,
    pub branches: u64,
}

// Bit 63 of each word that the comparisons read.
#[derive(Clone, Copy)]
struct TopBits {
    rs1: bool,
    rs2: bool,
    alu: bool,
    t1: bool,
    t2: bool,
    carry: bool,
    zero: bool,
}

// The carries into each bit of a + b + s: what the sum has beside the bits of its addends.
fn carry_word(a: u64, b: u64, s: u64) -> u64
    requires { s < 2 }
    ensures { result ≡ carry_word a b s }
{
    a ^ b ^ a.wrapping_add(b).wrapping_add(s)
}

// Which bits of x have none set at or below them: those that x - 1 has and x has not.
#[tactic(auto, unfolding(crate::specs::Derive::run_word))]
fn run_word(x: u64) -> u64
    ensures { result ≡ run_word x }
{
    x.wrapping_sub(1) & !x
}

pub fn word_of(b: bool) -> u64
    ensures { (result ≡ digit b) × (result < 2) }
{
    u64::from(b)
}

// Bit x alone.
fn hot_word(x: u64) -> u64
    requires { x < 8 }
    ensures { (result ≡ hot x) × (result < 256) }
{
    1 << x
}

// Bits x and x + 4, modulo 8.
#[tactic(auto, using(crate::specs::Laws::Loops::pair_is))]
fn pair_word(x: u64) -> u64
    ensures { (result ≡ pair x) × (result < 256) }
{
    17 << (x % 4)
}

// w where b is set, else 0.
fn gate(b: bool, w: u64) -> u64
    requires { w < 256 }
    ensures { (result ≡ digit b * w) × (result < 256) }
{
    if b { w } else { 0 }
}

// NH and WNL.
fn gate_bits(f: Flags) -> u64
    ensures { (result ≡ pack (flags (gate_bits f))) × (result < 4) }
{
    word_of(!f.whole & !f.half) + 2 * word_of(f.write & !f.load)
}

// EQA to WNL, of the word of columns 768 on.
fn lanes_word(w: u64) -> u64
    ensures { result ≡ lanes_of w }
{
    let f = flags_of(w);
    let a = (w >> OFF_BIT) % 8;
    let b = (a + 1) % 8;
    let eqa = hot_word(a);
    let pa = pair_word(a);
    let eqb = hot_word(b);
    let pb = pair_word(b);
    let ca = gate(f.byte, eqa);
    let ch = gate(f.half, eqa);
    let ch2 = gate(f.half, eqb);
    let rest = gate_bits(f);
    eqa + 256 * (pa + 256 * (eqb + 256 * (pb + 256 * (ca + 256 * (ch + 256 * (ch2 + 256 * rest))))))
}

// Which bits of the opcode are those of k, each with those below it.
fn opcode_run(op: u64, k: u64) -> u64
    ensures { (result ≡ opcode_run op k) × (result < 128) }
{
    run_word(op ^ k) % 128
}

// Whether just one of bits i and j of e is set, and v.
fn picked(e: u64, i: usize, j: usize, v: bool) -> bool
    requires { (i < 64) × (j < 64) }
    ensures { result ≡ ((bit_at e i ⊻ bit_at e j) && v) }
{
    (nth(e, i) ^ nth(e, j)) & v
}

// Bits as a word, the first lowest.
pub fn word_of_bits<const N: usize>(bits: [bool; N]) -> u64
    ensures { N < 64 → (result ≡ pack (flags bits.entry)) × (result < 2 ^ N) }
{
    let mut w: u64 = 0;
    for bit in bits.iter().rev() {
        w = w.wrapping_mul(2).wrapping_add(word_of(*bit));
    }
    w
}

// LTSA to ZE8; e has the bit of funct3 alone.
fn compare_word(e: u64, t: TopBits, f: Flags) -> u64
    ensures { (result ≡ compare_word e t f) × (result < 512) }
{
    let signs = t.rs1 ^ t.rs2;
    let ltsa = signs & t.rs1;
    let ltsb = !signs & t.alu;
    let ltua = t.t1 & t.t2;
    let ltub = t.carry & (t.t1 ^ t.t2);
    let ceq = picked(e, BEQ, BNE, t.zero);
    let clt = picked(e, BLT, BGE, ltsa ^ ltsb);
    let clu = picked(e, BLTU, BGEU, !(ltua ^ ltub));
    word_of_bits([
        ltsa,
        ltsb,
        ltua,
        ltub,
        ceq,
        clt,
        clu,
        !f.whole & f.load,
        !f.whole & !f.half & f.load,
    ])
}

fn top_bits_of(g: GivenWords, carry: u64, zeros: u64) -> TopBits
    ensures { result ≡ top_bits_of g carry zeros }
{
    TopBits {
        rs1: nth(g.rs1, TOP_BIT),
        rs2: nth(g.rs2, TOP_BIT),
        alu: nth(g.alu, TOP_BIT),
        t1: nth(g.t1, TOP_BIT),
        t2: nth(g.t2, TOP_BIT),
        carry: nth(carry, TOP_BIT),
        zero: nth(zeros, TOP_BIT),
    }
}

// OPSYS to ZE8.
#[tactic(auto, unfolding(crate::specs::Derive::branch_word))]
fn branches_word(g: GivenWords, carry: u64, zeros: u64) -> u64
    ensures { result ≡ branches_of g carry zeros }
{
    let op = g.fetch % 128;
    let funct3 = (g.fetch >> FUNCT3_BIT) % 8;
    let opsys = opcode_run(op, 0x73);
    let opbr = opcode_run(op, 0x63);
    let eqfm = pair_word(funct3);
    let eqf = hot_word(funct3);
    let rest = compare_word(eqf, top_bits_of(g, carry, zeros), flags_of(g.flags));
    opsys + 128 * (opbr + 128 * (eqfm + 256 * (eqf + 256 * rest)))
}

// TAKEN, of the word of columns 1088 on.
#[tactic(auto, unfolding(crate::specs::Derive::taken_bit))]
pub fn taken_bit(w: u64) -> u64
    ensures { result ≡ digit (taken_bit w) }
{
    let eq = nth(w, CEQ_BIT) ^ nth(w, BNE_BIT);
    let signed = eq ^ nth(w, CLT_BIT) ^ nth(w, BGE_BIT);
    let any = signed ^ nth(w, CLU_BIT) ^ nth(w, BGEU_BIT);
    word_of(nth(w, OPBR_BIT) & any)
}

pub fn derive(g: GivenWords) -> DerivedWords
    ensures { result ≡ derived_words g }
{
    let carry = carry_word(g.t1, g.t2, word_of(nth(g.flags, SUB_BIT)));
    let zeros = run_word(g.alu);
    DerivedWords {
        carry,
        lanes: lanes_word(g.flags),
        zeros,
        branches: branches_word(g, carry, zeros),
    }
}
