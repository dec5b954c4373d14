// Single bits of a word, which of them the columns are, and those that are flags.
ghost use Rattle.std.specs.Prelude.{◌≡◌, ◌<◌};
ghost use Rattle.base.specs.Bits.{bit_at};
ghost use Rattle.filler.specs.Words.{gate_flags};

use layout::columns::{
    CEQ, CLT, CLU, EQF, FETCH, FETCH_FUNCT3, FLAGS, IS_ARITH, IS_LOAD, IS_SHIFT, IS_STORE, LD_BYTE,
    LD_HALF, LD_WORD, OFF, OPBR, OPSYS, RAM_ADDR, SUB, W_BITS, WE,
};

// The flags that gates are made of: write the destination, load, and how much a load takes.
#[derive(Clone, Copy)]
pub struct Flags {
    pub write: bool,
    pub load: bool,
    pub byte: bool,
    pub half: bool,
    pub whole: bool,
}

// The bits of columns in the word of 64 columns that has them: the word from FLAGS on.
pub const SUB_BIT: usize = SUB - FLAGS;

pub const WE_BIT: usize = WE - FLAGS;

pub const IS_LOAD_BIT: usize = IS_LOAD - FLAGS;

pub const IS_STORE_BIT: usize = IS_STORE - FLAGS;

pub const IS_ARITH_BIT: usize = IS_ARITH - FLAGS;

pub const IS_SHIFT_BIT: usize = IS_SHIFT - FLAGS;

pub const LD_BYTE_BIT: usize = LD_BYTE - FLAGS;

pub const LD_HALF_BIT: usize = LD_HALF - FLAGS;

pub const LD_WORD_BIT: usize = LD_WORD - FLAGS;

pub const OFF_BIT: usize = OFF - FLAGS;

pub const RAM_ADDR_BIT: usize = RAM_ADDR - FLAGS;

// The word of the instruction bus.
pub const FUNCT3_BIT: usize = FETCH_FUNCT3 - FETCH;

// The top bit of a word.
pub const TOP_BIT: usize = W_BITS - 1;

// funct3 of the branches, as the ISA numbers them.
pub const BEQ: usize = 0;

pub const BNE: usize = 1;

pub const BLT: usize = 4;

pub const BGE: usize = 5;

pub const BLTU: usize = 6;

pub const BGEU: usize = 7;

// The word from OPSYS on: where the chain of OPBR ends, EQF of three branches, and the comparisons.
pub const OPBR_BIT: usize = OPBR + 6 - OPSYS;

pub const BNE_BIT: usize = EQF + BNE - OPSYS;

pub const BGE_BIT: usize = EQF + BGE - OPSYS;

pub const BGEU_BIT: usize = EQF + BGEU - OPSYS;

pub const CEQ_BIT: usize = CEQ - OPSYS;

pub const CLT_BIT: usize = CLT - OPSYS;

pub const CLU_BIT: usize = CLU - OPSYS;

pub fn nth(w: u64, k: usize) -> bool
    requires { k < 64 }
    ensures { result ≡ bit_at w k }
{
    (w >> k) % 2 == 1
}

// Of the word of columns 768 on.
pub fn flags_of(w: u64) -> Flags
    ensures { result ≡ gate_flags w }
{
    Flags {
        write: nth(w, WE_BIT),
        load: nth(w, IS_LOAD_BIT),
        byte: nth(w, LD_BYTE_BIT),
        half: nth(w, LD_HALF_BIT),
        whole: nth(w, LD_WORD_BIT),
    }
}
