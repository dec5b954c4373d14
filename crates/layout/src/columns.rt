// The columns of one cycle, as `WITNESS_LAYOUT` places them, and by its names, but for flags and fields of the instruction bus: there it
// names positions (F_SUB is 0, BUS_RD is 7), and here stands the column itself (SUB, FETCH_RD). `witness_layout` hands out the columns and
// `field_widths` the widths, proved equal to the names that specs use (specs/Columns.antt), so code and contracts cannot drift apart.
ghost use Rattle.std.specs.Prelude.{◌≡◌};
ghost use Rattle.layout.specs.Columns.{witness_layout, field_widths};

// How many bits a word has, and each field of the instruction bus.
pub const W_BITS: usize = 64; // a word

pub const OP_BITS: usize = 7; // opcode

pub const IDX_BITS: usize = 6; // index of a register

pub const FUNCT3_BITS: usize = 3; // funct3

pub const IMM_BITS: usize = 13; // immediate

// The halves of a row z = (w, 1, x): the witness columns, the one column, the public values.
pub const W_COLS: usize = 2048; // witness columns of a cycle

pub const ONE_COL: usize = W_COLS; // the one column: the first public one

pub const M: usize = 4096; // all columns of a row

pub const X_COLS: usize = M / 2 - 1; // public values of a row

// Words of 64 bits, low bit first: the column of bit 0.
pub const RS1: usize = 0; // first source register

pub const RS2: usize = 64; // second source register

pub const RD: usize = 128; // destination register

pub const LOAD_VAL: usize = 192; // the memory word at the access address

pub const SHIFT_OUT: usize = 256; // what the shifter gives

pub const T1: usize = 320; // first operand of the adder

pub const T2: usize = 384; // second operand of the adder

pub const CARRY_OFF: usize = 448; // carry into each bit of the adder

pub const ALU: usize = 512; // what the ALU gives

pub const SHIFT_SRC: usize = 576; // copy of RS1

pub const STORE_OLD: usize = 640; // copy of LOAD_VAL

pub const STORE_SRC: usize = 704; // copy of RS2

// Flags, offset, addresses and the instruction.
pub const FLAGS: usize = 768; // 16 flag bits

pub const OFF: usize = 784; // byte offset of an access, 3 bits

pub const RAM_ADDR: usize = 792; // word address of an access, 8 bits

pub const PC: usize = 800; // micro-PC, 8 bits

pub const FETCH: usize = 832; // the instruction bus, 64 bits: 808..831 stay empty, so that it is aligned

// The flags.
pub const SUB: usize = FLAGS; // subtract

pub const WE: usize = FLAGS + 1; // write the destination register

pub const IS_LOAD: usize = FLAGS + 2; // load

pub const IS_STORE: usize = FLAGS + 3; // store

pub const IS_ARITH: usize = FLAGS + 4; // arithmetic: the adder gives ALU

pub const HALT: usize = FLAGS + 5; // the program ends: derived

pub const IS_SHIFT: usize = FLAGS + 6; // shift: the shifter gives ALU

pub const IS_LOGIC: usize = FLAGS + 7; // logic: named by no row

pub const LD_BYTE: usize = FLAGS + 8; // load of a byte

pub const LD_HALF: usize = FLAGS + 9; // load of two bytes

pub const LD_WORD: usize = FLAGS + 10; // load of all 64 bits

pub const TAKEN: usize = FLAGS + 11; // the branch is taken: derived

// Fields of the instruction bus, one after the other: the column of each one's bit 0.
pub const FETCH_OP: usize = FETCH; // opcode

pub const FETCH_RD: usize = FETCH_OP + OP_BITS; // index of rd

pub const FETCH_RS1: usize = FETCH_RD + IDX_BITS; // index of rs1

pub const FETCH_RS2: usize = FETCH_RS1 + IDX_BITS; // index of rs2

pub const FETCH_FUNCT3: usize = FETCH_RS2 + IDX_BITS; // funct3

pub const FETCH_IMM: usize = FETCH_FUNCT3 + FUNCT3_BITS; // immediate

// Byte lanes, 8 columns each, one a lane a; then two gates.
pub const EQA: usize = 896; // OFF is a

pub const PA: usize = 904; // the low two bits of OFF are those of a

pub const EQB: usize = 912; // (OFF + 1) mod 8 is a

pub const PB: usize = 920; // the low two bits of OFF are those of a - 1 mod 8

pub const CA: usize = 928; // EQA and LD_BYTE

pub const CH: usize = 936; // EQA and LD_HALF

pub const CH2: usize = 944; // EQB and LD_HALF

pub const NH: usize = 952; // neither LD_WORD nor LD_HALF

pub const WNL: usize = 953; // WE and not IS_LOAD

// Chains and comparisons.
pub const ZERO: usize = 1024; // 64: the ALU bits up to this one are 0

pub const OPSYS: usize = 1088; // 7: the opcode bits up to this one are those of 0x73

pub const OPBR: usize = 1095; // 7: the opcode bits up to this one are those of 0x63

pub const EQFM: usize = 1102; // 8: the low two bits of funct3 are those of f

pub const EQF: usize = 1110; // 8: funct3 is f

pub const LTSA: usize = 1118; // signed less: the signs differ and RS1 is negative

pub const LTSB: usize = 1119; // signed less: the signs agree and ALU is negative

pub const LTUA: usize = 1120; // carry out: both operands have bit 63

pub const LTUB: usize = 1121; // carry out: a carry comes in and one operand has bit 63

pub const CEQ: usize = 1122; // funct3 is 0 or 1, and ALU is 0

pub const CLT: usize = 1123; // funct3 is 4 or 5, and signed less

pub const CLU: usize = 1124; // funct3 is 6 or 7, and unsigned less

pub const ZE16: usize = 1125; // load, not LD_WORD

pub const ZE8: usize = 1126; // load, neither LD_WORD nor LD_HALF

pub const USED: usize = 1127; // the first column that no row names

// The widths above, in that order.
#[tactic(auto, unfolding(crate::specs::Columns::field_widths))]
pub fn field_widths() -> [usize; 5]
    ensures { result ≡ field_widths }
{
    [W_BITS, OP_BITS, IDX_BITS, FUNCT3_BITS, IMM_BITS]
}

// Every column above, in that order.
#[tactic(auto, unfolding(crate::specs::Columns::witness_layout))]
pub fn witness_layout() -> [usize; 63]
    ensures { result ≡ witness_layout }
{
    [
        W_COLS,
        ONE_COL,
        M,
        X_COLS,
        RS1,
        RS2,
        RD,
        LOAD_VAL,
        SHIFT_OUT,
        T1,
        T2,
        CARRY_OFF,
        ALU,
        SHIFT_SRC,
        STORE_OLD,
        STORE_SRC,
        FLAGS,
        OFF,
        RAM_ADDR,
        PC,
        FETCH,
        SUB,
        WE,
        IS_LOAD,
        IS_STORE,
        IS_ARITH,
        HALT,
        IS_SHIFT,
        IS_LOGIC,
        LD_BYTE,
        LD_HALF,
        LD_WORD,
        TAKEN,
        FETCH_OP,
        FETCH_RD,
        FETCH_RS1,
        FETCH_RS2,
        FETCH_FUNCT3,
        FETCH_IMM,
        EQA,
        PA,
        EQB,
        PB,
        CA,
        CH,
        CH2,
        NH,
        WNL,
        ZERO,
        OPSYS,
        OPBR,
        EQFM,
        EQF,
        LTSA,
        LTSB,
        LTUA,
        LTUB,
        CEQ,
        CLT,
        CLU,
        ZE16,
        ZE8,
        USED,
    ]
}
