// What the interpreter and the expander hand over: plain data by value, with their names.

// One cycle of a run.
#[derive(Clone, Copy)]
pub struct CycleRecord {
    pub micro_pc: usize,
    pub rs1_val: u64,
    pub rs2_val: u64,
    pub rd_val: u64,
    pub rd_old: u64,
    pub we: bool,
    pub rd: usize,
    pub ram_addr: usize,
    pub ram_word: u64,
    pub ram_old: u64,
    pub ram_new: u64,
    pub byte_offset: u8,
    pub store_width: u8,
    pub store_src: u64,
    pub branch_taken: bool,
    pub next_pc: usize,
    pub alu_a: u64,
    pub alu_b: u64,
    pub alu_out: u64,
    pub shift_out: u64,
    pub is_arith: bool,
    pub is_logic: bool,
    pub is_sub_op: bool,
    pub is_shift: bool,
    pub is_load: bool,
    pub is_store: bool,
    pub ld_byte: bool,
    pub ld_half: bool,
    pub ld_word: bool,
    pub halted_latch: bool,
}

// What a virtual instruction is. A register shift goes in stages, and each knows its number.
#[derive(Clone, Copy)]
pub enum VirtualKind {
    Alu,
    ShiftStage { stage: usize },
    Load,
    Store,
    Branch,
    Upper,
    Jump,
    System,
}

// One row of the bytecode table.
#[derive(Clone, Copy)]
pub struct RomRow {
    pub kind: VirtualKind,
    pub rd: usize,
    pub rs1: usize,
    pub rs2: usize,
    pub funct3: u32,
    pub imm: u64,
    pub raw: u32,
}
