// The row maker, assembly and the branch reading.
ghost use Rattle.std.specs.Prelude.{◌≡◌, ◌≤◌, length};
ghost use Rattle.witness.specs.Assembly.{assembly_called};
ghost use Rattle.witness.specs.Reading.{reading};
ghost use Rattle.compare.specs.Replies.{reply, called_reply};
ghost use Rattle.compare.specs.Records.{record_of, kind_of, rom_row_of, row_reply, reading_number};

use crate::check::NONE;
use crate::fills::asked_number;
use witness::branch::BranchReading;
use witness::records::{CycleRecord, RomRow, VirtualKind};

fn record_of(words: &[u64]) -> CycleRecord
    requires { 30 ≤ length words.now }
    ensures { result ≡ record_of words.now }
{
    let flag = |i: usize| words[i] % 2 == 1;
    CycleRecord {
        micro_pc: words[0] as usize,
        rs1_val: words[1],
        rs2_val: words[2],
        rd_val: words[3],
        rd_old: words[4],
        we: flag(5),
        rd: words[6] as usize,
        ram_addr: words[7] as usize,
        ram_word: words[8],
        ram_old: words[9],
        ram_new: words[10],
        byte_offset: (words[11] % 256) as u8,
        store_width: (words[12] % 256) as u8,
        store_src: words[13],
        branch_taken: flag(14),
        next_pc: words[15] as usize,
        alu_a: words[16],
        alu_b: words[17],
        alu_out: words[18],
        shift_out: words[19],
        is_arith: flag(20),
        is_logic: flag(21),
        is_sub_op: flag(22),
        is_shift: flag(23),
        is_load: flag(24),
        is_store: flag(25),
        ld_byte: flag(26),
        ld_half: flag(27),
        ld_word: flag(28),
        halted_latch: flag(29),
    }
}

fn kind_of(kind: u64, stage: u64) -> VirtualKind
    ensures { result ≡ kind_of kind stage }
{
    match kind % 8 {
        0 => VirtualKind::Alu,
        1 => VirtualKind::ShiftStage {
            stage: stage as usize,
        },
        2 => VirtualKind::Load,
        3 => VirtualKind::Store,
        4 => VirtualKind::Branch,
        5 => VirtualKind::Upper,
        6 => VirtualKind::Jump,
        _ => VirtualKind::System,
    }
}

fn rom_row_of(words: &[u64]) -> RomRow
    requires { 8 ≤ length words.now }
    ensures { result ≡ rom_row_of words.now }
{
    RomRow {
        kind: kind_of(words[0], words[1]),
        rd: words[2] as usize,
        rs1: words[3] as usize,
        rs2: words[4] as usize,
        funct3: (words[5] % 0x100000000) as u32,
        imm: words[6],
        raw: (words[7] % 0x100000000) as u32,
    }
}

pub fn compare_witness_row(cycle: &[u64], rom: &[u64], public: &[u64], row: &mut [u64]) -> u64
    ensures { reply result row.new ≡ row_reply cycle.now rom.now public.now row.old }
{
    if cycle.len() < 30 {
        return NONE;
    }
    if rom.len() < 8 {
        return NONE;
    }
    asked_number(witness::row::witness_row(record_of(cycle), rom_row_of(rom), public, row))
}

pub fn compare_assemble(cpi: usize, cycles: &[u64], public: &[u64], batch: &mut [u64]) -> u64
    ensures { reply result batch.new ≡ called_reply (assembly_called cpi cycles.now public.now batch.old) }
{
    asked_number(witness::assembly::assemble_instance_z(cpi, cycles, public, batch))
}

pub fn compare_read_branch(opcode: u32, funct3: u32, rs1: u64, rs2: u64) -> u64
    ensures { result ≡ reading_number (reading opcode funct3 rs1 rs2) }
{
    match witness::branch::read_branch(opcode, funct3, rs1, rs2) {
        BranchReading::NoBranch => 0,
        BranchReading::Taken => 1,
        BranchReading::NotTaken => 2,
        BranchReading::Reserved => 3,
    }
}
