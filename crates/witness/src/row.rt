// The row of one cycle, from its record and its ROM row. All of its fields lie in 18 words of 64 columns.
ghost use Rattle.std.specs.Prelude.{◌≡◌, ◌+◌, ◌≤◌, length};
ghost use Rattle.base.specs.Lists.{from};
ghost use Rattle.layout.specs.Questions.{Called};
ghost use Rattle.layout.specs.Batch.{ROW-WORDS};
ghost use Rattle.witness.specs.Table.{subtracts, second_operand, alu_of, bus_rd};
ghost use Rattle.witness.specs.RowWords.{flags_word, bus_word, given_words, row_words, bit_in, bits_from};
ghost use Rattle.witness.specs.Row.{bit_word, row_word, row_called};
ghost use Rattle.base.specs.Written.{Written};

use crate::records::{CycleRecord, RomRow};
use crate::upper::{ask_public, write_upper};
use filler::derive::{GivenWords, derive, word_of, word_of_bits};
use layout::Refusal;

fn subtracts(cycle: CycleRecord) -> bool
    ensures { result ≡ subtracts cycle }
{
    cycle.is_arith & cycle.is_sub_op
}

// Columns 768 to 831.
#[tactic(auto, unfolding(crate::specs::RowWords::flags_word))]
fn flags_word(cycle: CycleRecord) -> u64
    ensures { result ≡ flags_word cycle }
{
    let low = word_of_bits([
        subtracts(cycle),
        cycle.we,
        cycle.is_load,
        cycle.is_store,
        cycle.is_arith,
        cycle.halted_latch,
    ]);
    let high = word_of_bits([
        cycle.is_shift,
        cycle.is_logic,
        cycle.ld_byte,
        cycle.ld_half,
        cycle.ld_word,
        cycle.branch_taken,
    ]);
    let off = cycle.byte_offset as u64 % 8;
    let address = cycle.ram_addr as u64 % 256;
    let pc = cycle.micro_pc as u64 % 256;
    low + 64 * (high + 1024 * (off + 256 * (address + 256 * pc)))
}

fn bus_rd(rd: usize) -> u64
    ensures { result ≡ bus_rd rd }
{
    if rd == 0 {
        return 32;
    }
    rd as u64
}

// Columns 832 to 895.
#[tactic(auto, unfolding(crate::specs::RowWords::bus_word))]
fn bus_word(rom: RomRow) -> u64
    ensures { result ≡ bus_word rom }
{
    let op = rom.raw as u64 % 128;
    let rd = bus_rd(rom.rd) % 64;
    let rs1 = rom.rs1 as u64 % 64;
    let rs2 = rom.rs2 as u64 % 64;
    let funct3 = rom.funct3 as u64 % 8;
    let imm = rom.imm % 8192;
    op + 128 * (rd + 64 * (rs1 + 64 * (rs2 + 64 * (funct3 + 8 * imm))))
}

// The adder subtracts by adding the complement and one.
fn second_operand(cycle: CycleRecord) -> u64
    ensures { result ≡ second_operand cycle }
{
    if subtracts(cycle) {
        return !cycle.alu_b;
    }
    cycle.alu_b
}

fn alu(cycle: CycleRecord) -> u64
    ensures { result ≡ alu_of cycle }
{
    if cycle.is_arith {
        let sum = cycle.alu_a.wrapping_add(second_operand(cycle));
        return sum.wrapping_add(word_of(subtracts(cycle)));
    }
    cycle.alu_out
}

fn given_words(cycle: CycleRecord, rom: RomRow) -> GivenWords
    ensures { result ≡ given_words cycle rom }
{
    GivenWords {
        rs1: cycle.rs1_val,
        rs2: cycle.rs2_val,
        load: cycle.ram_word,
        t1: cycle.alu_a,
        t2: second_operand(cycle),
        alu: alu(cycle),
        flags: flags_word(cycle),
        fetch: bus_word(rom),
    }
}

// The derived words are those that the filler writes, but that halt and taken, which stand among the flags, are the record's.
fn row_words(cycle: CycleRecord, rom: RomRow) -> [u64; 18]
    ensures { result ≡ row_words cycle rom }
{
    let g = given_words(cycle, rom);
    let w = derive(g);
    [
        g.rs1,
        g.rs2,
        cycle.rd_val,
        g.load,
        cycle.shift_out,
        g.t1,
        g.t2,
        w.carry,
        g.alu,
        g.rs1,
        g.load,
        g.rs2,
        g.flags,
        g.fetch,
        w.lanes,
        0,
        w.zeros,
        w.branches,
    ]
}

// 64 columns from word `start` on, the low bit first: a column's low word is its bit, its high word 0. `packed` has the same for a batch: a
// public function for both would ask for room.
fn write_word(w: u64, start: usize, row: &mut [u64])
    requires { start + 128 ≤ length row.old }
    ensures { Written (bits_from start w) start (start + 128) row.old row.new }
{
    let mut rest = w;
    for i in 0..64 {
        row[start + 2 * i] = rest % 2;
        row[start + 2 * i + 1] = 0;
        rest /= 2;
    }
}

fn write_words(words: &[u64], row: &mut [u64])
    requires { 4096 ≤ length row.old }
    ensures { Written (bit_word (bit_in words.now)) 0 4096 row.old row.new }
{
    for j in 0..32 {
        let w = words.get(j).copied().unwrap_or(0);
        write_word(w, 128 * j, row);
    }
}

fn write_row(words: &[u64], public: &[u64], row: &mut [u64])
    requires { (length row.old ≡ ROW-WORDS) × (length public.now ≤ 4094) }
    ensures { row.new ≡ from 0 ROW-WORDS (row_word (bit_in words.now) public.now) }
{
    write_words(words, row);
    write_upper(public, 4096, row);
}

// Questions 2 and 3: a row is a batch of one cycle. A no leaves the row as it came; a yes leaves nothing of it.
#[tactic(auto, unfolding(crate::specs::Row::row_called))]
pub fn witness_row(
    cycle: CycleRecord,
    rom: RomRow,
    public: &[u64],
    row: &mut [u64],
) -> Result<(), Refusal>
    ensures { ◌≡◌ {A = Called} (record { answer = result; batch = row.new })
        (row_called cycle rom public.now row.old) }
{
    ask_public(1, public.len(), row.len())?;
    let words = row_words(cycle, rom);
    write_row(&words, public, row);
    Ok(())
}
