// The row maker, assembly and the branch reading.
ghost use Rattle.std.specs.Prelude.{◌≡◌};
ghost use Rattle.witness.specs.Assembly.{assembly_called};
ghost use Rattle.witness.specs.Reading.{reading};
ghost use Rattle.compare.specs.Replies.{reply, called_reply};
ghost use Rattle.compare.specs.Records.{row_reply, reading_number};

#[unsafe(no_mangle)]
pub extern "C" fn compare_witness_row(
    cycle: &[u64],
    rom: &[u64],
    public: &[u64],
    row: &mut [u64],
) -> u64
    ensures { reply result row.new ≡ row_reply cycle.now rom.now public.now row.old }
{
    compare::makers::compare_witness_row(cycle, rom, public, row)
}

#[unsafe(no_mangle)]
pub extern "C" fn compare_assemble(
    cpi: usize,
    cycles: &[u64],
    public: &[u64],
    batch: &mut [u64],
) -> u64
    ensures { reply result batch.new ≡ called_reply (assembly_called cpi cycles.now public.now batch.old) }
{
    compare::makers::compare_assemble(cpi, cycles, public, batch)
}

#[unsafe(no_mangle)]
pub extern "C" fn compare_read_branch(opcode: u32, funct3: u32, rs1: u64, rs2: u64) -> u64
    ensures { result ≡ reading_number (reading opcode funct3 rs1 rs2) }
{
    compare::makers::compare_read_branch(opcode, funct3, rs1, rs2)
}
