// What an instruction says of branching.
ghost use Rattle.std.specs.Prelude.{◌≡◌};
ghost use Rattle.step.specs.Branch.{below_signed, branch_holds};
ghost use Rattle.witness.specs.Reading.{is_reserved, reading};

#[derive(Clone, Copy)]
pub enum BranchReading {
    NoBranch,
    Taken,
    NotTaken,
    Reserved,
}

// Where the signs differ, the larger word is the negative number.
fn below_signed(x: u64, y: u64) -> bool
    ensures { result ≡ below_signed x y }
{
    if x / 0x8000_0000_0000_0000 == y / 0x8000_0000_0000_0000 {
        return x < y;
    }
    y < x
}

#[tactic(auto, unfolding(step::specs::Branch::branch_holds))]
fn branch_holds(funct3: u32, x: u64, y: u64) -> bool
    ensures { result ≡ branch_holds funct3 x y }
{
    match funct3 {
        0 => x == y,
        1 => x != y,
        4 => below_signed(x, y),
        5 => !below_signed(x, y),
        6 => x < y,
        7 => !(x < y),
        _ => false,
    }
}

// Under the branch opcode the ISA has no instruction with one of these two.
fn is_reserved(funct3: u32) -> bool
    ensures { result ≡ is_reserved funct3 }
{
    funct3 == 2 || funct3 == 3
}

// The opcode is compared whole, and of funct3 only the low three bits count.
#[tactic(auto, unfolding(crate::specs::Reading::reading))]
pub fn read_branch(opcode: u32, funct3: u32, rs1: u64, rs2: u64) -> BranchReading
    ensures { result ≡ reading opcode funct3 rs1 rs2 }
{
    // What the tests need, and then the answers in the definition's order.
    let low = funct3 % 8;
    let reserved = is_reserved(low);
    if opcode != 0x63 {
        return BranchReading::NoBranch;
    }
    if reserved {
        return BranchReading::Reserved;
    }
    if branch_holds(low, rs1, rs2) {
        return BranchReading::Taken;
    }
    BranchReading::NotTaken
}
