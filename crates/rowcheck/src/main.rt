// Reads one row from standard input and prints the verdict of the check.
#![tactic(auto)]

ghost use Rattle.std.specs.Prelude.{◌≤◌, length};
ghost use Rattle.text.specs.Put.{Placed};
ghost use Rattle.page.specs.Line.{answer_line};
ghost use Rattle.cellprism.specs.Answer.{row_checked};

use printer::input;
use std::io;
use std::io::Write;

// Puts the line of the verdict at the start, and gives how many bytes it has. Each of its numbers is given room for 20 digits.
fn answer(row: &[u8], out: &mut [u8]) -> usize
    requires { 86 ≤ length out.old }
    ensures { Placed 0 (answer_line (row_checked row.now)) out.old out.new result }
{
    page::line::put_answer(out, 0, cellprism::check_bytes(row))
}

// One byte more than a row has: what is longer is refused, and endless input ends.
fn main(rt: HostRuntime) -> io::Result<()> {
    let mut row = [0u8; 65537];
    let n = input::read_full(&mut rt.stdin(), &mut row)?;
    let mut line = [0u8; 88];
    let end = answer(&row[..n], &mut line);
    rt.stdout().write_all(&line[..end])
}
