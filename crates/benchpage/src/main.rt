// Reads one row from standard input and prints the pages of the first row of the house listing that it fails, or, where there is none,
// the line that rowcheck prints.
#![tactic(auto)]

mod show;

use printer::input;
use std::io;
use std::io::Write;

// One byte more than a row has: what is longer is refused, and endless input ends.
fn main(rt: HostRuntime) -> io::Result<()> {
    let mut row = [0u8; 65537];
    let n = input::read_full(&mut rt.stdin(), &mut row)?;
    let mut out = [0u8; 18300];
    let end = show::show(&row[..n], &mut out);
    rt.stdout().write_all(&out[..end])
}
