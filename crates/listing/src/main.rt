// Prints each word of the house listing as 8 lower-case hex digits and a line end.
#![tactic(auto)]

use std::io;

fn main(rt: HostRuntime) -> io::Result<()> {
    let words = circuit::build_circuit();
    printer::print_words(&mut rt.stdout(), &words)
}
