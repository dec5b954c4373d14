// Prints each word of the strict listing as 8 lower-case hex digits and a line end.
#![tactic(auto)]

use std::io;

fn main(rt: HostRuntime) -> io::Result<()> {
    let words = strict::build_strict();
    printer::print_words(&mut rt.stdout(), &words)
}
