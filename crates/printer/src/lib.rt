// Reads and prints for the programs: fills a buffer from a reader, and prints the words of a listing.
#![tactic(auto)]

pub mod input;

ghost use Rattle.std.specs.Prelude.{◌≡◌, flat_map, OnOk};
ghost use Rattle.std.specs.Io.KnownBytes.{Appends};
ghost use Rattle.printer.specs.Hex.{line_of};

use std::io;
use std::io::Write;

// The digits over line ends: the last one stays.
fn line(w: u32) -> [u8; 9]
    ensures { result ≡ line_of w }
{
    let digits = text::hex_digits(w as u64);
    let mut line = [b'\n'; 9];
    text::put(&mut line, 0, &digits[8..]);
    line
}

// Each word as 8 lower-case hex digits and a line end.
pub fn print_words<W: Write>(out: &mut W, words: &[u32]) -> io::Result<()>
    ensures { OnOk result (Appends (W.contents out.old) (W.contents out.new) (flat_map line_of words.now)) }
{
    for word in words {
        out.write_all(&line(*word))?;
    }
    Ok(())
}
