// Text in bytes of ASCII: numbers as digits, and texts put one behind the other into lent bytes.
#![tactic(auto)]

ghost use Rattle.std.specs.Prelude.{◌≡◌, ◌<◌};
ghost use Rattle.base.specs.Text.{left};
ghost use Rattle.text.specs.Digits.{decimal, hex_digit, hex};
ghost use Rattle.text.specs.Decimal.{decimal_of};
ghost use Rattle.text.specs.Put.{Put};

// A number's decimal digits, right-aligned in as many bytes as the largest number takes, and the index of the first: `decimal_of`
// (docs/API.md) promises both, and nothing here allocates, so this is no String.
#[derive(Clone, Copy)]
pub struct Decimal {
    pub bytes: [u8; 20],
    pub start: usize,
}

pub fn decimal_digits(n: usize) -> Decimal
    ensures { result ≡ decimal_of n }
{
    let mut bytes = [b' '; 20];
    bytes[19] = b'0' + (n % 10) as u8;
    let mut start: usize = 19;
    let mut rest = n / 10;
    // As many turns as digits are left: no range knows their number beforehand.
    while 0 < rest {
        start -= 1;
        bytes[start] = b'0' + (rest % 10) as u8;
        rest /= 10;
    }
    Decimal { bytes, start }
}

fn hex_digit(n: u64) -> u8
    requires { n < 16 }
    ensures { result ≡ hex_digit n }
{
    if n < 10 {
        b'0' + n as u8
    } else {
        b'a' + (n - 10) as u8
    }
}

// The 16 hexadecimal digits of a word, highest first.
pub fn hex_digits(n: u64) -> [u8; 16]
    ensures { result ≡ hex 16 n }
{
    let mut digits = [b'0'; 16];
    for (i, digit) in digits.iter_mut().enumerate() {
        *digit = hex_digit((n >> (60 - 4 * i)) % 16);
    }
    digits
}

// Puts a text at an index, left-aligned in a width, and gives the index behind it. Where it does not fit nothing is put, and the
// index stays.
pub fn put_left(out: &mut [u8], at: usize, width: usize, part: &[u8]) -> usize
    ensures { Put at (left width part.now) out.old out.new result }
{
    let n = part.len().max(width);
    if out.len() < at || out.len() - at < n {
        return at;
    }
    let end = at + part.len();
    out[at..end].copy_from_slice(part);
    out[end..at + n].fill(b' ');
    at + n
}

// The same for a text as it is.
pub fn put(out: &mut [u8], at: usize, part: &[u8]) -> usize
    ensures { Put at part.now out.old out.new result }
{
    put_left(out, at, 0, part)
}

// The same for a number.
pub fn put_decimal(out: &mut [u8], at: usize, n: usize) -> usize
    ensures { Put at (decimal n) out.old out.new result }
{
    let digits = decimal_digits(n);
    let bytes = digits.bytes;
    let start = digits.start;
    put(out, at, &bytes[start..])
}
