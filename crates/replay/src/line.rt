// A line of the vector file: a letter, and up to eight numbers in hex, each behind one blank.
ghost use Rattle.std.specs.Prelude.{◌≤◌};

// Numbers that are left out are 0.
#[derive(Clone, Copy)]
pub struct Line {
    pub letter: u8,
    pub numbers: [u64; 8],
}

// A byte that is no hex digit counts as 0: so no `from_str_radix`, which refuses one.
fn digit(b: u8) -> u64
    ensures { result ≤ 15 }
{
    match b {
        b'0'..=b'9' => u64::from(b - b'0'),
        b'a'..=b'f' => u64::from(b - b'a') + 10,
        _ => 0,
    }
}

// Of a longer number the last 64 bits count.
fn number(digits: &[u8]) -> u64 {
    digits.iter().fold(0, |n, b| n << 4 | digit(*b))
}

impl Line {
    // An empty line has no letter. What comes behind eight numbers is dropped.
    pub fn read(text: &[u8]) -> Option<Line> {
        let letter = *text.first()?;
        let mut numbers = [0; 8];
        let words = text.split(|b| *b == b' ').skip(1);
        for (place, word) in numbers.iter_mut().zip(words) {
            *place = number(word);
        }
        Some(Line { letter, numbers })
    }
}
