// Words and numbers of a line.
ghost use Rattle.std.specs.Prelude.{◌≡◌, ◌<◌, ◌^◌};
ghost use Rattle.base_lines.specs.Line.{from_word};

// A line from word k on, the first being word 0: empty where there is none.
pub fn from_word(s: &[u8], k: usize) -> &[u8]
    ensures { result.now ≡ from_word k s.now }
{
    let mut left = k;
    for (i, b) in s.iter().enumerate() {
        if left == 0 {
            return &s[i..];
        }
        if *b == b' ' {
            left -= 1;
        }
    }
    &[]
}

// The number whose digits s begins with: 0 where there are none, and no digits past 2^32.
pub fn leading_number(s: &[u8]) -> u64
    ensures { result < 2 ^ 40 }
{
    let mut n = 0u64;
    for b in s {
        if !b.is_ascii_digit() || n > u64::from(u32::MAX) {
            break;
        }
        n = n * 10 + u64::from(*b - b'0');
    }
    n
}

// The number whose digits start at `at`: 0 where there are none.
pub fn line_number(s: &[u8], at: usize) -> u64
    ensures { result < 2 ^ 40 }
{
    leading_number(s.get(at..).unwrap_or(&[]))
}

// The k-th word of a line as a number: 0 where there is none.
pub fn value(s: &[u8], k: usize) -> u64
    ensures { result < 2 ^ 40 }
{
    leading_number(from_word(s, k))
}
