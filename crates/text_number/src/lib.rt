// Keyed numbers: a whole number or a location, each from the whole of a byte slice, and the digits that a fixed value is read from too.
#![tactic(auto)]

ghost use Rattle.std.specs.Prelude.{◌≡◌, true, ◌^◌, ◌<◌};
ghost use Rattle.text_number.specs.Keyed.{all_digits, value_from, is_numeral, whole_of, is_dashed, location_keyed};

// The number, and whether `--` stands behind it.
#[derive(Clone, Copy)]
pub struct KeyedLocation {
    pub number: u32,
    pub indexed: bool,
}

// Each byte is a digit, 48 to 57.
pub fn all_digits(s: &[u8]) -> bool
    ensures { result ≡ all_digits s.now }
{
    s.iter().all(|&b| 48 <= b && b <= 57)
}

// The number that v's digits and then those of s write.
pub fn digits_from(v: u32, s: &[u8]) -> u32
    requires { (all_digits s.now ≡ true) × (value_from v s.now < 10 ^ 7) }
    ensures { result ≡ value_from v s.now }
{
    let mut n = v;
    for b in s {
        let d = b - 48;
        n = n * 10 + d as u32;
    }
    n
}

// 1 to `most` digits and nothing else; a longer slice is refused unread.
pub fn is_numeral(s: &[u8], most: usize) -> bool
    ensures { result ≡ is_numeral most s.now }
{
    1 <= s.len() && s.len() <= most && all_digits(s)
}

// A whole number: 1 to 7 digits, leading zeros included.
pub fn read_whole(s: &[u8]) -> Option<u32>
    ensures { result ≡ whole_of s.now }
{
    if is_numeral(s, 7) {
        Some(digits_from(0, s))
    } else {
        None
    }
}

// The last two bytes are `--`.
fn is_dashed(s: &[u8]) -> bool
    ensures { result ≡ is_dashed s.now }
{
    let n = s.len();
    2 <= n && s[n - 2] == 45 && s[n - 1] == 45
}

// A location: a whole number, indexed where `--` stands behind it.
pub fn read_location(s: &[u8]) -> Option<KeyedLocation>
    ensures { result ≡ location_keyed s.now }
{
    let indexed = is_dashed(s);
    let e = if indexed { s.len() - 2 } else { s.len() };
    let number = read_whole(&s[..e])?;
    Some(KeyedLocation { number, indexed })
}
