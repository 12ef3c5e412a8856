// Keyed fixed values (F, a multiplier, an offset), each from the whole of a byte slice.
#![tactic(auto)]

ghost use Rattle.std.specs.Prelude.{◌≡◌, false, ◌^◌, ◌≤◌, ◌<◌};
ghost use Rattle.std.specs.Float.{binary32};
ghost use Rattle.std.specs.Float.Ieee.{round};
ghost use Rattle.text_number.specs.Keyed.{nearest, pointed, unsigned_of, fixed_of};

use text_number::{all_digits, digits_from, is_numeral};

// 10 ^ k.
fn power_of_ten(k: usize) -> u16
    requires { k ≤ 4 }
    ensures { result ≡ 10 ^ k }
{
    match k {
        0 => 1,
        1 => 10,
        2 => 100,
        3 => 1000,
        _ => 10000,
    }
}

// n / d: both are exact in binary32, so the one division rounds once.
fn nearest_fraction(n: u32, d: u16) -> f32
    requires { (n < 100000) × (0 < d) }
    ensures { result ≡ round binary32 false n d }
{
    n as f32 / d as f32
}

// n / 10 ^ k, negated where `negative`; zero is +0 either way.
fn keyed_value(negative: bool, n: u32, k: usize) -> f32
    requires { (n < 100000) × (k ≤ 4) }
    ensures { result ≡ nearest negative n k }
{
    let size = nearest_fraction(n, power_of_ten(k));
    if 0 < n {
        if negative {
            return -size;
        }
    }
    size
}

// Digits a, and behind a point digits b.
fn read_pointed(negative: bool, a: &[u8], b: &[u8]) -> Option<f32>
    ensures { result ≡ pointed negative a.now b.now }
{
    if a.is_empty() || b.is_empty() || 5 < a.len() + b.len() {
        return None;
    }
    if all_digits(a) && all_digits(b) {
        let n = digits_from(digits_from(0, a), b);
        return Some(keyed_value(negative, n, b.len()));
    }
    None
}

// What stands behind the sign; more than 5 digits and a point are refused unread.
fn read_unsigned(negative: bool, s: &[u8]) -> Option<f32>
    ensures { result ≡ unsigned_of negative s.now }
{
    if 6 < s.len() {
        return None;
    }
    match s.iter().position(|&b| b == b'.') {
        Some(p) => read_pointed(negative, &s[..p], &s[p + 1..]),
        None if is_numeral(s, 5) => Some(keyed_value(negative, digits_from(0, s), 0)),
        None => None,
    }
}

// A fixed value: an optional `-`, 1 to 5 digits, and at most one point with a digit on each side.
pub fn read_fixed(s: &[u8]) -> Option<f32>
    ensures { result ≡ fixed_of s.now }
{
    if 1 <= s.len() && s[0] == b'-' {
        read_unsigned(true, &s[1..])
    } else {
        read_unsigned(false, s)
    }
}
