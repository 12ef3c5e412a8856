// Changes of the state and of the buffers, from one line: `@put KIND N V V ..` puts values at place N, from 1, and the following
// ones of the locations, sums, readings (bits in hexadecimal), counts or words of the ring; `@put KIND V` sets the position,
// filled count or id, and `@put KIND T V` the day or minute of Table T's last scan.
ghost use Rattle.std.specs.Prelude.{ℕ, ◌^◌, ◌<◌, ◌≤◌, IfSome};

use crate::Run;
use base_lines::{from_word, leading_number, value};
use spec_calls::State;

// The value of a hexadecimal digit.
fn digit(b: u8) -> Option<u64>
    ensures { IfSome result (λ d. d < 16) }
{
    match b {
        b'0'..=b'9' => Some(u64::from(b - b'0')),
        b'a'..=b'f' => Some(u64::from(b - b'a') + 10),
        _ => None,
    }
}

// The binary32 of a bit pattern; a NaN's patterns are above those of the infinities.
fn of_pattern(n: u32) -> f32 {
    if 0x7f80_0000 < n % 0x8000_0000 {
        return 0.0f32 / 0.0f32;
    }
    f32::from_bits(n)
}

// The binary32 whose bits s begins with, in hexadecimal.
pub fn float_at(s: &[u8]) -> f32 {
    let mut n = 0u64;
    for b in s {
        let Some(d) = digit(*b) else {
            break;
        };
        n = (n * 16 + d) % 4294967296;
    }
    of_pattern((n % 4294967296) as u32)
}

// The values of a line, from its third word on, at the place that its second word names, from 1, and the following ones.
fn put_values<T: Copy, F: Fn(&[u8]) -> T>(line: &[u8], out: &mut [T], read: F)
    requires { F.IsAlwaysCallable read }
{
    let Some(before) = value(line, 2).checked_sub(1) else {
        return;
    };
    let mut words = from_word(line, 3);
    for x in out.iter_mut().skip(before as usize) {
        if words.is_empty() {
            break;
        }
        *x = read(words);
        words = from_word(words, 1);
    }
}

fn half(line: &[u8], k: usize) -> u16 {
    (value(line, k) % 65536) as u16
}

fn put_state(line: &[u8], field: u8, s: &mut State) {
    let n = half(line, 2);
    let t = (value(line, 2) % 2) as usize;
    let v = half(line, 3);
    match field {
        b'p' => s.position = n,
        b'f' => s.filled = n,
        b'i' => s.array = n,
        b'd' => s.days[1 - t] = v,
        b'm' => s.minutes[1 - t] = v,
        _ => {}
    }
}

impl Run {
    pub fn put(&mut self, line: &[u8]) {
        let Some(field) = from_word(line, 1).first() else {
            return;
        };
        match *field {
            b'l' => put_values(line, &mut self.locations, float_at),
            b's' => put_values(line, &mut self.sums, float_at),
            b'r' => put_values(line, &mut self.readings, float_at),
            b'c' => put_values(
                line,
                &mut self.counts,
                |s| (leading_number(s) % 4294967296) as u32,
            ),
            b'w' => put_values(line, &mut self.ring, |s| (leading_number(s) % 65536) as u16),
            field => put_state(line, field, &mut self.state),
        }
    }
}
