// Changes to a record, a line each. `@set i N`, `@set m N`, `@set v T N` and `@set n T N` set I, M, the interval of Table T
// and how many entries it has; `@put T E ..` puts an entry (module `raw`).
#![tactic(auto)]

mod raw;

ghost use Rattle.std.specs.Prelude.{◌<◌};

use base_program::{Program, Slot};
use raw::instruction;

// The slot of entry e of Table t, both from 1.
fn slot(t: u64, e: u64) -> usize
    ensures { result < 297 }
{
    let row = t % 4;
    let n = e % 100;
    if row == 0 || n == 0 {
        return 0;
    }
    ((row - 1) * 99 + n - 1) as usize
}

// The record with an entry of bare numbers put; without one, a 95.
pub fn put(p: Program, line: &[u8]) -> Program {
    let mut r = p;
    let k = slot(base_lines::value(line, 1), base_lines::value(line, 2));
    r.slots[k] = Slot {
        instruction: instruction(line),
    };
    r
}

fn set(p: Program, line: &[u8]) -> Program {
    let mut r = p;
    let n = base_lines::value(line, 2);
    let of_table = base_lines::value(line, 3);
    match base_lines::from_word(line, 1).first() {
        None => {}
        Some(b'i') => r.locations = (n % 65536) as u16,
        Some(b'm') => r.sums = (n % 65536) as u16,
        Some(b'v') => r.intervals[if n == 1 { 0 } else { 1 }] = (of_table % 4294967296) as u32,
        Some(_) => {
            let row = match n {
                1 => 0,
                2 => 1,
                _ => 2,
            };
            r.lengths[row] = (of_table % 256) as u8;
        }
    }
    r
}

// The record after one line.
pub fn changed(p: Program, line: &[u8]) -> Program {
    match test_cases::kind_of(line) {
        Some(b's') => set(p, line),
        Some(b'p') => put(p, line),
        _ => p,
    }
}
