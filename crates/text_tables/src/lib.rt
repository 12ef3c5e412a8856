// The tables of a keyed text, read into a record.
#![tactic(auto)]

ghost use Rattle.std.specs.Prelude.{◌≡◌, ◌≤◌, length, drop};
ghost use Rattle.text_keyed.specs.Text.{lines_of, bytes_behind, tables_read};

use base_program::{Finding, Slot};
use text_items::find;
use text_keyed::{Keyed, ends_text, fault};
use text_lines::read_nth;
use text_opening::{Sizes, is_close, judge_table};

// The tables, each its first line and its entries up to `)`, and what stands behind them. A fault is answered where it is met.
pub fn read_tables(s: &[u8], from: usize, sizes: Sizes) -> Keyed
    requires { from ≤ length s.now }
    ensures { result ≡ tables_read sizes.locations sizes.sums (lines_of (drop from s.now)) (bytes_behind (drop from s.now)) }
{
    let mut program = base_program::empty_program();
    program.locations = sizes.locations;
    program.sums = sizes.sums;
    let mut at = from;
    'tables: for t in 0..3 {
        let table = t as u8 + 1;
        let a = at;
        let e = find(s, a, 10);
        if e == s.len() {
            return fault(1, table, 0);
        }
        at = e + 1;
        let v = match judge_table(&s[a..e], table) {
            Err(k) => return fault(k, table, 0),
            Ok(v) => v,
        };
        // Table 3 has no interval.
        if t < 2 {
            program.intervals[t] = v;
        }
        let mut n = 1u8;
        'entries: loop {
            let a = at;
            let e = find(s, a, 10);
            if e == s.len() {
                return fault(1, table, n);
            }
            at = e + 1;
            if is_close(&s[a..e]) {
                break 'entries;
            }
            let slot = 99 * t + n as usize - 1;
            match read_nth(&s[a..e], n) {
                Err(k) => return fault(k, table, n),
                Ok(instruction) => program.slots[slot] = Slot { instruction },
            }
            n += 1;
        }
        program.lengths[t] = n - 1;
    }
    if ends_text(s, at) {
        return Keyed {
            finding: Finding::Clean,
            program,
        };
    }
    fault(1, 0, 0)
}
