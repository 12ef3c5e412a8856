// What a keyed text says, the answer at a fault, and the text's end.
#![tactic(auto)]

ghost use Rattle.std.specs.Prelude.{◌≡◌, cond, ◌≤◌, length, drop};
ghost use Rattle.base_program.specs.declared.Program.{Program};
ghost use Rattle.text_keyed.specs.Text.{bad, clean, lines_of, bytes_behind, ended};

use base_program::{Finding, Program};
use text_items::find;
use text_opening::is_close;

// The record, or a fault with the empty record.
#[derive(Clone, Copy)]
pub struct Keyed {
    pub finding: Finding,
    pub program: Program,
}

// A fault at its place, with the empty record.
pub fn fault(number: u8, table: u8, entry: u8) -> Keyed
    ensures { result ≡ bad number table entry }
{
    Keyed {
        finding: Finding::Fault(number, table, entry),
        program: base_program::empty_program(),
    }
}

// The last `)`, and no byte behind it.
pub fn ends_text(s: &[u8], at: usize) -> bool
    requires { at ≤ length s.now }
    ensures { (p : Program) → cond result (clean p) (bad 1 0 0) ≡ ended p (lines_of (drop at s.now)) (bytes_behind (drop at s.now)) }
{
    let e = find(s, at, 10);
    if e == s.len() {
        return false;
    }
    if e + 1 < s.len() {
        return false;
    }
    is_close(&s[at..e])
}
