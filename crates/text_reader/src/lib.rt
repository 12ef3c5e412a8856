// A keyed text, read into the record of a program, or its first fault and place.
#![tactic(auto)]

ghost use Rattle.std.specs.Prelude.{◌≡◌};
ghost use Rattle.text_keyed.specs.Text.{text_of};

use text_items::find;
use text_keyed::{Keyed, fault};
use text_opening::judge_program;
use text_tables::read_tables;

// What a keyed text says.
pub fn read_text(s: &[u8]) -> Keyed
    ensures { result ≡ text_of s.now }
{
    if 16384 < s.len() {
        return fault(1, 0, 0);
    }
    let e = find(s, 0, 10);
    if e == s.len() {
        return fault(1, 0, 0);
    }
    match judge_program(&s[..e]) {
        Err(k) => fault(k, 0, 0),
        Ok(sizes) => read_tables(s, e + 1, sizes),
    }
}
