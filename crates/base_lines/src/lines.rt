// The lines of bytes, one after the other.
ghost use Rattle.std.specs.Prelude.{◌≡◌};
ghost use Rattle.std.specs.Iterator.{YieldsFirstRef, item_count};
ghost use Rattle.base_lines.specs.Left.{lines_left};
ghost use Rattle.base_lines.specs.Line.{lines};

use crate::place::{line_len, next_line};

// What is left of the bytes.
#[derive(Clone, Copy)]
pub struct Lines<'a>(&'a [u8]);

impl<'a> Iterator for Lines<'a> {
    ghost use Rattle.base_lines.specs.Left.{lines_left};

    type Item = &'a [u8];

    ghost next_gives = { YieldsFirstRef lines_left };

    ghost remaining = { item_count lines_left };

    fn next(&mut self) -> Option<&'a [u8]> {
        let s = self.0;
        if s.is_empty() {
            return None;
        }
        self.0 = &s[next_line(s, 0)..];
        Some(&s[..line_len(s)])
    }
}

// The lines of s, each without its byte 10.
pub fn each_line(s: &[u8]) -> Lines<'_>
    ensures { lines_left result ≡ lines s.now }
{
    Lines(s)
}
