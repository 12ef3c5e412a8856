// The end of a line, and the items of one.
#![tactic(auto)]

ghost use Rattle.std.specs.Prelude.{◌≡◌, ◌≤◌, ◌<◌, ℕ, List, [], length, get_or};
ghost use Rattle.text_items.specs.Split.{is_plain, items_of};
ghost use Rattle.text_items.specs.Cut.{ByteFound, Word, ItemsCut};

use std::marker::Model;

// Where the next byte k stands, from `at` on, or the end.
// It counts by hand, four bytes a turn, for speed: asking for the end costs as much as asking for k.
pub fn find(s: &[u8], at: usize, k: u8) -> usize
    requires { at ≤ length s.now }
    ensures { ByteFound k s.now at result }
{
    let mut i = at;
    while 4 <= s.len() - i {
        if s[i] == k {
            return i;
        }
        if s[i + 1] == k {
            return i + 1;
        }
        if s[i + 2] == k {
            return i + 2;
        }
        if s[i + 3] == k {
            return i + 3;
        }
        i += 4;
    }
    while i < s.len() {
        if s[i] == k {
            return i;
        }
        i += 1;
    }
    i
}

// A byte that an item can have.
fn is_plain(b: u8) -> bool
    ensures { result ≡ is_plain b }
{
    !matches!(b, b' ' | b'(' | b')' | b'\n')
}

// Where the item that starts at `at` ends.
fn word_end(s: &[u8], at: usize) -> usize
    requires { at ≤ length s.now }
    ensures { Word s.now at result }
{
    for i in at..s.len() {
        if !is_plain(s[i]) {
            return i;
        }
    }
    s.len()
}

// The items of a line, none where one of them is none: how many, and where the first 8 start, each one byte behind the end of the one before.
#[derive(Drop)]
pub struct Items<'a> {
    line: &'a [u8],
    starts: [usize; 10],
    count: usize,
}

impl<'a> Model for Items<'a> {
    ghost Value = { List (List ℕ) };

    ghost view = { λ a. items_of a.line.now };

    ghost invariant = { λ a. (a.count ≡ length (items_of a.line.now)) × ItemsCut a.line.now a.starts };
}

impl<'a> Items<'a> {
    pub fn of(line: &'a [u8]) -> Self
        ensures { result ≡ items_of line.now }
    {
        let mut starts = [0usize; 10];
        let mut count = 0;
        let mut at = 0;
        loop {
            let e = word_end(line, at);
            if e == at {
                return Items {
                    line,
                    starts,
                    count: 0,
                };
            }
            count += 1;
            // the last slot serves all starts past the ninth
            let slot = count.min(9);
            starts[slot] = e + 1;
            if e == line.len() {
                return Items {
                    line,
                    starts,
                    count,
                };
            }
            if line[e] != b' ' {
                return Items {
                    line,
                    starts,
                    count: 0,
                };
            }
            at = e + 1;
        }
    }

    pub fn len(&self) -> usize
        ensures { result ≡ length self.now }
    {
        self.count
    }

    // Item k, from 0.
    pub fn item(&self, k: usize) -> &'a [u8]
        requires { (k < length self.now) × (k < 8) }
        ensures { result.now ≡ get_or self.now k [] }
    {
        &self.line[self.starts[k]..self.starts[k + 1] - 1]
    }
}
