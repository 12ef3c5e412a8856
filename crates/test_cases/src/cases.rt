// The cases of a list, one after the other.
ghost use Rattle.std.specs.Prelude.{length};
ghost use Rattle.std.specs.Iterator.{at_most};

// What is left of the list.
#[derive(Clone, Copy)]
pub struct Cases<'a>(&'a [u8]);

impl<'a> Iterator for Cases<'a> {
    type Item = &'a [u8];

    ghost remaining = { λ c. at_most (length c.0.now) };

    fn next(&mut self) -> Option<&'a [u8]> {
        let s = self.0;
        if s.is_empty() {
            return None;
        }
        let end = match s.windows(3).position(|w| w.starts_with(b"\n@c")) {
            Some(i) => i + 1,
            None => s.len(),
        };
        self.0 = &s[end..];
        Some(&s[..end])
    }
}

// The cases of s, each with its lines, up to the next line `@case`.
pub fn each_case(s: &[u8]) -> Cases<'_> {
    Cases(s)
}
