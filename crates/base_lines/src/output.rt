// Bytes written one behind the other, as far as there is room.
ghost use Rattle.std.specs.Prelude.{◌≡◌, ℕ, ◌-◌, ◌≤◌, List, [], ◌∷◌, ◌++◌, length, take};
ghost use Rattle.base_lines.specs.Written.{written};

use std::marker::Model;

// One byte more behind the first n of `out`, where there is room. This and the next two answer how many bytes are filled then.
pub fn put(out: &mut [u8], n: usize, b: u8) -> usize
    requires { n ≤ length out.old }
    ensures within { result ≤ length out.old }
    ensures filled { take result out.new ≡ written (length out.old) (take n out.old) (b ∷ []) }
{
    if n < out.len() {
        out[n] = b;
        return n + 1;
    }
    n
}

// Bytes, as far as there is room.
pub fn put_text(s: &[u8], out: &mut [u8], n: usize) -> usize
    requires { n ≤ length out.old }
    ensures within { result ≤ length out.old }
    ensures filled { take result out.new ≡ written (length out.old) (take n out.old) s.now }
{
    let mut m = n;
    for b in s {
        m = put(out, m, *b);
    }
    m
}

// A line and its byte 10.
pub fn put_line(s: &[u8], out: &mut [u8], n: usize) -> usize
    requires { n ≤ length out.old }
    ensures within { result ≤ length out.old }
    ensures filled { take result out.new ≡ written (length out.old) (take n out.old) (s.now ++ 10 ∷ []) }
{
    let m = put_text(s, out, n);
    put(out, m, b'\n')
}

// At most `N` bytes.
#[derive(Drop)]
pub struct Output<const N: usize> {
    bytes: [u8; N],
    len: usize,
}

impl<const N: usize> Model for Output<N> {
    ghost Value = { List ℕ };

    ghost view = { λ o. take o.len o.bytes };

    ghost invariant = { λ o. o.len ≤ N };
}

impl<const N: usize> Output<N> {
    pub fn new() -> Self
        ensures { result ≡ [] }
    {
        Output {
            bytes: [0; N],
            len: 0,
        }
    }

    pub fn as_slice(&self) -> &[u8]
        ensures written { result.now ≡ self.now }
        ensures within { length result.now ≤ N }
    {
        &self.bytes[..self.len]
    }

    // One byte more, where there is room.
    pub fn put(&mut self, b: u8)
        ensures { self.new ≡ written N self.old (b ∷ []) }
    {
        self.len = put(&mut self.bytes, self.len, b);
    }

    // Bytes, as far as there is room.
    pub fn text(&mut self, s: &[u8])
        ensures { self.new ≡ written N self.old s.now }
    {
        self.len = put_text(s, &mut self.bytes, self.len);
    }

    // A line and its byte 10.
    pub fn line(&mut self, s: &[u8])
        ensures { self.new ≡ written N self.old (s.now ++ 10 ∷ []) }
    {
        self.len = put_line(s, &mut self.bytes, self.len);
    }

    pub fn clear(&mut self)
        ensures { self.new ≡ [] }
    {
        self.len = 0;
    }

    // Without the last byte, if there is one.
    pub fn pop(&mut self)
        ensures { self.new ≡ take (length self.old - 1) self.old }
    {
        self.len = self.len.saturating_sub(1);
    }
}
