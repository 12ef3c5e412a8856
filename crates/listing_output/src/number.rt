// Bytes and decimal numbers. Not by the library's printing: that is an error where the buffer is full, and `Put` goes on with what has room.
ghost use Rattle.std.specs.Prelude.{◌≡◌, [], ◌∷◌, ◌+◌, ◌/◌, ◌%◌, ◌^◌, ◌≤◌, length};
ghost use Rattle.listing_output.specs.Written.{Put};
ghost use Rattle.listing_output.specs.Shown.{figures, width, numeral};

// One byte.
pub fn put_byte(b: u8, out: &mut [u8], n: usize) -> usize
    requires { n ≤ length out.old }
    ensures { Put out.old n (b ∷ []) result out.new }
{
    if n < out.len() {
        out[n] = b;
        return n + 1;
    }
    n
}

// n without its last k digits.
pub fn over_places(n: u16, k: usize) -> u16
    ensures { result ≡ n / 10 ^ k }
{
    match k {
        0 => n,
        1 => n / 10,
        2 => n / 100,
        3 => n / 1000,
        4 => n / 10000,
        _ => 0,
    }
}

// The digit of n with k digits behind it.
fn figure(n: u16, k: usize) -> u8
    ensures { result ≡ 48 + n / 10 ^ k % 10 }
{
    let d = over_places(n, k) % 10;
    b'0' + d as u8
}

// The last k digits of n.
pub fn put_figures(k: usize, n: u16, out: &mut [u8], at: usize) -> usize
    requires { at ≤ length out.old }
    ensures { Put out.old at (figures k n) result out.new }
{
    let mut m = at;
    for left in (0..k).rev() {
        m = put_byte(figure(n, left), &mut out[..], m);
    }
    m
}

#[tactic(auto, unfolding(crate::specs::Shown::width))]
fn width_of(n: u16) -> usize
    ensures { result ≡ width n }
{
    match n {
        0..=9 => 1,
        10..=99 => 2,
        100..=999 => 3,
        1000..=9999 => 4,
        _ => 5,
    }
}

// A number with no zeros in front.
pub fn put_numeral(k: u16, out: &mut [u8], n: usize) -> usize
    requires { n ≤ length out.old }
    ensures { Put out.old n (numeral k) result out.new }
{
    put_figures(width_of(k), k, out, n)
}
