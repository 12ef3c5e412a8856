// What is kept of a block of the listing's input.
#![tactic(auto)]

ghost use Rattle.std.specs.Prelude.{◌≡◌, ◌+◌, ◌≤◌, length, take, drop};

// Moves the bytes of buf from a + b to e to its start; answers how many they are.
pub fn keep(buf: &mut [u8], a: usize, b: usize, e: usize) -> usize
    requires { (a + b ≤ e) × (e ≤ length buf.old) }
    ensures result_value { a + b + result ≡ e }
    ensures buf_after { take result buf.new ≡ take result (drop (a + b) buf.old) }
{
    buf.copy_within(a + b..e, 0);
    e - (a + b)
}
