// A record's header, put into a lent buffer.
#![tactic(auto)]

ghost use Rattle.std.specs.Prelude.{◌≡◌, [], ◌∷◌, ◌%◌, ◌/◌, length, get_or, take};

// I, M, both V and the three lengths.
pub fn put_header(numbers: &mut [u16], i: u16, m: u16, v: [u32; 2], lengths: [u8; 3])
    requires { length numbers.old ≡ 2385 }
    ensures { take 9 numbers.new ≡ i ∷ m ∷ get_or v 0 0 % 65536 ∷ get_or v 0 0 / 65536 ∷ get_or v 1 0 % 65536 ∷ get_or v 1 0 / 65536 ∷ get_or lengths 0 0 ∷ get_or lengths 1 0 ∷ get_or lengths 2 0 ∷ [] }
{
    numbers[..9].copy_from_slice(&[
        i,
        m,
        (v[0] % 65536) as u16,
        (v[0] / 65536) as u16,
        (v[1] % 65536) as u16,
        (v[1] / 65536) as u16,
        u16::from(lengths[0]),
        u16::from(lengths[1]),
        u16::from(lengths[2]),
    ]);
}
