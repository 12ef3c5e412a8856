// Reading and storing a location: by its number, or as an entry names it, by its number and whether it is indexed.
ghost use Rattle.std.specs.Prelude.{◌≡◌, ◌<◌, length};
ghost use Rattle.spec_buffers.specs.Cells.{load_at, store_at};
ghost use Rattle.scan_locations.specs.Lent.{Inside, moved_by};

// The number of a location, moved up where it is indexed.
pub fn location_of(number: u16, indexed: bool, shift: usize) -> usize
    requires { shift < 65536 }
    ensures { result ≡ moved_by shift number indexed }
{
    let number = number as usize;
    if indexed {
        return number + shift;
    }
    number
}

// Location n. One that is not finite is read as -99,999.
pub fn load(l: &[f32], n: usize) -> f32
    requires { Inside n (length l.now) }
    ensures { result ≡ load_at l.now n }
{
    let at = n - 1;
    base_float::to_store(l[at])
}

// What is not finite is stored as -99,999.
pub fn store(l: &mut [f32], n: usize, v: f32)
    requires { Inside n (length l.old) }
    ensures { l.new ≡ store_at n v l.old }
{
    let at = n - 1;
    l[at] = base_float::to_store(v);
}

pub fn load_moved(l: &[f32], shift: usize, x: u16, xi: bool) -> f32
    requires { (shift < 65536) × Inside (moved_by shift x xi) (length l.now) }
    ensures { result ≡ load_at l.now (moved_by shift x xi) }
{
    load(l, location_of(x, xi, shift))
}

pub fn store_moved(l: &mut [f32], shift: usize, z: u16, zi: bool, v: f32)
    requires { (shift < 65536) × Inside (moved_by shift z zi) (length l.old) }
    ensures { l.new ≡ store_at (moved_by shift z zi) v l.old }
{
    store(l, location_of(z, zi, shift), v);
}
