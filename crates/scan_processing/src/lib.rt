// Instructions 30 to 38. A location comes as an entry names it: its number, and whether it is indexed (x and xi).
#![tactic(auto)]

ghost use Rattle.std.specs.Prelude.{◌≡◌, ◌<◌, length, Float};
ghost use Rattle.std.specs.Float.{binary32};
ghost use Rattle.std.specs.Float.Ieee.{add, sub, mul, div};
ghost use Rattle.spec_machine.specs.Values.{one_float};
ghost use Rattle.spec_buffers.specs.Cells.{load_at, store_at};
ghost use Rattle.scan_locations.specs.Lent.{Inside, Two, Three, moved_by};

use scan_locations::{load_moved, store_moved};

// Z = what `f` makes of X.
fn change<F: Fn(f32) -> f32>(l: &mut [f32], shift: usize, x: u16, xi: bool, z: u16, zi: bool, f: F)
    requires lent { (shift < 65536) × Two (moved_by shift x xi) (moved_by shift z zi) (length l.old) }
    requires call { F.IsAlwaysCallable f }
    ensures { (v : Float) × F.post f (load_at l.old (moved_by shift x xi)) v × (l.new ≡ store_at (moved_by shift z zi) v l.old) }
{
    let a = load_moved(l, shift, x, xi);
    store_moved(l, shift, z, zi, f(a));
}

// Z = what `f` makes of X and Y.
fn combine<F: Fn(f32, f32) -> f32>(
    l: &mut [f32],
    shift: usize,
    x: u16,
    xi: bool,
    y: u16,
    yi: bool,
    z: u16,
    zi: bool,
    f: F,
)
    requires lent { (shift < 65536) × Three (moved_by shift x xi) (moved_by shift y yi) (moved_by shift z zi) (length l.old) }
    requires call { F.IsAlwaysCallable f }
    ensures { (v : Float) × F.post f (load_at l.old (moved_by shift x xi)) (load_at l.old (moved_by shift y yi)) v × (l.new ≡ store_at (moved_by shift z zi) v l.old) }
{
    let a = load_moved(l, shift, x, xi);
    let b = load_moved(l, shift, y, yi);
    store_moved(l, shift, z, zi, f(a, b));
}

// 30: Z = F
pub fn set_fixed(l: &mut [f32], shift: usize, f: f32, z: u16, zi: bool)
    requires { (shift < 65536) × Inside (moved_by shift z zi) (length l.old) }
    ensures { l.new ≡ store_at (moved_by shift z zi) f l.old }
{
    store_moved(l, shift, z, zi, f);
}

// 31: Z = X
pub fn copy(l: &mut [f32], shift: usize, x: u16, xi: bool, z: u16, zi: bool)
    requires { (shift < 65536) × Two (moved_by shift x xi) (moved_by shift z zi) (length l.old) }
    ensures { l.new ≡ store_at (moved_by shift z zi) (load_at l.old (moved_by shift x xi)) l.old }
{
    change(l, shift, x, xi, z, zi, |a| a);
}

// 32: Z = Z + 1
pub fn increment(l: &mut [f32], shift: usize, z: u16, zi: bool)
    requires { (shift < 65536) × Inside (moved_by shift z zi) (length l.old) }
    ensures { l.new ≡ store_at (moved_by shift z zi) (add binary32 (load_at l.old (moved_by shift z zi)) one_float) l.old }
{
    change(l, shift, z, zi, z, zi, |a| a + 1.0f32);
}

// 33: Z = X + Y
pub fn add(l: &mut [f32], shift: usize, x: u16, xi: bool, y: u16, yi: bool, z: u16, zi: bool)
    requires { (shift < 65536) × Three (moved_by shift x xi) (moved_by shift y yi) (moved_by shift z zi) (length l.old) }
    ensures { l.new ≡ store_at (moved_by shift z zi) (add binary32 (load_at l.old (moved_by shift x xi)) (load_at l.old (moved_by shift y yi))) l.old }
{
    combine(l, shift, x, xi, y, yi, z, zi, |a, b| a + b);
}

// 34: Z = X + F
pub fn add_fixed(l: &mut [f32], shift: usize, x: u16, xi: bool, f: f32, z: u16, zi: bool)
    requires { (shift < 65536) × Two (moved_by shift x xi) (moved_by shift z zi) (length l.old) }
    ensures { l.new ≡ store_at (moved_by shift z zi) (add binary32 (load_at l.old (moved_by shift x xi)) f) l.old }
{
    change(l, shift, x, xi, z, zi, |a| a + f);
}

// 35: Z = X - Y
pub fn subtract(l: &mut [f32], shift: usize, x: u16, xi: bool, y: u16, yi: bool, z: u16, zi: bool)
    requires { (shift < 65536) × Three (moved_by shift x xi) (moved_by shift y yi) (moved_by shift z zi) (length l.old) }
    ensures { l.new ≡ store_at (moved_by shift z zi) (sub binary32 (load_at l.old (moved_by shift x xi)) (load_at l.old (moved_by shift y yi))) l.old }
{
    combine(l, shift, x, xi, y, yi, z, zi, |a, b| a - b);
}

// 36: Z = X * Y
pub fn multiply(l: &mut [f32], shift: usize, x: u16, xi: bool, y: u16, yi: bool, z: u16, zi: bool)
    requires { (shift < 65536) × Three (moved_by shift x xi) (moved_by shift y yi) (moved_by shift z zi) (length l.old) }
    ensures { l.new ≡ store_at (moved_by shift z zi) (mul binary32 (load_at l.old (moved_by shift x xi)) (load_at l.old (moved_by shift y yi))) l.old }
{
    combine(l, shift, x, xi, y, yi, z, zi, |a, b| a * b);
}

// 37: Z = X * F
pub fn multiply_fixed(l: &mut [f32], shift: usize, x: u16, xi: bool, f: f32, z: u16, zi: bool)
    requires { (shift < 65536) × Two (moved_by shift x xi) (moved_by shift z zi) (length l.old) }
    ensures { l.new ≡ store_at (moved_by shift z zi) (mul binary32 (load_at l.old (moved_by shift x xi)) f) l.old }
{
    change(l, shift, x, xi, z, zi, |a| a * f);
}

// 38: Z = X / Y
pub fn divide(l: &mut [f32], shift: usize, x: u16, xi: bool, y: u16, yi: bool, z: u16, zi: bool)
    requires { (shift < 65536) × Three (moved_by shift x xi) (moved_by shift y yi) (moved_by shift z zi) (length l.old) }
    ensures { l.new ≡ store_at (moved_by shift z zi) (div binary32 (load_at l.old (moved_by shift x xi)) (load_at l.old (moved_by shift y yi))) l.old }
{
    combine(l, shift, x, xi, y, yi, z, zi, |a, b| a / b);
}
