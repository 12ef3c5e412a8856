// The tests of 88 and 89.
#![tactic(auto)]

ghost use Rattle.std.specs.Prelude.{◌≡◌, ◌<◌, length};
ghost use Rattle.spec_machine.specs.Values.{holds};
ghost use Rattle.spec_buffers.specs.Cells.{load_at};
ghost use Rattle.scan_locations.specs.Lent.{Inside, Two, moved_by};

use base_program::Relation;
use scan_locations::load_moved;

// 'Relations: 1 =, 2 ≠, 3 ≥, 4 <.'
pub fn relation_holds(r: Relation, x: f32, y: f32) -> bool
    ensures { result ≡ holds r x y }
{
    match r {
        Relation::Equal => x == y,
        Relation::NotEqual => x != y,
        Relation::AtLeast => x >= y,
        Relation::Below => x < y,
    }
}

// 88: X against Y
pub fn compare_locations(
    l: &[f32],
    shift: usize,
    x: u16,
    xi: bool,
    r: Relation,
    y: u16,
    yi: bool,
) -> bool
    requires { (shift < 65536) × Two (moved_by shift x xi) (moved_by shift y yi) (length l.now) }
    ensures { result ≡ holds r (load_at l.now (moved_by shift x xi)) (load_at l.now (moved_by shift y yi)) }
{
    let a = load_moved(l, shift, x, xi);
    let b = load_moved(l, shift, y, yi);
    relation_holds(r, a, b)
}

// 89: X against F
pub fn compare_fixed(l: &[f32], shift: usize, x: u16, xi: bool, r: Relation, f: f32) -> bool
    requires { (shift < 65536) × Inside (moved_by shift x xi) (length l.now) }
    ensures { result ≡ holds r (load_at l.now (moved_by shift x xi)) f }
{
    let a = load_moved(l, shift, x, xi);
    relation_holds(r, a, f)
}
