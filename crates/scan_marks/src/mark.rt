// Marks as numbers, from number 1 on: a loop has its place and its count, a call the place to go back to. The low 16 bits are how far indexed
// locations are moved up there, for a loop the passes done; number 0 stands for nothing open.
ghost use Rattle.std.specs.Prelude.{◌≡◌, ◌%◌, ◌≤◌, ◌<◌, ◌∷◌};
ghost use Rattle.scan_marks.specs.Marks.{mark_of, place_in, stack};
ghost use Rattle.scan_marks.specs.Move.{Marked, Pushed, shift_to};

// The marks below LOOPS are Then Dos, those from CALLS on are calls.
pub const LOOPS: u64 = 4294967296;

pub const CALLS: u64 = 554050781184;

// Place q of the table that pc is in.
pub fn in_table(pc: usize, q: usize) -> usize
    requires { (pc < 384) × (q ≤ 127) }
    ensures { result ≡ place_in pc q }
{
    pc / 128 * 128 + q
}

pub fn push(v: u64, marks: &mut [u64], top: &mut usize)
    requires { Marked marks.old top.old × (v % 65536 ≡ shift_to (mark_of v ∷ stack marks.old top.old)) }
    ensures { Pushed (mark_of v) marks.old top.old marks.new top.new }
{
    let above = *top + 1;
    marks[above] = v;
    *top = above;
}
