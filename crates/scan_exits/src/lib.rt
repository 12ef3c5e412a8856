// Exits from the innermost loop open in a table or subroutine.
// Each function is handed the place behind an entry and answers the next place, or NOWHERE where the plain machine has no next step.
#![tactic(auto)]

ghost use Rattle.std.specs.Prelude.{◌≡◌, ◌≤◌, length};
ghost use Rattle.scan_marks.specs.Marks.{stack};
ghost use Rattle.scan_marks.specs.Move.{MoveReady, Targets, Moved, leave_to, own_loop, exit_to};

use scan_marks::{CALLS, LOOPS, NOWHERE, in_table};

// Whether a loop is open in the table or subroutine itself.
fn own_loop(marks: &[u64], top: usize) -> bool
    requires { (top ≤ 96) × (length marks.now ≡ 97) }
    ensures { result ≡ own_loop (stack marks.now top) }
{
    for depth in (1..top + 1).rev() {
        let v = marks[depth];
        if CALLS <= v {
            return false;
        }
        if LOOPS <= v {
            return true;
        }
    }
    false
}

// Past the End of the innermost own loop; the Then Dos in it are closed.
fn leave(pc: usize, ends: &[u8], marks: &[u64], top: &mut usize) -> usize
    requires { MoveReady pc top.old marks.now × Targets ends.now 384 }
    ensures { Moved (leave_to ends.now pc (stack marks.now top.old)) result marks.now top.new }
{
    let mut at = pc;
    for depth in (1..*top + 1).rev() {
        let v = marks[depth];
        if CALLS <= v {
            return NOWHERE;
        }
        let q = ends[at] as usize;
        if q == 0 {
            return NOWHERE;
        }
        at = in_table(at, q);
        if LOOPS <= v {
            *top = depth - 1;
            return at;
        }
    }
    NOWHERE
}

// Commands 31 and 32: `taken` is whether the test came out as the command asks. With no own loop open there is no next step either way.
pub fn exit_loop(taken: bool, pc: usize, ends: &[u8], marks: &[u64], top: &mut usize) -> usize
    requires { MoveReady pc top.old marks.now × Targets ends.now 384 }
    ensures { Moved (exit_to ends.now taken pc (stack marks.now top.old)) result marks.now top.new }
{
    if taken {
        return leave(pc, ends, marks, top);
    }
    if own_loop(marks, *top) { pc } else { NOWHERE }
}
