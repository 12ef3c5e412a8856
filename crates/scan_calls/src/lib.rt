// Out of a table: subroutine calls, and command 0.
// Each function is handed the place behind an entry and answers the next place, or NOWHERE where the plain machine has no next step.
#![tactic(auto)]

ghost use Rattle.std.specs.Prelude.{◌<◌};
ghost use Rattle.scan_marks.specs.Marks.{stack};
ghost use Rattle.scan_marks.specs.Move.{MoveReady, Targets, Moved, call_to, stop_to};

use scan_marks::{CALLS, NOWHERE, push};

// Commands 1-9 and 79-99. A number that no 85 has leads nowhere, whatever the test says.
pub fn call(k: u8, test: bool, pc: usize, subs: &[u8], marks: &mut [u64], top: &mut usize) -> usize
    requires { MoveReady pc top.old marks.old × Targets subs.now 256 }
    ensures { Moved (call_to subs.now k test pc (stack marks.old top.old)) result marks.new top.new }
{
    let q = subs[k as usize] as usize;
    if q == 0 {
        return NOWHERE;
    }
    if !test {
        return pc;
    }
    push(CALLS + pc as u64 * 65536, marks, top);
    256 + q
}

// Command 0: `home` is the place behind the last entry of the table scanned.
pub fn stop(test: bool, home: usize, pc: usize, marks: &[u64], top: &mut usize) -> usize
    requires { MoveReady pc top.old marks.now × (home < 384) }
    ensures { Moved (stop_to test home pc (stack marks.now top.old)) result marks.now top.new }
{
    if test {
        *top = 0;
        return home;
    }
    pc
}
