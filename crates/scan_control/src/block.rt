// Blocks: a Then Do, its Else, a loop, and the End of each.
ghost use Rattle.scan_marks.specs.Marks.{stack};
ghost use Rattle.scan_marks.specs.Move.{MoveReady, Targets, Moved, end_to, else_to, then_to, loop_to};

use scan_marks::{CALLS, LOOPS, NOWHERE, in_table, push, shift_of};

// 95: of a Then Do, of a loop with passes left or with none, or of a subroutine.
pub fn end(pc: usize, marks: &mut [u64], top: &mut usize) -> usize
    requires { MoveReady pc top.old marks.old }
    ensures { Moved (end_to pc (stack marks.old top.old)) result marks.new top.new }
{
    let depth = *top;
    if depth == 0 {
        return NOWHERE;
    }
    let below = depth - 1;
    let v = marks[depth];
    if v < LOOPS {
        *top = below;
        return pc;
    }
    if CALLS <= v {
        *top = below;
        // A number past the last place stands for that place.
        return ((v - CALLS) / 65536).min(383) as usize;
    }
    if v % 65536 + 1 < v / 65536 % 65536 {
        marks[depth] = v + 1;
        return in_table(pc, (v / LOOPS - 1) as usize);
    }
    *top = below;
    pc
}

// 94, come to from its Then Do's first half.
pub fn else_reached(pc: usize, ends: &[u8], marks: &[u64], top: &mut usize) -> usize
    requires { MoveReady pc top.old marks.now × Targets ends.now 384 }
    ensures { Moved (else_to ends.now pc (stack marks.now top.old)) result marks.now top.new }
{
    let depth = *top;
    if depth == 0 {
        return NOWHERE;
    }
    if LOOPS <= marks[depth] {
        return NOWHERE;
    }
    let q = ends[pc] as usize;
    if q == 0 {
        return NOWHERE;
    }
    *top = depth - 1;
    in_table(pc, q)
}

// Command 30.
pub fn then_do(
    test: bool,
    pc: usize,
    ends: &[u8],
    elses: &[u8],
    marks: &mut [u64],
    top: &mut usize,
) -> usize
    requires { MoveReady pc top.old marks.old × (Targets ends.now 384 × Targets elses.now 384) }
    ensures { Moved (then_to ends.now elses.now test pc (stack marks.old top.old)) result marks.new top.new }
{
    if test {
        push(shift_of(marks, *top) as u64, marks, top);
        return pc;
    }
    let behind_else = elses[pc] as usize;
    if behind_else != 0 {
        push(shift_of(marks, *top) as u64, marks, top);
        return in_table(pc, behind_else);
    }
    let behind_end = ends[pc] as usize;
    if behind_end == 0 {
        return NOWHERE;
    }
    in_table(pc, behind_end)
}

// 87.
pub fn begin_loop(count: u16, pc: usize, marks: &mut [u64], top: &mut usize) -> usize
    requires { MoveReady pc top.old marks.old }
    ensures { Moved (loop_to count pc (stack marks.old top.old)) result marks.new top.new }
{
    let place = (pc % 128) as u64;
    push((place + 1) * LOOPS + count as u64 * 65536, marks, top);
    pc
}
