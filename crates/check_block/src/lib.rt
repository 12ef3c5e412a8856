// One entry of the walk of faults 10 to 17.
#![tactic(auto)]

ghost use Rattle.std.specs.Prelude.{◌≡◌, not, ◌&&◌, ◌≤◌, ◌<◌, eqb, leb, ltb, length};
ghost use Rattle.spec_check.specs.Blocks.{count_blocks};
ghost use Rattle.spec_check.specs.Check.{or};
ghost use Rattle.check_open.specs.Stack.{stack_of};
ghost use Rattle.check_block.specs.Judge.{judge, again_of, FaultIs};

use base_program::Flow;
use check_open::{Block, count_blocks, has_loop, inside_then};

// Outside the subroutines of Table 3.
fn is_outside(three: bool, depth: usize) -> bool
    ensures { result ≡ three && eqb depth 0 }
{
    three && depth == 0
}

// An 85: 10 where no subroutine may begin, 11 where its number began at an earlier entry.
fn judge_subroutine(outside: bool, first: u8, e: usize) -> Option<u8>
    ensures { FaultIs (or (not outside) 10 (or (ltb 0 first && ltb first e) 11 0)) result }
{
    let first = usize::from(first);
    if !outside {
        Some(10)
    } else if 0 < first && first < e {
        Some(11)
    } else {
        None
    }
}

// Of an entry at which no subroutine begins and no block ends: 12 outside a subroutine of Table 3, else this number, where it is at fault.
#[tactic(auto, using(crate::specs::Judge::then_fault))]
fn judge_inside(outside: bool, wrong: bool, number: u8) -> Option<u8>
    requires { 0 < number }
    ensures { FaultIs (or outside 12 (or wrong number 0)) result }
{
    if outside {
        Some(12)
    } else {
        wrong.then_some(number)
    }
}

// A block that opens here is the 12th.
fn is_twelfth(blocks: &[Block], depth: usize) -> bool
    requires { depth ≤ length blocks.now }
    ensures { result ≡ leb 11 (count_blocks (stack_of blocks.now depth)) }
{
    11 <= count_blocks(blocks, depth)
}

// Entry e of a table: its kind, the blocks open before it, and the entries at which subroutines begin.
pub fn block_fault(
    x: Flow,
    three: bool,
    e: usize,
    blocks: &[Block],
    depth: usize,
    subs: &[u8],
) -> Option<u8>
    requires { (depth ≤ length blocks.now) × (length subs.now ≡ 256) }
    ensures { FaultIs (judge three x (stack_of blocks.now depth) (again_of x e subs.now)) result }
{
    let outside = is_outside(three, depth);
    match x {
        Flow::Subroutine(k) => judge_subroutine(outside, subs[k as usize], e),
        Flow::End => (depth == 0).then_some(13),
        Flow::Else => judge_inside(outside, !inside_then(blocks, depth), 14),
        Flow::Exit(_) => judge_inside(outside, !has_loop(blocks, depth), 15),
        Flow::Then => judge_inside(outside, is_twelfth(blocks, depth), 16),
        Flow::Loop(_) => judge_inside(outside, is_twelfth(blocks, depth), 16),
        Flow::Next => outside.then_some(12),
        Flow::Stop => outside.then_some(12),
        Flow::Call(_) => outside.then_some(12),
    }
}
