// The open blocks, innermost last in an array.
#![tactic(auto)]

ghost use Rattle.std.specs.Prelude.{◌≡◌, ◌+◌, ◌≤◌, ◌<◌, length, ◌∷◌};
ghost use Rattle.spec_check.specs.Blocks.{through, halved, has_loop, count_blocks, inside_then};
ghost use Rattle.check_open.specs.Stack.{stack_of, block_of};

use base_program::Flow;

// A Then Do before its Else, or behind it; a subroutine; a loop with its count.
#[derive(Clone, Copy)]
pub enum Block {
    Then,
    Else,
    Subroutine,
    Loop(u32),
}

fn push_block(blocks: &mut [Block], depth: usize, b: Block) -> usize
    requires { depth < length blocks.old }
    ensures { (stack_of blocks.new result ≡ block_of b ∷ stack_of blocks.old depth) × (result ≡ depth + 1) }
{
    blocks[depth] = b;
    depth + 1
}

fn mark_else(blocks: &mut [Block], depth: usize)
    requires { depth ≤ length blocks.old }
    ensures { stack_of blocks.new depth ≡ halved (stack_of blocks.old depth) }
{
    if depth == 0 {
        return;
    }
    if let Block::Then = blocks[depth - 1] {
        blocks[depth - 1] = Block::Else;
    }
}

// The blocks open behind an entry of this kind; the new depth.
#[tactic(auto, using(crate::specs::Stack::outer_top), unfolding(spec_check::specs::Blocks::through))]
pub fn blocks_through(x: Flow, blocks: &mut [Block], depth: usize) -> usize
    requires { depth < length blocks.old }
    ensures { (stack_of blocks.new result ≡ through x (stack_of blocks.old depth)) × (result ≤ depth + 1) }
{
    match x {
        Flow::Else => {
            mark_else(blocks, depth);
            depth
        }
        Flow::End => depth.saturating_sub(1),
        Flow::Then => push_block(blocks, depth, Block::Then),
        Flow::Loop(n) => push_block(blocks, depth, Block::Loop(u32::from(n))),
        Flow::Subroutine(_) => push_block(blocks, depth, Block::Subroutine),
        Flow::Next | Flow::Stop | Flow::Call(_) | Flow::Exit(_) => depth,
    }
}

pub fn has_loop(blocks: &[Block], depth: usize) -> bool
    requires { depth ≤ length blocks.now }
    ensures { result ≡ has_loop (stack_of blocks.now depth) }
{
    for d in (0..depth).rev() {
        if let Block::Loop(_) = blocks[d] {
            return true;
        }
    }
    false
}

pub fn count_blocks(blocks: &[Block], depth: usize) -> usize
    requires { depth ≤ length blocks.now }
    ensures { result ≡ count_blocks (stack_of blocks.now depth) }
{
    let mut n = 0;
    for d in (0..depth).rev() {
        if let Block::Subroutine = blocks[d] {
            continue;
        }
        n += 1;
    }
    n
}

pub fn inside_then(blocks: &[Block], depth: usize) -> bool
    requires { depth ≤ length blocks.now }
    ensures { result ≡ inside_then (stack_of blocks.now depth) }
{
    depth > 0 && matches!(blocks[depth - 1], Block::Then)
}
