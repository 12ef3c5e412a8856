// The passes in force inside the open blocks: at place d those with d blocks open.
#![tactic(auto)]

ghost use Rattle.std.specs.Prelude.{◌≡◌, ◌+◌, ◌≤◌, ◌<◌, length, List};
ghost use Rattle.spec_check.specs.Blocks.{Block, through};
ghost use Rattle.check_passes.specs.Passes.{PassesHeld};

use base_program::Flow;

// The number of blocks open behind an entry of this kind.
pub fn passes_through(x: Flow, passes: &mut [u16], depth: usize) -> usize
    requires { (depth + 1 < length passes.old) × (length passes.old ≡ 100) }
    ensures { ((bs : List Block) → PassesHeld passes.old depth bs → PassesHeld passes.new result (through x bs)) × (result ≤ depth + 1) }
{
    match x {
        Flow::End => depth.saturating_sub(1),
        Flow::Then | Flow::Subroutine(_) => {
            passes[depth + 1] = passes[depth];
            depth + 1
        }
        Flow::Loop(n) => {
            passes[depth + 1] = n;
            depth + 1
        }
        Flow::Else | Flow::Next | Flow::Stop | Flow::Call(_) | Flow::Exit(_) => depth,
    }
}
