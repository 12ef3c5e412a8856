// The walk of faults 10 to 17 over Tables 1, 2 and 3.
#![tactic(auto)]

ghost use Rattle.std.specs.Prelude.{◌≡◌, length};
ghost use Rattle.base_program.specs.declared.Program.{Program};
ghost use Rattle.spec_check.specs.Check.{first_of, walk_blocks};
ghost use Rattle.record_codes.specs.Loaded.{Sizes};
ghost use Rattle.check_blocks.specs.Going.{BlocksReady};

use base_program::{Finding, fault_at};
use check_block::block_fault;
use check_open::{Block, blocks_through};

// The walks each have their own loop over the tables: in a shared one a walk would be a closure that changes what it captures, and of such a
// closure's answers nothing is known.
// Faults 10 to 17, the first in the order of the entries. An entry with code 0 opens and closes no block.
pub fn walk_blocks(codes: &[u32], lengths: [u8; 3], subs: &[u8]) -> Finding
    requires { Sizes codes.now lengths × (length subs.now ≡ 256) }
    ensures { (p : Program) → BlocksReady p codes.now lengths subs.now → result ≡ first_of (walk_blocks p) }
{
    // At most 12 are open, 11 that count and a subroutine; `blocks_through` asks for a free place beside.
    let mut blocks = [Block::Then; 13];
    let mut depth = 0;
    'tables: for t in 0..3 {
        let n = lengths[t] as usize;
        'entries: for e in 0..n {
            let code = codes[99 * t + e];
            if code == 0 {
                if t == 2 && depth == 0 {
                    return fault_at(12, 2, e + 1);
                }
                continue;
            }
            let x = record_codes::decode_flow(code);
            if let Some(number) = block_fault(x, t == 2, e + 1, &blocks, depth, subs) {
                return fault_at(number, t, e + 1);
            }
            depth = blocks_through(x, &mut blocks, depth);
        }
        if depth != 0 {
            return fault_at(17, t, n + 1);
        }
    }
    Finding::Clean
}
