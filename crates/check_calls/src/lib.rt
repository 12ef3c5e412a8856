// The walk of faults 18 and 20: calls of missing subroutines, and locations and channels out of reach.
#![tactic(auto)]

ghost use Rattle.std.specs.Prelude.{◌≡◌, ◌&&◌, eqb, length};
ghost use Rattle.base_program.specs.declared.Program.{Program};
ghost use Rattle.spec_check.specs.Check.{first_of, walk_reach};
ghost use Rattle.record_codes.specs.Loaded.{Sizes};
ghost use Rattle.check_reach.specs.Ready.{ReachReady};

use base_program::{Finding, fault_at};
use check_passes::passes_through;
use check_reach::reach_fault;

// An entry that goes on to the next and needs nothing of I on a later pass.
fn is_plain(code: u32, need: u32) -> bool
    ensures { result ≡ eqb code 0 && eqb need 0 }
{
    code == 0 && need == 0
}

// The first of the faults 18 and 20, from the tables' lengths, I, the entries' kinds, what each needs of I, and the entries of Table 3 at which
// subroutines begin.
pub fn walk_reach(lengths: [u8; 3], most: u16, codes: &[u32], needs: &[u32], subs: &[u8]) -> Finding
    requires { Sizes codes.now lengths × (length needs.now ≡ 297) × (length subs.now ≡ 256) }
    ensures { (p : Program) → ReachReady p lengths most codes.now needs.now subs.now → result ≡ first_of (walk_reach p) }
{
    if !check_missing::any_need(lengths, needs) {
        return check_missing::walk_missing(lengths, codes, subs);
    }
    let mut passes = [1u16; 100];
    'tables: for t in 0..3 {
        passes[0] = 1;
        let mut depth = 0;
        'entries: for e in 0..lengths[t] as usize {
            let code = codes[99 * t + e];
            let need = needs[99 * t + e];
            if is_plain(code, need) {
                continue;
            }
            let x = record_codes::decode_flow(code);
            if let Some(fault) = reach_fault(x, need, passes[depth], most, subs) {
                return fault_at(fault, t, 1 + e);
            }
            depth = passes_through(x, &mut passes, depth);
        }
    }
    Finding::Clean
}
