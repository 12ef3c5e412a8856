// Fault 18 alone, for tables in which no entry needs anything of I: no passes are kept.
#![tactic(auto)]

ghost use Rattle.std.specs.Prelude.{◌≡◌, false, length};
ghost use Rattle.base_program.specs.declared.Program.{Program};
ghost use Rattle.spec_check.specs.Check.{first_of, walk_reach};
ghost use Rattle.record_codes.specs.Loaded.{Sizes, decode};
ghost use Rattle.check_reach.specs.Ready.{unknown};
ghost use Rattle.check_missing.specs.Needless.{MissingReady, Needless};

use base_program::{Finding, fault_at};
use record_codes::{CALL, EXIT_IF_TRUE};

// Without leaving early: so the compiler can look at several entries at a time.
pub fn any_need(lengths: [u8; 3], needs: &[u32]) -> bool
    requires { Sizes needs.now lengths }
    ensures { result ≡ false → Needless needs.now lengths }
{
    let mut any = false;
    for t in 0..3 {
        for e in 0..lengths[t] as usize {
            any |= needs[99 * t + e] != 0;
        }
    }
    any
}

// The code of a call of a subroutine that no 85 begins.
fn calls_missing(c: u32, subs: &[u8]) -> bool
    requires { length subs.now ≡ 256 }
    ensures { result ≡ unknown (decode c) subs.now }
{
    if CALL <= c && c < EXIT_IF_TRUE {
        subs[(c % 256) as usize] == 0
    } else {
        false
    }
}

pub fn walk_missing(lengths: [u8; 3], codes: &[u32], subs: &[u8]) -> Finding
    requires { Sizes codes.now lengths × (length subs.now ≡ 256) }
    ensures { (p : Program) → MissingReady p lengths codes.now subs.now → result ≡ first_of (walk_reach p) }
{
    'tables: for t in 0..3 {
        'entries: for e in 0..lengths[t] as usize {
            if calls_missing(codes[99 * t + e], subs) {
                return fault_at(18, t, 1 + e);
            }
        }
    }
    Finding::Clean
}
