// Fault 21: sums are handed out in the order of the entries.
#![tactic(auto)]

ghost use Rattle.std.specs.Prelude.{◌≡◌};
ghost use Rattle.base_program.specs.declared.Program.{Program};
ghost use Rattle.spec_check.specs.Check.{first_of, walk_sums};
ghost use Rattle.record_codes.specs.Loaded.{Sizes};
ghost use Rattle.check_sums.specs.Sums.{SumsReady};

use base_program::{Finding, fault_at};

pub fn walk_sums(sums: &[u8], lengths: [u8; 3], most: u16) -> Finding
    requires { Sizes sums.now lengths }
    ensures { (p : Program) → SumsReady p sums.now lengths most → result ≡ first_of (walk_sums p) }
{
    let mut total: u32 = 0;
    'tables: for t in 0..3 {
        'entries: for e in 0..lengths[t] as usize {
            total += sums[99 * t + e] as u32;
            if (most as u32) < total {
                return fault_at(21, t, e + 1);
            }
        }
    }
    Finding::Clean
}
