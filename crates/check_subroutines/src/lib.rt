// Where the subroutines of Table 3 begin, and where its 85s and calls stand.
#![tactic(auto)]

ghost use Rattle.std.specs.Prelude.{◌≡◌, ℕ, ◌+◌, ◌≤◌, ◌<◌, length, get_or};
ghost use Rattle.base_program.specs.declared.Program.{Program};
ghost use Rattle.base_program.specs.declared.Table.{Table};
ghost use Rattle.base_program.specs.Entries.{entries};
ghost use Rattle.record_codes.specs.Loaded.{FlowsAre, SubsAre};
ghost use Rattle.check_subroutines.specs.Listed.{ListedCalls, Counted};

use record_codes::{EXIT_IF_TRUE, SUBROUTINE};

// The 85s and calls of Table 3: behind the table's length the places of `count` of them, from the last one up.
#[derive(Clone, Copy)]
pub struct CallList {
    pub places: [u8; 100],
    pub count: usize,
}

// One more than m for the code of an 85 or a call.
fn count_call(c: u32, m: usize) -> usize
    requires { m ≤ 99 }
    ensures { Counted c m result }
{
    if SUBROUTINE <= c && c < EXIT_IF_TRUE {
        m + 1
    } else {
        m
    }
}

// Fills the entry at which each subroutine begins: from the end, so that the first of a number stays. One that no 85 begins keeps 0: the caller
// lends fixed memory, a byte for each. Lists the places of the 85s and calls.
pub fn fill_subs(codes: &[u32], n: usize, subs: &mut [u8]) -> CallList
    requires { ((length codes.now ≡ 297) × (n ≤ 99)) × ((length subs.old ≡ 256) × ((k : ℕ) → get_or subs.old k 0 ≡ 0)) }
    ensures { ((p : Program) → FlowsAre p codes.now → length (entries p Table.Three) ≡ n → SubsAre p subs.new) × (ListedCalls codes.now result.places result.count × (get_or result.places 0 0 ≡ n)) }
{
    let mut places = [0u8; 100];
    places[0] = n as u8;
    let mut count = 0;
    for e in (0..n).rev() {
        let code = codes[198 + e];
        places[count + 1] = e as u8;
        count = count_call(code, count);
        if let Some(k) = record_codes::label_number(record_codes::decode_flow(code)) {
            subs[k as usize] = e as u8 + 1;
        }
    }
    CallList { places, count }
}
