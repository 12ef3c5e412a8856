// One pass over each table, from its last entry up. What is known behind an End is already there when its block's first entry is come to.
ghost use Rattle.std.specs.Prelude.{◌≡◌, ℕ, length, get_or};
ghost use Rattle.base_program.specs.declared.Program.{Program};
ghost use Rattle.record_codes.specs.Loaded.{Sizes};
ghost use Rattle.scan_targets.specs.Told.{Kinds, TargetsTold};

use crate::way::{else_way, end_way};

// For every place the place behind the End, and behind the Else, of the innermost block open there: from the entries' kinds and the tables'
// lengths, into lists of 0.
pub fn fill_ways(codes: &[u32], lengths: [u8; 3], ends: &mut [u8], elses: &mut [u8])
    requires { Sizes codes.now lengths × (((length ends.old ≡ 384) × ((k : ℕ) → get_or ends.old k 0 ≡ 0)) × ((length elses.old ≡ 384) × ((k : ℕ) → get_or elses.old k 0 ≡ 0))) }
    ensures { (p : Program) → Kinds p codes.now lengths → TargetsTold p ends.new elses.new }
{
    for t in (0..3).rev() {
        let base = 128 * t;
        // what the lists hold at the place behind, so that no turn reads what the last one wrote
        let mut end: u8 = 0;
        let mut other: u8 = 0;
        for e in (0..lengths[t] as usize).rev() {
            let q = (e + 1) as u8;
            let code = codes[99 * t + e];
            let at = base + e;
            if code != 0 {
                let x = record_codes::decode_flow(code);
                let out = base + end as usize;
                let outer_end = ends[out];
                let outer_else = elses[out];
                let behind = end;
                end = end_way(x, q, behind, outer_end);
                other = else_way(x, q, behind, other, outer_else);
            }
            ends[at] = end;
            elses[at] = other;
        }
    }
}
