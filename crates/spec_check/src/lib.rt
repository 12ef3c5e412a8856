// What the check answers; its rules are in specs/.
#![tactic(auto)]

// The stated counts of Tables 1 and 2, or a fault's number, table and entry.
#[derive(Clone, Copy)]
pub enum Verdict {
    Pass(u32, u32),
    Fault(u8, u8, u8),
}
