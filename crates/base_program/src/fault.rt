// Where a walk of the check finds a fault.
ghost use Rattle.std.specs.Prelude.{◌≡◌, ◌+◌, ◌≤◌, ◌<◌};
ghost use Rattle.base_program.specs.declared.Finding.{Finding};

use crate::Finding;

// A fault at entry e of the table of row t; rows are counted from 0.
pub fn fault_at(number: u8, t: usize, e: usize) -> Finding
    requires { (t < 3) × (e ≤ 100) }
    ensures { result ≡ Finding.Fault number (t + 1) e }
{
    Finding::Fault(number, (t + 1) as u8, e as u8)
}
