// Flags 0 to 9, ports 1 to 8, and the commands that set them.
#![tactic(auto)]

ghost use Rattle.std.specs.Prelude.{◌≡◌, Bool, false, List, ℕ, ◌<◌, length, set, Float};
ghost use Rattle.spec_buffers.specs.Held.{held_of};
ghost use Rattle.spec_buffers.specs.Output.{set_port_at};
ghost use Rattle.spec_buffers.specs.Effects.{raise_held, command_held};
ghost use Rattle.scan_signals.specs.Lent.{Raising, Port, Commanded};

use base_program::Command;

// Every flag and port is set here.
fn set_signal(at: usize, high: bool, signals: &mut [bool])
    requires { at < length signals.old }
    ensures { signals.new ≡ set signals.old at high }
{
    signals[at] = high;
}

// 'Raising flag 0, even when high, begins a new array': its id, and that its start word waits.
pub fn raise(id: u16, f: u8, flags: &mut [bool], store: &mut [u16])
    requires { Raising f flags.old store.old }
    ensures { (l u : List Float) (c : List ℕ) (q : List Bool) (g : List ℕ) → held_of l u c flags.new q g store.new ≡ raise_held id f (held_of l u c flags.old q g store.old) }
{
    set_signal(f as usize, true, flags);
    if f == 0 {
        store[2] = id;
        store[3] = 1;
    }
}

pub fn lower(f: u8, flags: &mut [bool])
    requires { f < length flags.old }
    ensures { flags.new ≡ set flags.old f false }
{
    set_signal(f as usize, false, flags);
}

// Port q is place q - 1.
pub fn set_port(q: u8, high: bool, ports: &mut [bool])
    requires { Port q ports.old }
    ensures { ports.new ≡ set_port_at q high ports.old }
{
    set_signal(q as usize - 1, high, ports);
}

// '10-19 raise flag 0-9, 20-29 lower; .. 41-48 port 1-8 high, 51-58 low', in the entry with this id.
pub fn command_effect(
    c: Command,
    id: u16,
    flags: &mut [bool],
    ports: &mut [bool],
    store: &mut [u16],
)
    requires { Commanded c flags.old ports.old store.old }
    ensures { (l u : List Float) (n : List ℕ) (g : List ℕ) → held_of l u n flags.new ports.new g store.new ≡ command_held id c (held_of l u n flags.old ports.old g store.old) }
{
    match c {
        Command::Stop => {}
        Command::Call(_) => {}
        Command::Raise(f) => {
            raise(id, f, flags, store);
        }
        Command::Lower(f) => {
            lower(f, flags);
        }
        Command::Then => {}
        Command::ExitIfTrue => {}
        Command::ExitIfFalse => {}
        Command::PortHigh(q) => {
            set_port(q, true, ports);
        }
        Command::PortLow(q) => {
            set_port(q, false, ports);
        }
    }
}
