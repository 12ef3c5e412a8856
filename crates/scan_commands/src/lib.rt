// A command: what it sets, and where it leads.
#![tactic(auto)]

ghost use Rattle.std.specs.Prelude.{◌≡◌, cond, ◌&&◌, List, ℕ, ◌%◌, ◌<◌, eqb, Float};
ghost use Rattle.base_program.specs.Flow.{command_flow};
ghost use Rattle.spec_buffers.specs.Held.{held_of};
ghost use Rattle.spec_buffers.specs.Effects.{command_held_if};
ghost use Rattle.scan_marks.specs.Marks.{stack};
ghost use Rattle.scan_marks.specs.Move.{Moved, move_to};
ghost use Rattle.scan_signals.specs.Lent.{Commanded};
ghost use Rattle.scan_commands.specs.Moving.{Moving};

use base_program::Command;

// 92: 'true if the minute .. modulo the interval equals 'into' and this table's previous scan was in another day or minute, or never was'.
pub fn time_is(into: u16, interval: u16, minute: u16, another: bool) -> bool
    requires { 0 < interval }
    ensures { result ≡ (eqb (minute % interval) into && another) }
{
    minute % interval == into && another
}

// A command is carried out where its test is true.
fn command_if(
    test: bool,
    c: Command,
    id: u16,
    flags: &mut [bool],
    ports: &mut [bool],
    store: &mut [u16],
)
    requires { Commanded c flags.old ports.old store.old }
    ensures { (l u : List Float) (n : List ℕ) (g : List ℕ) → held_of l u n flags.new ports.new g store.new ≡ command_held_if test id c (held_of l u n flags.old ports.old g store.old) }
{
    if test {
        scan_signals::command_effect(c, id, flags, ports, store);
    }
}

// Where a command leads; `pc` is the place behind its entry.
fn command_move(
    c: Command,
    test: bool,
    home: usize,
    pc: usize,
    ends: &[u8],
    elses: &[u8],
    subs: &[u8],
    marks: &mut [u64],
    top: &mut usize,
) -> usize
    requires { Moving pc home ends.now elses.now subs.now marks.old top.old }
    ensures { Moved (move_to ends.now elses.now subs.now home (command_flow c) test pc (stack marks.old top.old)) result marks.new top.new }
{
    match c {
        Command::Stop => scan_calls::stop(test, home, pc, marks, top),
        Command::Call(k) => scan_calls::call(k, test, pc, subs, marks, top),
        Command::Raise(_) => pc,
        Command::Lower(_) => pc,
        Command::Then => scan_control::then_do(test, pc, ends, elses, marks, top),
        Command::ExitIfTrue => scan_exits::exit_loop(test, pc, ends, marks, top),
        Command::ExitIfFalse => scan_exits::exit_loop(!test, pc, ends, marks, top),
        Command::PortHigh(_) => pc,
        Command::PortLow(_) => pc,
    }
}

// A command: carried out where its test is true, and where it leads. A Then Do sets nothing, so it is asked for first.
pub fn command(
    c: Command,
    test: bool,
    id: u16,
    home: usize,
    pc: usize,
    ends: &[u8],
    elses: &[u8],
    subs: &[u8],
    flags: &mut [bool],
    ports: &mut [bool],
    store: &mut [u16],
    marks: &mut [u64],
    top: &mut usize,
) -> usize
    requires { Commanded c flags.old ports.old store.old × Moving pc home ends.now elses.now subs.now marks.old top.old }
    ensures { ((l u : List Float) (n : List ℕ) (g : List ℕ) → held_of l u n flags.new ports.new g store.new ≡ command_held_if test id c (held_of l u n flags.old ports.old g store.old)) × Moved (move_to ends.now elses.now subs.now home (command_flow c) test pc (stack marks.old top.old)) result marks.new top.new }
{
    if let Command::Then = c {
        return scan_control::then_do(test, pc, ends, elses, marks, top);
    }
    command_if(test, c, id, flags, ports, store);
    command_move(c, test, home, pc, ends, elses, subs, marks, top)
}
