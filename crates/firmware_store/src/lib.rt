// The run state, written into a lent buffer.
#![tactic(auto)]

ghost use Rattle.std.specs.Prelude.{◌≡◌, length};
ghost use Rattle.firmware_state.specs.State.{numbers_of_state};

use spec_calls::State;

pub fn write_state(s: State, state: &mut [u16])
    requires { length state.old ≡ 25 }
    ensures { state.new ≡ numbers_of_state s }
{
    state[..10].copy_from_slice(&s.flags.map(u16::from));
    state[10..18].copy_from_slice(&s.ports.map(u16::from));
    state[18..].copy_from_slice(&[
        s.position,
        s.filled,
        s.array,
        s.days[0],
        s.days[1],
        s.minutes[0],
        s.minutes[1],
    ]);
}
