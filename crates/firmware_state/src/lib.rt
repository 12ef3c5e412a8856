// The run state, read from a lent buffer.
#![tactic(auto)]

ghost use Rattle.std.specs.Prelude.{◌≡◌, length};
ghost use Rattle.firmware_state.specs.State.{state_of};

use spec_calls::State;

// One place after the other: with `array::from_fn` the proof does not close, since nothing ties the closure of a call to the first.
pub fn read_state(state: &[u16]) -> State
    requires { length state.now ≡ 25 }
    ensures { result ≡ state_of state.now }
{
    State {
        flags: [
            state[0] != 0,
            state[1] != 0,
            state[2] != 0,
            state[3] != 0,
            state[4] != 0,
            state[5] != 0,
            state[6] != 0,
            state[7] != 0,
            state[8] != 0,
            state[9] != 0,
        ],
        ports: [
            state[10] != 0,
            state[11] != 0,
            state[12] != 0,
            state[13] != 0,
            state[14] != 0,
            state[15] != 0,
            state[16] != 0,
            state[17] != 0,
        ],
        position: state[18],
        filled: state[19],
        array: state[20],
        days: [state[21], state[22]],
        minutes: [state[23], state[24]],
    }
}
