// The run state, which goes from call to call by value.
#![tactic(auto)]

ghost use Rattle.std.specs.Prelude.{◌≡◌};
ghost use Rattle.spec_calls.specs.Stores.{fresh_state, ring_state};
ghost use Rattle.spec_calls.specs.Answers.{answer_with};

use storage_ring::RingState;

// 'Flags 0 to 9 and ports 1 to 8 belong to the run state. So do the ring's position .. and filled count, the array id last raised, and each
// table's last scan (none, or day and minute).' A day of 0 is none.
#[derive(Clone, Copy)]
pub struct State {
    pub flags: [bool; 10],
    pub ports: [bool; 8],
    pub position: u16,
    pub filled: u16,
    pub array: u16,
    pub days: [u16; 2],
    pub minutes: [u16; 2],
}

impl State {
    // The state of Final Storage's ring.
    pub fn ring(self) -> RingState
        ensures { result ≡ ring_state self }
    {
        RingState {
            position: self.position,
            filled: self.filled,
        }
    }
}

// What a call answers: 0 or the refusal's number, and the state.
#[derive(Clone, Copy)]
pub struct Answer {
    pub refusal: u8,
    pub state: State,
}

// 'Fresh means all zero, .. low and empty, no scan yet.'
pub fn fresh() -> State
    ensures { result ≡ fresh_state }
{
    State {
        flags: [false; 10],
        ports: [false; 8],
        position: 0,
        filled: 0,
        array: 0,
        days: [0; 2],
        minutes: [0; 2],
    }
}

pub fn answer_with(refusal: u8, state: State) -> Answer
    ensures { result ≡ answer_with refusal state }
{
    Answer {
        refusal: refusal,
        state: state,
    }
}
