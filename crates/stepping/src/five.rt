// A state as five numbers: the location and then the four clock values.
ghost use Rattle.std.specs.Prelude.{◌≡◌, length};
ghost use Rattle.stepping.specs.Five.{state_in, state_words};

use crate::state::State;

// How many numbers a state is.
pub const STATE_NUMBERS: usize = State::CLOCKS + 1;

// The state in five numbers.
pub fn state_of(state: &[u16]) -> State
    requires { length state.now ≡ 5 }
    ensures { result ≡ state_in state.now }
{
    State {
        location: state[0],
        clocks: [state[1], state[2], state[3], state[4]],
    }
}

// The five numbers become those of the next state.
pub fn put_state(state: &mut [u16], next: State)
    requires { length state.old ≡ 5 }
    ensures { state.new ≡ state_words next }
{
    state[0] = next.location;
    state[1..].copy_from_slice(&next.clocks);
}
