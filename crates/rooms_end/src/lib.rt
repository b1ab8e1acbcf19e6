// The end of one network's gathering: its rooms are given back, and the other network's part stays.
#![tactic(auto)]

ghost use Rattle.std.specs.Prelude.{◌≡◌};
ghost use Rattle.rooms_state.specs.State.{network_of};
ghost use Rattle.rooms_end.specs.Ending.{ended_of};

use ground_refusal::Refusal;
use rooms_state::Networks;

// The answer, and the state after it.
#[derive(Clone, Copy)]
pub struct EndedState {
    pub answer: Result<(), Refusal>,
    pub state: Networks,
}

// The gathering of network 1 or 2 ends, begun or not, complete or not; the store has so many bytes.
pub fn end_step(x: Networks, network: u32, bytes: usize) -> EndedState
    ensures { result ≡ ended_of (network_of network) x bytes }
{
    if !rooms_state::is_network(network) {
        return EndedState {
            answer: Err(Refusal::OutsideSet(0)),
            state: x,
        };
    }
    if !rooms_state::possible(&x, bytes) {
        return EndedState {
            answer: Err(Refusal::ImpossibleState),
            state: x,
        };
    }
    let part = rooms_state::fresh_part();
    let mut state = x;
    if network == 1 {
        state.one = part;
    } else {
        state.two = part;
    }
    EndedState {
        answer: Ok(()),
        state,
    }
}
