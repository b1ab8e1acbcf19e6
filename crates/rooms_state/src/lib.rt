// The state of two networks over one store of rooms, as C lends it, and the test whether it is possible.
#![tactic(auto)]

ghost use Rattle.std.specs.Prelude.{◌≡◌, ◌≤◌, length};
ghost use Rattle.rooms_state.specs.State.{fresh_part, fresh_networks, rooms_in, room_place, pair_test, matched, part_possible, possible_of, network_of, is_some};

use gathering_state::Gathering;
use ground_numbers::PAYLOAD_MOST;

// One network's gathering, and for each section number its room and one more, or 0 where the number is not held. All zeros is the fresh one.
#[repr(C)]
#[derive(Clone, Copy)]
pub struct Part {
    pub gathering: Gathering,
    pub rooms: [u16; 256],
}

// Both networks' parts, and the store's length at the start. Laid out so that C sees no padding.
#[repr(C)]
#[derive(Clone, Copy)]
pub struct Networks {
    pub bytes: usize,
    pub one: Part,
    pub two: Part,
}

// How many rooms a store of so many bytes has: "the smaller of 512 and the whole rooms in the store's length". For feeding too.
#[tactic(auto, unfolding(crate::specs::State::rooms_in))]
pub fn rooms_in(bytes: usize) -> usize
    ensures { (result ≡ rooms_in bytes) × (result ≤ 512) }
{
    ground_numbers::least(512, bytes / PAYLOAD_MOST)
}

// Where a room begins in the store; the room is told as its number and one more. For feeding and handing out.
#[tactic(auto, unfolding(crate::specs::State::room_place))]
pub fn room_place(room: u16) -> usize
    ensures { result ≡ room_place room }
{
    ground_numbers::less(room as usize, 1) * PAYLOAD_MOST
}

// Is it 1 or 2? For every call. The network stays a number, as C and the contracts tell it (`network_of`): an enum would be a second `Network`
// beside that of specs/.
#[tactic(auto, unfolding(crate::specs::State::is_some, crate::specs::State::network_of))]
pub fn is_network(network: u32) -> bool
    ensures { result ≡ is_some (network_of network) }
{
    network == 1 || network == 2
}

// ---- possible states

// Has a held number one of the n rooms, and an unheld one none?
#[tactic(auto, unfolding(crate::specs::State::pair_test))]
fn is_paired(h: u16, r: u16, n: usize) -> bool
    ensures { result ≡ pair_test n h r }
{
    if h == 0 {
        r == 0
    } else {
        0 < r && r as usize <= n
    }
}

// So for every number.
fn all_paired(held: &[u16], rooms: &[u16], n: usize) -> bool
    requires { length held.now ≡ length rooms.now }
    ensures { result ≡ matched n held.now rooms.now }
{
    for i in 0..held.len() {
        if !is_paired(held[i], rooms[i], n) {
            return false;
        }
    }
    true
}

// A network's own part, where there are n rooms.
#[tactic(auto, unfolding(crate::specs::State::part_possible))]
fn part_possible(p: &Part, n: usize) -> bool
    ensures { result ≡ part_possible n p.now }
{
    gathering_state::possible(&p.gathering) && all_paired(&p.gathering.held, &p.rooms, n)
}

// Is it a state that two networks over a store of so many bytes can be in? For every call.
#[tactic(auto, unfolding(crate::specs::State::possible_of))]
pub fn possible(x: &Networks, bytes: usize) -> bool
    ensures { result ≡ possible_of x.now bytes }
{
    let n = rooms_in(bytes);
    x.bytes == bytes
        && part_possible(&x.one, n)
        && part_possible(&x.two, n)
        && rooms_marks::none_twice(&x.one.rooms, &x.two.rooms, n)
}

// ---- fresh ones

// "A fresh state holds nothing", and has no rooms. For the end of a gathering.
#[tactic(auto, unfolding(crate::specs::State::fresh_part))]
pub fn fresh_part() -> Part
    ensures { result ≡ fresh_part }
{
    Part {
        gathering: gathering_state::fresh(),
        rooms: [0u16; 256],
    }
}

// The state at the start, over a store of so many bytes.
#[tactic(auto, unfolding(crate::specs::State::fresh_networks))]
pub fn fresh_networks(bytes: usize) -> Networks
    ensures { result ≡ fresh_networks bytes }
{
    Networks {
        bytes,
        one: fresh_part(),
        two: fresh_part(),
    }
}
