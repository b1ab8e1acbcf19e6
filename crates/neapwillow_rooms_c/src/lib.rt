// Two networks over one store as C has them: a pointer to the state, the network's number, byte strings as pointer and length, and one number for the answer.
// Each function is the one of its name in `neapwillow_rooms`, with its clauses.
#![tactic(auto)]

ghost use Rattle.std.specs.Prelude.{◌≡◌};
ghost use Rattle.rooms_state.specs.State.{fresh_networks, rooms_in, network_of};
ghost use Rattle.rooms_feed.specs.Feeding.{fed_of, store_after};
ghost use Rattle.rooms_hand_out.specs.Handing.{handed_of, out_after};
ghost use Rattle.rooms_end.specs.Ending.{ended_of};
ghost use Rattle.rooms_count.specs.Counting.{held_of, free_of};
ghost use Rattle.c_answers.specs.Answers.{feed_answer, value_answer};
ghost use Rattle.c_rooms_answers.specs.Answers.{ended_answer};

use rooms_state::Networks;

// The state that was lent becomes the one at the start, over a store of so many bytes, whatever it was. How many rooms the store has.
#[unsafe(no_mangle)]
pub extern "C" fn nw_networks_start(x: &mut Networks, bytes: usize) -> usize
    ensures { (result ≡ rooms_in bytes) × (x.new ≡ fresh_networks bytes) }
{
    neapwillow_rooms::nw_networks_start(x, bytes)
}

// One byte string is fed for a network: the state that was lent becomes the state after it.
#[unsafe(no_mangle)]
pub extern "C" fn nw_networks_feed(
    x: &mut Networks,
    network: u32,
    store: &mut [u8],
    s: &[u8],
) -> u64
    ensures { (result ≡ feed_answer (fed_of (network_of network) x.old store.old s.now).answer) × (x.new ≡ (fed_of (network_of network) x.old store.old s.now).state) × (store.new ≡ store_after (network_of network) x.old store.old s.now) }
{
    neapwillow_rooms::nw_networks_feed(x, network, store, s)
}

// A network's body is handed out, or the first rule that forbids it is told. The state is only looked at.
#[unsafe(no_mangle)]
pub extern "C" fn nw_networks_hand_out(
    x: &Networks,
    network: u32,
    store: &[u8],
    out: &mut [u8],
) -> u64
    ensures { (result ≡ value_answer (handed_of (network_of network) x.now store.now out.old)) × (out.new ≡ out_after (network_of network) x.now store.now out.old) }
{
    neapwillow_rooms::nw_networks_hand_out(x, network, store, out)
}

// A network's gathering ends: its part of the state that was lent becomes fresh.
#[unsafe(no_mangle)]
pub extern "C" fn nw_networks_end(x: &mut Networks, network: u32, bytes: usize) -> u64
    ensures { (result ≡ ended_answer (ended_of (network_of network) x.old bytes).answer) × (x.new ≡ (ended_of (network_of network) x.old bytes).state) }
{
    neapwillow_rooms::nw_networks_end(x, network, bytes)
}

// How many rooms both networks hold.
#[unsafe(no_mangle)]
pub extern "C" fn nw_networks_held_rooms(x: &Networks, bytes: usize) -> u64
    ensures { result ≡ value_answer (held_of x.now bytes) }
{
    neapwillow_rooms::nw_networks_held_rooms(x, bytes)
}

// How many rooms nobody holds.
#[unsafe(no_mangle)]
pub extern "C" fn nw_networks_free_rooms(x: &Networks, bytes: usize) -> u64
    ensures { result ≡ value_answer (free_of x.now bytes) }
{
    neapwillow_rooms::nw_networks_free_rooms(x, bytes)
}
