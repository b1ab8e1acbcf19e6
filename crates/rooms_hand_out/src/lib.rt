// Handing out the table that one of two networks has gathered: its payloads joined out of their rooms, in the order of their numbers.
#![tactic(auto)]

ghost use Rattle.std.specs.Prelude.{◌≡◌};
ghost use Rattle.rooms_state.specs.State.{room_at, InRooms, network_of};
ghost use Rattle.rooms_hand_out.specs.Handing.{part_handed, part_out, handed_of, out_after};

use gathering_hand_out::Placing;
use ground_numbers::BODY_MOST;
use ground_refusal::Refusal;
use rooms_state::{Networks, Part};

// Number k stands in its room.
#[derive(Clone, Copy)]
struct ByRoom<'a> {
    rooms: &'a [u16; 256],
}

impl<'a> Placing for ByRoom<'a> {
    ghost at = { λ r k. room_at r.rooms.now k };

    #[tactic(auto, unfolding(rooms_state::specs::State::room_at))]
    fn place_of(&self, k: u8) -> usize {
        rooms_state::room_place(self.rooms[k as usize])
    }
}

// The body of one network's table, or the first rule that forbids it: 13 if nothing begun, 11, 13, 21. The store that a gathering of its own
// would have has a place for each of 256 numbers, so that 10 is not given.
#[tactic(auto, unfolding(crate::specs::Handing::part_handed, crate::specs::Handing::part_out, gathering_hand_out::specs::Handing::handed_by, gathering_hand_out::specs::Handing::out_by))]
fn hand_part(p: &Part, store: &[u8], out: &mut [u8]) -> Result<usize, Refusal>
    requires { InRooms p.now.gathering.held p.now.rooms store.now }
    ensures { (result ≡ part_handed p.now store.now out.old) × (out.new ≡ part_out p.now store.now out.old) }
{
    gathering_hand_out::complete(&p.gathering, BODY_MOST)?;
    let places = ByRoom { rooms: &p.rooms };
    gathering_hand_out::hand_held(&places, gathering_state::lengths(&p.gathering), store, out)
}

// The body of network 1 or 2 is handed out, or the first rule that forbids it is told. Store and state stay: "Handing out returns no rooms".
pub fn hand_out(x: Networks, network: u32, store: &[u8], out: &mut [u8]) -> Result<usize, Refusal>
    ensures { (result ≡ handed_of (network_of network) x store.now out.old) × (out.new ≡ out_after (network_of network) x store.now out.old) }
{
    if !rooms_state::is_network(network) {
        return Err(Refusal::OutsideSet(0));
    }
    if !rooms_state::possible(&x, store.len()) {
        return Err(Refusal::ImpossibleState);
    }
    if network == 1 {
        hand_part(&x.one, store, out)
    } else {
        hand_part(&x.two, store, out)
    }
}
