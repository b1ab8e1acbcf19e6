// Packing a gathered table: its payloads are moved together where they stand, to the front of the store, and the gathering is over.
#![tactic(auto)]

ghost use Rattle.std.specs.Prelude.{◌≡◌};
ghost use Rattle.ground_placing.specs.Placed.{placed};
ghost use Rattle.gathering_state.specs.Lists.{total};
ghost use Rattle.gathering_state.specs.State.{place};
ghost use Rattle.gathering_hand_out.specs.Handing.{joined, InStore};
ghost use Rattle.gathering_pack.specs.Packing.{packed_of, packing_of, store_packed};

use gathering_state::Gathering;
use ground_refusal::Refusal;

// The answer, and the state after it.
#[derive(Clone, Copy)]
pub struct Packed {
    pub answer: Result<usize, Refusal>,
    pub state: Gathering,
}

// The payloads of the numbers from 0 on, moved together in their order at the front of the store, and how many bytes they are.
// Front to back: what is still to be moved lies no nearer to the front than where it goes.
fn move_together(held: &[u16], store: &mut [u8]) -> usize
    requires { InStore held.now store.old }
    ensures counted { result ≡ total held.now }
    ensures joined { store.new ≡ placed store.old 0 (joined place 0 held.now store.old) }
{
    let mut o: usize = 0;
    for k in 0..held.len() {
        let n = gathering_state::less_one(held[k]);
        let at = gathering_state::place_of(k as u8);
        ground_moving::move_front(store, at, o, n);
        o += n;
    }
    o
}

// The body of a gathering is packed where it stands, or the first rule that forbids it is told.
#[tactic(auto, unfolding(crate::specs::Packing::packed_of, crate::specs::Packing::packed_by, crate::specs::Packing::store_packed, gathering_hand_out::specs::Handing::out_by, gathering_hand_out::specs::Handing::body_held))]
fn pack_held(g: &Gathering, store: &mut [u8]) -> Result<usize, Refusal>
    ensures { (result ≡ packed_of g.now store.old) × (store.new ≡ store_packed g.now store.old) }
{
    gathering_hand_out::complete(g, store.len())?;
    Ok(move_together(gathering_state::lengths(g), store))
}

// The state is fresh after its body was packed; where nothing was, all stays. The answer comes first: no second copy of the state is made.
#[tactic(auto, unfolding(crate::specs::Packing::packing_of, crate::specs::Packing::state_by))]
pub fn pack_step(g: Gathering, store: &mut [u8]) -> Packed
    ensures { (result ≡ packing_of g store.old) × (store.new ≡ store_packed g store.old) }
{
    let answer = pack_held(&g, store);
    match answer {
        Err(_) => Packed { answer, state: g },
        Ok(_) => Packed {
            answer,
            state: gathering_state::fresh(),
        },
    }
}
