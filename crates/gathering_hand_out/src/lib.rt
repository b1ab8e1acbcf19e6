// Handing out a gathered table: is all of it there, and its payloads joined in the order of their numbers.
#![tactic(auto)]

ghost use Rattle.std.specs.Prelude.{◌≡◌, ℕ, ◌+◌, ◌-◌, ◌≤◌, ◌<◌, length, get_or};
ghost use Rattle.ground_placing.specs.Placed.{placed};
ghost use Rattle.gathering_state.specs.Lists.{total};
ghost use Rattle.gathering_state.specs.State.{place};
ghost use Rattle.gathering_hand_out.specs.Handing.{joined, missing_of, complete_of, handed_if_room, handed_of, out_by, out_after};

use gathering_state::Gathering;
use ground_refusal::Refusal;

// Where the payloads of a table stand in a store: by their numbers, or, for two networks, in their rooms.
pub trait Placing {
    ghost at: { Self → ℕ → ℕ };

    // Where the payload of number k begins.
    fn place_of(&self, k: u8) -> usize
        ensures { result ≡ at self.now k };
}

// Number k stands at byte k × 4,084.
pub struct ByNumber;

impl Placing for ByNumber {
    ghost at = { λ n k. place k };

    fn place_of(&self, k: u8) -> usize {
        gathering_state::place_of(k)
    }
}

// Is every one of these numbers held? Refusal 13.
#[tactic(auto, unfolding(crate::specs::Handing::missing_of))]
fn missing(held: &[u16]) -> Result<(), Refusal>
    ensures { result ≡ missing_of held.now }
{
    let k = gathering_state::smallest_missing(held);
    if k < held.len() {
        return Err(Refusal::Missing(k));
    }
    Ok(())
}

// Is all of the table there, in a store of so many bytes? Refusals 12, 13 if nothing begun, 10, 11, 13, in this order.
#[tactic(auto, unfolding(crate::specs::Handing::complete_of, gathering_state::specs::State::nothing_begun))]
pub fn complete(g: &Gathering, bytes: usize) -> Result<(), Refusal>
    ensures { result ≡ complete_of g.now bytes }
{
    if !gathering_state::possible(g) {
        return Err(Refusal::ImpossibleState);
    }
    if g.kind == 0 {
        return Err(Refusal::Missing(0));
    }
    if !gathering_state::has_room(bytes, g.last) {
        return Err(Refusal::StoreTooShort);
    }
    if g.spoiled != 0 {
        return Err(Refusal::Contradiction);
    }
    missing(gathering_state::lengths(g))
}

// The payloads of the numbers from 0 on, joined in their order at the start of the output.
fn join<P: Placing>(places: &P, held: &[u16], store: &[u8], out: &mut [u8])
    requires few { length held.now ≤ 256 }
    requires lie { (k : ℕ) → k < length held.now → P.at places.now k + (get_or held.now k 0 - 1) ≤ length store.now }
    requires fit { total held.now ≤ length out.old }
    ensures { out.new ≡ placed out.old 0 (joined (P.at places.now) 0 held.now store.now) }
{
    let mut o: usize = 0;
    for k in 0..held.len() {
        let n = gathering_state::less_one(held[k]);
        let at = places.place_of(k as u8);
        let end = at + n;
        ground_copying::copy_long(&store[at..end], out, o);
        o += n;
    }
}

// The body of a table that is all there: refusal 21. For two networks too.
pub fn hand_held<P: Placing>(
    places: &P,
    held: &[u16],
    store: &[u8],
    out: &mut [u8],
) -> Result<usize, Refusal>
    requires few { length held.now ≤ 256 }
    requires lie { (k : ℕ) → k < length held.now → P.at places.now k + (get_or held.now k 0 - 1) ≤ length store.now }
    ensures { (result ≡ handed_if_room (length (joined (P.at places.now) 0 held.now store.now)) (length out.old)) × (out.new ≡ out_by (joined (P.at places.now) 0 held.now store.now) out.old result) }
{
    let n = gathering_state::total_of(held);
    if out.len() < n {
        return Err(Refusal::OutputTooSmall);
    }
    join(places, held, store, out);
    Ok(n)
}

// The body of a gathering is handed out, or the first rule that forbids it is told. Store and state stay.
#[tactic(auto, unfolding(crate::specs::Handing::handed_of, crate::specs::Handing::handed_by, crate::specs::Handing::out_after, crate::specs::Handing::out_by, crate::specs::Handing::body_held))]
pub fn hand_out(g: Gathering, store: &[u8], out: &mut [u8]) -> Result<usize, Refusal>
    ensures { (result ≡ handed_of g store.now out.old) × (out.new ≡ out_after g store.now out.old) }
{
    complete(&g, store.len())?;
    hand_held(&ByNumber, gathering_state::lengths(&g), store, out)
}
