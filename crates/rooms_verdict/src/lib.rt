// The verdict on a byte string that is fed for one of two networks, before a room is looked for.
#![tactic(auto)]

ghost use Rattle.std.specs.Prelude.{◌≡◌, ◌≤◌};
ghost use Rattle.ground_numbers.specs.Sizes.{version_most};
ghost use Rattle.rooms_state.specs.State.{InRooms};
ghost use Rattle.rooms_verdict.specs.Deciding.{good_verdict, verdict_of};

use gathering_verdict::Verdict;
use ground_refusal::Refusal;
use rooms_state::Part;
use section_reader::Heading;

// A good section: refusals 8, 9, 11, in this order.
#[tactic(auto, unfolding(crate::specs::Deciding::good_verdict, crate::specs::Deciding::number_verdict, rooms_state::specs::State::room_payload, rooms_state::specs::State::room_at))]
fn decide_good(p: &Part, store: &[u8], h: Heading, payload: &[u8]) -> Result<Verdict, Refusal>
    requires { (h.version ≤ version_most) × InRooms p.now.gathering.held p.now.rooms store.now }
    ensures { result ≡ good_verdict p.now store.now h payload.now }
{
    let begins = gathering_verdict::begins_or_agrees(&p.gathering, h)?;
    if begins {
        return Ok(Verdict::Begin(h));
    }
    if p.gathering.spoiled != 0 {
        return Err(Refusal::Contradiction);
    }
    let n = p.gathering.held[h.number as usize];
    let at = rooms_state::room_place(p.rooms[h.number as usize]);
    Ok(gathering_verdict::decide_number(n, at, store, h, payload))
}

// Any byte string: refusals 1 to 7, 8, 9, 11, in this order. For feeding.
#[tactic(auto, unfolding(crate::specs::Deciding::verdict_of, crate::specs::Deciding::section_verdict))]
pub fn decide(p: &Part, store: &[u8], s: &[u8]) -> Result<Verdict, Refusal>
    requires { InRooms p.now.gathering.held p.now.rooms store.now }
    ensures { result ≡ verdict_of p.now store.now s.now }
{
    let (h, n) = section_reader::read_section(s)?;
    decide_good(p, store, h, &s[8..8 + n])
}
