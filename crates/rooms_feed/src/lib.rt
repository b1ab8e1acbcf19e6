// Feeding one of two networks over one store: what a byte string's arrival makes of the answer, the state and the store.
#![tactic(auto)]

ghost use Rattle.std.specs.Prelude.{◌≡◌, true, ◌*◌, ◌≤◌, length};
ghost use Rattle.ground_numbers.specs.Sizes.{payload_most, version_most, body_most};
ghost use Rattle.ground_placing.specs.Placed.{placed};
ghost use Rattle.section_reader.specs.Section.{payload_of};
ghost use Rattle.rooms_state.specs.State.{room_place, part_possible, network_of};
ghost use Rattle.rooms_feed.specs.Feeding.{Roomy, Fits, opened_part, with_room, taken_fed, taken_store, part_fed, part_store, fed_of, store_after};

use gathering_feed::Answer;
use gathering_verdict::Verdict;
use ground_refusal::Refusal;
use rooms_state::{Networks, Part};
use section_reader::Heading;

// The answer, and the network's part after it.
#[derive(Clone, Copy)]
pub struct FedPart {
    pub answer: Result<Answer, Refusal>,
    pub part: Part,
}

// The answer, and the state after it.
#[derive(Clone, Copy)]
pub struct Fed {
    pub answer: Result<Answer, Refusal>,
    pub state: Networks,
}

// A part of the heading's table while nothing of it is held: it has no rooms.
#[tactic(auto, unfolding(crate::specs::Feeding::opened_part))]
fn open_part(h: Heading) -> Part
    requires { h.version ≤ version_most }
    ensures { result ≡ opened_part h }
{
    Part {
        gathering: gathering_state::open_table(h),
        rooms: [0u16; 256],
    }
}

// The section s of number k is taken into a part that misses it, and its payload goes to its room.
#[tactic(auto, unfolding(crate::specs::Feeding::with_room))]
fn take(p: Part, k: u8, room: usize, store: &mut [u8], s: &[u8]) -> Part
    requires { Fits room store.old s.now × (1 ≤ p.gathering.missing) × (p.gathering.bytes ≤ body_most) }
    ensures { (result ≡ with_room p k (length (payload_of s.now)) room) × (store.new ≡ placed store.old (room_place room) (payload_of s.now)) }
{
    let n = gathering_feed::put_payload(rooms_state::room_place(room as u16), store, s);
    let mut part = p;
    gathering_state::take_section(&mut part.gathering, k, n);
    part.rooms[k as usize] = room as u16;
    part
}

// A section of number k needs a room: it is taken into the part `base` where one is free, and else part p stays.
fn take_free(
    p: Part,
    base: Part,
    k: u8,
    others: &[u16; 256],
    n: usize,
    store: &mut [u8],
    s: &[u8],
) -> FedPart
    requires { Roomy n store.old s.now × (1 ≤ base.gathering.missing) × (base.gathering.bytes ≤ body_most) }
    ensures { (result ≡ taken_fed n p base k others.now s.now) × (store.new ≡ taken_store n base others.now store.old s.now) }
{
    let room = rooms_marks::free_room(&base.rooms, others, n);
    if room == 0 {
        return FedPart {
            answer: Err(Refusal::NoFreeRoom),
            part: p,
        };
    }
    FedPart {
        answer: Ok(Answer::Taken),
        part: take(base, k, room, store, s),
    }
}

// One byte string is fed for the network of this part, where there are n rooms and the other network holds its own.
fn feed_part(p: Part, others: &[u16; 256], n: usize, store: &mut [u8], s: &[u8]) -> FedPart
    requires { (n ≤ 512) × (n * payload_most ≤ length store.old) × (part_possible n p ≡ true) }
    ensures { (result ≡ part_fed n p others.now store.old s.now) × (store.new ≡ part_store n p others.now store.old s.now) }
{
    match rooms_verdict::decide(&p, store, s) {
        Err(r) => FedPart {
            answer: Err(r),
            part: p,
        },
        Ok(Verdict::Repeat) => FedPart {
            answer: Ok(Answer::HeldAlready),
            part: p,
        },
        Ok(Verdict::Contradict) => {
            let mut part = p;
            part.gathering.spoiled = 1;
            FedPart {
                answer: Err(Refusal::Contradiction),
                part,
            }
        }
        Ok(Verdict::Begin(h)) => take_free(p, open_part(h), h.number, others, n, store, s),
        Ok(Verdict::Take(h)) => take_free(p, p, h.number, others, n, store, s),
    }
}

// One byte string is fed for network 1 or 2. A taken payload goes to its room, and nothing else of the store changes.
pub fn feed_step(x: Networks, network: u32, store: &mut [u8], s: &[u8]) -> Fed
    ensures { (result ≡ fed_of (network_of network) x store.old s.now) × (store.new ≡ store_after (network_of network) x store.old s.now) }
{
    if !rooms_state::is_network(network) {
        return Fed {
            answer: Err(Refusal::OutsideSet(0)),
            state: x,
        };
    }
    let bytes = store.len();
    if !rooms_state::possible(&x, bytes) {
        return Fed {
            answer: Err(Refusal::ImpossibleState),
            state: x,
        };
    }
    let n = rooms_state::rooms_in(bytes);
    let mut state = x;
    if network == 1 {
        let fed = feed_part(x.one, &x.two.rooms, n, store, s);
        state.one = fed.part;
        Fed {
            answer: fed.answer,
            state,
        }
    } else {
        let fed = feed_part(x.two, &x.one.rooms, n, store, s);
        state.two = fed.part;
        Fed {
            answer: fed.answer,
            state,
        }
    }
}
