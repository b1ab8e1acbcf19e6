// Feeding a gathering: what a byte string's arrival makes of the answer, the state and the store.
#![tactic(auto)]

ghost use Rattle.std.specs.Prelude.{◌≡◌, ◌+◌, ◌≤◌, length};
ghost use Rattle.ground_numbers.specs.Sizes.{payload_most, body_most};
ghost use Rattle.gathering_state.specs.State.{place, with_section};
ghost use Rattle.ground_placing.specs.Placed.{placed};
ghost use Rattle.section_reader.specs.Section.{payload_of};
ghost use Rattle.gathering_feed.specs.Feeding.{fed_of, store_after, Fits};

use gathering_state::Gathering;
use gathering_verdict::Verdict;
use ground_refusal::Refusal;

// What the caller is told.
#[derive(Clone, Copy)]
pub enum Answer {
    Taken,
    HeldAlready,
}

// The answer, and the state after it.
#[derive(Clone, Copy)]
pub struct Fed {
    pub answer: Result<Answer, Refusal>,
    pub state: Gathering,
}

// The payload of the section s goes to byte `at` of the store. How many bytes it has. For two networks too.
#[tactic(auto, unfolding(section_reader::specs::Section::payload_of))]
pub fn put_payload(at: usize, store: &mut [u8], s: &[u8]) -> usize
    requires { (12 ≤ length s.now) × (length s.now ≤ payload_most + 12) × (at + payload_most ≤ length store.old) }
    ensures counted { (result ≡ length (payload_of s.now)) × (result ≤ payload_most) }
    ensures stored { store.new ≡ placed store.old at (payload_of s.now) }
{
    let end = s.len() - 4;
    ground_copying::copy_long(&s[8..end], store, at);
    end - 8
}

// The section s of number k is taken: its payload goes to its place in the store, and the state holds it.
fn take(g: &mut Gathering, k: u8, store: &mut [u8], s: &[u8])
    requires { Fits k store.old s.now × (1 ≤ g.old.missing) × (g.old.bytes ≤ body_most) }
    ensures held { g.new ≡ with_section g.old k (length (payload_of s.now)) }
    ensures stored { store.new ≡ placed store.old (place k) (payload_of s.now) }
{
    let n = put_payload(gathering_state::place_of(k), store, s);
    gathering_state::take_section(g, k, n);
}

// One byte string is fed. A taken payload goes to its place in the store, and nothing else of the store changes. The state is changed where it
// stands, in one copy: a step that made the next state of it would hold both.
#[tactic(auto, unfolding(crate::specs::Feeding::fed_of, crate::specs::Feeding::store_after, crate::specs::Feeding::answer_by, crate::specs::Feeding::state_by, crate::specs::Feeding::store_by, gathering_state::specs::State::spoiled_state))]
pub fn feed_step(g: Gathering, store: &mut [u8], s: &[u8]) -> Fed
    ensures { (result ≡ fed_of g store.old s.now) × (store.new ≡ store_after g store.old s.now) }
{
    let mut state = g;
    let answer = match gathering_verdict::decide(&state, store, s) {
        Err(r) => Err(r),
        Ok(Verdict::Repeat) => Ok(Answer::HeldAlready),
        Ok(Verdict::Contradict) => {
            state.spoiled = 1;
            Err(Refusal::Contradiction)
        }
        Ok(Verdict::Begin(h)) => {
            state = gathering_state::open_table(h);
            take(&mut state, h.number, store, s);
            Ok(Answer::Taken)
        }
        Ok(Verdict::Take(h)) => {
            take(&mut state, h.number, store, s);
            Ok(Answer::Taken)
        }
    };
    Fed { answer, state }
}
