// The verdict on a byte string that is fed: what the gathering, its store and the string make of it, before anything changes.
#![tactic(auto)]

ghost use Rattle.std.specs.Prelude.{◌≡◌, ◌+◌, ◌-◌, ◌≤◌, ◌<◌, ◌==◌, ◌||◌, not, length, true, if◌then◌else◌, Ok, Err};
ghost use Rattle.ground_equal.specs.Same.{same_bytes};
ghost use Rattle.ground_numbers.specs.Sizes.{payload_most, version_most};
ghost use Rattle.ground_refusal.specs.declared.Refusal.TheVariants.{NotCurrent, OtherHeading};
ghost use Rattle.gathering_state.specs.Lists.{greatest, part};
ghost use Rattle.gathering_verdict.specs.Deciding.{fixed_heading, agrees, begins, good_verdict, verdict_of};
ghost use Rattle.gathering_verdict.specs.declared.Verdict.TheVariants.{Repeat, Contradict, Take};

use gathering_state::Gathering;
use ground_refusal::Refusal;
use section_reader::Heading;

// What a feed decides: answer, state and store follow from it.
#[derive(Clone, Copy)]
pub enum Verdict {
    // Held already, with the same payload.
    Repeat,
    // Held already, with another payload: the gathering is spoiled.
    Contradict,
    // The gathering begins with the section of this heading; what was gathered before is given up.
    Begin(Heading),
    // The payload of the section with this heading is stored.
    Take(Heading),
}

// The heading that the gathering has fixed, whatever it holds.
fn fixed_heading(g: &Gathering) -> Heading
    ensures { (result ≡ fixed_heading g.now) × (result.version < 256) }
{
    Heading {
        kind: g.kind,
        extension: g.extension,
        version: g.version as u16,
        current: true,
        number: 0,
        last: g.last,
    }
}

// Is the heading the gathering's?
#[tactic(auto, unfolding(crate::specs::Deciding::agrees))]
fn heading_agrees(g: &Gathering, h: Heading) -> bool
    ensures { result ≡ agrees g.now h }
{
    gathering_tables::same_table(fixed_heading(g), h)
}

// Does the section begin a gathering: is nothing begun, or is its table newer?
#[tactic(auto, unfolding(crate::specs::Deciding::begins, gathering_state::specs::State::nothing_begun))]
fn begins_gathering(g: &Gathering, h: Heading) -> bool
    requires { h.version ≤ version_most }
    ensures { result ≡ begins g.now h }
{
    g.kind == 0 || gathering_tables::is_newer(fixed_heading(g), h)
}

// Does the section begin a gathering, or is it of the gathering's table? Refusals 8, 9, in this order. For two networks too.
pub fn begins_or_agrees(g: &Gathering, h: Heading) -> Result<bool, Refusal>
    requires { h.version ≤ version_most }
    ensures { result ≡ (if not h.current then Err NotCurrent else if not (begins g.now h || agrees g.now h) then Err OtherHeading else Ok (begins g.now h)) }
{
    if !h.current {
        return Err(Refusal::NotCurrent);
    }
    let begins = begins_gathering(g, h);
    let agrees = heading_agrees(g, h);
    if !(begins | agrees) {
        return Err(Refusal::OtherHeading);
    }
    Ok(begins)
}

// A section of the gathering's table, whose number has the held length n and its place at byte `at` of the store: is it held, and with the same
// payload? For two networks too.
#[tactic(auto, unfolding(gathering_state::specs::Lists::part))]
pub fn decide_number(n: u16, at: usize, store: &[u8], h: Heading, payload: &[u8]) -> Verdict
    requires { at + (n - 1) ≤ length store.now }
    ensures { result ≡ (if n == 0 then Take h else if same_bytes (part store.now at (n - 1)) payload.now then Repeat else Contradict) }
{
    if n == 0 {
        return Verdict::Take(h);
    }
    let end = at + gathering_state::less_one(n);
    if ground_equal::same_bytes(&store[at..end], payload) {
        Verdict::Repeat
    } else {
        Verdict::Contradict
    }
}

// A good section: refusals 8, 9, 10, 11, in this order.
#[tactic(auto, unfolding(crate::specs::Deciding::good_verdict, crate::specs::Deciding::number_verdict, gathering_state::specs::State::held_payload))]
fn decide_good(g: &Gathering, store: &[u8], h: Heading, payload: &[u8]) -> Result<Verdict, Refusal>
    requires { (h.number ≤ h.last) × (h.version ≤ version_most) × (greatest g.now.held ≤ payload_most + 1) }
    ensures { result ≡ good_verdict g.now store.now h payload.now }
{
    let begins = begins_or_agrees(g, h)?;
    if !gathering_state::has_room(store.len(), h.last) {
        return Err(Refusal::StoreTooShort);
    }
    if begins {
        return Ok(Verdict::Begin(h));
    }
    if g.spoiled != 0 {
        return Err(Refusal::Contradiction);
    }
    let at = gathering_state::place_of(h.number);
    Ok(decide_number(g.held[h.number as usize], at, store, h, payload))
}

// Any byte string: refusals 12, 1 to 7, 8, 9, 10, 11, in this order. For feeding.
#[tactic(auto, unfolding(crate::specs::Deciding::verdict_of, crate::specs::Deciding::section_verdict))]
pub fn decide(g: &Gathering, store: &[u8], s: &[u8]) -> Result<Verdict, Refusal>
    ensures { result ≡ verdict_of g.now store.now s.now }
{
    if !gathering_state::possible(g) {
        return Err(Refusal::ImpossibleState);
    }
    let (h, n) = section_reader::read_section(s)?;
    decide_good(g, store, h, &s[8..8 + n])
}
