// The state of a gathering, and the small functions on it and on its store that feeding and handing out rest on.
#![tactic(auto)]

ghost use Rattle.std.specs.Prelude.{◌≡◌, ◌+◌, ◌-◌, ◌<◌, ◌≤◌, ◌==◌, ◌&&◌, not, nat_le, min, max, length, drop};
ghost use Rattle.ground_numbers.specs.Sizes.{payload_most, version_most, body_most};
ghost use Rattle.section_reader.specs.Section.{is_kind};
ghost use Rattle.gathering_state.specs.Lists.{greatest, smallest_missing, total, held_count, Surveyed};
ghost use Rattle.gathering_state.specs.State.{fresh_state, lengths, is_fresh, is_begun, possible_of, place, has_room, opened, with_section};

use ground_numbers::{PAYLOAD_MOST, VERSION_MOST};
use section_reader::Heading;

// What a gathering knows of its table. All zeros is the fresh state. Laid out so that C sees no padding.
#[repr(C)]
#[derive(Clone, Copy)]
pub struct Gathering {
    // The sum of the lengths of the held payloads.
    pub bytes: u32,
    // How many sections of the table are not held, and 0 while nothing is begun.
    pub missing: u16,
    pub extension: u16,
    // table_id, and 0 while nothing is begun.
    pub kind: u8,
    pub version: u8,
    pub last: u8,
    // 1 after a contradiction, else 0.
    pub spoiled: u8,
    // For each section number its payload's length and one more, or 0 where it is not held.
    pub held: [u16; 256],
}

// ---- leaves on slices: feeding and handing out call those that are public

// What a pass over some lengths tells.
#[derive(Clone, Copy)]
struct Tally {
    // The greatest of them.
    most: u16,
    // How many numbers are held.
    held: u16,
    // The sum of the payloads' lengths.
    bytes: u32,
}

// What one pass over all lengths tells: a tally of those of the table's numbers, and the greatest of those above the last number.
#[derive(Clone, Copy)]
struct Survey {
    table: Tally,
    above: u16,
}

fn larger(a: u16, b: u16) -> u16
    ensures { result ≡ max a b }
{
    if a < b { b } else { a }
}

// The greatest of the lengths from index `from` on. This loop and the next have no branch, so that they run on many lengths at once. By a number: over a
// slice that begins at `from` LLVM doesn't see how many turns there are.
fn greatest_from(s: &[u16], from: usize) -> u16
    requires { from ≤ length s.now }
    ensures { result ≡ greatest (drop from s.now) }
{
    let mut most: u16 = 0;
    for i in from..s.len() {
        most = larger(most, s[i]);
    }
    most
}

// 1 where the number is held, else 0.
fn one_if_held(n: u16) -> u16
    ensures { result ≡ min n 1 }
{
    if n == 0 { 0 } else { 1 }
}

fn tally_of(s: &[u16]) -> Tally
    requires { length s.now ≤ 256 }
    ensures { (result.most ≡ greatest s.now) × (result.held ≡ held_count s.now) × (result.bytes ≡ total s.now) }
{
    let mut most: u16 = 0;
    let mut held: u16 = 0;
    let mut bytes: u32 = 0;
    for n in s {
        let one = one_if_held(*n);
        most = larger(most, *n);
        held += one;
        bytes += (*n - one) as u32;
    }
    Tally { most, held, bytes }
}

// Each length is read once; the table has `count` numbers.
fn survey_of(s: &[u16], count: usize) -> Survey
    requires { (count ≤ length s.now) × (length s.now ≤ 256) }
    ensures { Surveyed s.now count result.table.most result.table.held result.table.bytes result.above }
{
    Survey {
        table: tally_of(&s[..count]),
        above: greatest_from(s, count),
    }
}

// The smallest number that is not held: "The search for a missing number stops at the first one found."
#[tactic(auto, using(crate::proofs::Lists::missing_stop))]
pub fn smallest_missing(s: &[u16]) -> usize
    ensures { result ≡ smallest_missing s.now }
{
    let mut smallest = s.len();
    for k in 0..s.len() {
        if s[k] == 0 {
            smallest = k;
            break;
        }
    }
    smallest
}

// The payload's length that a held length stands for.
pub fn less_one(n: u16) -> usize
    ensures { (result ≡ n - 1) × (result < 65535) }
{
    ground_numbers::less(n as usize, 1)
}

// The sum of the payloads' lengths.
pub fn total_of(s: &[u16]) -> usize
    requires { length s.now ≤ 256 }
    ensures { result ≡ total s.now }
{
    let mut sum: usize = 0;
    for n in s {
        sum += less_one(*n);
    }
    sum
}

// ---- possible states

// "A fresh state holds nothing."
#[tactic(auto, unfolding(crate::specs::State::fresh_state))]
pub fn fresh() -> Gathering
    ensures { result ≡ fresh_state }
{
    Gathering {
        bytes: 0,
        missing: 0,
        extension: 0,
        kind: 0,
        version: 0,
        last: 0,
        spoiled: 0,
        held: [0u16; 256],
    }
}

// The functions below borrow the state: handed on whole it is copied, 524 bytes of stack each time.

#[tactic(auto, unfolding(crate::specs::State::is_fresh))]
fn is_fresh(g: &Gathering) -> bool
    ensures { result ≡ is_fresh g.now }
{
    g.kind == 0
        && g.extension == 0
        && g.version == 0
        && g.last == 0
        && g.spoiled == 0
        && greatest_from(&g.held, 0) == 0
        && g.missing == 0
        && g.bytes == 0
}

// The tests of a begun state's lengths and counts, by what the pass over its lengths tells.
fn is_begun_by(g: &Gathering, seen: Survey) -> bool
    ensures { result ≡ (seen.above == 0 && not (seen.table.most == 0) && nat_le seen.table.most (payload_most + 1) && g.now.missing + seen.table.held == g.now.last + 1 && g.now.bytes == seen.table.bytes) }
{
    seen.above == 0
        && seen.table.most != 0
        && seen.table.most as usize <= PAYLOAD_MOST + 1
        && g.missing as usize + seen.table.held as usize == g.last as usize + 1
        && g.bytes == seen.table.bytes
}

// The tests of its other numbers.
fn is_of_table(g: &Gathering) -> bool
    ensures { result ≡ (is_kind g.now.kind && nat_le g.now.version version_most && nat_le g.now.spoiled 1) }
{
    section_reader::is_kind(g.kind as u32) && g.version as u32 <= VERSION_MOST && g.spoiled <= 1
}

// What these rule out is refused without a pass over the lengths.
fn is_begun(g: &Gathering) -> bool
    ensures { result ≡ is_begun g.now }
{
    is_of_table(g) && is_begun_by(g, survey_of(&g.held, g.last as usize + 1))
}

// Is it a state that a gathering can be in?
pub fn possible(g: &Gathering) -> bool
    ensures { result ≡ possible_of g.now }
{
    if g.kind == 0 {
        is_fresh(g)
    } else {
        is_begun(g)
    }
}

// The held lengths of the numbers that the table has. For handing out and packing.
#[tactic(auto, unfolding(crate::specs::State::lengths))]
pub fn lengths(g: &Gathering) -> &[u16]
    ensures held { result.now ≡ lengths g.now }
    ensures few { length result.now ≤ 256 }
{
    &g.held[..g.last as usize + 1]
}

// ---- the store: for feeding and handing out

// Where the payload of number k begins in the store.
#[tactic(auto, unfolding(crate::specs::State::place))]
pub fn place_of(k: u8) -> usize
    ensures { result ≡ place k }
{
    k as usize * PAYLOAD_MOST
}

// Has a store of so many bytes room for the numbers 0 to last?
#[tactic(auto, unfolding(crate::specs::State::has_room))]
pub fn has_room(bytes: usize, last: u8) -> bool
    ensures { result ≡ has_room bytes last }
{
    (last as usize + 1) * PAYLOAD_MOST <= bytes
}

// ---- for feeding

// The state of the heading's table while nothing of it is held.
#[tactic(auto, unfolding(crate::specs::State::opened))]
pub fn open_table(h: Heading) -> Gathering
    requires { h.version ≤ version_most }
    ensures { result ≡ opened h }
{
    Gathering {
        bytes: 0,
        missing: h.last as u16 + 1,
        extension: h.extension,
        kind: h.kind,
        version: h.version as u8,
        last: h.last,
        spoiled: 0,
        held: [0u16; 256],
    }
}

// Number k of the table, which was not held, is taken with a payload of n bytes.
#[tactic(auto, unfolding(crate::specs::State::with_section))]
pub fn take_section(g: &mut Gathering, k: u8, n: usize)
    requires { (1 ≤ g.old.missing) × (g.old.bytes ≤ body_most) × (n ≤ payload_most) }
    ensures { g.new ≡ with_section g.old k n }
{
    g.bytes += n as u32;
    g.missing -= 1;
    g.held[k as usize] = n as u16 + 1;
}
