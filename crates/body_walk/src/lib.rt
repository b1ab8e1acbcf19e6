// A walk through a body, field by field: dry it checks them, wet it also lays their entries on a tape.
#![tactic(auto)]

ghost use Rattle.std.specs.Prelude.{◌≡◌, [], ◌∷◌, ◌-◌, ◌≤◌};
ghost use Rattle.body_formats.specs.Format.{count, among, number, nibbles_among, reserved, bytes_among, digits, times, rest, length_of, least_of, length12, opaque};
ghost use Rattle.body_formats.specs.Time.{time, end_time};
ghost use Rattle.body_formats.specs.Resource.{resource, resources};
ghost use Rattle.body_formats.specs.Identifier.{identifier};
ghost use Rattle.ground_refusal.specs.declared.Refusal.TheVariants.{PastPart, LeftOver, ImpossibleDay};
ghost use Rattle.body_walk.specs.Walked.{Walked, walk_of, leaving, judged_from, body_end, entries_needed, Counted, opened_by, entered};
ghost use Rattle.body_walk.specs.Entries.{Laid, Stepped, entry_of, past_number, Told, span_of, past_part, end_of};

use body_formats::{Number, Part, RESOURCE_PAIRS, Step};
use ground_numbers::{less, within};
use ground_refusal::Refusal;

// Where a walk stands: the position, and the room on the tape, one more than the entries that still fit.
pub type Place = (usize, usize);

// Where a walk stands, or why it stopped.
pub type Walk = Result<Place, Refusal>;

// A walk past a number, and the number.
pub type Count = Result<(Place, u64), Refusal>;

// A walk into a counted part, and where the part ends.
pub type Opened = Result<(Place, usize), Refusal>;

// One entry, if it fits.
pub fn lay_entry(tape: &mut [u64], room: usize, v: u64, wet: bool)
    ensures { Laid tape.old room wet (v ∷ []) tape.new }
{
    if wet {
        let len = tape.len();
        if 1 < room {
            if room - 1 <= len {
                let k = len - (room - 1);
                tape[k] = v;
            }
        }
    }
}

// Two entries.
fn lay_two(tape: &mut [u64], room: usize, v: u64, u: u64, wet: bool)
    ensures { Laid tape.old room wet (v ∷ u ∷ []) tape.new }
{
    lay_entry(tape, room, v, wet);
    lay_entry(tape, less(room, 1), u, wet);
}

// Past a number, and the number.
fn told(x: Number, tape: &mut [u64], room: usize, wet: bool) -> Count
    ensures { Told x tape.old room wet result tape.new }
{
    let (v, q) = x?;
    lay_entry(tape, room, v, wet);
    Ok(((q, less(room, 1)), v))
}

// Past a number that is not needed.
pub fn onward(x: Count) -> Walk
    ensures { result ≡ walk_of x }
{
    let (at, n) = x?;
    Ok(at)
}

// Past a number.
fn past_number(x: Number, tape: &mut [u64], room: usize, wet: bool) -> Walk
    ensures { Stepped (past_number room x) (entry_of x) tape.old room wet result tape.new }
{
    onward(told(x, tape, room, wet))
}

// Past a part.
fn past_part(x: Part, tape: &mut [u64], room: usize, wet: bool) -> Walk
    requires { end_of x ≤ 18446744073709551615 }
    ensures { Stepped (past_part room x) (span_of x) tape.old room wet result tape.new }
{
    let (a, n) = x?;
    lay_two(tape, room, a as u64, n as u64, wet);
    Ok((a + n, less(room, 2)))
}

// Past a number of w bytes.
pub fn walk_number(s: &[u8], l: usize, x: Walk, w: usize, tape: &mut [u64], wet: bool) -> Walk
    requires { w ≤ 7 }
    ensures { Walked (number w) s.now l x wet tape.old result tape.new }
{
    let (p, room) = x?;
    past_number(body_numbers::read_number(s, l, p, w), tape, room, wet)
}

// Past a number of w bytes from lo to hi.
pub fn walk_among(
    s: &[u8],
    l: usize,
    x: Walk,
    w: usize,
    lo: u64,
    hi: u64,
    tape: &mut [u64],
    wet: bool,
) -> Walk
    requires { w ≤ 7 }
    ensures { Walked (among lo hi (number w)) s.now l x wet tape.old result tape.new }
{
    let (p, room) = x?;
    let n = body_numbers::read_number(s, l, p, w);
    past_number(body_numbers::among(n, p, lo, hi), tape, room, wet)
}

// Past a number of w bytes from lo to hi, and the number.
pub fn walk_told_among(
    s: &[u8],
    l: usize,
    x: Walk,
    w: usize,
    lo: u64,
    hi: u64,
    tape: &mut [u64],
    wet: bool,
) -> Count
    requires { w ≤ 7 }
    ensures { Counted (among lo hi (number w)) s.now l x wet tape.old result tape.new }
{
    let (p, room) = x?;
    let n = body_numbers::read_number(s, l, p, w);
    told(body_numbers::among(n, p, lo, hi), tape, room, wet)
}

// Past a number of w bytes, as a count is, and the number.
pub fn walk_count(s: &[u8], l: usize, x: Walk, w: usize, tape: &mut [u64], wet: bool) -> Count
    requires { w ≤ 7 }
    ensures { Counted (count w) s.now l x wet tape.old result tape.new }
{
    let (p, room) = x?;
    told(body_numbers::read_number(s, l, p, w), tape, room, wet)
}

// Past k reserved bits and a number, in w + 1 bytes.
pub fn walk_reserved(
    s: &[u8],
    l: usize,
    x: Walk,
    k: usize,
    w: usize,
    tape: &mut [u64],
    wet: bool,
) -> Count
    requires { (k ≤ 8) × (w ≤ 6) }
    ensures { Counted (reserved k w) s.now l x wet tape.old result tape.new }
{
    let (p, room) = x?;
    told(body_numbers::read_reserved(s, l, p, k, w), tape, room, wet)
}

// Past k reserved bits and a number from lo to hi, in w + 1 bytes.
pub fn walk_reserved_among(
    s: &[u8],
    l: usize,
    x: Walk,
    k: usize,
    w: usize,
    lo: u64,
    hi: u64,
    tape: &mut [u64],
    wet: bool,
) -> Count
    requires { (k ≤ 8) × (w ≤ 6) }
    ensures { Counted (among lo hi (reserved k w)) s.now l x wet tape.old result tape.new }
{
    let (p, room) = x?;
    let n = body_numbers::read_reserved(s, l, p, k, w);
    told(body_numbers::among(n, p, lo, hi), tape, room, wet)
}

// Past a time.
pub fn walk_time(s: &[u8], l: usize, x: Walk, tape: &mut [u64], wet: bool) -> Walk
    ensures { Walked time s.now l x wet tape.old result tape.new }
{
    let (p, room) = x?;
    past_number(body_numbers::read_time(s, l, p), tape, room, wet)
}

// Past an end time, which may be the live mark.
pub fn walk_end(s: &[u8], l: usize, x: Walk, tape: &mut [u64], wet: bool) -> Walk
    ensures { Walked end_time s.now l x wet tape.old result tape.new }
{
    let (p, room) = x?;
    past_number(body_numbers::read_end(s, l, p), tape, room, wet)
}

// Past opaque bytes after a length of w bytes.
pub fn walk_part(s: &[u8], l: usize, x: Walk, w: usize, tape: &mut [u64], wet: bool) -> Walk
    requires { w ≤ 7 }
    ensures { Walked (opaque w) s.now l x wet tape.old result tape.new }
{
    let (p, room) = x?;
    past_part(body_parts::read_part(s, l, p, w), tape, room, wet)
}

// Past all bytes that are left in the part.
pub fn walk_rest(s: &[u8], l: usize, x: Walk, tape: &mut [u64], wet: bool) -> Walk
    ensures { Walked rest s.now l x wet tape.old result tape.new }
{
    let (p, room) = x?;
    lay_two(tape, room, p as u64, less(l, p) as u64, wet);
    Ok((l, less(room, 2)))
}

// Past n bytes, each from lo to hi.
pub fn walk_bytes(
    s: &[u8],
    l: usize,
    x: Walk,
    n: usize,
    lo: u8,
    hi: u8,
    tape: &mut [u64],
    wet: bool,
) -> Walk
    ensures { Walked (bytes_among lo hi n) s.now l x wet tape.old result tape.new }
{
    let (p, room) = x?;
    past_part(body_digits::read_bytes(s, l, p, n, lo, hi), tape, room, wet)
}

// Past four reserved bits and 2 h + 1 digits.
pub fn walk_digits(s: &[u8], l: usize, x: Walk, h: usize, tape: &mut [u64], wet: bool) -> Walk
    ensures { Walked (digits h) s.now l x wet tape.old result tape.new }
{
    let (p, room) = x?;
    past_part(body_digits::read_digits(s, l, p, h), tape, room, wet)
}

// Past a message's identifier.
pub fn walk_identifier(s: &[u8], l: usize, x: Walk, tape: &mut [u64], wet: bool) -> Walk
    ensures { Walked identifier s.now l x wet tape.old result tape.new }
{
    let (p, room) = x?;
    past_part(body_identifier::read_identifier(s, l, p), tape, room, wet)
}

// Past two numbers of four bits from lo to hi, in one byte.
pub fn walk_nibbles(
    s: &[u8],
    l: usize,
    x: Walk,
    lo: u64,
    hi: u64,
    tape: &mut [u64],
    wet: bool,
) -> Walk
    ensures { Walked (nibbles_among lo hi) s.now l x wet tape.old result tape.new }
{
    let (p, room) = x?;
    let (v, q) = body_numbers::read_number(s, l, p, 1)?;
    let high = v / 16;
    let low = v % 16;
    if !(within(lo, high, hi) & within(lo, low, hi)) {
        return Err(Refusal::OutsideSet(p));
    }
    lay_two(tape, room, high, low, wet);
    Ok((q, less(room, 2)))
}

// Into a part.
fn into(x: Part, room: usize) -> Opened
    requires { end_of x ≤ 18446744073709551615 }
    ensures { result ≡ opened_by room x }
{
    let (a, n) = x?;
    Ok(((a, room), a + n))
}

// Past a length of w bytes, into its part.
pub fn enter(s: &[u8], l: usize, x: Walk, w: usize) -> Opened
    requires { w ≤ 7 }
    ensures { result ≡ entered (length_of w) s.now l x }
{
    let (p, room) = x?;
    into(body_parts::read_part(s, l, p, w), room)
}

// Past four reserved bits and a 12-bit length, into its part.
pub fn enter12(s: &[u8], l: usize, x: Walk) -> Opened
    ensures { result ≡ entered length12 s.now l x }
{
    let (p, room) = x?;
    into(body_parts::read_part12(s, l, p), room)
}

// Past a length of w bytes that counts so many at least, into its part.
pub fn enter_least(s: &[u8], l: usize, x: Walk, w: usize, least: u64) -> Opened
    requires { w ≤ 7 }
    ensures { result ≡ entered (least_of w least) s.now l x }
{
    let (p, room) = x?;
    into(body_parts::read_part_least(s, l, p, w, least), room)
}

// Out of a part: a byte left in it is 15.
#[tactic(auto, unfolding(crate::specs::Walked::leaving))]
pub fn leave(x: Walk, end: usize) -> Walk
    ensures { result ≡ leaving PastPart end x }
{
    let (p, room) = x?;
    if p < end {
        return Err(Refusal::PastPart(p));
    }
    Ok((p, room))
}

// Out of the body: a byte left in it is 16.
#[tactic(auto, unfolding(crate::specs::Walked::leaving))]
pub fn finish(x: Walk, end: usize) -> Walk
    ensures { result ≡ leaving LeftOver end x }
{
    let (p, room) = x?;
    if p < end {
        return Err(Refusal::LeftOver(p));
    }
    Ok((p, room))
}

// Where a walk through a body ended.
pub fn body_end(x: Walk) -> Step
    ensures { result ≡ body_end x }
{
    let (end, room) = x?;
    Ok(end)
}

// How many entries a walk that began with this room asks for: 21 where the tape is too small for them.
#[tactic(auto, using(crate::proofs::Leaves::entries_small, crate::proofs::Leaves::entries_fit))]
pub fn entries_needed(x: Walk, room: usize) -> Step
    ensures { result ≡ entries_needed room x }
{
    let (end, left) = x?;
    if left == 0 {
        return Err(Refusal::OutputTooSmall);
    }
    Ok(less(room, left))
}

// Past a day or a time that was walked from x to y: 20 at x where it is not possible.
#[tactic(auto, unfolding(crate::specs::Walked::judged_from))]
pub fn possible(x: Walk, y: Walk, holds: bool) -> Walk
    ensures { result ≡ judged_from ImpossibleDay x holds y }
{
    let Ok((p, room)) = x else {
        return y;
    };
    let past = y?;
    if holds {
        return Ok(past);
    }
    Err(Refusal::ImpossibleDay(p))
}

// "resource count 8, resources of 4 reserved + 23 digits".
pub fn walk_resources(s: &[u8], l: usize, x: Walk, tape: &mut [u64], wet: bool) -> Walk
    ensures { Walked resources s.now l x wet tape.old result tape.new }
{
    let (first, n) = walk_count(s, l, x, 1, tape, wet)?;
    let mut at: Walk = Ok(first);
    for i in 0..n {
        at = walk_digits(s, l, at, RESOURCE_PAIRS, tape, wet);
    }
    at
}
