// A pen through a form, field by field: it judges each and measures the bytes of the body, and writes none. A field is refused at the
// entry of the tape where it begins.
#![tactic(auto)]

ghost use Rattle.std.specs.Prelude.{◌≡◌, List, [], ◌&&◌, ℕ, ◌+◌, ◌≤◌, ◌<◌, length, take, drop, leb, ltb, Ok, Err};
ghost use Rattle.ground_refusal.specs.declared.Refusal.TheVariants.{OutsideSet};
ghost use Rattle.body_formats.specs.Reading.{found, refused, and_then, need};
ghost use Rattle.body_formats.specs.Format.{tape_entry, span, count, among, number, nibbles_among, reserved, bytes_among, digits, rest, opaque};
ghost use Rattle.body_formats.specs.Time.{time, end_time};
ghost use Rattle.body_formats.specs.Identifier.{identifier};
ghost use Rattle.body_formats.specs.Resource.{resources};
ghost use Rattle.body_formats.specs.Answers.{number_of};
ghost use Rattle.body_pen.specs.Penned.{more, penned, counted, gapped, closed, unprinted, form_measured, step_fitting};

use body_formats::{IDENTIFIER_PAIRS, Number, Part, RESOURCE_PAIRS, Step};
use ground_numbers::{BODY_MOST, less, wide};
use ground_refusal::Refusal;

// Where a pen stands: the bytes so far, up to one more than a body may have, and the next entry of the tape; or why it stopped.
pub type Pen = Result<(usize, usize), Refusal>;

// Where a pen past a number stands, and the number; or why it stopped.
pub type Count = Result<((usize, usize), u64), Refusal>;

// The size of a body that is too long, as specs/Penned.antt has it.
const ABOVE_BODY: usize = BODY_MOST + 1;

// The bytes so far with n more, or those of a body that is too long.
#[tactic(auto, unfolding(crate::specs::Penned::more))]
fn grown(size: usize, n: u64, over: bool) -> usize
    ensures { result ≡ more size n over }
{
    if over {
        return ABOVE_BODY;
    }
    (size as u64).saturating_add(n).min(ABOVE_BODY as u64) as usize
}

// ---- entries of the tape

// The number at the entry k, and the next entry; 19 where the tape has ended.
fn entry_at(tape: &[u64], k: usize) -> Number
    ensures { result ≡ number_of (tape_entry tape.now k) }
{
    if tape.len() <= k {
        return Err(Refusal::OutsideSet(k));
    }
    Ok((tape[k], k + 1))
}

// A number below a bound and from lo to hi; any other is 19.
fn number_among(tape: &[u64], k: usize, bound: u64, lo: u64, hi: u64) -> Number
    ensures { result ≡ number_of (and_then (tape_entry tape.now k) (λ v j. need (ltb v bound && (leb lo v && leb v hi)) (OutsideSet k) (found v j))) }
{
    let (v, j) = entry_at(tape, k)?;
    if bound <= v {
        return Err(Refusal::OutsideSet(k));
    }
    if v < lo {
        return Err(Refusal::OutsideSet(k));
    }
    if hi < v {
        return Err(Refusal::OutsideSet(k));
    }
    Ok((v, j))
}

// The span of the pool that the entries k and k + 1 say; 19 where there is none.
pub fn span_at(pool: &[u8], tape: &[u64], k: usize) -> Part
    ensures { ((e : Refusal) → result ≡ Err e → span pool.now tape.now k ≡ refused e) × ((a n : ℕ) → result ≡ Ok (a, n) → (k + 2 ≤ length tape.now) × (a + n ≤ length pool.now) × (span pool.now tape.now k ≡ found (take n (drop a pool.now)) (k + 2))) }
{
    if tape.len() < 2 {
        return Err(Refusal::OutsideSet(k));
    }
    if tape.len() - 2 < k {
        return Err(Refusal::OutsideSet(k));
    }
    let a = tape[k];
    let n = tape[k + 1];
    let len = pool.len() as u64;
    if len < a {
        return Err(Refusal::OutsideSet(k));
    }
    if len - a < n {
        return Err(Refusal::OutsideSet(k));
    }
    Ok((a as usize, n as usize))
}

// ---- numbers

// A count of w bytes: one that is too large for them is as a body that is too long.
pub fn pen_count(tape: &[u64], x: Pen, w: usize) -> Count
    requires { w ≤ 7 }
    ensures { (pool : List ℕ) → result ≡ counted (count w) pool tape.now x }
{
    let (size, k) = x?;
    let (v, j) = entry_at(tape, k)?;
    Ok((
        (grown(size, w as u64, body_numbers::power(8 * w) <= v), j),
        v,
    ))
}

// A number from lo to hi after k reserved bits, in w + 1 bytes.
pub fn pen_reserved_among(tape: &[u64], x: Pen, k: usize, w: usize, lo: u64, hi: u64) -> Count
    requires { (k ≤ 8) × (w ≤ 6) }
    ensures { (pool : List ℕ) → result ≡ counted (among lo hi (reserved k w)) pool tape.now x }
{
    let (size, i) = x?;
    let bound = body_numbers::power(8 * w + 8 - k);
    let (v, j) = number_among(tape, i, bound, lo, hi)?;
    Ok(((grown(size, (w + 1) as u64, false), j), v))
}

// A number after k reserved bits, in w + 1 bytes.
pub fn pen_reserved(tape: &[u64], x: Pen, k: usize, w: usize) -> Count
    requires { (k ≤ 8) × (w ≤ 6) }
    ensures { (pool : List ℕ) → result ≡ counted (reserved k w) pool tape.now x }
{
    pen_reserved_among(tape, x, k, w, 0, 0xFFFF_FFFF_FFFF_FFFF)
}

// A number of w bytes from lo to hi, which is told too: one with no reserved bits.
pub fn pen_told_among(tape: &[u64], x: Pen, w: usize, lo: u64, hi: u64) -> Count
    requires { (0 < w) × (w ≤ 7) }
    ensures { (pool : List ℕ) → result ≡ counted (among lo hi (number w)) pool tape.now x }
{
    pen_reserved_among(tape, x, 0, w - 1, lo, hi)
}

// A number of w bytes, which is told too.
pub fn pen_told(tape: &[u64], x: Pen, w: usize) -> Count
    requires { (0 < w) × (w ≤ 7) }
    ensures { (pool : List ℕ) → result ≡ counted (number w) pool tape.now x }
{
    pen_told_among(tape, x, w, 0, 0xFFFF_FFFF_FFFF_FFFF)
}

// A number of w bytes from lo to hi.
pub fn pen_among(tape: &[u64], x: Pen, w: usize, lo: u64, hi: u64) -> Pen
    requires { (0 < w) × (w ≤ 7) }
    ensures { (pool : List ℕ) → result ≡ penned (among lo hi (number w)) pool tape.now x }
{
    let (past, v) = pen_told_among(tape, x, w, lo, hi)?;
    Ok(past)
}

// A number of w bytes.
pub fn pen_number(tape: &[u64], x: Pen, w: usize) -> Pen
    requires { (0 < w) × (w ≤ 7) }
    ensures { (pool : List ℕ) → result ≡ penned (number w) pool tape.now x }
{
    let (past, v) = pen_told(tape, x, w)?;
    Ok(past)
}

// Opaque bytes after a length of w bytes: one that is too large for them is as a body that is too long.
pub fn pen_part(pool: &[u8], tape: &[u64], x: Pen, w: usize) -> Pen
    requires { w ≤ 7 }
    ensures { result ≡ penned (opaque w) pool.now tape.now x }
{
    let (size, k) = x?;
    let (a, n) = span_at(pool, tape, k)?;
    let m = n as u64;
    Ok((
        grown(size, (w as u64) + m, body_numbers::power(8 * w) <= m),
        k + 2,
    ))
}

// Opaque bytes that fill their part.
pub fn pen_rest(pool: &[u8], tape: &[u64], x: Pen) -> Pen
    ensures { result ≡ penned rest pool.now tape.now x }
{
    let (size, k) = x?;
    let (a, n) = span_at(pool, tape, k)?;
    Ok((grown(size, n as u64, false), k + 2))
}

// Two numbers of four bits from lo to hi, in one byte.
pub fn pen_nibbles(tape: &[u64], x: Pen, lo: u64, hi: u64) -> Pen
    ensures { (pool : List ℕ) → result ≡ penned (nibbles_among lo hi) pool tape.now x }
{
    let (size, k) = x?;
    let (high, j) = number_among(tape, k, 16, lo, hi)?;
    let (low, i) = number_among(tape, j, 16, lo, hi)?;
    Ok((grown(size, 1, false), i))
}

// ---- several bytes that are one field

// n bytes, each from lo to hi.
pub fn pen_bytes(pool: &[u8], tape: &[u64], x: Pen, n: usize, lo: u8, hi: u8) -> Pen
    ensures { result ≡ penned (bytes_among lo hi n) pool.now tape.now x }
{
    let (size, k) = x?;
    let (a, m) = span_at(pool, tape, k)?;
    if m != n {
        return Err(Refusal::OutsideSet(k));
    }
    if !body_digits::all_among(pool, a, m, lo, hi) {
        return Err(Refusal::OutsideSet(k));
    }
    Ok((grown(size, m as u64, false), k + 2))
}

// Four reserved bits and 2 h + 1 decimal digits, in h + 1 bytes: the pool's reserved bits are not looked at.
pub fn pen_digits(pool: &[u8], tape: &[u64], x: Pen, h: usize) -> Pen
    ensures { result ≡ penned (digits h) pool.now tape.now x }
{
    let (size, k) = x?;
    let (a, n) = span_at(pool, tape, k)?;
    if n <= h {
        return Err(Refusal::OutsideSet(k));
    }
    if 1 < n - h {
        return Err(Refusal::OutsideSet(k));
    }
    let low = wide(pool[a]) % 16;
    if 9 < low {
        return Err(Refusal::DigitAboveNine(k));
    }
    if !body_digits::all_decimal(pool, a + 1, h) {
        return Err(Refusal::DigitAboveNine(k));
    }
    Ok((grown(size, n as u64, false), k + 2))
}

// ---- times

// The number at the entry k where it is a time, and the next entry.
fn time_at(tape: &[u64], k: usize) -> Number
    ensures { result ≡ number_of (time.form [] tape.now k) }
{
    let (v, j) = entry_at(tape, k)?;
    let minute = time_fields::read_time(v, k)?;
    Ok((v, j))
}

// A start time.
pub fn pen_time(tape: &[u64], x: Pen) -> Pen
    ensures { (pool : List ℕ) → result ≡ penned time pool tape.now x }
{
    let (size, k) = x?;
    let (v, j) = time_at(tape, k)?;
    Ok((grown(size, 5, false), j))
}

// The number at the entry k where it is a time or the live mark, and the next entry.
fn end_at(tape: &[u64], k: usize) -> Number
    ensures { result ≡ number_of (end_time.form [] tape.now k) }
{
    let (v, j) = entry_at(tape, k)?;
    let minute = time_fields::read_end(v, k)?;
    Ok((v, j))
}

// An end time, which may be live.
pub fn pen_end(tape: &[u64], x: Pen) -> Pen
    ensures { (pool : List ℕ) → result ≡ penned end_time pool tape.now x }
{
    let (size, k) = x?;
    let (v, j) = end_at(tape, k)?;
    Ok((grown(size, 5, false), j))
}

// ---- counted parts and lists

// A pen past the w bytes of a length, which is known once its part is.
#[tactic(auto, unfolding(crate::specs::Penned::gapped))]
pub fn gap(x: Pen, w: usize) -> Pen
    ensures { result ≡ gapped w x }
{
    let (size, k) = x?;
    Ok((grown(size, w as u64, false), k))
}

// A pen past a part: x is the one before the w bytes of its length, b the one after the part. A part that is not shorter than the limit
// is too large for its length.
pub fn close(x: Pen, b: Pen, w: usize, limit: u64) -> Pen
    ensures { result ≡ closed w limit x b }
{
    let (size, k) = x?;
    let (end, j) = b?;
    let n = less(less(end, size), w) as u64;
    if limit <= n {
        return Ok((ABOVE_BODY, j));
    }
    Ok((grown(end, 0, false), j))
}

// The count of a list that the body does not have.
pub fn take_count(tape: &[u64], x: Pen) -> Count
    ensures { (pool : List ℕ) → result ≡ counted unprinted pool tape.now x }
{
    let (size, k) = x?;
    let (n, j) = entry_at(tape, k)?;
    Ok(((grown(size, 0, false), j), n))
}

// A message's identifier: its digits, and then the day that they say.
pub fn pen_identifier(pool: &[u8], tape: &[u64], x: Pen) -> Pen
    ensures { result ≡ penned identifier pool.now tape.now x }
{
    let (size, k) = x?;
    let past = pen_digits(pool, tape, x, IDENTIFIER_PAIRS)?;
    if body_identifier::has_day(pool, tape[k] as usize) {
        return Ok(past);
    }
    Err(Refusal::ImpossibleDay(k))
}

// "resource count 8, resources of 4 reserved + 23 digits".
pub fn pen_resources(pool: &[u8], tape: &[u64], x: Pen) -> Pen
    ensures { result ≡ penned resources pool.now tape.now x }
{
    let (mut past, n) = pen_count(tape, x, 1)?;
    for _ in 0..n {
        past = pen_digits(pool, tape, Ok(past), RESOURCE_PAIRS)?;
    }
    Ok(past)
}

// ---- whole forms

// What a pen past a form of so many entries says of it: entries left over are 19 at the first of them, a body that is too long is 22.
#[tactic(auto, unfolding(crate::specs::Penned::form_measured))]
pub fn measured(x: Pen, entries: usize) -> Step
    ensures { result ≡ form_measured entries x }
{
    let (size, k) = x?;
    if k < entries {
        return Err(Refusal::OutsideSet(k));
    }
    if BODY_MOST < size {
        return Err(Refusal::TooLarge);
    }
    Ok(size)
}

// What a writer with so much room answers of a form that was measured: "always 0 from writers", "then 21".
#[tactic(auto, unfolding(crate::specs::Penned::step_fitting))]
pub fn fitted(x: Step, room: usize) -> Step
    ensures { result ≡ step_fitting room x }
{
    let n = x.map_err(ground_refusal::placeless)?;
    if room < n {
        return Err(Refusal::OutputTooSmall);
    }
    Ok(n)
}
