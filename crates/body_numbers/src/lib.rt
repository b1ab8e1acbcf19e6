// Numbers of a body, read, with reserved bits before them or of a stated set, and times: s is a whole body, l the end of the innermost counted
// part, p the position.
#![tactic(auto)]

ghost use Rattle.std.specs.Prelude.{◌≡◌, ◌+◌, ◌^◌, ◌≤◌, ◌<◌, length};
ghost use Rattle.body_formats.specs.Format.{number_at, reserved};
ghost use Rattle.body_formats.specs.Time.{time, end_time};
ghost use Rattle.body_formats.specs.Answers.{reached, number_of, number_read, number_among};

use body_formats::{Number, Step};
use ground_numbers::{wide, within};
use ground_refusal::Refusal;

// The number in w bytes at p, the high one first, a byte a turn.
fn long_number_at(s: &[u8], p: usize, w: usize) -> u64
    requires { (p + w ≤ length s.now) × (w ≤ 7) }
    ensures { result ≡ number_at s.now p w }
{
    let mut v: u64 = 0;
    for b in &s[p..p + w] {
        v = v * 256 + wide(*b);
    }
    v
}

// The number in two bytes at p, the high one first.
pub fn two_bytes(s: &[u8], p: usize) -> usize
    requires { p + 2 ≤ length s.now }
    ensures { (result ≡ number_at s.now p 2) × (result < 65536) }
{
    (wide(s[p]) * 256 + wide(s[p + 1])) as usize
}

// The number in w bytes at p, three or four: no turn for each.
pub fn three_or_four_bytes(s: &[u8], p: usize, w: usize) -> usize
    requires { (p + w ≤ length s.now) × (3 ≤ w) × (w ≤ 4) }
    ensures { result ≡ number_at s.now p w }
{
    let three = two_bytes(s, p) * 256 + (wide(s[p + 2]) as usize);
    if w == 3 {
        return three;
    }
    three * 256 + (wide(s[p + 3]) as usize)
}

// The number in w bytes at p, the high one first: nearly all have one or two.
fn number_at(s: &[u8], p: usize, w: usize) -> u64
    requires { (p + w ≤ length s.now) × (w ≤ 7) }
    ensures { result ≡ number_at s.now p w }
{
    if w == 1 {
        return wide(s[p]);
    }
    if w == 2 {
        return two_bytes(s, p) as u64;
    }
    long_number_at(s, p, w)
}

// Where n bytes at p end, of a field that begins at `at`.
pub fn field_end(s: &[u8], l: usize, at: usize, p: usize, n: usize) -> Step
    ensures { result ≡ reached s.now l at (p + n) }
{
    if s.len() < n || s.len() - n < p {
        return Err(Refusal::PastBody(at));
    }
    if l < p + n {
        return Err(Refusal::PastPart(at));
    }
    Ok(p + n)
}

// A number of w bytes.
pub fn read_number(s: &[u8], l: usize, p: usize, w: usize) -> Number
    requires { w ≤ 7 }
    ensures { result ≡ number_read w s.now l p }
{
    let q = field_end(s, l, p, p, w)?;
    Ok((number_at(s, p, w), q))
}

// 2 to the power of n.
pub fn power(n: usize) -> u64
    requires { n ≤ 63 }
    ensures { result ≡ 2 ^ n }
{
    1 << n
}

// k reserved one bits and a number, in w + 1 bytes. The bits need only the byte they stand in.
pub fn read_reserved(s: &[u8], l: usize, p: usize, k: usize, w: usize) -> Number
    requires { (k ≤ 8) × (w ≤ 6) }
    ensures { result ≡ number_of ((reserved k w).parse s.now l p) }
{
    let (first, q) = read_number(s, l, p, 1)?;
    let bits = 8 - k;
    if first >> bits != power(k) - 1 {
        return Err(Refusal::ReservedBitZero(p));
    }
    let (v, end) = read_number(s, l, p, w + 1)?;
    Ok((v % power(8 * w + bits), end))
}

// The number x, which stands at p, where it is one from lo to hi.
#[tactic(auto, unfolding(body_formats::specs::Answers::number_among))]
pub fn among(x: Number, p: usize, lo: u64, hi: u64) -> Number
    ensures { result ≡ number_among lo hi p x }
{
    let (v, q) = x?;
    if within(lo, v, hi) {
        return Ok((v, q));
    }
    Err(Refusal::OutsideSet(p))
}

// A time field, as the number that it is.
pub fn read_time(s: &[u8], l: usize, p: usize) -> Number
    ensures { result ≡ number_of (time.parse s.now l p) }
{
    let (x, q) = read_number(s, l, p, 5)?;
    time_fields::read_time(x, p)?;
    Ok((x, q))
}

// An end field, as the number that it is. What judges it alone differs from read_time: a closure for that, with its law, is longer than the two lines.
pub fn read_end(s: &[u8], l: usize, p: usize) -> Number
    ensures { result ≡ number_of (end_time.parse s.now l p) }
{
    let (x, q) = read_number(s, l, p, 5)?;
    time_fields::read_end(x, p)?;
    Ok((x, q))
}
