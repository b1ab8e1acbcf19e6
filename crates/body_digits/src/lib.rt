// Bytes of a stated set, and decimal digits, two to a byte, in a body: s is a whole body, l the end of the innermost counted part, p the position.
#![tactic(auto)]

ghost use Rattle.std.specs.Prelude.{◌≡◌, ◌+◌, ◌≤◌, length, take, drop, leb, ◌&&◌};
ghost use Rattle.body_formats.specs.Format.{bytes_among, halves, tail, decimal, digits, every};
ghost use Rattle.body_formats.specs.Answers.{number_of, field_part, nth_digit, digit_read};

use body_formats::{Number, Part};
use body_numbers::field_end;
use ground_numbers::wide;
use ground_refusal::Refusal;

// Whether each of the n bytes at p is from lo to hi.
pub fn all_among(s: &[u8], p: usize, n: usize, lo: u8, hi: u8) -> bool
    requires { p + n ≤ length s.now }
    ensures { result ≡ every (λ x. leb lo x && leb x hi) (take n (drop p s.now)) }
{
    // By `all` the proof didn't close.
    for k in p..p + n {
        let b = s[k];
        if b < lo {
            return false;
        }
        if hi < b {
            return false;
        }
    }
    true
}

// n bytes that are one field, each from lo to hi.
pub fn read_bytes(s: &[u8], l: usize, p: usize, n: usize, lo: u8, hi: u8) -> Part
    ensures { result ≡ field_part p ((bytes_among lo hi n).parse s.now l p) }
{
    let q = field_end(s, l, p, p, n)?;
    if all_among(s, p, n, lo, hi) {
        return Ok((p, n));
    }
    Err(Refusal::OutsideSet(p))
}

// Whether the byte at p holds two decimal digits.
fn one(s: &[u8], p: usize) -> bool
    requires { p + 1 ≤ length s.now }
    ensures { result ≡ decimal (halves (take 1 (drop p s.now))) }
{
    let b = s[p];
    (b < 160) & (b % 16 < 10)
}

// Whether each of the two bytes at p does. No test waits for another, so that the compiler can join them.
fn two(s: &[u8], p: usize) -> bool
    requires { p + 2 ≤ length s.now }
    ensures { result ≡ decimal (halves (take 2 (drop p s.now))) }
{
    one(s, p) & one(s, p + 1)
}

// Each of four.
fn four(s: &[u8], p: usize) -> bool
    requires { p + 4 ≤ length s.now }
    ensures { result ≡ decimal (halves (take 4 (drop p s.now))) }
{
    two(s, p) & two(s, p + 2)
}

// Each of eight. A glance at a resource asks for its eleven bytes by two of these, with a branch between them: joined by & the compiler mixes up the two windows.
pub fn eight(s: &[u8], p: usize) -> bool
    requires { p + 8 ≤ length s.now }
    ensures { result ≡ decimal (halves (take 8 (drop p s.now))) }
{
    four(s, p) & four(s, p + 4)
}

// Whether each of the n bytes at p does, one a turn.
fn by_bytes(s: &[u8], p: usize, n: usize) -> bool
    requires { p + n ≤ length s.now }
    ensures { result ≡ decimal (halves (take n (drop p s.now))) }
{
    for k in 0..n {
        if !one(s, p + k) {
            return false;
        }
    }
    true
}

// Whether each of the n bytes at p holds two decimal digits: eight a turn, and the last eight, some of them once more. No run by chunks says that: what
// they leave would be asked byte by byte.
pub fn all_decimal(s: &[u8], p: usize, n: usize) -> bool
    requires { p + n ≤ length s.now }
    ensures { result ≡ decimal (halves (take n (drop p s.now))) }
{
    let mut j: usize = 0;
    while 8 < n - j {
        if !eight(s, p + j) {
            return false;
        }
        j = j + 8;
    }
    if 8 <= n {
        return eight(s, p + (n - 8));
    }
    by_bytes(s, p, n)
}

// Four reserved bits and 2 h + 1 decimal digits, in h + 1 bytes: the first byte holds the reserved bits and one digit.
pub fn read_digits(s: &[u8], l: usize, p: usize, h: usize) -> Part
    ensures { result ≡ field_part p ((digits h).parse s.now l p) }
{
    let q = field_end(s, l, p, p, 1)?;
    let first = s[p];
    if first < 240 {
        return Err(Refusal::ReservedBitZero(p));
    }
    let end = field_end(s, l, p, q, h)?;
    if 249 < first {
        return Err(Refusal::DigitAboveNine(p));
    }
    if all_decimal(s, q, h) {
        return Ok((p, end - p));
    }
    Err(Refusal::DigitAboveNine(p))
}

// The i-th of the digits in the n bytes at p, of which the first holds one, and the position of the byte that it stands in; 19 where there is none.
pub fn digit_of(s: &[u8], p: usize, n: usize, i: u64) -> Number
    requires { p + n ≤ length s.now }
    ensures { result ≡ number_of (nth_digit (tail (halves (take n (drop p s.now)))) i p) }
{
    let k = i / 2 + i % 2;
    if (n as u64) <= k {
        return Err(Refusal::OutsideSet(0));
    }
    let at = p + (k as usize);
    let b = wide(s[at]);
    if i % 2 == 0 {
        return Ok((b % 16, at));
    }
    Ok((b / 16, at))
}

// The i-th of the 2 h + 1 digits at p, and the position of the byte that it stands in; 19 where there is none.
pub fn digit_at(s: &[u8], l: usize, p: usize, h: usize, i: u64) -> Number
    ensures { result ≡ digit_read (digits h) i s.now l p }
{
    let (a, n) = read_digits(s, l, p, h)?;
    digit_of(s, a, n, i)
}
