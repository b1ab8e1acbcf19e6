// The fields of a descriptor or a stream, asked for one by one, and how many of them fill a part: each is told by where it begins and how many
// bytes its part has from there on.
#![tactic(auto)]

ghost use Rattle.std.specs.Prelude.{◌≡◌, true, ◌+◌, ◌≤◌, ◌<◌, length};
ghost use Rattle.body_formats.specs.Format.{many};
ghost use Rattle.body_formats.specs.Answers.{number_of, ended};
ghost use Rattle.index.specs.Index.{descriptor, descriptors, stream};
ghost use Rattle.index_stream_fields.specs.Asked.{first_byte, descriptor_tag, descriptor_part, stream_type, stream_pid, stream_descriptors, count_of, descriptor_count, stream_count};

use body_formats::{Number, Part, Step};
use ground_numbers::wide;
use ground_refusal::Refusal;
use index::{STREAM_DESCRIPTORS_PLACE, STREAM_PID_PLACE};

// The byte at `at`: a descriptor's tag, or a stream's type.
fn first_byte(s: &[u8], at: usize, n: usize) -> Number
    ensures { result ≡ first_byte s.now at n }
{
    if body_asking::in_part(s, at, n) {
        return body_numbers::read_number(s, at + n, at, 1);
    }
    Err(Refusal::OutsideSet(0))
}

pub fn descriptor_tag(s: &[u8], at: usize, n: usize) -> Number
    ensures { result ≡ descriptor_tag s.now at n }
{
    first_byte(s, at, n)
}

// Whether the n bytes from at on lie in the body, at least k: nearly all that is asked for is there, and is found by few tests. What is wrong with the rest is
// looked for field by field.
fn holds(s: &[u8], at: usize, n: usize, k: usize) -> bool
    ensures { result ≡ true → (k ≤ n) × (at + n ≤ length s.now) }
{
    if n < k {
        return false;
    }
    if s.len() < at {
        return false;
    }
    n <= s.len() - at
}

// A descriptor's data, or why there are none.
fn part_walked(s: &[u8], at: usize, n: usize) -> Part
    ensures { result ≡ descriptor_part s.now at n }
{
    if body_asking::in_part(s, at, n) {
        return body_parts::read_part(s, at + n, at + 1, 1);
    }
    Err(Refusal::OutsideSet(0))
}

// The part of the body that the descriptor's data fill.
pub fn descriptor_part(s: &[u8], at: usize, n: usize) -> Part
    ensures { result ≡ descriptor_part s.now at n }
{
    if holds(s, at, n, 2) {
        let m = wide(s[at + 1]) as usize;
        if m <= n - 2 {
            return Ok((at + 2, m));
        }
    }
    part_walked(s, at, n)
}

pub fn stream_type(s: &[u8], at: usize, n: usize) -> Number
    ensures { result ≡ stream_type s.now at n }
{
    first_byte(s, at, n)
}

// A stream's PID, or why there is none.
fn pid_walked(s: &[u8], at: usize, n: usize) -> Number
    ensures { result ≡ stream_pid s.now at n }
{
    if body_asking::in_part(s, at, n) {
        return body_numbers::read_reserved(s, at + n, at + STREAM_PID_PLACE, 3, 1);
    }
    Err(Refusal::OutsideSet(0))
}

pub fn stream_pid(s: &[u8], at: usize, n: usize) -> Number
    ensures { result ≡ stream_pid s.now at n }
{
    if holds(s, at, n, 3) {
        let field = body_numbers::two_bytes(s, at + STREAM_PID_PLACE);
        if 0xE000 <= field {
            return Ok(((field - 0xE000) as u64, at + 3));
        }
    }
    pid_walked(s, at, n)
}

// A stream's descriptors, or why there are none.
fn descriptors_walked(s: &[u8], at: usize, n: usize) -> Part
    ensures { result ≡ stream_descriptors s.now at n }
{
    if body_asking::in_part(s, at, n) {
        return body_parts::read_part12(s, at + n, at + STREAM_DESCRIPTORS_PLACE);
    }
    Err(Refusal::OutsideSet(0))
}

// The part of the body that the stream's descriptors fill.
pub fn stream_descriptors(s: &[u8], at: usize, n: usize) -> Part
    ensures { result ≡ stream_descriptors s.now at n }
{
    if holds(s, at, n, 5) {
        let field = body_numbers::two_bytes(s, at + STREAM_DESCRIPTORS_PLACE);
        if 0xF000 <= field {
            let m = field - 0xF000;
            if m < 1024 {
                if m <= n - 5 {
                    return Ok((at + 5, m));
                }
            }
        }
    }
    descriptors_walked(s, at, n)
}

// Past the descriptor at p, whose tag stands in the part.
fn skip_descriptor(s: &[u8], l: usize, p: usize) -> Step
    requires { (p < l) × (l ≤ length s.now) }
    ensures { result ≡ ended descriptor s.now l p }
{
    let (a, m) = body_parts::read_part(s, l, p + 1, 1)?;
    Ok(a + m)
}

// How many descriptors fill the part from p to l.
fn descriptors_in(s: &[u8], l: usize, p: usize) -> Number
    requires { l ≤ length s.now }
    ensures { result ≡ number_of (count_of ((many descriptor).parse s.now l p)) }
{
    let mut at = p;
    let mut m: u64 = 0;
    while at < l {
        at = skip_descriptor(s, l, at)?;
        m = m + 1;
    }
    Ok((m, at))
}

// How many descriptors the part of n bytes from at on has.
pub fn descriptor_count(s: &[u8], at: usize, n: usize) -> Number
    ensures { result ≡ descriptor_count s.now at n }
{
    if body_asking::in_body(s, at, n) {
        return descriptors_in(s, at + n, at);
    }
    Err(Refusal::OutsideSet(0))
}

// Past the descriptors after their 12-bit length at p, each of them looked at.
fn skip_descriptors(s: &[u8], l: usize, p: usize) -> Step
    ensures { result ≡ ended descriptors s.now l p }
{
    let (a, m) = body_parts::read_part12(s, l, p)?;
    let (k, q) = descriptors_in(s, a + m, a)?;
    Ok(q)
}

// Past the stream at p, whose type stands in the part.
fn skip_stream(s: &[u8], l: usize, p: usize) -> Step
    requires { (p < l) × (l ≤ length s.now) }
    ensures { result ≡ ended stream s.now l p }
{
    let (v, q) = body_numbers::read_reserved(s, l, p + STREAM_PID_PLACE, 3, 1)?;
    skip_descriptors(s, l, q)
}

// How many streams fill the part from p to l. One function of this and descriptors_in would take what skips a thing as a closure, and its clauses would
// have to speak of every format.
fn streams_in(s: &[u8], l: usize, p: usize) -> Number
    requires { l ≤ length s.now }
    ensures { result ≡ number_of (count_of ((many stream).parse s.now l p)) }
{
    let mut at = p;
    let mut k: u64 = 0;
    while at < l {
        at = skip_stream(s, l, at)?;
        k = k + 1;
    }
    Ok((k, at))
}

// How many streams the part of n bytes from at on has.
pub fn stream_count(s: &[u8], at: usize, n: usize) -> Number
    ensures { result ≡ stream_count s.now at n }
{
    if body_asking::in_body(s, at, n) {
        return streams_in(s, at + n, at);
    }
    Err(Refusal::OutsideSet(0))
}
