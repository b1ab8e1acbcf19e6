// Parts of a body, read: the whole body, opened; opaque bytes after their length; lists of these. s is a whole body, l the end of the
// innermost counted part, p the position.
#![tactic(auto)]

ghost use Rattle.std.specs.Prelude.{◌≡◌, ◌+◌, ◌≤◌, length};
ghost use Rattle.body_formats.specs.Format.{count, rest, least_of, length12, counted, opaque, list_of};
ghost use Rattle.body_formats.specs.Reading.{unless, judged, within};
ghost use Rattle.body_formats.specs.Body.{opened};
ghost use Rattle.body_formats.specs.Answers.{part_of, ended, ended_all, part_read, part_after, part_listed};

use body_formats::{Part, Step};
use body_numbers::{read_number, read_reserved};
use ground_numbers::BODY_MOST;
use ground_refusal::Refusal;

// "2 for a wrong kind, then 22, come first": asked of every table's body before its fields.
pub fn open_body(own: u32, kind: u32, s: &[u8]) -> Step
    ensures { result ≡ opened own kind s.now }
{
    if kind != own {
        return Err(Refusal::OtherKind);
    }
    if BODY_MOST < s.len() {
        return Err(Refusal::TooLarge);
    }
    Ok(0)
}

// The m bytes from q on, which the length at p counts. Where they lie inside, fault still refuses them, unless holds is true.
fn part_from(s: &[u8], l: usize, p: usize, q: usize, m: u64, holds: bool, fault: Refusal) -> Part
    requires { q ≤ length s.now }
    ensures { result ≡ part_of (within s.now l p (q + m) (judged (unless holds fault) (rest.parse s.now (q + m) q))) }
{
    if ((s.len() - q) as u64) < m {
        return Err(Refusal::PastBody(p));
    }
    let n = m as usize;
    if l < q + n {
        return Err(Refusal::PastPart(p));
    }
    if holds {
        return Ok((q, n));
    }
    Err(fault)
}

// Opaque bytes after a length of w bytes, at least so many.
pub fn read_part_least(s: &[u8], l: usize, p: usize, w: usize, least: u64) -> Part
    requires { w ≤ 7 }
    ensures { result ≡ part_of ((counted (least_of w least) rest).parse s.now l p) }
{
    let (n, q) = read_number(s, l, p, w)?;
    part_from(s, l, p, q, n, least <= n, Refusal::PastPart(p))
}

// Opaque bytes after a length of w bytes.
pub fn read_part(s: &[u8], l: usize, p: usize, w: usize) -> Part
    requires { w ≤ 7 }
    ensures { result ≡ part_read w s.now l p }
{
    read_part_least(s, l, p, w, 0)
}

// Past n parts, each after its length.
fn skip_parts(s: &[u8], l: usize, p: usize, w: usize, n: u64) -> Step
    requires { w ≤ 7 }
    ensures { result ≡ ended_all (opaque w) n s.now l p }
{
    let mut at = p;
    for _ in 0..n {
        let (a, m) = read_part(s, l, at, w)?;
        at = a + m;
    }
    Ok(at)
}

// Past a list of parts after its count, a number of c bytes.
pub fn skip_list(s: &[u8], l: usize, p: usize, c: usize, w: usize) -> Step
    requires { (c ≤ 7) × (w ≤ 7) }
    ensures { result ≡ ended (list_of (count c) (opaque w)) s.now l p }
{
    let (n, q) = read_number(s, l, p, c)?;
    skip_parts(s, l, q, w, n)
}

// The part after i others.
fn part_after(s: &[u8], l: usize, p: usize, w: usize, i: u64) -> Part
    requires { w ≤ 7 }
    ensures { result ≡ part_after w i s.now l p }
{
    let q = skip_parts(s, l, p, w, i)?;
    read_part(s, l, q, w)
}

// The i-th part of a list after its count; 19 where the list has none.
pub fn listed_part(s: &[u8], l: usize, p: usize, c: usize, w: usize, i: u64) -> Part
    requires { (c ≤ 7) × (w ≤ 7) }
    ensures { result ≡ part_listed c w i s.now l p }
{
    let (n, q) = read_number(s, l, p, c)?;
    if i < n {
        return part_after(s, l, q, w, i);
    }
    Err(Refusal::OutsideSet(0))
}

// Opaque bytes after four reserved bits and a 12-bit length, which counts by its low ten bits.
pub fn read_part12(s: &[u8], l: usize, p: usize) -> Part
    ensures { result ≡ part_of ((counted length12 rest).parse s.now l p) }
{
    let (n, q) = read_reserved(s, l, p, 4, 1)?;
    part_from(s, l, p, q, n % 1024, n < 1024, Refusal::ReservedBitZero(p))
}
