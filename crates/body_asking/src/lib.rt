// What is common to fields asked for one by one: whether the part told lies in the body, a number in it, and the way past entries of a list.
#![tactic(auto)]

ghost use Rattle.std.specs.Prelude.{◌≡◌, ◌&&◌, ◌+◌, ◌≤◌, length, ltb, leb};
ghost use Rattle.body_formats.specs.Format.{count};
ghost use Rattle.body_formats.specs.Answers.{step_of, number_of, ended, ended_all};
ghost use Rattle.body_asking.specs.Asking.{field_in, headed_part, nth_of};

use body_formats::{Number, Step};
use ground_refusal::Refusal;

// Whether the n bytes from at on lie in the body.
pub fn in_body(s: &[u8], at: usize, n: usize) -> bool
    ensures { result ≡ leb (at + n) (length s.now) }
{
    let l = s.len();
    if l < at {
        return false;
    }
    n <= l - at
}

// Whether the n bytes from at on lie in the body, and are at least one.
pub fn in_part(s: &[u8], at: usize, n: usize) -> bool
    ensures { result ≡ (ltb 0 n && leb (at + n) (length s.now)) }
{
    if 0 < n {
        return in_body(s, at, n);
    }
    false
}

// The number of w bytes that stands k bytes into the part of n bytes from at on.
pub fn number_in(s: &[u8], at: usize, n: usize, k: usize, w: usize) -> Number
    requires { (k ≤ 255) × (w ≤ 7) }
    ensures { result ≡ number_of (field_in (count w) k s.now at n) }
{
    if in_body(s, at, n) {
        return body_numbers::read_number(s, at + n, at + k, w);
    }
    Err(Refusal::OutsideSet(0))
}

// Past an entry: h bytes, and a part after its length. The bytes are read as a number, which only says where they end.
fn skip_entry(s: &[u8], l: usize, p: usize, h: usize, w: usize) -> Step
    requires { (h ≤ 7) × (w ≤ 7) }
    ensures { result ≡ ended (headed_part h w) s.now l p }
{
    let (v, q) = body_numbers::read_number(s, l, p, h)?;
    let (a, m) = body_parts::read_part(s, l, q, w)?;
    Ok(a + m)
}

// Past n entries. The run alone is that of body_parts::skip_parts: a closure for the step, with its law, is longer.
pub fn skip_entries(s: &[u8], l: usize, p: usize, h: usize, w: usize, n: u64) -> Step
    requires { (h ≤ 7) × (w ≤ 7) }
    ensures { result ≡ ended_all (headed_part h w) n s.now l p }
{
    let mut at = p;
    for _ in 0..n {
        at = skip_entry(s, l, at, h, w)?;
    }
    Ok(at)
}

// Where the i-th of n entries begins, of which the first begins at p; 19 where there is none.
#[tactic(auto, using(crate::proofs::Entries::nth_past, crate::proofs::Entries::nth_there))]
pub fn nth_entry(s: &[u8], l: usize, p: usize, h: usize, w: usize, n: u64, i: u64) -> Step
    requires { (h ≤ 7) × (w ≤ 7) }
    ensures { result ≡ step_of (nth_of (headed_part h w) n i s.now l p) }
{
    if i < n {
        return skip_entries(s, l, p, h, w, i);
    }
    Err(Refusal::OutsideSet(0))
}
