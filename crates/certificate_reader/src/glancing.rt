// A glance at the body of a certificate table, from its parts up to the whole: what it takes for good, the format of its name finds; any other body is for the
// walk to tell.
ghost use Rattle.std.specs.Prelude.{◌≡◌, List, ℕ, ◌+◌, ◌≤◌, length, Option, Some, None};
ghost use Rattle.body_formats.specs.Format.{number_at};
ghost use Rattle.body_glance.specs.Glance.{Reads, Filled};
ghost use Rattle.certificate.specs.Certificate.{certificate, parts};

use ground_numbers::wide;

// A length of one byte or of two.
fn short_length(s: &[u8], p: usize, w: usize) -> usize
    requires { (p + w ≤ length s.now) × (1 ≤ w) × (w ≤ 2) }
    ensures { result ≡ number_at s.now p w }
{
    if w == 1 {
        return wide(s[p]) as usize;
    }
    body_numbers::two_bytes(s, p)
}

// Past a list of parts, each after a length of w bytes: where it ends.
fn past_list(s: &[u8], p: usize, w: usize) -> Option<usize>
    requires { (1 ≤ w) × (w ≤ 2) }
    ensures { (q : ℕ) → result ≡ Some q → (q ≤ length s.now) × ((xs : List (List ℕ)) × Reads (parts w) s.now p xs q) }
{
    let l = s.len();
    if l <= p {
        return None;
    }
    let mut at = p + 1;
    for i in 0..s[p] {
        if l - at < w {
            return None;
        }
        let n = short_length(s, at, w);
        if l - at - w < n {
            return None;
        }
        at = at + w + n;
    }
    Some(at)
}

// The three fields, and no byte left.
pub fn good_certificate(s: &[u8]) -> bool
    ensures { Filled certificate s.now (length s.now) 0 result }
{
    let Some(a) = past_list(s, 0, 2) else {
        return false;
    };
    let Some(b) = past_list(s, a, 1) else {
        return false;
    };
    if s.len() - b < 2 {
        return false;
    }
    s.len() - b - 2 == body_numbers::two_bytes(s, b)
}
