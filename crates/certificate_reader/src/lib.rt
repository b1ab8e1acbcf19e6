// The certificate table: its body read, and laid onto a form.
#![tactic(auto)]

mod glancing;

ghost use Rattle.std.specs.Prelude.{◌≡◌, ◌≤◌, length};
ghost use Rattle.body_formats.specs.Body.{body_read, body_laid, laid_tape};
ghost use Rattle.body_walk.specs.Walked.{Walked};
ghost use Rattle.certificate.specs.Certificate.{certificate_kind, certificate, parts};

use body_formats::Step;
use body_walk::Walk;
use ground_numbers::CERTIFICATE_KIND;

// Past a list of parts after its count, each after a length of w bytes.
fn walk_list(s: &[u8], l: usize, x: Walk, w: usize, tape: &mut [u64], wet: bool) -> Walk
    requires { w ≤ 7 }
    ensures { Walked (parts w) s.now l x wet tape.old result tape.new }
{
    let (first, n) = body_walk::walk_count(s, l, x, 1, tape, wet)?;
    let mut at: Walk = Ok(first);
    for i in 0..n {
        at = body_walk::walk_part(s, l, at, w, tape, wet);
    }
    at
}

// Past the three fields, one after the other, and no byte left.
fn walk_certificate(s: &[u8], l: usize, x: Walk, tape: &mut [u64], wet: bool) -> Walk
    ensures { Walked certificate s.now l x wet tape.old result tape.new }
{
    let a = walk_list(s, l, x, 2, tape, wet);
    let b = walk_list(s, l, a, 1, tape, wet);
    let c = body_walk::walk_part(s, l, b, 2, tape, wet);
    body_walk::finish(c, l)
}

// Whether s is the body of a certificate table, and else why not: the body is walked through only if it is not good at a glance.
pub fn read(kind: u32, s: &[u8]) -> Step
    ensures { result ≡ body_read certificate certificate_kind kind s.now }
{
    body_parts::open_body(CERTIFICATE_KIND, kind, s)?;
    if glancing::good_certificate(s) {
        return Ok(s.len());
    }
    let mut none: [u64; 1] = [0; 1];
    body_walk::body_end(walk_certificate(s, s.len(), Ok((0, 0)), &mut none, false))
}

// Lays an accepted body onto a tape, with the body itself as the pool: the form from which it is written again.
pub fn lay(kind: u32, s: &[u8], tape: &mut [u64]) -> Step
    ensures said { result ≡ body_laid certificate certificate_kind kind s.now (length tape.old) }
    ensures left { tape.new ≡ laid_tape certificate certificate_kind kind s.now tape.old }
{
    body_parts::open_body(CERTIFICATE_KIND, kind, s)?;
    let room = tape.len() + 1;
    let dry = walk_certificate(s, s.len(), Ok((0, room)), tape, false);
    let n = body_walk::entries_needed(dry, room)?;
    let _ = walk_certificate(s, s.len(), Ok((0, room)), tape, true);
    Ok(n)
}
