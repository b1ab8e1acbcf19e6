// The certificate table: written from a form.
#![tactic(auto)]

mod glancing;
mod inking;

ghost use Rattle.std.specs.Prelude.{◌≡◌, ◌≤◌, length};
ghost use Rattle.body_formats.specs.Body.{measured, body_written, output_written};
ghost use Rattle.body_pen.specs.Penned.{penned};
ghost use Rattle.certificate.specs.Certificate.{certificate, parts};

use body_formats::Step;
use body_pen::Pen;

// A list of parts after its count. The count is whatever the tape says, so that it ends at the first refusal.
fn pen_list(pool: &[u8], tape: &[u64], x: Pen, w: usize) -> Pen
    requires { w ≤ 7 }
    ensures { result ≡ penned (parts w) pool.now tape.now x }
{
    let (mut past, n) = body_pen::pen_count(tape, x, 1)?;
    for _ in 0..n {
        past = body_pen::pen_part(pool, tape, Ok(past), w)?;
    }
    Ok(past)
}

// The three fields.
fn pen_certificate(pool: &[u8], tape: &[u64], x: Pen) -> Pen
    ensures { result ≡ penned certificate pool.now tape.now x }
{
    let a = pen_list(pool, tape, x, 2);
    let b = pen_list(pool, tape, a, 1);
    body_pen::pen_part(pool, tape, b, 2)
}

// Judges and measures the body of a form: how long it is, or the first field that is refused and the entry where it begins. A form that is good at a glance
// has no field that the pen would refuse.
pub fn measure(pool: &[u8], tape: &[u64]) -> Step
    ensures { result ≡ measured certificate pool.now tape.now }
{
    let seen = glancing::certificate_bytes(pool, tape);
    if 0 < seen {
        return Ok(seen);
    }
    let past = pen_certificate(pool, tape, Ok((0, 0)));
    body_pen::measured(past, tape.len())
}

// Writes the table that the form lays out, a tape of numbers and a pool of bytes, at the start of out: all is measured before a byte is
// written.
pub fn write(pool: &[u8], tape: &[u64], out: &mut [u8]) -> Step
    ensures said { result ≡ body_written certificate pool.now tape.now (length out.old) }
    ensures left { out.new ≡ output_written certificate pool.now tape.now out.old }
{
    let size = body_pen::fitted(measure(pool, tape), out.len())?;
    inking::ink_certificate(pool, tape, out);
    Ok(size)
}
