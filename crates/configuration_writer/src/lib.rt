// The configuration table written from a form.
#![tactic(auto)]

mod glancing;
mod inking;
mod measuring;

ghost use Rattle.std.specs.Prelude.{◌≡◌, length};
ghost use Rattle.body_formats.specs.Body.{measured, body_written, output_written};
ghost use Rattle.configuration.specs.Configuration.{configuration};

use body_formats::Step;

// Judges and measures the body of a form: how long it is, or the first field that is refused and the entry where it begins. A form that is good at a glance
// has no field that the pen would refuse.
pub fn measure(pool: &[u8], tape: &[u64]) -> Step
    ensures { result ≡ measured configuration pool.now tape.now }
{
    let seen = glancing::configuration_bytes(pool, tape);
    if 0 < seen {
        return Ok(seen);
    }
    let past = measuring::pen_configuration(pool, tape, Ok((0, 0)));
    body_pen::measured(past, tape.len())
}

// Writes the table that the form lays out, a tape of numbers and a pool of bytes, at the start of out: all is measured before a byte is
// written.
pub fn write(pool: &[u8], tape: &[u64], out: &mut [u8]) -> Step
    ensures said { result ≡ body_written configuration pool.now tape.now (length out.old) }
    ensures left { out.new ≡ output_written configuration pool.now tape.now out.old }
{
    let size = body_pen::fitted(measure(pool, tape), out.len())?;
    inking::ink_configuration(pool, tape, out);
    Ok(size)
}
