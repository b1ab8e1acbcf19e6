// The index table written from a form.
#![tactic(auto)]

mod inking;
mod measuring;

ghost use Rattle.std.specs.Prelude.{◌≡◌, length};
ghost use Rattle.body_formats.specs.Body.{measured, body_written, output_written};
ghost use Rattle.index.specs.Index.{index};

use body_formats::Step;

// Judges and measures the body of a form: how long it is, or the first field that is refused and the entry where it begins.
pub fn measure(pool: &[u8], tape: &[u64]) -> Step
    ensures { result ≡ measured index pool.now tape.now }
{
    let past = measuring::pen_index(pool, tape, Ok((0, 0)));
    body_pen::measured(past, tape.len())
}

// Writes the table that the form lays out, a tape of numbers and a pool of bytes, at the start of out: all is measured before a byte is
// written.
pub fn write(pool: &[u8], tape: &[u64], out: &mut [u8]) -> Step
    ensures said { result ≡ body_written index pool.now tape.now (length out.old) }
    ensures left { out.new ≡ output_written index pool.now tape.now out.old }
{
    let size = body_pen::fitted(measure(pool, tape), out.len())?;
    inking::ink_index(pool, tape, out);
    Ok(size)
}
