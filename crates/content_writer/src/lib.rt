// The content table of either variant, written from a form.
#![tactic(auto)]

mod inking;
mod measuring;

ghost use Rattle.std.specs.Prelude.{◌≡◌, ◌≤◌, length};
ghost use Rattle.body_formats.specs.Body.{measured, output_written};
ghost use Rattle.content.specs.Content.{content};
ghost use Rattle.content_writer.specs.Written.{content_written, variant_measured, variant_written, variant_output};

use body_formats::Step;
use ground_refusal::Refusal;

// The body of a form measured, w the width in bytes of an auxiliary file's length.
fn measure_wide(w: usize, pool: &[u8], tape: &[u64]) -> Step
    requires { w ≤ 7 }
    ensures { result ≡ measured (content w) pool.now tape.now }
{
    let past = measuring::pen_content(pool, tape, Ok((0, 0)), w);
    body_pen::measured(past, tape.len())
}

// And written: all is measured before a byte is written.
fn write_wide(w: usize, pool: &[u8], tape: &[u64], out: &mut [u8]) -> Result<(usize, u32), Refusal>
    requires { w ≤ 7 }
    ensures said { result ≡ content_written w pool.now tape.now (length out.old) }
    ensures left { out.new ≡ output_written (content w) pool.now tape.now out.old }
{
    let size = body_pen::fitted(measure_wide(w, pool, tape), out.len())?;
    inking::ink_content(pool, tape, w, out);
    Ok((size, crc::crc16_after_four(&out[..18]) as u32))
}

// Judges the variant and then the body of a form, and measures it: how long it is, or the first field that is refused and the entry where
// it begins.
pub fn measure(variant: u32, pool: &[u8], tape: &[u64]) -> Step
    ensures { result ≡ variant_measured variant pool.now tape.now }
{
    let w = content_variant::width_of(variant)?;
    measure_wide(w, pool, tape)
}

// Writes the table that the form lays out, a tape of numbers and a pool of bytes, at the start of out.
pub fn write(
    variant: u32,
    pool: &[u8],
    tape: &[u64],
    out: &mut [u8],
) -> Result<(usize, u32), Refusal>
    ensures said { result ≡ variant_written variant pool.now tape.now (length out.old) }
    ensures left { out.new ≡ variant_output variant pool.now tape.now out.old }
{
    let w = content_variant::width_of(variant)?;
    write_wide(w, pool, tape, out)
}
