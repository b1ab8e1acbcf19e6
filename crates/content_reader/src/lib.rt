// The content table of either variant: its body read, and laid onto a form.
#![tactic(auto)]

mod glancing;
mod walking;

ghost use Rattle.std.specs.Prelude.{◌≡◌, length};
ghost use Rattle.content.specs.Content.{variant_read, variant_laid, variant_tape};

use body_formats::Step;
use ground_refusal::Refusal;

// Where the table ends, or why it is refused; the extension is looked at last. Only a body that a glance does not take for good is walked through.
pub fn read(kind: u32, variant: u32, extension: u32, s: &[u8]) -> Step
    ensures { result ≡ variant_read kind variant extension s.now }
{
    let w = content_variant::open(kind, variant, s)?;
    let end = if glancing::good_content(s, w) {
        s.len()
    } else {
        let mut none: [u64; 1] = [0; 1];
        body_walk::body_end(walking::walk_content(s, Ok((0, 0)), w, &mut none, false))?
    };
    if (crc::crc16_after_four(&s[..18]) as u32) != extension {
        return Err(Refusal::OtherChecksum);
    }
    Ok(end)
}

// Lays a body onto a tape, with the body itself as the pool: the form from which it is written again. The extension, which is no part
// of the body, is not looked at.
pub fn lay(kind: u32, variant: u32, s: &[u8], tape: &mut [u64]) -> Step
    ensures said { result ≡ variant_laid kind variant s.now (length tape.old) }
    ensures left { tape.new ≡ variant_tape kind variant s.now tape.old }
{
    let w = content_variant::open(kind, variant, s)?;
    let room = tape.len() + 1;
    let dry = walking::walk_content(s, Ok((0, room)), w, tape, false);
    let n = body_walk::entries_needed(dry, room)?;
    let _ = walking::walk_content(s, Ok((0, room)), w, tape, true);
    Ok(n)
}
