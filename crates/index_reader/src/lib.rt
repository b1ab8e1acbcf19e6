// The index table: its body read, and laid onto a form.
#![tactic(auto)]

mod glancing; // glancing.rt: the body at a glance
mod walking; // walking.rt: the walk through it

ghost use Rattle.std.specs.Prelude.{◌≡◌, length};
ghost use Rattle.body_formats.specs.Body.{body_read, body_laid, laid_tape};
ghost use Rattle.index.specs.Index.{index_kind, index};

use body_formats::Step;
use ground_numbers::INDEX_KIND;

// Where the table ends, or why it is refused: most bodies are good, and a glance says so; of the others a walk says what is wrong.
pub fn read(kind: u32, s: &[u8]) -> Step
    ensures { result ≡ body_read index index_kind kind s.now }
{
    body_parts::open_body(INDEX_KIND, kind, s)?;
    if glancing::good_index(s) {
        return Ok(s.len());
    }
    let mut none: [u64; 1] = [0; 1];
    body_walk::body_end(walking::walk_index(s, Ok((0, 0)), &mut none, false))
}

// Lays an accepted body onto a tape, with the body itself as the pool: the form from which it is written again.
pub fn lay(kind: u32, s: &[u8], tape: &mut [u64]) -> Step
    ensures said { result ≡ body_laid index index_kind kind s.now (length tape.old) }
    ensures left { tape.new ≡ laid_tape index index_kind kind s.now tape.old }
{
    body_parts::open_body(INDEX_KIND, kind, s)?;
    let room = tape.len() + 1;
    let dry = walking::walk_index(s, Ok((0, room)), tape, false);
    let n = body_walk::entries_needed(dry, room)?;
    let _ = walking::walk_index(s, Ok((0, room)), tape, true);
    Ok(n)
}
