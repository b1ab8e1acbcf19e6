// Walks through the body of an index table, from a message's fields up to the whole: each is one field of the format of its name.
ghost use Rattle.std.specs.Prelude.{length};
ghost use Rattle.body_formats.specs.Format.{count, list_of};
ghost use Rattle.body_walk.specs.Walked.{Walked};
ghost use Rattle.index.specs.Index.{head, message, index};

use body_walk::Walk;

// From the identifier to the level.
fn walk_head(s: &[u8], l: usize, x: Walk, tape: &mut [u64], wet: bool) -> Walk
    ensures { Walked head s.now l x wet tape.old result tape.new }
{
    let a = body_walk::walk_identifier(s, l, x, tape, wet);
    let b = body_walk::walk_number(s, l, a, 2, tape, wet);
    let c = body_walk::walk_time(s, l, b, tape, wet);
    let d = body_walk::walk_end(s, l, c, tape, wet);
    let e = body_walk::walk_bytes(s, l, d, 5, 0, 0x7F, tape, wet);
    body_walk::walk_nibbles(s, l, e, 1, 4, tape, wet)
}

// "16-bit EBM_length, then" the message's fields, which fill it.
fn walk_message(s: &[u8], l: usize, x: Walk, tape: &mut [u64], wet: bool) -> Walk
    ensures { Walked message s.now l x wet tape.old result tape.new }
{
    let (at, end) = body_walk::enter(s, l, x, 2)?;
    let a = walk_head(s, end, Ok(at), tape, wet);
    let b = body_walk::walk_resources(s, end, a, tape, wet);
    let c = index_channel_reader::walk_flagged(s, end, b, tape, wet);
    body_walk::leave(c, end)
}

// "8-bit message count; each message".
fn walk_messages(s: &[u8], l: usize, x: Walk, tape: &mut [u64], wet: bool) -> Walk
    ensures { Walked (list_of (count 1) message) s.now l x wet tape.old result tape.new }
{
    let (first, n) = body_walk::walk_count(s, l, x, 1, tape, wet)?;
    let mut at: Walk = Ok(first);
    for i in 0..n {
        at = walk_message(s, l, at, tape, wet);
    }
    at
}

// The whole table: the messages, the signature, and no byte left.
pub fn walk_index(s: &[u8], x: Walk, tape: &mut [u64], wet: bool) -> Walk
    ensures { Walked index s.now (length s.now) x wet tape.old result tape.new }
{
    let l = s.len();
    let a = walk_messages(s, l, x, tape, wet);
    let b = body_walk::walk_part(s, l, a, 2, tape, wet);
    body_walk::finish(b, l)
}
