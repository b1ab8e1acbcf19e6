// Walks through a message's channel, from its descriptors up: each is one field of the format of its name.
#![tactic(auto)]

pub mod glancing; // glancing.rt: the channel at a glance

ghost use Rattle.std.specs.Prelude.{◌≤◌, length, Ok};
ghost use Rattle.body_formats.specs.Format.{many};
ghost use Rattle.body_walk.specs.Walked.{Walked};
ghost use Rattle.index.specs.Index.{descriptor, descriptors, stream, streams, channel, flagged};

use body_walk::Walk;

// "tag, 8-bit length, data".
fn walk_descriptor(s: &[u8], l: usize, x: Walk, tape: &mut [u64], wet: bool) -> Walk
    ensures { Walked descriptor s.now l x wet tape.old result tape.new }
{
    let a = body_walk::walk_number(s, l, x, 1, tape, wet);
    body_walk::walk_part(s, l, a, 1, tape, wet)
}

// The descriptors that fill the part from p to l.
fn walk_each_descriptor(
    s: &[u8],
    l: usize,
    p: usize,
    room: usize,
    tape: &mut [u64],
    wet: bool,
) -> Walk
    requires { l ≤ length s.now }
    ensures { Walked (many descriptor) s.now l (Ok (p, room)) wet tape.old result tape.new }
{
    let mut at = (p, ground_numbers::less(room, 1));
    let mut n: u64 = 0;
    while at.0 < l {
        at = walk_descriptor(s, l, Ok(at), tape, wet)?;
        n = n + 1;
    }
    body_walk::lay_entry(tape, room, n, wet);
    Ok(at)
}

// "4 reserved, length 12, descriptors".
fn walk_descriptors(s: &[u8], l: usize, x: Walk, tape: &mut [u64], wet: bool) -> Walk
    ensures { Walked descriptors s.now l x wet tape.old result tape.new }
{
    let ((p, room), end) = body_walk::enter12(s, l, x)?;
    walk_each_descriptor(s, end, p, room, tape, wet)
}

// "type 8, 3 reserved, PID 13, 4 reserved, length 12, descriptors".
fn walk_stream(s: &[u8], l: usize, x: Walk, tape: &mut [u64], wet: bool) -> Walk
    ensures { Walked stream s.now l x wet tape.old result tape.new }
{
    let a = body_walk::walk_number(s, l, x, 1, tape, wet);
    let b = body_walk::onward(body_walk::walk_reserved(s, l, a, 3, 1, tape, wet));
    walk_descriptors(s, l, b, tape, wet)
}

// The streams that fill the part from p to l.
fn walk_each_stream(s: &[u8], l: usize, p: usize, room: usize, tape: &mut [u64], wet: bool) -> Walk
    requires { l ≤ length s.now }
    ensures { Walked (many stream) s.now l (Ok (p, room)) wet tape.old result tape.new }
{
    let mut at = (p, ground_numbers::less(room, 1));
    let mut n: u64 = 0;
    while at.0 < l {
        at = walk_stream(s, l, Ok(at), tape, wet)?;
        n = n + 1;
    }
    body_walk::lay_entry(tape, room, n, wet);
    Ok(at)
}

// "16-bit stream length; streams".
fn walk_streams(s: &[u8], l: usize, x: Walk, tape: &mut [u64], wet: bool) -> Walk
    ensures { Walked streams s.now l x wet tape.old result tape.new }
{
    let ((p, room), end) = body_walk::enter(s, l, x, 2)?;
    walk_each_stream(s, end, p, room, tape, wet)
}

// "network, stream, program 16 each; 3 reserved, PCR PID 13", descriptors and streams.
fn walk_channel(s: &[u8], l: usize, x: Walk, tape: &mut [u64], wet: bool) -> Walk
    ensures { Walked channel s.now l x wet tape.old result tape.new }
{
    let a = body_walk::walk_number(s, l, x, 2, tape, wet);
    let b = body_walk::walk_number(s, l, a, 2, tape, wet);
    let c = body_walk::walk_number(s, l, b, 2, tape, wet);
    let d = body_walk::onward(body_walk::walk_reserved(s, l, c, 3, 1, tape, wet));
    let e = walk_descriptors(s, l, d, tape, wet);
    walk_streams(s, l, e, tape, wet)
}

// "7 reserved, channel flag. If 1:" the channel.
pub fn walk_flagged(s: &[u8], l: usize, x: Walk, tape: &mut [u64], wet: bool) -> Walk
    ensures { Walked flagged s.now l x wet tape.old result tape.new }
{
    let (at, flag) = body_walk::walk_reserved(s, l, x, 7, 0, tape, wet)?;
    if flag == 0 {
        return Ok(at);
    }
    walk_channel(s, l, Ok(at), tape, wet)
}
