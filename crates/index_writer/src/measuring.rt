// The pen through the form of an index table, from its descriptors up to the whole: each is one field of the format of its name.
ghost use Rattle.std.specs.Prelude.{◌≡◌};
ghost use Rattle.body_formats.specs.Format.{count, list_of, many};
ghost use Rattle.body_pen.specs.Penned.{penned};
ghost use Rattle.index.specs.Index.{descriptor, descriptors, stream, streams, channel, flagged, head, message, index};

use body_pen::Pen;

// "tag, 8-bit length, data".
fn pen_descriptor(pool: &[u8], tape: &[u64], x: Pen) -> Pen
    ensures { result ≡ penned descriptor pool.now tape.now x }
{
    let a = body_pen::pen_number(tape, x, 1);
    body_pen::pen_part(pool, tape, a, 1)
}

// The descriptors that fill a part. There is one of this for each place that calls it, a stream's 0 and the channel's own 1: the compiler lays a function of
// this length into its caller only where it is called at one place.
fn pen_all_descriptors<const PLACE: usize>(pool: &[u8], tape: &[u64], x: Pen) -> Pen
    ensures { result ≡ penned (many descriptor) pool.now tape.now x }
{
    let (mut past, n) = body_pen::take_count(tape, x)?;
    for _ in 0..n {
        past = pen_descriptor(pool, tape, Ok(past))?;
    }
    Ok(past)
}

// "4 reserved, length 12, descriptors".
fn pen_descriptors<const PLACE: usize>(pool: &[u8], tape: &[u64], x: Pen) -> Pen
    ensures { result ≡ penned descriptors pool.now tape.now x }
{
    let a = body_pen::gap(x, 2);
    let b = pen_all_descriptors::<PLACE>(pool, tape, a);
    body_pen::close(x, b, 2, 1024)
}

// "type 8, 3 reserved, PID 13, 4 reserved, length 12, descriptors".
fn pen_stream(pool: &[u8], tape: &[u64], x: Pen) -> Pen
    ensures { result ≡ penned stream pool.now tape.now x }
{
    let a = body_pen::pen_number(tape, x, 1);
    let (b, pid) = body_pen::pen_reserved(tape, a, 3, 1)?;
    pen_descriptors::<0>(pool, tape, Ok(b))
}

// The streams that fill a part.
fn pen_all_streams(pool: &[u8], tape: &[u64], x: Pen) -> Pen
    ensures { result ≡ penned (many stream) pool.now tape.now x }
{
    let (mut past, n) = body_pen::take_count(tape, x)?;
    for _ in 0..n {
        past = pen_stream(pool, tape, Ok(past))?;
    }
    Ok(past)
}

// "16-bit stream length; streams".
fn pen_streams(pool: &[u8], tape: &[u64], x: Pen) -> Pen
    ensures { result ≡ penned streams pool.now tape.now x }
{
    let a = body_pen::gap(x, 2);
    let b = pen_all_streams(pool, tape, a);
    body_pen::close(x, b, 2, 65536)
}

// "network, stream, program 16 each; 3 reserved, PCR PID 13", descriptors and streams.
fn pen_channel(pool: &[u8], tape: &[u64], x: Pen) -> Pen
    ensures { result ≡ penned channel pool.now tape.now x }
{
    let a = body_pen::pen_number(tape, x, 2);
    let b = body_pen::pen_number(tape, a, 2);
    let c = body_pen::pen_number(tape, b, 2);
    let (d, pid) = body_pen::pen_reserved(tape, c, 3, 1)?;
    let e = pen_descriptors::<1>(pool, tape, Ok(d));
    pen_streams(pool, tape, e)
}

// "7 reserved, channel flag. If 1:" the channel.
fn pen_flagged(pool: &[u8], tape: &[u64], x: Pen) -> Pen
    ensures { result ≡ penned flagged pool.now tape.now x }
{
    let (past, flag) = body_pen::pen_reserved(tape, x, 7, 0)?;
    if flag == 0 {
        return Ok(past);
    }
    pen_channel(pool, tape, Ok(past))
}

// From the identifier to the level.
fn pen_head(pool: &[u8], tape: &[u64], x: Pen) -> Pen
    ensures { result ≡ penned head pool.now tape.now x }
{
    let a = body_pen::pen_identifier(pool, tape, x);
    let b = body_pen::pen_number(tape, a, 2);
    let c = body_pen::pen_time(tape, b);
    let d = body_pen::pen_end(tape, c);
    let e = body_pen::pen_bytes(pool, tape, d, 5, 0, 0x7F);
    body_pen::pen_nibbles(tape, e, 1, 4)
}

// "16-bit EBM_length, then" the message's fields, which fill it.
fn pen_message(pool: &[u8], tape: &[u64], x: Pen) -> Pen
    ensures { result ≡ penned message pool.now tape.now x }
{
    let a = body_pen::gap(x, 2);
    let b = pen_head(pool, tape, a);
    let c = body_pen::pen_resources(pool, tape, b);
    let d = pen_flagged(pool, tape, c);
    body_pen::close(x, d, 2, 65536)
}

// "8-bit message count; each message".
fn pen_messages(pool: &[u8], tape: &[u64], x: Pen) -> Pen
    ensures { result ≡ penned (list_of (count 1) message) pool.now tape.now x }
{
    let (mut past, n) = body_pen::pen_count(tape, x, 1)?;
    for _ in 0..n {
        past = pen_message(pool, tape, Ok(past))?;
    }
    Ok(past)
}

// The whole table: its messages and the signature.
pub fn pen_index(pool: &[u8], tape: &[u64], x: Pen) -> Pen
    ensures { result ≡ penned index pool.now tape.now x }
{
    let a = pen_messages(pool, tape, x);
    body_pen::pen_part(pool, tape, a, 2)
}
