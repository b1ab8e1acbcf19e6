// The bytes of an index table from a form that was judged, from its descriptors up to the whole: each is one field of the format of its name.
ghost use Rattle.std.specs.Prelude.{◌+◌, length};
ghost use Rattle.body_formats.specs.Format.{◌▷◌, count, list_of, many};
ghost use Rattle.body_ink.specs.Inked.{Ready, Inked, Whole};
ghost use Rattle.index.specs.Index.{descriptor, descriptors, stream, streams, channel, flagged, head, message, index};

use body_formats::IDENTIFIER_PAIRS;
use body_ink::Mark;

// "tag, 8-bit length, data", three entries: where it ends.
fn ink_descriptor(pool: &[u8], tape: &[u64], k: usize, out: &mut [u8], at: usize) -> usize
    requires { Ready descriptor pool.now tape.now at k (length out.old) }
    ensures { Inked descriptor pool.now tape.now at k out.old result (k + 3) out.new }
{
    body_ink::number(out, at, 1, tape[k]);
    body_ink::part(pool, tape, k + 1, 1, out, at + 1)
}

// The descriptors that fill a part.
fn ink_all_descriptors(pool: &[u8], tape: &[u64], k: usize, out: &mut [u8], at: usize) -> Mark
    requires { Ready (many descriptor) pool.now tape.now at k (length out.old) }
    ensures { Inked (many descriptor) pool.now tape.now at k out.old result.at result.entry out.new }
{
    let mut past = Mark { at, entry: k + 1 };
    for _ in 0..tape[k] {
        past = Mark {
            at: ink_descriptor(pool, tape, past.entry, out, past.at),
            entry: past.entry + 3,
        };
    }
    past
}

// "4 reserved, length 12, descriptors".
fn ink_descriptors(pool: &[u8], tape: &[u64], k: usize, out: &mut [u8], at: usize) -> Mark
    requires { Ready descriptors pool.now tape.now at k (length out.old) }
    ensures { Inked descriptors pool.now tape.now at k out.old result.at result.entry out.new }
{
    let past = ink_all_descriptors(pool, tape, k, out, at + 2);
    body_ink::number(out, at, 2, 0xF000 + ((past.at - at - 2) as u64));
    past
}

// "type 8, 3 reserved, PID 13, 4 reserved, length 12, descriptors".
fn ink_stream(pool: &[u8], tape: &[u64], k: usize, out: &mut [u8], at: usize) -> Mark
    requires { Ready stream pool.now tape.now at k (length out.old) }
    ensures { Inked stream pool.now tape.now at k out.old result.at result.entry out.new }
{
    body_ink::number(out, at, 1, tape[k]);
    body_ink::number(out, at + 1, 2, 0xE000 + tape[k + 1]);
    ink_descriptors(pool, tape, k + 2, out, at + 3)
}

// The streams that fill a part.
fn ink_all_streams(pool: &[u8], tape: &[u64], k: usize, out: &mut [u8], at: usize) -> Mark
    requires { Ready (many stream) pool.now tape.now at k (length out.old) }
    ensures { Inked (many stream) pool.now tape.now at k out.old result.at result.entry out.new }
{
    let mut past = Mark { at, entry: k + 1 };
    for _ in 0..tape[k] {
        past = ink_stream(pool, tape, past.entry, out, past.at);
    }
    past
}

// "16-bit stream length; streams".
fn ink_streams(pool: &[u8], tape: &[u64], k: usize, out: &mut [u8], at: usize) -> Mark
    requires { Ready streams pool.now tape.now at k (length out.old) }
    ensures { Inked streams pool.now tape.now at k out.old result.at result.entry out.new }
{
    let past = ink_all_streams(pool, tape, k, out, at + 2);
    body_ink::number(out, at, 2, (past.at - at - 2) as u64);
    past
}

// "4 reserved, descriptor length 12, descriptors; 16-bit stream length; streams".
fn ink_channel_parts(pool: &[u8], tape: &[u64], k: usize, out: &mut [u8], at: usize) -> Mark
    requires { Ready (descriptors ▷ streams) pool.now tape.now at k (length out.old) }
    ensures { Inked (descriptors ▷ streams) pool.now tape.now at k out.old result.at result.entry out.new }
{
    let past = ink_descriptors(pool, tape, k, out, at);
    ink_streams(pool, tape, past.entry, out, past.at)
}

// "network, stream, program 16 each; 3 reserved, PCR PID 13", descriptors and streams.
fn ink_channel(pool: &[u8], tape: &[u64], k: usize, out: &mut [u8], at: usize) -> Mark
    requires { Ready channel pool.now tape.now at k (length out.old) }
    ensures { Inked channel pool.now tape.now at k out.old result.at result.entry out.new }
{
    body_ink::number(out, at, 2, tape[k]);
    body_ink::number(out, at + 2, 2, tape[k + 1]);
    body_ink::number(out, at + 4, 2, tape[k + 2]);
    body_ink::number(out, at + 6, 2, 0xE000 + tape[k + 3]);
    ink_channel_parts(pool, tape, k + 4, out, at + 8)
}

// "7 reserved, channel flag. If 1:" the channel.
fn ink_flagged(pool: &[u8], tape: &[u64], k: usize, out: &mut [u8], at: usize) -> Mark
    requires { Ready flagged pool.now tape.now at k (length out.old) }
    ensures { Inked flagged pool.now tape.now at k out.old result.at result.entry out.new }
{
    let flag = tape[k];
    body_ink::number(out, at, 1, 0xFE + flag);
    if flag == 0 {
        return Mark {
            at: at + 1,
            entry: k + 1,
        };
    }
    ink_channel(pool, tape, k + 1, out, at + 1)
}

// From the identifier to the level: 36 bytes, nine entries.
fn ink_head(pool: &[u8], tape: &[u64], k: usize, out: &mut [u8], at: usize)
    requires { Ready head pool.now tape.now at k (length out.old) }
    ensures { Inked head pool.now tape.now at k out.old (at + 36) (k + 9) out.new }
{
    body_ink::digits(pool, tape, k, IDENTIFIER_PAIRS, out, at);
    body_ink::number(out, at + 18, 2, tape[k + 2]);
    body_ink::number(out, at + 20, 5, tape[k + 3]);
    body_ink::number(out, at + 25, 5, tape[k + 4]);
    body_ink::copy(pool, tape[k + 5] as usize, 5, out, at + 30);
    body_ink::number(out, at + 35, 1, tape[k + 7] * 16 + tape[k + 8]);
}

// "16-bit EBM_length, then" the message's fields, which fill it.
fn ink_message(pool: &[u8], tape: &[u64], k: usize, out: &mut [u8], at: usize) -> Mark
    requires { Ready message pool.now tape.now at k (length out.old) }
    ensures { Inked message pool.now tape.now at k out.old result.at result.entry out.new }
{
    ink_head(pool, tape, k, out, at + 2);
    let resources = body_ink::resources(pool, tape, k + 9, out, at + 38);
    let past = ink_flagged(pool, tape, resources.entry, out, resources.at);
    body_ink::number(out, at, 2, (past.at - at - 2) as u64);
    past
}

// "8-bit message count; each message".
fn ink_messages(pool: &[u8], tape: &[u64], out: &mut [u8]) -> Mark
    requires { Ready (list_of (count 1) message) pool.now tape.now 0 0 (length out.old) }
    ensures { Inked (list_of (count 1) message) pool.now tape.now 0 0 out.old result.at result.entry out.new }
{
    let n = tape[0];
    body_ink::number(out, 0, 1, n);
    let mut past = Mark { at: 1, entry: 1 };
    for _ in 0..n {
        past = ink_message(pool, tape, past.entry, out, past.at);
    }
    past
}

// The whole table: its messages and the signature.
pub fn ink_index(pool: &[u8], tape: &[u64], out: &mut [u8])
    requires { Ready index pool.now tape.now 0 0 (length out.old) }
    ensures { Whole index pool.now tape.now out.old out.new }
{
    let past = ink_messages(pool, tape, out);
    body_ink::part(pool, tape, past.entry, 2, out, past.at);
}
