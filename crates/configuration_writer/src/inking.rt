// The bytes of a configuration table from a form that was judged, from what its commands say up to the whole: each is one field of the format
// of its name.
ghost use Rattle.std.specs.Prelude.{length};
ghost use Rattle.body_formats.specs.Format.{count, number, list_of};
ghost use Rattle.body_ink.specs.Inked.{Ready, Inked, Whole};
ghost use Rattle.configuration.specs.Configuration.{set_clock, set_code, tune, set_return, set_period, set_volume, query, other, order_of, said, command, configuration};

use body_formats::RESOURCE_PAIRS;
use body_ink::Mark;

// "1: year 16, month, day, hour, minute, second".
fn ink_set_clock(pool: &[u8], tape: &[u64], k: usize, out: &mut [u8], at: usize) -> Mark
    requires { Ready (said set_clock) pool.now tape.now at k (length out.old) }
    ensures { Inked (said set_clock) pool.now tape.now at k out.old result.at result.entry out.new }
{
    body_ink::number(out, at, 2, tape[k]);
    body_ink::number(out, at + 2, 1, tape[k + 1]);
    body_ink::number(out, at + 3, 1, tape[k + 2]);
    body_ink::number(out, at + 4, 1, tape[k + 3]);
    body_ink::number(out, at + 5, 1, tape[k + 4]);
    body_ink::number(out, at + 6, 1, tape[k + 5]);
    Mark {
        at: at + 7,
        entry: k + 6,
    }
}

// "2: address length, address, resource".
fn ink_set_code(pool: &[u8], tape: &[u64], k: usize, out: &mut [u8], at: usize) -> Mark
    requires { Ready (said set_code) pool.now tape.now at k (length out.old) }
    ensures { Inked (said set_code) pool.now tape.now at k out.old result.at result.entry out.new }
{
    let past = body_ink::part(pool, tape, k, 1, out, at);
    body_ink::digits(pool, tape, k + 2, RESOURCE_PAIRS, out, past);
    Mark {
        at: past + (RESOURCE_PAIRS + 1),
        entry: k + 4,
    }
}

// "3: frequency 32, symbol rate 32, mapping 0 to 5, terminals".
fn ink_tune(pool: &[u8], tape: &[u64], k: usize, out: &mut [u8], at: usize) -> Mark
    requires { Ready (said tune) pool.now tape.now at k (length out.old) }
    ensures { Inked (said tune) pool.now tape.now at k out.old result.at result.entry out.new }
{
    body_ink::number(out, at, 4, tape[k]);
    body_ink::number(out, at + 4, 4, tape[k + 1]);
    body_ink::number(out, at + 8, 1, tape[k + 2]);
    body_ink::resources(pool, tape, k + 3, out, at + 9)
}

// "4: kind 1 to 3, address length, address, terminals".
fn ink_set_return(pool: &[u8], tape: &[u64], k: usize, out: &mut [u8], at: usize) -> Mark
    requires { Ready (said set_return) pool.now tape.now at k (length out.old) }
    ensures { Inked (said set_return) pool.now tape.now at k out.old result.at result.entry out.new }
{
    body_ink::number(out, at, 1, tape[k]);
    let past = body_ink::part(pool, tape, k + 1, 1, out, at + 1);
    body_ink::resources(pool, tape, k + 3, out, past)
}

// "5: period 32, terminals".
fn ink_set_period(pool: &[u8], tape: &[u64], k: usize, out: &mut [u8], at: usize) -> Mark
    requires { Ready (said set_period) pool.now tape.now at k (length out.old) }
    ensures { Inked (said set_period) pool.now tape.now at k out.old result.at result.entry out.new }
{
    body_ink::number(out, at, 4, tape[k]);
    body_ink::resources(pool, tape, k + 1, out, at + 4)
}

// "6: volume 0 to 100, terminals".
fn ink_set_volume(pool: &[u8], tape: &[u64], k: usize, out: &mut [u8], at: usize) -> Mark
    requires { Ready (said set_volume) pool.now tape.now at k (length out.old) }
    ensures { Inked (said set_volume) pool.now tape.now at k out.old result.at result.entry out.new }
{
    body_ink::number(out, at, 1, tape[k]);
    body_ink::resources(pool, tape, k + 1, out, at + 1)
}

// "parameter count, parameters". The pool stands in the contract alone.
fn ink_parameters(pool: &[u8], tape: &[u64], k: usize, out: &mut [u8], at: usize) -> Mark
    requires { Ready (list_of (count 1) (number 1)) pool.now tape.now at k (length out.old) }
    ensures { Inked (list_of (count 1) (number 1)) pool.now tape.now at k out.old result.at result.entry out.new }
{
    let n = tape[k];
    body_ink::number(out, at, 1, n);
    let mut past = Mark {
        at: at + 1,
        entry: k + 1,
    };
    for _ in 0..n {
        body_ink::number(out, past.at, 1, tape[past.entry]);
        past = Mark {
            at: past.at + 1,
            entry: past.entry + 1,
        };
    }
    past
}

// "7: parameter count, parameters, terminals".
fn ink_query(pool: &[u8], tape: &[u64], k: usize, out: &mut [u8], at: usize) -> Mark
    requires { Ready (said query) pool.now tape.now at k (length out.old) }
    ensures { Inked (said query) pool.now tape.now at k out.old result.at result.entry out.new }
{
    let past = ink_parameters(pool, tape, k, out, at);
    body_ink::resources(pool, tape, past.entry, out, past.at)
}

// "Other tags are kept as opaque bytes".
fn ink_other(pool: &[u8], tape: &[u64], k: usize, out: &mut [u8], at: usize) -> Mark
    requires { Ready (said other) pool.now tape.now at k (length out.old) }
    ensures { Inked (said other) pool.now tape.now at k out.old result.at result.entry out.new }
{
    let n = tape[k + 1] as usize;
    body_ink::copy(pool, tape[k] as usize, n, out, at);
    Mark {
        at: at + n,
        entry: k + 2,
    }
}

// What a command of this tag says.
fn ink_said(pool: &[u8], tape: &[u64], k: usize, tag: u64, out: &mut [u8], at: usize) -> Mark
    requires { Ready (said (order_of tag)) pool.now tape.now at k (length out.old) }
    ensures { Inked (said (order_of tag)) pool.now tape.now at k out.old result.at result.entry out.new }
{
    match tag {
        1 => ink_set_clock(pool, tape, k, out, at),
        2 => ink_set_code(pool, tape, k, out, at),
        3 => ink_tune(pool, tape, k, out, at),
        4 => ink_set_return(pool, tape, k, out, at),
        5 => ink_set_period(pool, tape, k, out, at),
        6 => ink_set_volume(pool, tape, k, out, at),
        7 => ink_query(pool, tape, k, out, at),
        _ => ink_other(pool, tape, k, out, at),
    }
}

// "tag 8, length 16, content".
fn ink_command(pool: &[u8], tape: &[u64], k: usize, out: &mut [u8], at: usize) -> Mark
    requires { Ready command pool.now tape.now at k (length out.old) }
    ensures { Inked command pool.now tape.now at k out.old result.at result.entry out.new }
{
    let tag = tape[k];
    body_ink::number(out, at, 1, tag);
    let past = ink_said(pool, tape, k + 1, tag, out, at + 3);
    body_ink::number(out, at + 1, 2, (past.at - at - 3) as u64);
    past
}

// "8-bit count; commands".
fn ink_commands(pool: &[u8], tape: &[u64], out: &mut [u8]) -> Mark
    requires { Ready (list_of (count 1) command) pool.now tape.now 0 0 (length out.old) }
    ensures { Inked (list_of (count 1) command) pool.now tape.now 0 0 out.old result.at result.entry out.new }
{
    let n = tape[0];
    body_ink::number(out, 0, 1, n);
    let mut past = Mark { at: 1, entry: 1 };
    for _ in 0..n {
        past = ink_command(pool, tape, past.entry, out, past.at);
    }
    past
}

// The whole table: its commands and the signature.
pub fn ink_configuration(pool: &[u8], tape: &[u64], out: &mut [u8])
    requires { Ready configuration pool.now tape.now 0 0 (length out.old) }
    ensures { Whole configuration pool.now tape.now out.old out.new }
{
    let past = ink_commands(pool, tape, out);
    body_ink::part(pool, tape, past.entry, 2, out, past.at);
}
