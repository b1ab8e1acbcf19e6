// The pen through the form of a configuration table, from its terminal lists up to the whole: each is one field of the format of its
// name. A day and a time are judged once the pen is past their numbers.
ghost use Rattle.std.specs.Prelude.{◌≡◌, List, ℕ};
ghost use Rattle.body_formats.specs.Format.{only, count, number, list_of, rest};
ghost use Rattle.body_pen.specs.Penned.{penned};
ghost use Rattle.configuration.specs.Configuration.{terminals, date, clock, address_fault, address, set_clock, set_code, tune, set_return, set_period, set_volume, query, order_of, said, command, configuration};

use body_formats::RESOURCE_PAIRS;
use body_pen::Pen;
use configuration_rules::clocks;
use ground_refusal::Refusal;

// "Terminal lists are an 8-bit count and 12-byte resources".
fn pen_terminals(pool: &[u8], tape: &[u64], x: Pen) -> Pen
    ensures { result ≡ penned terminals pool.now tape.now x }
{
    body_pen::pen_resources(pool, tape, x)
}

// ---- 1: the clock

// "year 16, month, day": an impossible or out-of-range day is 20, also one whose numbers are too large for their fields.
fn pen_date(tape: &[u64], x: Pen) -> Pen
    ensures { (pool : List ℕ) → result ≡ penned date pool tape.now x }
{
    let (size, k) = x?;
    let (a, year) = body_pen::pen_count(tape, x, 2)?;
    let (b, month) = body_pen::pen_count(tape, Ok(a), 1)?;
    let (c, day) = body_pen::pen_count(tape, Ok(b), 1)?;
    if clocks::is_day(year, month, day) {
        return Ok(c);
    }
    Err(Refusal::ImpossibleDay(k))
}

// "hour, minute, second": an impossible time is 20.
fn pen_clock(tape: &[u64], x: Pen) -> Pen
    ensures { (pool : List ℕ) → result ≡ penned clock pool tape.now x }
{
    let (size, k) = x?;
    let (a, hour) = body_pen::pen_count(tape, x, 1)?;
    let (b, minute) = body_pen::pen_count(tape, Ok(a), 1)?;
    let (c, second) = body_pen::pen_count(tape, Ok(b), 1)?;
    if clocks::is_time(hour, minute, second) {
        return Ok(c);
    }
    Err(Refusal::ImpossibleDay(k))
}

// "1: year 16, month, day, hour, minute, second".
fn pen_set_clock(tape: &[u64], x: Pen) -> Pen
    ensures { (pool : List ℕ) → result ≡ penned (said set_clock) pool tape.now x }
{
    let a = pen_date(tape, x);
    pen_clock(tape, a)
}

// ---- 2 and 3: a terminal's code, and the channel it listens to

// "2: address length, address, resource".
fn pen_set_code(pool: &[u8], tape: &[u64], x: Pen) -> Pen
    ensures { result ≡ penned (said set_code) pool.now tape.now x }
{
    let a = body_pen::pen_part(pool, tape, x, 1);
    body_pen::pen_digits(pool, tape, a, RESOURCE_PAIRS)
}

// "3: frequency 32, symbol rate 32, mapping 0 to 5, terminals".
fn pen_tune(pool: &[u8], tape: &[u64], x: Pen) -> Pen
    ensures { result ≡ penned (said tune) pool.now tape.now x }
{
    let a = body_pen::pen_number(tape, x, 4);
    let b = body_pen::pen_number(tape, a, 4);
    let c = body_pen::pen_among(tape, b, 1, 0, 5);
    pen_terminals(pool, tape, c)
}

// ---- 4: the return address

// The bytes of an address of this kind: a wrong number of them is 15, any other fault 19.
fn pen_address_bytes(pool: &[u8], tape: &[u64], x: Pen, kind: u64) -> Pen
    ensures { result ≡ penned (only (address_fault kind) rest) pool.now tape.now x }
{
    let (size, k) = x?;
    let (a, n) = body_pen::span_at(pool, tape, k)?;
    if !configuration_addresses::length_fits(kind, n as u64) {
        return Err(Refusal::PastPart(k));
    }
    if !configuration_addresses::is_address(pool, a, n, kind) {
        return Err(Refusal::OutsideSet(k));
    }
    body_pen::pen_rest(pool, tape, x)
}

// "address length, address".
fn pen_address(pool: &[u8], tape: &[u64], x: Pen, kind: u64) -> Pen
    ensures { result ≡ penned (address kind) pool.now tape.now x }
{
    let a = body_pen::gap(x, 1);
    let b = pen_address_bytes(pool, tape, a, kind);
    body_pen::close(x, b, 1, 256)
}

// "4: kind 1 to 3, address length, address, terminals".
fn pen_set_return(pool: &[u8], tape: &[u64], x: Pen) -> Pen
    ensures { result ≡ penned (said set_return) pool.now tape.now x }
{
    let (a, kind) = body_pen::pen_told_among(tape, x, 1, 1, 3)?;
    let b = pen_address(pool, tape, Ok(a), kind);
    pen_terminals(pool, tape, b)
}

// ---- 5 to 7: a period, a volume, parameters asked for

// "5: period 32, terminals".
fn pen_set_period(pool: &[u8], tape: &[u64], x: Pen) -> Pen
    ensures { result ≡ penned (said set_period) pool.now tape.now x }
{
    let a = body_pen::pen_number(tape, x, 4);
    pen_terminals(pool, tape, a)
}

// "6: volume 0 to 100, terminals".
fn pen_set_volume(pool: &[u8], tape: &[u64], x: Pen) -> Pen
    ensures { result ≡ penned (said set_volume) pool.now tape.now x }
{
    let a = body_pen::pen_among(tape, x, 1, 0, 100);
    pen_terminals(pool, tape, a)
}

// "parameter count, parameters".
fn pen_parameters(tape: &[u64], x: Pen) -> Pen
    ensures { (pool : List ℕ) → result ≡ penned (list_of (count 1) (number 1)) pool tape.now x }
{
    let (mut past, n) = body_pen::pen_count(tape, x, 1)?;
    for _ in 0..n {
        past = body_pen::pen_number(tape, Ok(past), 1)?;
    }
    Ok(past)
}

// "7: parameter count, parameters, terminals".
fn pen_query(pool: &[u8], tape: &[u64], x: Pen) -> Pen
    ensures { result ≡ penned (said query) pool.now tape.now x }
{
    let a = pen_parameters(tape, x);
    pen_terminals(pool, tape, a)
}

// ---- commands

// What a command of this tag says: "Other tags are kept as opaque bytes".
fn pen_said(pool: &[u8], tape: &[u64], x: Pen, tag: u64) -> Pen
    ensures { result ≡ penned (said (order_of tag)) pool.now tape.now x }
{
    match tag {
        1 => pen_set_clock(tape, x),
        2 => pen_set_code(pool, tape, x),
        3 => pen_tune(pool, tape, x),
        4 => pen_set_return(pool, tape, x),
        5 => pen_set_period(pool, tape, x),
        6 => pen_set_volume(pool, tape, x),
        7 => pen_query(pool, tape, x),
        _ => body_pen::pen_rest(pool, tape, x),
    }
}

// "tag 8, length 16, content".
fn pen_command(pool: &[u8], tape: &[u64], x: Pen) -> Pen
    ensures { result ≡ penned command pool.now tape.now x }
{
    let (a, tag) = body_pen::pen_told(tape, x, 1)?;
    let b = body_pen::gap(Ok(a), 2);
    let c = pen_said(pool, tape, b, tag);
    body_pen::close(Ok(a), c, 2, 65536)
}

// "8-bit count; commands".
fn pen_commands(pool: &[u8], tape: &[u64], x: Pen) -> Pen
    ensures { result ≡ penned (list_of (count 1) command) pool.now tape.now x }
{
    let (mut past, n) = body_pen::pen_count(tape, x, 1)?;
    for _ in 0..n {
        past = pen_command(pool, tape, Ok(past))?;
    }
    Ok(past)
}

// The whole table: its commands and the signature.
pub fn pen_configuration(pool: &[u8], tape: &[u64], x: Pen) -> Pen
    ensures { result ≡ penned configuration pool.now tape.now x }
{
    let a = pen_commands(pool, tape, x);
    body_pen::pen_part(pool, tape, a, 2)
}
