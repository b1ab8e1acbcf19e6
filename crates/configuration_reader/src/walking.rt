// Walks through the body of a configuration table, from its terminals up to the whole: each is one field of the format of its name.
ghost use Rattle.std.specs.Prelude.{length};
ghost use Rattle.ground_refusal.specs.declared.Refusal.TheVariants.{PastPart};
ghost use Rattle.body_formats.specs.Format.{count, number, list_of, exact};
ghost use Rattle.body_walk.specs.Walked.{Walked};
ghost use Rattle.configuration.specs.Configuration.{terminals, date, clock, address, set_clock, set_code, tune, set_return, set_period, set_volume, query, order_of, said, command, configuration};

use body_formats::RESOURCE_PAIRS;
use body_walk::Walk;
use configuration_rules::clocks;
use ground_refusal::Refusal;

// "an 8-bit count and 12-byte resources", after which no byte of the content is left.
fn walk_terminals(s: &[u8], l: usize, x: Walk, tape: &mut [u64], wet: bool) -> Walk
    ensures { Walked (exact PastPart terminals) s.now l x wet tape.old result tape.new }
{
    let a = body_walk::walk_resources(s, l, x, tape, wet);
    body_walk::leave(a, l)
}

// "year 16, month, day", judged together at the year.
fn walk_date(s: &[u8], l: usize, x: Walk, tape: &mut [u64], wet: bool) -> Walk
    ensures { Walked date s.now l x wet tape.old result tape.new }
{
    let (a, year) = body_walk::walk_count(s, l, x, 2, tape, wet)?;
    let (b, month) = body_walk::walk_count(s, l, Ok(a), 1, tape, wet)?;
    let (c, day) = body_walk::walk_count(s, l, Ok(b), 1, tape, wet)?;
    body_walk::possible(x, Ok(c), clocks::is_day(year, month, day))
}

// "hour, minute, second", judged together at the hour.
fn walk_clock(s: &[u8], l: usize, x: Walk, tape: &mut [u64], wet: bool) -> Walk
    ensures { Walked clock s.now l x wet tape.old result tape.new }
{
    let (a, hour) = body_walk::walk_count(s, l, x, 1, tape, wet)?;
    let (b, minute) = body_walk::walk_count(s, l, Ok(a), 1, tape, wet)?;
    let (c, second) = body_walk::walk_count(s, l, Ok(b), 1, tape, wet)?;
    body_walk::possible(x, Ok(c), clocks::is_time(hour, minute, second))
}

// "1: year 16, month, day, hour, minute, second".
fn walk_set_clock(s: &[u8], l: usize, x: Walk, tape: &mut [u64], wet: bool) -> Walk
    ensures { Walked (said set_clock) s.now l x wet tape.old result tape.new }
{
    let a = walk_date(s, l, x, tape, wet);
    let b = walk_clock(s, l, a, tape, wet);
    body_walk::leave(b, l)
}

// "2: address length, address, resource".
fn walk_set_code(s: &[u8], l: usize, x: Walk, tape: &mut [u64], wet: bool) -> Walk
    ensures { Walked (said set_code) s.now l x wet tape.old result tape.new }
{
    let a = body_walk::walk_part(s, l, x, 1, tape, wet);
    let b = body_walk::walk_digits(s, l, a, RESOURCE_PAIRS, tape, wet);
    body_walk::leave(b, l)
}

// "3: frequency 32, symbol rate 32, mapping 0 to 5, terminals".
fn walk_tune(s: &[u8], l: usize, x: Walk, tape: &mut [u64], wet: bool) -> Walk
    ensures { Walked (said tune) s.now l x wet tape.old result tape.new }
{
    let a = body_walk::walk_number(s, l, x, 4, tape, wet);
    let b = body_walk::walk_number(s, l, a, 4, tape, wet);
    let c = body_walk::walk_among(s, l, b, 1, 0, 5, tape, wet);
    walk_terminals(s, l, c, tape, wet)
}

// "address length, address" of a kind: a wrong length is 15 at the length, any other fault 19 at the address.
fn walk_address(s: &[u8], l: usize, x: Walk, kind: u64, tape: &mut [u64], wet: bool) -> Walk
    ensures { Walked (address kind) s.now l x wet tape.old result tape.new }
{
    let (p, room) = x?;
    let (a, n) = body_parts::read_part(s, l, p, 1)?;
    if !configuration_addresses::length_fits(kind, n as u64) {
        return Err(Refusal::PastPart(p));
    }
    if !configuration_addresses::is_address(s, a, n, kind) {
        return Err(Refusal::OutsideSet(a));
    }
    body_walk::walk_part(s, l, x, 1, tape, wet)
}

// "4: kind 1 to 3, address length, address, terminals".
fn walk_set_return(s: &[u8], l: usize, x: Walk, tape: &mut [u64], wet: bool) -> Walk
    ensures { Walked (said set_return) s.now l x wet tape.old result tape.new }
{
    let (at, kind) = body_walk::walk_told_among(s, l, x, 1, 1, 3, tape, wet)?;
    let a = walk_address(s, l, Ok(at), kind, tape, wet);
    walk_terminals(s, l, a, tape, wet)
}

// "5: period 32, terminals".
fn walk_set_period(s: &[u8], l: usize, x: Walk, tape: &mut [u64], wet: bool) -> Walk
    ensures { Walked (said set_period) s.now l x wet tape.old result tape.new }
{
    let a = body_walk::walk_number(s, l, x, 4, tape, wet);
    walk_terminals(s, l, a, tape, wet)
}

// "6: volume 0 to 100, terminals".
fn walk_set_volume(s: &[u8], l: usize, x: Walk, tape: &mut [u64], wet: bool) -> Walk
    ensures { Walked (said set_volume) s.now l x wet tape.old result tape.new }
{
    let a = body_walk::walk_among(s, l, x, 1, 0, 100, tape, wet);
    walk_terminals(s, l, a, tape, wet)
}

// "parameter count, parameters".
fn walk_parameters(s: &[u8], l: usize, x: Walk, tape: &mut [u64], wet: bool) -> Walk
    ensures { Walked (list_of (count 1) (number 1)) s.now l x wet tape.old result tape.new }
{
    let (first, n) = body_walk::walk_count(s, l, x, 1, tape, wet)?;
    let mut at: Walk = Ok(first);
    for i in 0..n {
        at = body_walk::walk_number(s, l, at, 1, tape, wet);
    }
    at
}

// "7: parameter count, parameters, terminals".
fn walk_query(s: &[u8], l: usize, x: Walk, tape: &mut [u64], wet: bool) -> Walk
    ensures { Walked (said query) s.now l x wet tape.old result tape.new }
{
    let a = walk_parameters(s, l, x, tape, wet);
    walk_terminals(s, l, a, tape, wet)
}

// What the command of a tag says, which fills the part that ends at l; "Other tags are kept as opaque bytes".
fn walk_said(s: &[u8], l: usize, x: Walk, tag: u64, tape: &mut [u64], wet: bool) -> Walk
    ensures { Walked (said (order_of tag)) s.now l x wet tape.old result tape.new }
{
    match tag {
        1 => walk_set_clock(s, l, x, tape, wet),
        2 => walk_set_code(s, l, x, tape, wet),
        3 => walk_tune(s, l, x, tape, wet),
        4 => walk_set_return(s, l, x, tape, wet),
        5 => walk_set_period(s, l, x, tape, wet),
        6 => walk_set_volume(s, l, x, tape, wet),
        7 => walk_query(s, l, x, tape, wet),
        _ => body_walk::walk_rest(s, l, x, tape, wet),
    }
}

// "tag 8, length 16, content": the content is not shorter than the least of its tag.
fn walk_command(s: &[u8], l: usize, x: Walk, tape: &mut [u64], wet: bool) -> Walk
    ensures { Walked command s.now l x wet tape.old result tape.new }
{
    let (at, tag) = body_walk::walk_count(s, l, x, 1, tape, wet)?;
    let least = configuration_rules::least_content(tag);
    let (inside, end) = body_walk::enter_least(s, l, Ok(at), 2, least)?;
    walk_said(s, end, Ok(inside), tag, tape, wet)
}

// "8-bit count; commands".
fn walk_commands(s: &[u8], l: usize, x: Walk, tape: &mut [u64], wet: bool) -> Walk
    ensures { Walked (list_of (count 1) command) s.now l x wet tape.old result tape.new }
{
    let (first, n) = body_walk::walk_count(s, l, x, 1, tape, wet)?;
    let mut at: Walk = Ok(first);
    for i in 0..n {
        at = walk_command(s, l, at, tape, wet);
    }
    at
}

// The whole table: the commands, the signature, and no byte left.
pub fn walk_configuration(s: &[u8], x: Walk, tape: &mut [u64], wet: bool) -> Walk
    ensures { Walked configuration s.now (length s.now) x wet tape.old result tape.new }
{
    let l = s.len();
    let a = walk_commands(s, l, x, tape, wet);
    let b = body_walk::walk_part(s, l, a, 2, tape, wet);
    body_walk::finish(b, l)
}
