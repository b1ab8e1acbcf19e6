// A glance at the body of a configuration table, from its terminals up to the whole: what it takes for good, the format of its name finds; any other body is
// for the walk to tell. A command's content stands from p to l. The least length of a tag is not looked up: what the tag's format finds is never shorter.
ghost use Rattle.std.specs.Prelude.{◌+◌, ◌≤◌, ◌<◌, length};
ghost use Rattle.body_glance.specs.Glance.{Good, Filled};
ghost use Rattle.configuration.specs.Configuration.{terminals, date, clock, set_clock, set_code, tune, set_return, set_period, set_volume, query, order_of, said, configuration};

use body_formats::{RESOURCE_BYTES, RESOURCE_PAIRS};
use configuration_rules::clocks;
use ground_numbers::wide;

// "an 8-bit count and 12-byte resources", which end at l.
fn good_terminals(s: &[u8], p: usize, l: usize) -> bool
    requires { (p < l) × (l ≤ length s.now) }
    ensures { Good terminals s.now p l result }
{
    let n = wide(s[p]) as usize;
    if l - p - 1 != n * RESOURCE_BYTES {
        return false;
    }
    body_glance::good_resources(s, p + 1, n)
}

// "year 16, month, day".
fn good_date(s: &[u8], p: usize) -> bool
    requires { p + 4 ≤ length s.now }
    ensures { Good date s.now p (p + 4) result }
{
    let year = body_numbers::two_bytes(s, p) as u64;
    clocks::is_day(year, wide(s[p + 2]), wide(s[p + 3]))
}

// "hour, minute, second".
fn good_clock(s: &[u8], p: usize) -> bool
    requires { p + 3 ≤ length s.now }
    ensures { Good clock s.now p (p + 3) result }
{
    clocks::is_time(wide(s[p]), wide(s[p + 1]), wide(s[p + 2]))
}

// "1: year 16, month, day, hour, minute, second".
fn good_set_clock(s: &[u8], p: usize, l: usize) -> bool
    requires { (p ≤ l) × (l ≤ length s.now) }
    ensures { Filled (said set_clock) s.now l p result }
{
    if l - p != 7 {
        return false;
    }
    if !good_date(s, p) {
        return false;
    }
    good_clock(s, p + 4)
}

// "2: address length, address, resource".
fn good_set_code(s: &[u8], p: usize, l: usize) -> bool
    requires { (p ≤ l) × (l ≤ length s.now) }
    ensures { Filled (said set_code) s.now l p result }
{
    if l - p < 13 {
        return false;
    }
    let n = wide(s[p]) as usize;
    if l - p - 13 != n {
        return false;
    }
    body_glance::good_digits(s, p + 1 + n, RESOURCE_PAIRS)
}

// "3: frequency 32, symbol rate 32, mapping 0 to 5, terminals".
fn good_tune(s: &[u8], p: usize, l: usize) -> bool
    requires { (p ≤ l) × (l ≤ length s.now) }
    ensures { Filled (said tune) s.now l p result }
{
    if l - p < 10 {
        return false;
    }
    if 5 < s[p + 8] {
        return false;
    }
    good_terminals(s, p + 9, l)
}

// "4: kind 1 to 3, address length, address, terminals".
fn good_set_return(s: &[u8], p: usize, l: usize) -> bool
    requires { (p ≤ l) × (l ≤ length s.now) }
    ensures { Filled (said set_return) s.now l p result }
{
    if l - p < 3 {
        return false;
    }
    let kind = wide(s[p]);
    if kind < 1 {
        return false;
    }
    if 3 < kind {
        return false;
    }
    let long = wide(s[p + 1]);
    let n = long as usize;
    if l - p - 3 < n {
        return false;
    }
    if !configuration_addresses::length_fits(kind, long) {
        return false;
    }
    if !configuration_addresses::is_address(s, p + 2, n, kind) {
        return false;
    }
    good_terminals(s, p + 2 + n, l)
}

// "5: period 32, terminals".
fn good_set_period(s: &[u8], p: usize, l: usize) -> bool
    requires { (p ≤ l) × (l ≤ length s.now) }
    ensures { Filled (said set_period) s.now l p result }
{
    if l - p < 5 {
        return false;
    }
    good_terminals(s, p + 4, l)
}

// "6: volume 0 to 100, terminals".
fn good_set_volume(s: &[u8], p: usize, l: usize) -> bool
    requires { (p ≤ l) × (l ≤ length s.now) }
    ensures { Filled (said set_volume) s.now l p result }
{
    if l - p < 2 {
        return false;
    }
    if 100 < s[p] {
        return false;
    }
    good_terminals(s, p + 1, l)
}

// "7: parameter count, parameters, terminals": a parameter is any byte.
fn good_query(s: &[u8], p: usize, l: usize) -> bool
    requires { (p ≤ l) × (l ≤ length s.now) }
    ensures { Filled (said query) s.now l p result }
{
    if l - p < 2 {
        return false;
    }
    let n = wide(s[p]) as usize;
    if l - p - 2 < n {
        return false;
    }
    good_terminals(s, p + 1 + n, l)
}

// What the command of a tag says; "Other tags are kept as opaque bytes".
fn good_said(s: &[u8], p: usize, l: usize, tag: u8) -> bool
    requires { (p ≤ l) × (l ≤ length s.now) }
    ensures { Filled (said (order_of tag)) s.now l p result }
{
    match tag {
        1 => good_set_clock(s, p, l),
        2 => good_set_code(s, p, l),
        3 => good_tune(s, p, l),
        4 => good_set_return(s, p, l),
        5 => good_set_period(s, p, l),
        6 => good_set_volume(s, p, l),
        7 => good_query(s, p, l),
        _ => true,
    }
}

// The whole table: "8-bit count; commands of tag 8, length 16, content; signature", whose length counts all that is left.
pub fn good_configuration(s: &[u8]) -> bool
    ensures { Filled configuration s.now (length s.now) 0 result }
{
    let l = s.len();
    if l < 1 {
        return false;
    }
    let mut at = 1;
    for i in 0..s[0] {
        if l - at < 3 {
            return false;
        }
        let n = body_numbers::two_bytes(s, at + 1);
        if l - at - 3 < n {
            return false;
        }
        let end = at + 3 + n;
        if !good_said(s, at + 3, end, s[at]) {
            return false;
        }
        at = end;
    }
    if l - at < 2 {
        return false;
    }
    l - at - 2 == body_numbers::two_bytes(s, at)
}
