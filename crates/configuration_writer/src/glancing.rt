// A glance at the form of a configuration table, from its commands' contents up to the whole: what it takes for good, the format of its name lays out; any
// other form is for the pen to tell. A content begins at the entry k.
ghost use Rattle.std.specs.Prelude.{◌≡◌, ℕ, suc, ◌+◌, ◌*◌, ◌≤◌, ◌<◌, length};
ghost use Rattle.ground_numbers.specs.Sizes.{body_most};
ghost use Rattle.body_formats.specs.Format.{number, times, rest};
ghost use Rattle.body_form_glance.specs.Lays.{Good, Seen, Told};
ghost use Rattle.configuration.specs.Configuration.{set_clock, set_code, tune, set_return, set_period, set_volume, query, order_of, said, configuration};

use body_form_glance::Sight;
use body_formats::{RESOURCE_BYTES, RESOURCE_PAIRS};
use configuration_rules::clocks;
use ground_numbers::BODY_MOST;

// What is told of a content whose terminals stand from the entry k on, so many and one more, after some bytes.
fn listed(tape: &[u64], terminals: usize, k: usize, bytes: usize) -> Sight
    requires { (terminals ≤ 256) × (bytes ≤ 257) × ((n : ℕ) → terminals ≡ suc n → k + 1 + n * 2 ≤ length tape.now) }
    ensures none { terminals ≡ 0 → (result.bytes ≡ 0) × (result.entry ≡ 0) }
    ensures some { (n : ℕ) → terminals ≡ suc n → (result.bytes ≡ bytes + (1 + n * 12)) × (result.entry ≡ k + 1 + n * 2) }
{
    if terminals == 0 {
        return body_form_glance::unseen();
    }
    let n = terminals - 1;
    Sight {
        bytes: bytes + 1 + n * RESOURCE_BYTES,
        entry: k + 1 + n * 2,
    }
}

// "1: year 16, month, day, hour, minute, second".
fn see_set_clock(pool: &[u8], tape: &[u64], k: usize) -> Sight
    requires { k ≤ length tape.now }
    ensures { Seen (said set_clock) pool.now tape.now k result }
{
    if tape.len() - k < 6 {
        return body_form_glance::unseen();
    }
    if !clocks::is_day(tape[k], tape[k + 1], tape[k + 2]) {
        return body_form_glance::unseen();
    }
    let time = k + 3;
    if !clocks::is_time(tape[time], tape[time + 1], tape[time + 2]) {
        return body_form_glance::unseen();
    }
    Sight {
        bytes: 7,
        entry: k + 6,
    }
}

// "2: address length, address, resource".
fn see_set_code(pool: &[u8], tape: &[u64], k: usize) -> Sight
    requires { k ≤ length tape.now }
    ensures { Seen (said set_code) pool.now tape.now k result }
{
    if tape.len() - k < 4 {
        return body_form_glance::unseen();
    }
    if 255 < tape[k + 1] {
        return body_form_glance::unseen();
    }
    if !body_form_glance::good_span(pool, tape, k) {
        return body_form_glance::unseen();
    }
    if !body_form_glance::good_digits(pool, tape, k + 2, RESOURCE_PAIRS) {
        return body_form_glance::unseen();
    }
    Sight {
        bytes: 1 + (tape[k + 1] as usize) + RESOURCE_BYTES,
        entry: k + 4,
    }
}

// "3: frequency 32, symbol rate 32, mapping 0 to 5, terminals".
fn see_tune(pool: &[u8], tape: &[u64], k: usize) -> Sight
    requires { k ≤ length tape.now }
    ensures { Seen (said tune) pool.now tape.now k result }
{
    if tape.len() - k < 3 {
        return body_form_glance::unseen();
    }
    if 0xFFFF_FFFF < tape[k] {
        return body_form_glance::unseen();
    }
    if 0xFFFF_FFFF < tape[k + 1] {
        return body_form_glance::unseen();
    }
    if 5 < tape[k + 2] {
        return body_form_glance::unseen();
    }
    let terminals = body_form_glance::resource_list(pool, tape, k + 3);
    listed(tape, terminals, k + 3, 9)
}

// "4: kind 1 to 3, address length, address, terminals".
fn see_set_return(pool: &[u8], tape: &[u64], k: usize) -> Sight
    requires { k ≤ length tape.now }
    ensures { Seen (said set_return) pool.now tape.now k result }
{
    if tape.len() - k < 3 {
        return body_form_glance::unseen();
    }
    let kind = tape[k];
    if kind < 1 {
        return body_form_glance::unseen();
    }
    if 3 < kind {
        return body_form_glance::unseen();
    }
    let address = k + 1;
    let long = tape[address + 1];
    if 255 < long {
        return body_form_glance::unseen();
    }
    if !body_form_glance::good_span(pool, tape, address) {
        return body_form_glance::unseen();
    }
    if !configuration_addresses::length_fits(kind, long) {
        return body_form_glance::unseen();
    }
    if !configuration_addresses::is_address(pool, tape[address] as usize, long as usize, kind) {
        return body_form_glance::unseen();
    }
    let terminals = body_form_glance::resource_list(pool, tape, k + 3);
    listed(tape, terminals, k + 3, 2 + (long as usize))
}

// "5: period 32, terminals".
fn see_set_period(pool: &[u8], tape: &[u64], k: usize) -> Sight
    requires { k ≤ length tape.now }
    ensures { Seen (said set_period) pool.now tape.now k result }
{
    if tape.len() - k < 1 {
        return body_form_glance::unseen();
    }
    if 0xFFFF_FFFF < tape[k] {
        return body_form_glance::unseen();
    }
    let terminals = body_form_glance::resource_list(pool, tape, k + 1);
    listed(tape, terminals, k + 1, 4)
}

// "6: volume 0 to 100, terminals".
fn see_set_volume(pool: &[u8], tape: &[u64], k: usize) -> Sight
    requires { k ≤ length tape.now }
    ensures { Seen (said set_volume) pool.now tape.now k result }
{
    if tape.len() - k < 1 {
        return body_form_glance::unseen();
    }
    if 100 < tape[k] {
        return body_form_glance::unseen();
    }
    let terminals = body_form_glance::resource_list(pool, tape, k + 1);
    listed(tape, terminals, k + 1, 1)
}

// Whether the n entries from k on are numbers of one byte. The pool stands in the contract alone.
fn good_parameters(pool: &[u8], tape: &[u64], k: usize, n: usize) -> bool
    requires { k + n ≤ length tape.now }
    ensures { Good (times n (number 1)) pool.now tape.now k (k + n) n result }
{
    for i in 0..n {
        if 255 < tape[k + i] {
            return false;
        }
    }
    true
}

// "7: parameter count, parameters, terminals".
fn see_query(pool: &[u8], tape: &[u64], k: usize) -> Sight
    requires { k ≤ length tape.now }
    ensures { Seen (said query) pool.now tape.now k result }
{
    if tape.len() - k < 1 {
        return body_form_glance::unseen();
    }
    if 255 < tape[k] {
        return body_form_glance::unseen();
    }
    let n = tape[k] as usize;
    if tape.len() - k - 1 < n {
        return body_form_glance::unseen();
    }
    if !good_parameters(pool, tape, k + 1, n) {
        return body_form_glance::unseen();
    }
    let terminals = body_form_glance::resource_list(pool, tape, k + 1 + n);
    listed(tape, terminals, k + 1 + n, 1 + n)
}

// Opaque bytes, as many as a length of two bytes counts at most: "Other tags are kept as opaque bytes".
fn see_rest(pool: &[u8], tape: &[u64], k: usize) -> Sight
    requires { k ≤ length tape.now }
    ensures { Seen rest pool.now tape.now k result }
{
    if tape.len() - k < 2 {
        return body_form_glance::unseen();
    }
    if 65535 < tape[k + 1] {
        return body_form_glance::unseen();
    }
    if !body_form_glance::good_span(pool, tape, k) {
        return body_form_glance::unseen();
    }
    Sight {
        bytes: tape[k + 1] as usize,
        entry: k + 2,
    }
}

// What the command of a tag says.
fn see_said(pool: &[u8], tape: &[u64], k: usize, tag: u64) -> Sight
    requires { k ≤ length tape.now }
    ensures { Seen (said (order_of tag)) pool.now tape.now k result }
{
    match tag {
        1 => see_set_clock(pool, tape, k),
        2 => see_set_code(pool, tape, k),
        3 => see_tune(pool, tape, k),
        4 => see_set_return(pool, tape, k),
        5 => see_set_period(pool, tape, k),
        6 => see_set_volume(pool, tape, k),
        7 => see_query(pool, tape, k),
        _ => see_rest(pool, tape, k),
    }
}

// The whole table: "8-bit count; commands of tag 8, length 16, content; signature". Its bytes, or 0.
pub fn configuration_bytes(pool: &[u8], tape: &[u64]) -> usize
    ensures short { result ≤ body_most }
    ensures laid { Told configuration pool.now tape.now 0 (length tape.now) result }
{
    if tape.len() < 1 {
        return 0;
    }
    if 255 < tape[0] {
        return 0;
    }
    let mut at: usize = 1;
    let mut bytes: usize = 1;
    for _ in 0..tape[0] {
        if tape.len() <= at {
            return 0;
        }
        let tag = tape[at];
        if 255 < tag {
            return 0;
        }
        let content = see_said(pool, tape, at + 1, tag);
        if content.entry == 0 {
            return 0;
        }
        at = content.entry;
        bytes = bytes + 3 + content.bytes;
    }
    let signature = body_form_glance::last_part(pool, tape, at);
    if signature == 0 {
        return 0;
    }
    if BODY_MOST < bytes + signature {
        return 0;
    }
    bytes + signature
}
