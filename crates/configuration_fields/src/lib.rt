// The fields of a configuration table, asked for one by one: of the body, and of a command told by p, where its tag stands.
#![tactic(auto)]

ghost use Rattle.std.specs.Prelude.{◌≡◌, ◌+◌, ◌≤◌, length, IfSome};
ghost use Rattle.body_formats.specs.Format.{count, number, among};
ghost use Rattle.body_formats.specs.Resource.{resource_bytes};
ghost use Rattle.body_formats.specs.Answers.{number_of, part_of, field_part};
ghost use Rattle.configuration.specs.Configuration.{plain, address};
ghost use Rattle.body_asking.specs.Asking.{headed_part};
ghost use Rattle.configuration_fields.specs.Asked.{command_count, command_part, signature_part, command_tag, command_content, content_at, in_command, place_read, three_of, first_of, middle_of, last_of, clock_date, clock_time, clock_year, clock_month, clock_day, clock_hour, clock_minute, clock_second, resource_of, digit_at, code_address, code_at, code_resource, code_digit, frequency, symbol_rate, mapping, return_kind, address_in, return_address, period, volume, parameter_count, list_at, parameter_at, parameter, terminals_in, terminals_at, terminal_count, terminal_at, terminal, terminal_digit};
ghost use Rattle.configuration_fields.specs.Glance.{content_end, ListIn, ListAt};

use body_formats::{Number, Part, RESOURCE_BYTES, RESOURCE_PAIRS};
use configuration_addresses::{is_address, length_fits};
use configuration_rules::{clocks, least_content};
use ground_numbers::wide;
use ground_refusal::Refusal;

// A place in a command's content, and where the content ends; or a refusal.
type Place = Result<(usize, usize), Refusal>;

// Three numbers and the position after them, or a refusal.
type Three = Result<(u64, u64, u64, usize), Refusal>;

// How many commands there are.
pub fn command_count(s: &[u8]) -> Number
    ensures { result ≡ command_count s.now }
{
    body_numbers::read_number(s, s.len(), 0, 1)
}

// The part of the body that the command at p fills, passed by its tag and its length.
fn whole(s: &[u8], p: usize) -> Part
    ensures { result ≡ field_part p ((headed_part 1 2).parse s.now (length s.now) p) }
{
    let end = body_asking::skip_entries(s, s.len(), p, 1, 2, 1)?;
    Ok((p, end - p))
}

// The part of the body that the i-th command fills, from its tag to the end of its content; 19 where there is none.
pub fn command(s: &[u8], i: u64) -> Part
    ensures { result ≡ command_part s.now i }
{
    let (n, q) = command_count(s)?;
    let p = body_asking::nth_entry(s, s.len(), q, 1, 2, n, i)?;
    whole(s, p)
}

// The part of the body that the signature fills: it follows the commands.
pub fn signature(s: &[u8]) -> Part
    ensures { result ≡ signature_part s.now }
{
    let l = s.len();
    let (n, q) = command_count(s)?;
    let end = body_asking::skip_entries(s, l, q, 1, 2, n)?;
    body_parts::read_part(s, l, end, 2)
}

// The tag of the command; 19 where the body has no byte for it.
pub fn command_tag(s: &[u8], p: usize) -> Number
    ensures { result ≡ command_tag s.now p }
{
    let l = s.len();
    if p < l {
        return body_numbers::read_number(s, l, p, 1);
    }
    Err(Refusal::OutsideSet(0))
}

// The part of the body that the command's content fills: the next command begins where it ends.
pub fn command_content(s: &[u8], p: usize) -> Part
    ensures { result ≡ command_content s.now p }
{
    let (tag, q) = command_tag(s, p)?;
    body_parts::read_part_least(s, s.len(), q, 2, least_content(tag))
}

// Where the content of a command with this tag lies; 19 for a command with another.
fn content(s: &[u8], p: usize, tag: u64) -> Place
    ensures { result ≡ place_read (content_at tag s.now p) }
{
    let (t, q) = command_tag(s, p)?;
    if t != tag {
        return Err(Refusal::OutsideSet(0));
    }
    let (a, n) = command_content(s, p)?;
    Ok((a, a + n))
}

// The number of w bytes that stands k bytes into the content.
fn number_in(s: &[u8], p: usize, tag: u64, k: usize, w: usize) -> Number
    requires { (k ≤ 8) × (w ≤ 7) }
    ensures { result ≡ number_of (in_command (count w) tag k s.now p) }
{
    let (q, l) = content(s, p, tag)?;
    body_numbers::read_number(s, l, q + k, w)
}

// The byte that stands k bytes into the content, from lo to hi.
fn among_in(s: &[u8], p: usize, tag: u64, k: usize, lo: u64, hi: u64) -> Number
    requires { k ≤ 8 }
    ensures { result ≡ number_of (in_command (among lo hi (number 1)) tag k s.now p) }
{
    let (q, l) = content(s, p, tag)?;
    body_numbers::among(body_numbers::read_number(s, l, q + k, 1), q + k, lo, hi)
}

// ---- 1: the clock

// A number of w bytes and two of one byte.
fn read_three(s: &[u8], l: usize, p: usize, w: usize) -> Three
    requires { w ≤ 7 }
    ensures { result ≡ three_of ((plain w).parse s.now l p) }
{
    let (a, q) = body_numbers::read_number(s, l, p, w)?;
    let (b, t) = body_numbers::read_number(s, l, q, 1)?;
    let (c, end) = body_numbers::read_number(s, l, t, 1)?;
    Ok((a, b, c, end))
}

// The year, month and day, which are one day, or none is answered.
fn clock_date(s: &[u8], p: usize) -> Three
    ensures { result ≡ clock_date s.now p }
{
    let (q, l) = content(s, p, 1)?;
    let (year, month, day, end) = read_three(s, l, q, 2)?;
    if clocks::is_day(year, month, day) {
        return Ok((year, month, day, end));
    }
    Err(Refusal::ImpossibleDay(q))
}

// The hour, minute and second, which are one time, or none is answered. Place, width and test differ from clock_date: shared, they would be three
// parameters, one of them a closure, for four lines.
fn clock_time(s: &[u8], p: usize) -> Three
    ensures { result ≡ clock_time s.now p }
{
    let (q, l) = content(s, p, 1)?;
    let (hour, minute, second, end) = read_three(s, l, q + 4, 1)?;
    if clocks::is_time(hour, minute, second) {
        return Ok((hour, minute, second, end));
    }
    Err(Refusal::ImpossibleDay(q + 4))
}

pub fn clock_year(s: &[u8], p: usize) -> Number
    ensures { result ≡ clock_year s.now p }
{
    let (year, _month, _day, end) = clock_date(s, p)?;
    Ok((year, end))
}

pub fn clock_month(s: &[u8], p: usize) -> Number
    ensures { result ≡ clock_month s.now p }
{
    let (_year, month, _day, end) = clock_date(s, p)?;
    Ok((month, end))
}

pub fn clock_day(s: &[u8], p: usize) -> Number
    ensures { result ≡ clock_day s.now p }
{
    let (_year, _month, day, end) = clock_date(s, p)?;
    Ok((day, end))
}

pub fn clock_hour(s: &[u8], p: usize) -> Number
    ensures { result ≡ clock_hour s.now p }
{
    let (hour, _minute, _second, end) = clock_time(s, p)?;
    Ok((hour, end))
}

pub fn clock_minute(s: &[u8], p: usize) -> Number
    ensures { result ≡ clock_minute s.now p }
{
    let (_hour, minute, _second, end) = clock_time(s, p)?;
    Ok((minute, end))
}

pub fn clock_second(s: &[u8], p: usize) -> Number
    ensures { result ≡ clock_second s.now p }
{
    let (_hour, _minute, second, end) = clock_time(s, p)?;
    Ok((second, end))
}

// ---- resources

// The part of the body that the resource at a place fills.
fn resource(s: &[u8], at: Place) -> Part
    ensures { result ≡ resource_of s.now at }
{
    let (q, l) = at?;
    body_digits::read_digits(s, l, q, RESOURCE_PAIRS)
}

// Its j-th digit.
fn resource_digit(s: &[u8], at: Place, j: u64) -> Number
    ensures { result ≡ digit_at j s.now at }
{
    let (q, l) = at?;
    body_digits::digit_at(s, l, q, RESOURCE_PAIRS, j)
}

// ---- 2: the code

// The part of the body that the address fills.
pub fn code_address(s: &[u8], p: usize) -> Part
    ensures { result ≡ code_address s.now p }
{
    let (q, l) = content(s, p, 2)?;
    body_parts::read_part(s, l, q, 1)
}

// Where the resource begins, after the address.
fn code_at(s: &[u8], p: usize) -> Place
    ensures { result ≡ place_read (code_at s.now p) }
{
    let (q, l) = content(s, p, 2)?;
    let (a, n) = body_parts::read_part(s, l, q, 1)?;
    Ok((a + n, l))
}

// The part of the body that the resource fills.
pub fn code_resource(s: &[u8], p: usize) -> Part
    ensures { result ≡ code_resource s.now p }
{
    resource(s, code_at(s, p))
}

// The j-th digit of the resource.
pub fn code_digit(s: &[u8], p: usize, j: u64) -> Number
    ensures { result ≡ code_digit s.now p j }
{
    resource_digit(s, code_at(s, p), j)
}

// ---- 3: what to tune to

pub fn frequency(s: &[u8], p: usize) -> Number
    ensures { result ≡ frequency s.now p }
{
    number_in(s, p, 3, 0, 4)
}

pub fn symbol_rate(s: &[u8], p: usize) -> Number
    ensures { result ≡ symbol_rate s.now p }
{
    number_in(s, p, 3, 4, 4)
}

pub fn mapping(s: &[u8], p: usize) -> Number
    ensures { result ≡ mapping s.now p }
{
    among_in(s, p, 3, 8, 0, 5)
}

// ---- 4: the return address

pub fn return_kind(s: &[u8], p: usize) -> Number
    ensures { result ≡ return_kind s.now p }
{
    among_in(s, p, 4, 0, 1, 3)
}

// The part that the address fills whose length stands at p: it is judged by its kind.
fn judged_address(s: &[u8], l: usize, p: usize, kind: u64) -> Part
    ensures { result ≡ part_of ((address kind).parse s.now l p) }
{
    let (a, n) = body_parts::read_part(s, l, p, 1)?;
    if !length_fits(kind, n as u64) {
        return Err(Refusal::PastPart(p));
    }
    if is_address(s, a, n, kind) {
        return Ok((a, n));
    }
    Err(Refusal::OutsideSet(a))
}

// The part that the address fills in a content from q to l.
fn address_in(s: &[u8], l: usize, q: usize) -> Part
    ensures { result ≡ part_of (address_in s.now l q) }
{
    let (kind, p) = body_numbers::among(body_numbers::read_number(s, l, q, 1), q, 1, 3)?;
    judged_address(s, l, p, kind)
}

// The part of the body that the address fills.
pub fn return_address(s: &[u8], p: usize) -> Part
    ensures { result ≡ return_address s.now p }
{
    let (q, l) = content(s, p, 4)?;
    address_in(s, l, q)
}

// ---- 5, 6: the period, the volume

pub fn period(s: &[u8], p: usize) -> Number
    ensures { result ≡ period s.now p }
{
    number_in(s, p, 5, 0, 4)
}

pub fn volume(s: &[u8], p: usize) -> Number
    ensures { result ≡ volume s.now p }
{
    among_in(s, p, 6, 0, 0, 100)
}

// ---- 7: what is queried

// How many parameters there are.
pub fn parameter_count(s: &[u8], p: usize) -> Number
    ensures { result ≡ parameter_count s.now p }
{
    number_in(s, p, 7, 0, 1)
}

// Where the i-th thing of w bytes begins, of a list whose count stands at q; 19 where there is none.
fn list_at(s: &[u8], l: usize, q: usize, w: usize, i: u64) -> Place
    requires { w ≤ resource_bytes }
    ensures { result ≡ place_read (list_at w i s.now l q) }
{
    let (n, at) = body_numbers::read_number(s, l, q, 1)?;
    if i < n {
        return Ok((at + w * (i as usize), l));
    }
    Err(Refusal::OutsideSet(0))
}

fn parameter_at(s: &[u8], p: usize, i: u64) -> Place
    ensures { result ≡ place_read (parameter_at s.now p i) }
{
    let (q, l) = content(s, p, 7)?;
    list_at(s, l, q, 1, i)
}

// The i-th parameter.
pub fn parameter(s: &[u8], p: usize, i: u64) -> Number
    ensures { result ≡ parameter s.now p i }
{
    let (q, l) = parameter_at(s, p, i)?;
    body_numbers::read_number(s, l, q, 1)
}

// ---- terminals, of commands 3 to 7

// Where their list begins after the address, in a content from q to l.
fn after_address(s: &[u8], l: usize, q: usize) -> Place
    ensures { result ≡ place_read (terminals_in 4 s.now l q) }
{
    let (a, n) = address_in(s, l, q)?;
    Ok((a + n, l))
}

// Where their list begins after the parameters, in a content from q to l.
fn after_parameters(s: &[u8], l: usize, q: usize) -> Place
    ensures { result ≡ place_read (terminals_in 7 s.now l q) }
{
    let (n, at) = body_numbers::read_number(s, l, q, 1)?;
    Ok((at + (n as usize), l))
}

// Where their list begins in a content from q to l, by the command's tag.
fn terminals_in(s: &[u8], l: usize, q: usize, tag: u64) -> Place
    requires { (q ≤ length s.now) × (3 ≤ tag) × (tag ≤ 7) }
    ensures { result ≡ place_read (terminals_in tag s.now l q) }
{
    if tag == 3 {
        return Ok((q + 9, l));
    }
    if tag == 4 {
        return after_address(s, l, q);
    }
    if tag == 5 {
        return Ok((q + 4, l));
    }
    if tag == 6 {
        return Ok((q + 1, l));
    }
    after_parameters(s, l, q)
}

// Where their list begins, or why it does not. Few commands come here: laid into list_begin it would take registers from those that don't.
#[inline(never)]
fn terminals_at(s: &[u8], p: usize) -> Place
    ensures { result ≡ place_read (terminals_at s.now p) }
{
    let (tag, t) = command_tag(s, p)?;
    if tag < 3 {
        return Err(Refusal::OutsideSet(0));
    }
    if 7 < tag {
        return Err(Refusal::OutsideSet(0));
    }
    let (q, l) = content(s, p, tag)?;
    terminals_in(s, l, q, tag)
}

// ---- where their list begins, at a glance: nothing where it is to be looked for field by field, which tells what is wrong

// `at`, where a content of n bytes has the least that its command asks for.
fn if_enough(n: usize, least: usize, at: usize) -> Option<usize>
    ensures { IfSome result (λ x. (x ≡ at) × (least ≤ n)) }
{
    if n < least {
        return None;
    }
    Some(at)
}

// After the address, in a content from q to l.
fn list_after_address(s: &[u8], l: usize, q: usize) -> Option<usize>
    requires { q ≤ l }
    ensures { IfSome result (ListIn 4 s.now l q) }
{
    if l - q < 3 {
        return None;
    }
    match address_in(s, l, q) {
        Err(_r) => None,
        Ok((a, n)) => Some(a + n),
    }
}

// In a content from q to l, by the command's tag.
fn list_in(s: &[u8], l: usize, q: usize, tag: u64) -> Option<usize>
    requires { (q ≤ l) × (l ≤ length s.now) }
    ensures { IfSome result (ListIn tag s.now l q) }
{
    if tag == 3 {
        return if_enough(l - q, 10, q + 9);
    }
    if tag == 4 {
        return list_after_address(s, l, q);
    }
    if tag == 5 {
        return if_enough(l - q, 5, q + 4);
    }
    if l - q < 2 {
        return None;
    }
    if tag == 6 {
        return Some(q + 1);
    }
    if tag == 7 {
        return Some(q + 1 + (wide(s[q]) as usize));
    }
    None
}

// Where the content of the command at p ends, by its length.
fn content_end(s: &[u8], p: usize) -> usize
    requires { p + 3 ≤ length s.now }
    ensures { result ≡ content_end s.now p }
{
    p + 3 + body_numbers::two_bytes(s, p + 1)
}

// In the command at p.
fn list_place(s: &[u8], p: usize) -> Option<usize>
    ensures { IfSome result (ListAt s.now p) }
{
    let n = s.len();
    if n < 3 {
        return None;
    }
    if n - 3 < p {
        return None;
    }
    let l = content_end(s, p);
    if n < l {
        return None;
    }
    list_in(s, l, p + 3, wide(s[p]))
}

// Where their list begins: nearly every command that is asked for is good. Laid into its callers, it answers in registers.
#[inline(always)]
fn list_begin(s: &[u8], p: usize) -> Place
    ensures { result ≡ place_read (terminals_at s.now p) }
{
    match list_place(s, p) {
        Some(q) => Ok((q, content_end(s, p))),
        None => terminals_at(s, p),
    }
}

// How many terminals there are.
pub fn terminal_count(s: &[u8], p: usize) -> Number
    ensures { result ≡ terminal_count s.now p }
{
    let (q, l) = list_begin(s, p)?;
    body_numbers::read_number(s, l, q, 1)
}

fn terminal_at(s: &[u8], p: usize, i: u64) -> Place
    ensures { result ≡ place_read (terminal_at s.now p i) }
{
    let (q, l) = list_begin(s, p)?;
    list_at(s, l, q, RESOURCE_BYTES, i)
}

// The part of the body that the i-th terminal's resource fills.
pub fn terminal(s: &[u8], p: usize, i: u64) -> Part
    ensures { result ≡ terminal s.now p i }
{
    resource(s, terminal_at(s, p, i))
}

// The j-th digit of the i-th terminal's resource.
pub fn terminal_digit(s: &[u8], p: usize, i: u64, j: u64) -> Number
    ensures { result ≡ terminal_digit s.now p i j }
{
    resource_digit(s, terminal_at(s, p, i), j)
}
