// What a screen box shows: of an index table's messages that concern the box and are on, the one that comes first.
#![tactic(auto)]

ghost use Rattle.std.specs.Prelude.{Ok, ◌≡◌, ◌+◌, ◌*◌, ◌≤◌, length, get_or};
ghost use Rattle.screen_choice.specs.Choice.{is_on, choice_of};
ghost use Rattle.screen_choice.specs.Walk.{worth_of, moment_said, candidate_of, choice_told};
ghost use Rattle.screen_choice.specs.Walk.{Lengthed, Concerning, Timely, Placed, Considered, Tabled, Walked};

use body_formats::Number;
use ground_refusal::Refusal;
use screen_order::Candidate;
use time_fields::{Moment, Showing};

// The number that was asked for, 0 where there is none.
fn worth_of(n: Number) -> u64
    ensures { result ≡ worth_of n }
{
    n.map_or(0, |(x, _after)| x)
}

// The moment that a start field says, if it says one.
fn moment_said(said: Result<Moment, Refusal>) -> Moment
    ensures { result ≡ moment_said said }
{
    said.unwrap_or(Moment { day: 0, second: 0 })
}

fn is_on(how: Result<Showing, Refusal>) -> bool
    ensures { result ≡ is_on how }
{
    matches!(how, Ok(Showing::On))
}

// The EBM_length that stands at p.
fn length_at(s: &[u8], p: usize) -> usize
    requires { p + 2 ≤ length s.now }
    ensures { Lengthed s.now p result }
{
    usize::from(s[p]) * 256 + usize::from(s[p + 1])
}

// Whether the message lists the box's code.
fn is_concerned(s: &[u8], at: usize, n: usize, own: &[u8; 12]) -> bool
    requires { Placed s.now at n own.now }
    ensures { Concerning s.now at n own.now result }
{
    let Ok((count, p)) = index_fields::resource_count(s, at, n) else {
        return false;
    };
    screen_code::is_listed(s, p, count, own)
}

// Whether the message is on.
fn is_timely(s: &[u8], at: usize, n: usize, present: Moment) -> bool
    ensures { Timely s.now at n present result }
{
    let start = worth_of(index_fields::start(s, at, n));
    let end = worth_of(index_fields::end(s, at, n));
    is_on(time_fields::at_instant(start, end, present.day, present.second))
}

// The message as one that may be shown.
fn candidate(s: &[u8], at: usize, n: usize, number: u64) -> Candidate
    ensures { result ≡ candidate_of s.now at n number }
{
    let level = worth_of(index_fields::level(s, at, n));
    let field = worth_of(index_fields::start(s, at, n));
    let start = moment_said(time_fields::read_time(field, 0));
    Candidate {
        number,
        at,
        length: n,
        level,
        day: start.day,
        second: start.second,
    }
}

// The one to show, after the message was looked at.
fn considered(
    s: &[u8],
    at: usize,
    n: usize,
    number: u64,
    own: &[u8; 12],
    present: Moment,
    best: Option<Candidate>,
) -> Option<Candidate>
    requires { Placed s.now at n own.now }
    ensures { Considered s.now at n number own.now present best result }
{
    if !is_timely(s, at, n, present) {
        return best;
    }
    if !is_concerned(s, at, n, own) {
        return best;
    }
    screen_order::better(best, candidate(s, at, n, number))
}

// The one to show of the first `count` messages: each is reached from the end of the one before.
fn walked(s: &[u8], count: u64, own: &[u8; 12], present: Moment) -> Option<Candidate>
    requires { Tabled s.now count own.now }
    ensures { Walked s.now count own.now present result }
{
    let mut best = None;
    let mut p = 1;
    for i in 0..count {
        let n = length_at(s, p);
        best = considered(s, p + 2, n, i, own, present, best);
        p = p + 2 + n;
    }
    best
}

fn choice_told(best: Option<Candidate>) -> Option<(u64, usize, usize)>
    ensures { Ok result ≡ choice_told best }
{
    best.map(|c| (c.number, c.at, c.length))
}

// The message of an index body that a box with this code shows at a second of a day, both UTC.
pub fn choose(
    kind: u32,
    s: &[u8],
    code: &[u8],
    day: u32,
    second: u32,
) -> Result<Option<(u64, usize, usize)>, Refusal>
    ensures { result ≡ choice_of kind s.now code.now (record { day = day; second = second }) }
{
    if !screen_code::is_code(code) {
        return Err(Refusal::DigitAboveNine(0));
    }
    let present = Moment { day, second };
    if !time_fields::is_instant(present) {
        return Err(Refusal::ImpossibleDay(0));
    }
    index_reader::read(kind, s)?;
    let own = screen_code::pack(code);
    let count = worth_of(index_fields::message_count(s));
    Ok(choice_told(walked(s, count, &own, present)))
}
