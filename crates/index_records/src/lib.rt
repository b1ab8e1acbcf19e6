// The index reader in the form that document 01 names: "messages are laid in a lent list of message records".
#![tactic(auto)]

ghost use Rattle.std.specs.Prelude.{◌≡◌, ◌<◌, ◌≤◌, ◌^◌, length, set};
ghost use Rattle.index_records.specs.Records.{body_recorded, recorded};
ghost use Rattle.index_records.specs.Steps.{standing, placed_at, Planned};

use body_formats::Step;
use ground_numbers::{BODY_MOST, least};
use ground_refusal::Refusal;
use index::{CLASS_PLACE, END_PLACE, START_PLACE};

// A message: "where each begins, its length, start, end, class, level".
#[repr(C)]
#[derive(Clone, Copy)]
pub struct Record {
    pub at: usize,
    pub length: usize,
    pub start: u64,
    pub end: u64,
    pub class: u64,
    pub level: u64,
}

// The number of w bytes at p, 0 where the body has none there.
fn number_there(s: &[u8], p: usize, w: usize) -> u64
    requires { w ≤ 7 }
    ensures { (result ≡ standing s.now p w) × (result < 256 ^ w) }
{
    let Ok((v, q)) = body_numbers::read_number(s, s.len(), p, w) else {
        return 0;
    };
    v
}

// The record of the message whose EBM_length stands at p, and the position after the message. No position of a body is past the longest
// body's end, so that none overflows.
fn record_at(s: &[u8], p: usize) -> (Record, usize)
    ensures { result ≡ placed_at s.now p }
{
    let a = least(p, BODY_MOST);
    let length = number_there(s, a, 2) as usize;
    let at = a + 2;
    let start = number_there(s, at + START_PLACE, 5);
    let end = number_there(s, at + END_PLACE, 5);
    let both = number_there(s, at + CLASS_PLACE, 1);
    let message = Record {
        at,
        length,
        start,
        end,
        class: both / 16,
        level: both % 16,
    };
    (message, at + length)
}

// How many records are to be laid: "21: output buffer or record list too small" comes last.
fn planned(kind: u32, s: &[u8], room: usize) -> Step
    ensures { Planned kind s.now room result }
{
    index_reader::read(kind, s)?;
    let n = number_there(s, 0, 1) as usize;
    if room < n {
        return Err(Refusal::OutputTooSmall);
    }
    Ok(n)
}

// One record is laid in the lent list.
fn store(list: &mut [Record], i: usize, r: Record)
    requires { i < length list.old }
    ensures { list.new ≡ set list.old i r }
{
    list[i] = r;
}

// How many messages the body has, their records laid in the list; or why it is refused, and the list stays.
pub fn read(kind: u32, s: &[u8], list: &mut [Record]) -> Step
    ensures { (result ≡ body_recorded kind s.now (length list.old)) × (list.new ≡ recorded kind s.now list.old) }
{
    let n = planned(kind, s, list.len())?;
    let mut at: usize = 1;
    for i in 0..n {
        let (message, next) = record_at(s, at);
        store(list, i, message);
        at = next;
    }
    Ok(n)
}
