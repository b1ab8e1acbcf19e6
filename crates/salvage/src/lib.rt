// A damaged capture salvaged: the good sections written back to back, and the list of what was kept and what was skipped.
#![tactic(auto)]

ghost use Rattle.std.specs.Prelude.{true, ◌&&◌, ◌≡◌, ◌+◌, ◌*◌, ◌≤◌, leb, length};
ghost use Rattle.ground_placing.specs.Placed.{placed};
ghost use Rattle.ground_placing.specs.Put.{Put};
ghost use Rattle.section_reader.specs.Section.{read_section};
ghost use Rattle.salvage.specs.Reading.{is_good, good_length, Next};
ghost use Rattle.salvage.specs.Runs.{run_at, runs_of, numbers_of};
ghost use Rattle.salvage.specs.Salvage.{capture_most, sections, numbers, salvage_of, output_after, list_after};

use ground_refusal::Refusal;

// The most bytes of a capture: 64 KiB.
pub const CAPTURE_MOST: usize = 65_536;

// The numbers of a run in the list.
const RUN: usize = 3;

// A good section: where it begins, and its length, which is 0 where none begins any more. No Option: `next_good` promises `Next` of both numbers, also there.
#[derive(Clone, Copy)]
pub struct Found {
    pub at: usize,
    pub length: usize,
}

// How many bytes the good sections have, and how many runs there are.
#[derive(Clone, Copy)]
pub struct Tally {
    pub bytes: usize,
    pub runs: usize,
}

// ---- reading

// Is the whole byte string a good section?
#[tactic(auto, unfolding(crate::specs::Reading::is_good))]
fn is_good(s: &[u8]) -> bool
    ensures { result ≡ is_good (read_section s.now) }
{
    section_reader::read_section(s).is_ok()
}

// The length of the good section that begins a byte string, and 0 where none does.
fn good_length(s: &[u8]) -> usize
    ensures { result ≡ good_length s.now }
{
    match section_reader::stated_length(s) {
        Ok(length) if length <= s.len() && is_good(&s[..length]) => length,
        _ => 0,
    }
}

// The first good section that begins at a place or after it. For the program's library too.
pub fn next_good(s: &[u8], from: usize) -> Found
    requires { from ≤ length s.now }
    ensures { Next s.now from result.at result.length }
{
    for at in from..s.len() {
        let length = good_length(&s[at..]);
        if length != 0 {
            return Found { at, length };
        }
    }
    Found {
        at: s.len(),
        length: 0,
    }
}

// ---- measuring

// The runs of so many bytes: one, or none where there are no bytes.
#[tactic(auto, unfolding(crate::specs::Runs::run_at))]
fn run_count(size: usize) -> usize
    ensures { (result ≡ length (run_at true 0 size)) × (result ≤ size) }
{
    usize::from(size != 0)
}

// `write_runs` walks alike, but they share no more than `next_good` and the step behind what it finds: a closure for the rest of a turn is longer than that.
fn measure(s: &[u8]) -> Tally
    requires { length s.now ≤ capture_most }
    ensures { (result.bytes ≡ length (sections s.now)) × (result.runs ≡ length (runs_of s.now)) }
{
    let mut from: usize = 0;
    let mut bytes: usize = 0;
    let mut runs: usize = 0;
    while from < s.len() {
        let next = next_good(s, from);
        runs += run_count(next.at - from) + run_count(next.length);
        bytes += next.length;
        from = next.at + next.length;
    }
    Tally { bytes, runs }
}

// ---- writing

// Puts the numbers of a run of so many bytes, if there are any, at a place of the list, and answers the place after them. One by one: copied in one piece
// they made the salvage program keep a list on its stack, 121 KB, that it never reads.
fn put_run(list: &mut [u32], at: usize, kept: bool, first: usize, size: usize) -> usize
    requires { (first + size ≤ capture_most) × (at + length (numbers_of (run_at kept first size)) ≤ length list.old) }
    ensures { Put list.old at (numbers_of (run_at kept first size)) list.new result }
{
    if size == 0 {
        return at;
    }
    list[at] = u32::from(kept);
    list[at + 1] = first as u32;
    list[at + 2] = size as u32;
    at + RUN
}

// Writes the sections at the start of out and the numbers of the runs at the start of list; both have room.
fn write_runs(s: &[u8], out: &mut [u8], list: &mut [u32]) -> Tally
    requires { (length s.now ≤ capture_most) × (length (sections s.now) ≤ length out.old) × (length (numbers s.now) ≤ length list.old) }
    ensures bytes_value { (result.bytes ≡ length (sections s.now)) × (result.runs ≡ length (runs_of s.now)) }
    ensures out_after { out.new ≡ placed out.old 0 (sections s.now) }
    ensures list_after { list.new ≡ placed list.old 0 (numbers s.now) }
{
    let mut from: usize = 0;
    let mut bytes: usize = 0;
    let mut entries: usize = 0;
    while from < s.len() {
        let next = next_good(s, from);
        let at = next.at;
        let end = at + next.length;
        entries = put_run(list, entries, false, from, at - from);
        entries = put_run(list, entries, true, at, next.length);
        ground_copying::copy_long(&s[at..end], out, bytes);
        bytes += next.length;
        from = end;
    }
    Tally {
        bytes,
        runs: entries / RUN,
    }
}

// ---- the call

// Do so many bytes and runs fit an output of `room` bytes and a list of `entries` numbers?
fn fits(bytes: usize, runs: usize, room: usize, entries: usize) -> bool
    requires { runs ≤ capture_most }
    ensures { result ≡ (leb bytes room && leb (runs * 3) entries) }
{
    bytes <= room && runs * RUN <= entries
}

// Is there room for the sections and for the numbers of the runs? Room for every capture of that length is told without reading it.
fn has_room(s: &[u8], room: usize, entries: usize) -> bool
    requires { length s.now ≤ capture_most }
    ensures { result ≡ (leb (length (sections s.now)) room && leb (length (numbers s.now)) entries) }
{
    if fits(s.len(), (2 * s.len() + 11) / 13, room, entries) {
        return true;
    }
    let need = measure(s);
    fits(need.bytes, need.runs, room, entries)
}

// Writes the good sections of a capture back to back at the start of out, and the numbers of its runs at the start of list. Bytes and
// numbers after them stay. Refusals 36, 21, in this order, with nothing written.
#[tactic(auto, unfolding(crate::specs::Salvage::salvaging, crate::specs::Salvage::salvage_of, crate::specs::Salvage::output_after, crate::specs::Salvage::list_after))]
pub fn salvage(capture: &[u8], out: &mut [u8], list: &mut [u32]) -> Result<(usize, usize), Refusal>
    ensures value { result ≡ salvage_of capture.now (length out.old) (length list.old) }
    ensures out_after { out.new ≡ output_after capture.now out.old list.old }
    ensures list_after { list.new ≡ list_after capture.now out.old list.old }
{
    if CAPTURE_MOST < capture.len() {
        return Err(Refusal::CaptureTooLong);
    }
    if !has_room(capture, out.len(), list.len()) {
        return Err(Refusal::OutputTooSmall);
    }
    let written = write_runs(capture, out, list);
    Ok((written.bytes, written.runs))
}
