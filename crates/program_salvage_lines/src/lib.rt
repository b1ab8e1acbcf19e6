// The salvage program's list: for a capture, a line for each run of bytes that is kept or skipped.
#![tactic(auto)]

ghost use Rattle.std.specs.Prelude.{◌≡◌, ◌++◌, ◌+◌, ◌≤◌, length, drop};
ghost use Rattle.ground_placing.specs.Put.{Put};
ghost use Rattle.salvage.specs.Runs.{run_at, runs_of};
ghost use Rattle.salvage.specs.Salvage.{capture_most};
ghost use Rattle.program_salvage_lines.specs.Report.{word_of, lines_of, report_of};

use salvage::CAPTURE_MOST;

// No list is longer: the header's 17 bytes, and 20 for each of 10,083 runs.
pub const MOST_OUTPUT: usize = 201_677;

// Puts the word of a run, and a space.
fn put_word(out: &mut [u8], at: usize, kept: bool) -> usize
    requires { at + length (word_of kept) ≤ length out.old }
    ensures { Put out.old at (word_of kept) out.new result }
{
    if kept {
        return program_printing::put_bytes(out, at, b"kept ");
    }
    program_printing::put_bytes(out, at, b"skipped ")
}

// Puts the line of a run of so many bytes, if there are any.
fn put_line(out: &mut [u8], at: usize, kept: bool, first: usize, size: usize) -> usize
    requires { at + length (lines_of (run_at kept first size)) ≤ length out.old }
    ensures { Put out.old at (lines_of (run_at kept first size)) out.new result }
{
    if size == 0 {
        return at;
    }
    let word = put_word(out, at, kept);
    let offset = program_printing::put_decimal(out, word, first as u64);
    let space = program_printing::put_bytes(out, offset, b" ");
    let length = program_printing::put_decimal(out, space, size as u64);
    program_printing::put_bytes(out, length, b"\n")
}

// Puts the line of each run. No `for`: a turn goes on by as many bytes as it found.
fn put_lines(out: &mut [u8], at: usize, s: &[u8]) -> usize
    requires { (length s.now ≤ capture_most) × (at + length (lines_of (runs_of s.now)) ≤ length out.old) }
    ensures { Put out.old at (lines_of (runs_of s.now)) out.new result }
{
    let mut next = at;
    let mut from: usize = 0;
    while from < s.len() {
        let found = salvage::next_good(s, from);
        next = put_line(out, next, false, from, found.at - from);
        next = put_line(out, next, true, found.at, found.length);
        from = found.at + found.length;
    }
    next
}

// Writes the whole list at the start of the output, and answers its length. The output's other bytes stay. The last clause
// follows from the second: it is for a caller that lends the list's part of the output.
pub fn report(capture: &[u8], out: &mut [u8; MOST_OUTPUT]) -> usize
    ensures length { result ≡ length (report_of capture.now) }
    ensures bytes { out.new ≡ report_of capture.now ++ drop result out.old }
    ensures within { result ≤ length out.new }
{
    let begun = program_printing::put_bytes(out, 0, b"run first length\n");
    if CAPTURE_MOST < capture.len() {
        return program_printing::put_bytes(out, begun, b"refused 36\n");
    }
    put_lines(out, begun, capture)
}
