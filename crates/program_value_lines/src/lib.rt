// The values program's work: each value that document 01 has "run and compared", what the library answers, and what 01 says.
#![tactic(auto)]

ghost use Rattle.std.specs.Prelude.{◌≡◌, ◌++◌, ◌+◌, ◌≤◌, length, drop};
ghost use Rattle.ground_placing.specs.Put.{Put};
ghost use Rattle.program_value_lines.specs.Report.{value_text, said_text, line_of, of_day, of_time, of_index, of_volume, time_lines, index_lines, volume_lines, report_of};

use ground_numbers::{CONFIGURATION_KIND, INDEX_KIND};
use ground_refusal::Refusal;

// The report's length.
pub const MOST_OUTPUT: usize = 377;

// What the library answers of a value. An enum, as a `Result` would need a flag for the place beside each refusal.
#[derive(Clone, Copy)]
pub enum Answer {
    Accepted,
    Field(u64),
    Refused(Refusal),
    // A refusal that document 01 states with its place.
    RefusedAt(Refusal),
}

// Puts an answer.
fn put_answer(out: &mut [u8], at: usize, answer: Answer) -> usize
    requires { at + length (value_text answer) ≤ length out.old }
    ensures { Put out.old at (value_text answer) out.new result }
{
    match answer {
        Answer::Accepted => program_printing::put_bytes(out, at, b"accepted"),
        Answer::Field(field) => program_printing::put_digits(out, at, 16, 10, field),
        Answer::Refused(r) => program_printing::put_refused(out, at, r),
        Answer::RefusedAt(r) => {
            let refused = program_printing::put_refused(out, at, r);
            let word = program_printing::put_bytes(out, refused, b" at ");
            program_printing::put_decimal(out, word, ground_refusal::place(r) as u64)
        }
    }
}

// Puts what document 01 says, and the line's end.
fn put_said(out: &mut [u8], at: usize, said: &[u8]) -> usize
    requires { at + length (said_text said.now) ≤ length out.old }
    ensures { Put out.old at (said_text said.now) out.new result }
{
    let begun = program_printing::put_bytes(out, at, b" (01: ");
    let text = program_printing::put_bytes(out, begun, said);
    program_printing::put_bytes(out, text, b")\n")
}

// Puts a value's line: its name, the answer, and what document 01 says.
fn put_line(out: &mut [u8], at: usize, name: &[u8], answer: Answer, said: &[u8]) -> usize
    requires { at + length (line_of name.now answer said.now) ≤ length out.old }
    ensures { Put out.old at (line_of name.now answer said.now) out.new result }
{
    let named = program_printing::put_bytes(out, at, name);
    let colon = program_printing::put_bytes(out, named, b": ");
    let answered = put_answer(out, colon, answer);
    put_said(out, answered, said)
}

// The answer of a day.
#[tactic(auto, unfolding(crate::specs::Report::of_day))]
fn day_answer(day: u32) -> Answer
    ensures { result ≡ of_day day }
{
    match time_days::date_of(day) {
        Ok(date) => Answer::Accepted,
        Err(r) => Answer::Refused(r),
    }
}

// The answer of a local time at +480.
#[tactic(auto, unfolding(crate::specs::Report::of_time))]
fn time_answer(text: &[u8]) -> Answer
    ensures { result ≡ of_time text.now }
{
    match time_local::read_text(text, 480) {
        Ok(field) => Answer::Field(field),
        Err(r) => Answer::Refused(r),
    }
}

// The answer of an index body.
#[tactic(auto, unfolding(crate::specs::Report::of_index))]
fn index_answer(body: &[u8]) -> Answer
    ensures { result ≡ of_index body.now }
{
    match index_reader::read(INDEX_KIND, body) {
        Ok(end) => Answer::Accepted,
        Err(r) => Answer::RefusedAt(r),
    }
}

// The answer of a volume: a configuration body of one command 6, with no terminals and an empty signature.
#[tactic(auto, unfolding(crate::specs::Report::of_volume))]
fn volume_answer(volume: u8) -> Answer
    ensures { result ≡ of_volume volume }
{
    let body: [u8; 8] = [1, 6, 0, 2, volume, 0, 0, 0];
    match configuration_reader::read(CONFIGURATION_KIND, &body) {
        Ok(end) => Answer::Accepted,
        Err(r) => Answer::Refused(r),
    }
}

// Puts the lines of days and times.
fn put_times(out: &mut [u8], at: usize) -> usize
    requires { at + length time_lines ≤ length out.old }
    ensures { Put out.old at time_lines out.new result }
{
    let day = day_answer(15078);
    let november = time_answer(b"03/11/2024 07:45:00");
    let march = time_answer(b"01/03/1900 00:00:00");
    let one = put_line(out, at, b"MJD 15078", day, b"refused 20");
    let two = put_line(
        out,
        one,
        b"03/11/2024 07:45:00 at +480",
        november,
        b"ECC8234500",
    );
    put_line(
        out,
        two,
        b"01/03/1900 00:00:00 at +480",
        march,
        b"refused 20",
    )
}

// Puts the lines of index bodies.
fn put_indexes(out: &mut [u8], at: usize) -> usize
    requires { at + length index_lines ≤ length out.old }
    ensures { Put out.old at index_lines out.new result }
{
    let three = index_answer(b"\0\0\0");
    let two = index_answer(b"\0\0");
    let four = index_answer(b"\0\0\0\0");
    let good = put_line(out, at, b"index 00 00 00", three, b"accepted");
    let short = put_line(out, good, b"index 00 00", two, b"refused 14 at 1");
    put_line(out, short, b"index 00 00 00 00", four, b"refused 16 at 3")
}

// Puts the lines of volumes.
fn put_volumes(out: &mut [u8], at: usize) -> usize
    requires { at + length volume_lines ≤ length out.old }
    ensures { Put out.old at volume_lines out.new result }
{
    let full = volume_answer(100);
    let above = volume_answer(101);
    let good = put_line(out, at, b"volume 100", full, b"accepted");
    put_line(out, good, b"volume 101", above, b"refused 19")
}

// Writes the whole report at the start of the output, and answers its length. The output's other bytes stay. The last clause
// follows from the second: it is for a caller that lends the report's part of the output.
pub fn report(out: &mut [u8; MOST_OUTPUT]) -> usize
    ensures length { result ≡ length report_of }
    ensures bytes { out.new ≡ report_of ++ drop result out.old }
    ensures within { result ≤ length out.new }
{
    let times = put_times(out, 0);
    let indexes = put_indexes(out, times);
    put_volumes(out, indexes)
}
