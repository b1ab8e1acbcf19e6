// The date program's work: for an input of lines, the report of the field and the weekday of each, or of its refusal.
#![tactic(auto)]

ghost use Rattle.std.specs.Prelude.{◌≡◌, ◌++◌, ◌+◌, ◌^◌, ◌≤◌, ◌<◌, eqb, length, drop, position};
ghost use Rattle.ground_placing.specs.Put.{Put};
ghost use Rattle.program_date_lines.specs.Report.{lines_of, field_text, time_answered, line_of, numbered, report_of};
ghost use Rattle.program_date_lines.specs.Lines.{line_length};

use program_printing::MOST_INPUT;

// No report is longer: the header's 19 bytes and 17 for each byte of the input. An empty line, one byte, gives a line number of
// five digits, ` refused 24` and LF; a line that is accepted has 19 bytes and gives 19.
pub const MOST_OUTPUT: usize = 1_114_131;

// Where the first LF stands.
fn first_feed(s: &[u8]) -> Option<usize>
    ensures { result ≡ position (λ b. eqb b 10) s.now }
{
    s.iter().position(|b| *b == b'\n')
}

// Where the line that begins at `from` ends: at its LF, or at the input's end.
fn line_end(input: &[u8], from: usize) -> usize
    requires { from ≤ length input.now }
    ensures { (result ≡ from + line_length (drop from input.now)) × (result ≤ length input.now) }
{
    let rest = &input[from..];
    from + first_feed(rest).unwrap_or(rest.len())
}

// Puts a field and its weekday.
fn put_field(out: &mut [u8], at: usize, field: u64) -> usize
    requires { (field < 2 ^ 40) × (at + length (field_text field) ≤ length out.old) }
    ensures { Put out.old at (field_text field) out.new result }
{
    match time_days::weekday((field / 0x100_0000) as u32) {
        Ok(day) => {
            let digits = program_printing::put_digits(out, at, 16, 10, field);
            let space = program_printing::put_bytes(out, digits, b" ");
            program_printing::put_decimal(out, space, day as u64)
        }
        Err(r) => program_printing::put_refused(out, at, r),
    }
}

// Puts what stands after a line's number.
fn put_answer(out: &mut [u8], at: usize, text: &[u8]) -> usize
    requires { at + length (time_answered text.now) ≤ length out.old }
    ensures { Put out.old at (time_answered text.now) out.new result }
{
    match time_local::read_text(text, 0) {
        Ok(field) => put_field(out, at, field),
        Err(r) => program_printing::put_refused(out, at, r),
    }
}

// Puts what the report says of one line.
fn put_line(out: &mut [u8], at: usize, number: u64, text: &[u8]) -> usize
    requires { at + length (line_of number text.now) ≤ length out.old }
    ensures { Put out.old at (line_of number text.now) out.new result }
{
    let counted = program_printing::put_decimal(out, at, number);
    let space = program_printing::put_bytes(out, counted, b" ");
    let answered = put_answer(out, space, text);
    program_printing::put_bytes(out, answered, b"\n")
}

// Puts what the report says of each line, numbered from 1. No `split`: it would give one more line, an empty one, after a last LF.
fn put_lines(out: &mut [u8], at: usize, input: &[u8]) -> usize
    requires { (length input.now ≤ 65536) × (at + length (numbered 1 (lines_of input.now)) ≤ length out.old) }
    ensures { Put out.old at (numbered 1 (lines_of input.now)) out.new result }
{
    let mut next = at;
    let mut number: u64 = 1;
    let mut from: usize = 0;
    while from < input.len() {
        let end = line_end(input, from);
        next = put_line(out, next, number, &input[from..end]);
        number += 1;
        from = end + 1;
    }
    next
}

// Writes the whole report at the start of the output, and answers its length. The output's other bytes stay. The last clause
// follows from the second: it is for a caller that lends the report's part of the output.
#[tactic(auto, using(crate::proofs::Lines::report_over, ground_placing::proofs::Placing::placed_next, ground_placing::proofs::Placing::placed_whole))]
pub fn report(input: &[u8], out: &mut [u8; MOST_OUTPUT]) -> usize
    ensures length { result ≡ length (report_of input.now) }
    ensures bytes { out.new ≡ report_of input.now ++ drop result out.old }
    ensures within { result ≤ length out.new }
{
    let begun = program_printing::put_bytes(out, 0, b"line field weekday\n");
    if MOST_INPUT < input.len() {
        return program_printing::put_bytes(out, begun, b"0 refused 22\n");
    }
    put_lines(out, begun, input)
}
