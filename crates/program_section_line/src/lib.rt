// The section program's work: for one section, the line of its number and its payload's length, or of its refusal.
#![tactic(auto)]

ghost use Rattle.std.specs.Prelude.{◌≡◌, ◌++◌, ◌≤◌, length, drop};
ghost use Rattle.ground_placing.specs.Put.{Put};
ghost use Rattle.program_section_line.specs.Line.{judged_of, section_answered, line_of};

use ground_refusal::Refusal;
use program_printing::MOST_INPUT;
use section_reader::Heading;

// No line is longer: `refused 24` and LF have 11 bytes.
pub const MOST_OUTPUT: usize = 16;

// The judgement of the whole input.
fn judged(input: &[u8]) -> Result<(Heading, usize), Refusal>
    ensures { result ≡ judged_of input.now }
{
    if MOST_INPUT < input.len() {
        return Err(Refusal::TooLarge);
    }
    section_reader::read_section(input)
}

// Puts what stands before the line's LF at the start of the output.
fn put_answer(out: &mut [u8], input: &[u8]) -> usize
    requires { length (section_answered input.now) ≤ length out.old }
    ensures { Put out.old 0 (section_answered input.now) out.new result }
{
    match judged(input) {
        Ok((heading, length)) => {
            let number = program_printing::put_decimal(out, 0, heading.number as u64);
            let space = program_printing::put_bytes(out, number, b" ");
            program_printing::put_decimal(out, space, length as u64)
        }
        Err(r) => program_printing::put_refused(out, 0, r),
    }
}

// Writes the line at the start of the output, and answers its length. The output's other bytes stay. The last clause follows
// from the second: it is for a caller that lends the line's part of the output.
pub fn line(input: &[u8], out: &mut [u8; MOST_OUTPUT]) -> usize
    ensures length { result ≡ length (line_of input.now) }
    ensures bytes { out.new ≡ line_of input.now ++ drop result out.old }
    ensures within { result ≤ length out.new }
{
    let answered = put_answer(out, input);
    program_printing::put_bytes(out, answered, b"\n")
}
