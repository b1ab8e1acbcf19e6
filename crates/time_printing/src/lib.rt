// Times for people: a time field printed as day-first local text or as the word live, and the start and the end of a form typed together.
#![tactic(auto)]

ghost use Rattle.std.specs.Prelude.{◌≡◌, ◌≤◌};
ghost use Rattle.time_local.specs.Text.{Typable, tens, units, text_of};
ghost use Rattle.time_printing.specs.Printing.{prints, start_text, end_text, printed_of, output_of};
ghost use Rattle.time_printing.specs.Typing.{end_typed, typed_times};

use ground_refusal::Refusal;
use time_local::LocalTime;

// An end field of 40 one bits: the message is live.
const LIVE: u64 = 0xFF_FFFF_FFFF;

// The first character of a number of two digits.
#[tactic(auto, unfolding(time_local::specs::Text::tens))]
fn tens_of(n: u32) -> u8
    requires { n ≤ 99 }
    ensures { result ≡ tens n }
{
    (48 + n / 10) as u8
}

// Its second character.
#[tactic(auto, unfolding(time_local::specs::Text::units))]
fn units_of(n: u32) -> u8
    ensures { result ≡ units n }
{
    (48 + n % 10) as u8
}

// `dd/mm/yyyy hh:mm:ss`.
#[tactic(auto, unfolding(time_local::specs::Text::text_of))]
fn characters(t: LocalTime) -> [u8; 19]
    requires { Typable t }
    ensures { result ≡ text_of t }
{
    let day = t.day;
    let month = t.month;
    [
        tens_of(day),
        units_of(day),
        b'/',
        tens_of(month),
        units_of(month),
        b'/',
        tens_of(t.year / 100),
        units_of(t.year / 100),
        tens_of(t.year % 100),
        units_of(t.year % 100),
        b' ',
        tens_of(t.hour),
        units_of(t.hour),
        b':',
        tens_of(t.minute),
        units_of(t.minute),
        b':',
        tens_of(t.second),
        units_of(t.second),
    ]
}

// Characters at the start of the output, if it has room for them: refusal 21.
#[tactic(auto, unfolding(crate::specs::Printing::fitting, crate::specs::Printing::answer_by, crate::specs::Printing::output_by))]
fn put(text: &[u8], out: &mut [u8]) -> Result<usize, Refusal>
    ensures value { result ≡ printed_of (prints text.now) out.old }
    ensures out_after { out.new ≡ output_of (prints text.now) out.old }
{
    if out.len() < text.len() {
        return Err(Refusal::OutputTooSmall);
    }
    ground_placing::copy_at(text, out, 0);
    Ok(text.len())
}

// A start field as local text at an offset: refusals 19, 18, 20, 21, in this order.
#[tactic(auto, unfolding(crate::specs::Printing::start_text, crate::specs::Printing::local_text, crate::specs::Printing::fitting, crate::specs::Printing::answer_by, crate::specs::Printing::output_by))]
pub fn print_start(field: u64, offset: i32, out: &mut [u8]) -> Result<usize, Refusal>
    ensures value { result ≡ printed_of (start_text field offset) out.old }
    ensures out_after { out.new ≡ output_of (start_text field offset) out.old }
{
    let t = time_local::unpack(field, offset)?;
    put(&characters(t), out)
}

// An end field: a live one is the word live, any other is printed as a start is.
#[tactic(auto, unfolding(crate::specs::Printing::end_text, crate::specs::Printing::live_text, crate::specs::Printing::fitting, crate::specs::Printing::answer_by, crate::specs::Printing::output_by))]
pub fn print_end(field: u64, offset: i32, out: &mut [u8]) -> Result<usize, Refusal>
    ensures value { result ≡ printed_of (end_text field offset) out.old }
    ensures out_after { out.new ≡ output_of (end_text field offset) out.old }
{
    if !time_offset::permitted(offset) {
        return Err(Refusal::OutsideSet(0));
    }
    if field == LIVE {
        return put(b"live", out);
    }
    print_start(field, offset, out)
}

// The end of a form: its text is not looked at where a live one is asked for.
#[tactic(auto, unfolding(crate::specs::Typing::end_typed))]
fn typed_end(end: &[u8], live: bool, offset: i32) -> Result<u64, Refusal>
    ensures { result ≡ end_typed live end.now offset }
{
    if live {
        return Ok(LIVE);
    }
    time_local::read_text(end, offset)
}

// Both times of a form: refusals of the start (19, 24, 20) come before those of the end.
#[tactic(auto, unfolding(crate::specs::Typing::typed_times, crate::specs::Typing::together, crate::specs::Typing::with_end))]
pub fn read_times(start: &[u8], end: &[u8], live: bool, offset: i32) -> Result<(u64, u64), Refusal>
    ensures { result ≡ typed_times start.now live end.now offset }
{
    let from = time_local::read_text(start, offset)?;
    let until = typed_end(end, live, offset)?;
    Ok((from, until))
}
