// Text laid into a lent buffer: numbers in digits, fixed strings and refusals; how much a program reads. For the programs' libraries, not
// offered by itself.
#![tactic(auto)]

ghost use Rattle.std.specs.Prelude.{◌≡◌, ◌+◌, ◌≤◌, ◌<◌, length};
ghost use Rattle.program_printing.specs.Characters.{digit_character, digits_of, places_of, decimal_of, refused_text};
ghost use Rattle.ground_placing.specs.Put.{Put};

use ground_refusal::Refusal;

// The longest input that a program takes: 64 KiB.
pub const MOST_INPUT: usize = 65_536;

// The character of a digit.
#[tactic(auto, unfolding(crate::specs::Characters::digit_character))]
fn digit(value: u64) -> u8
    requires { value < 16 }
    ensures { result ≡ digit_character value }
{
    if value < 10 {
        return (48 + value) as u8;
    }
    (55 + value) as u8
}

// How many decimal digits a number has.
#[tactic(auto, using(crate::proofs::Digits::places_one, crate::proofs::Digits::places_are))]
fn places(number: u64) -> usize
    ensures { result ≡ places_of number }
{
    number.checked_ilog10().map_or(1, |log| log as usize + 1)
}

// Puts a number's last `width` digits at a place of the output, the low one first. Like every writer here it is for the
// programs' libraries, which see to the room, and answers the place after its bytes.
pub fn put_digits(out: &mut [u8], at: usize, base: u64, width: usize, number: u64) -> usize
    requires { (0 < base) × (base ≤ 16) × (at + width ≤ length out.old) }
    ensures { Put out.old at (digits_of base width number) out.new result }
{
    let mut rest = number;
    for i in 0..width {
        out[at + (width - i - 1)] = digit(rest % base);
        rest /= base;
    }
    at + width
}

// Puts a number in decimal.
pub fn put_decimal(out: &mut [u8], at: usize, number: u64) -> usize
    requires { at + length (decimal_of number) ≤ length out.old }
    ensures { Put out.old at (decimal_of number) out.new result }
{
    put_digits(out, at, 10, places(number), number)
}

// Puts a byte string.
pub fn put_bytes(out: &mut [u8], at: usize, bytes: &[u8]) -> usize
    requires { at + length bytes.now ≤ length out.old }
    ensures { Put out.old at bytes.now out.new result }
{
    ground_placing::copy_at(bytes, out, at);
    at + bytes.len()
}

// Puts the word and the number of a refusal. Laid into its callers: a report may have nothing but refused lines.
#[inline]
pub fn put_refused(out: &mut [u8], at: usize, r: Refusal) -> usize
    requires { at + length (refused_text r) ≤ length out.old }
    ensures { Put out.old at (refused_text r) out.new result }
{
    let after = put_bytes(out, at, b"refused ");
    put_decimal(out, after, ground_refusal::number(r) as u64)
}
