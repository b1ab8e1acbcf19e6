// What the screen box's program in C is offered: numbers and byte strings in, and one number out, by the library's convention.
#![tactic(auto)]

ghost use Rattle.std.specs.Prelude.{◌≡◌, ◌<◌, ◌^◌};
ghost use Rattle.c_answers.specs.Answers.{refused_of};
ghost use Rattle.c_answers.specs.Packing.{packed};
ghost use Rattle.screen_choice.specs.Choice.{choice_of};
ghost use Rattle.neapwillow_screen.specs.Answer.{choice_fields, choice_answer};

use ground_refusal::Refusal;

// What an answer holds above its low byte: 56 bits.
const ABOVE: u64 = 0x0100_0000_0000_0000;

// A refusal as C is told of it: not that of c_answers, as must-fail shows here that the place is told (`place_forgotten`).
fn refused(r: Refusal) -> u64
    ensures { result ≡ refused_of r }
{
    (ground_refusal::number(r) as u64) + 256 * ((ground_refusal::place(r) as u64) % ABOVE)
}

// A message that is shown as one number: that there is one, its number, where it begins, its length.
#[tactic(auto, unfolding(c_answers::specs::Packing::packed, c_answers::specs::Packing::widths, crate::specs::Answer::choice_fields))]
fn packed_choice(number: u64, at: usize, length: usize) -> u64
    ensures { (result ≡ packed (choice_fields number at length)) × (result < 2 ^ 56) }
{
    0x1_0000_0000_0000
        + number % 256 * 0x100_0000_0000
        + (at % 0x100_0000) as u64 * 0x1_0000
        + (length % 0x1_0000) as u64
}

#[tactic(auto, using(crate::proofs::Answer::answered))]
fn choice_answer(c: Result<Option<(u64, usize, usize)>, Refusal>) -> u64
    ensures { result ≡ choice_answer c }
{
    match c {
        Ok(Some((number, at, length))) => 256 * packed_choice(number, at, length),
        Ok(None) => 0,
        Err(why) => refused(why),
    }
}

// The message of an index body that a box with this code shows at a second of a day, both UTC.
pub fn nw_screen_choose(kind: u32, body: &[u8], code: &[u8], day: u32, second: u32) -> u64
    ensures { result ≡ choice_answer (choice_of kind body.now code.now (record { day = day; second = second })) }
{
    choice_answer(screen_choice::choose(kind, body, code, day, second))
}
