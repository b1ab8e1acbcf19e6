// How the answers that only the slow gathering gives become one number for C, as c_answers has the others.
#![tactic(auto)]

ghost use Rattle.std.specs.Prelude.{◌≡◌};
ghost use Rattle.c_teaching_answers.specs.Answers.{headed_answer, lacking_answer};

use ground_refusal::Refusal;
use section_reader::Heading;

// A heading is told as that of a section that is read, whose payload's length is not told.
pub fn headed_answer(a: Result<Heading, Refusal>) -> u64
    ensures { result ≡ headed_answer a }
{
    c_answers::section_answer(a.map(|h| (h, 0)))
}

pub fn lacking_answer(a: Result<(usize, usize), Refusal>) -> u64
    ensures { result ≡ lacking_answer a }
{
    c_answers::length_answer(a.map(|(missing, _smallest)| missing))
}
