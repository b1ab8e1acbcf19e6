// How the answer that only two networks over one store give becomes one number for C, as c_answers has the others.
#![tactic(auto)]

ghost use Rattle.std.specs.Prelude.{◌≡◌};
ghost use Rattle.c_rooms_answers.specs.Answers.{ended_answer};

use ground_refusal::Refusal;

pub fn ended_answer(a: Result<(), Refusal>) -> u64
    ensures { result ≡ ended_answer a }
{
    c_answers::value_answer(a.map(|()| 0))
}
