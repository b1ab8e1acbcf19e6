// What the screen box's program in C is offered: numbers and byte strings in, and one number out, by the library's convention.
// Each function is the one of its name in `neapwillow_screen`, with its clauses.
#![tactic(auto)]

ghost use Rattle.std.specs.Prelude.{◌≡◌};
ghost use Rattle.screen_choice.specs.Choice.{choice_of};
ghost use Rattle.neapwillow_screen.specs.Answer.{choice_answer};

// The message of an index body that a box with this code shows at a second of a day, both UTC.
#[unsafe(no_mangle)]
pub extern "C" fn nw_screen_choose(
    kind: u32,
    body: &[u8],
    code: &[u8],
    day: u32,
    second: u32,
) -> u64
    ensures { result ≡ choice_answer (choice_of kind body.now code.now (record { day = day; second = second })) }
{
    neapwillow_screen::nw_screen_choose(kind, body, code, day, second)
}
