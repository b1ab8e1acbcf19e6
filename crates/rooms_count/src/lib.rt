// How many rooms two networks hold, and how many are free.
#![tactic(auto)]

ghost use Rattle.std.specs.Prelude.{◌≡◌};
ghost use Rattle.rooms_count.specs.Counting.{held_of, free_of};

use ground_refusal::Refusal;
use rooms_state::Networks;

// How many rooms both networks hold together; the store has so many bytes.
pub fn rooms_held(x: Networks, bytes: usize) -> Result<usize, Refusal>
    ensures { result ≡ held_of x bytes }
{
    if !rooms_state::possible(&x, bytes) {
        return Err(Refusal::ImpossibleState);
    }
    let first = rooms_marks::held_rooms(&x.one.rooms);
    let second = rooms_marks::held_rooms(&x.two.rooms);
    Ok(first + second)
}

// How many rooms nobody holds: the store's rooms less those that are held.
pub fn rooms_free(x: Networks, bytes: usize) -> Result<usize, Refusal>
    ensures { result ≡ free_of x bytes }
{
    let held = rooms_held(x, bytes)?;
    Ok(rooms_state::rooms_in(bytes) - held)
}
