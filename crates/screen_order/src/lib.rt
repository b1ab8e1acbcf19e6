// Which of two messages a box shows, by numbers alone: a message that may be shown, and the one to show of those met so far.
#![tactic(auto)]

ghost use Rattle.std.specs.Prelude.{◌≡◌};
ghost use Rattle.screen_order.specs.Order.{comes_first, rank_of, better_of};

// A message that concerns the box and is on: its number in the table, where it begins and its length, its level, its start's day and second.
#[derive(Clone, Copy)]
pub struct Candidate {
    pub number: u64,
    pub at: usize,
    pub length: usize,
    pub level: u64,
    pub day: u32,
    pub second: u32,
}

// Is a shown rather than b? The first number that differs decides.
fn comes_first(a: Candidate, b: Candidate) -> bool
    ensures { result ≡ comes_first (rank_of a) (rank_of b) }
{
    (a.level, a.day, a.second, a.number) < (b.level, b.day, b.second, b.number)
}

// The one to show, after one more was met.
#[tactic(auto, unfolding(crate::specs::Order::better_of))]
pub fn better(best: Option<Candidate>, next: Candidate) -> Option<Candidate>
    ensures { result ≡ better_of best next }
{
    match best {
        Some(held) if !comes_first(next, held) => best,
        _ => Some(next),
    }
}
