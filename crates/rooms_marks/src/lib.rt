// The rooms of two networks, marked in one pass over both: which room is free, whether one is held twice, and how many are held.
#![tactic(auto)]

ghost use Rattle.std.specs.Prelude.{◌≡◌, ◌<◌, ◌≤◌, ◌+◌, min, length};
ghost use Rattle.rooms_marks.specs.Rooms.{held_rooms, none_twice, free_room};
ghost use Rattle.rooms_marks.specs.Marks.{marked, marks_of, free_mark, all_once};

// A mark, and one more; 2 stands for all above.
fn raised(m: u8) -> u8
    ensures { result ≡ min 2 (m + 1) }
{
    if m == 0 { 1 } else { 2 }
}

// One mark more at each room of the list. No room is passed by: most numbers have none, and each mark at one place would wait for the one before.
fn mark(marks: &mut [u8], rooms: &[u16])
    ensures { marks.new ≡ marked marks.old rooms.now }
{
    for room in rooms {
        let r = *room as usize;
        if 0 < r && r < marks.len() {
            marks[r] = raised(marks[r]);
        }
    }
}

// The marks of both networks' rooms: one for each of the 512, and before them one that is not set.
#[tactic(auto, unfolding(crate::specs::Marks::marks_of))]
fn marks_of(one: &[u16], two: &[u16]) -> [u8; 513]
    ensures { result ≡ marks_of one.now two.now }
{
    let mut marks = [0u8; 513];
    mark(&mut marks, one);
    mark(&mut marks, two);
    marks
}

// The first room that is not marked, and one more; 0 where every one of the n is, as `free_room` promises it: no Option.
#[tactic(auto, using(crate::proofs::Marking::free_stop))]
fn first_unmarked(marks: &[u8], n: usize) -> usize
    requires { n < length marks.now }
    ensures { result ≡ free_mark marks.now 1 n }
{
    for r in 1..n + 1 {
        if marks[r] == 0 {
            return r;
        }
    }
    0
}

// Is none of the n rooms marked twice?
fn marked_once(marks: &[u8], n: usize) -> bool
    requires { n < length marks.now }
    ensures { result ≡ all_once marks.now 1 n }
{
    for r in 1..n + 1 {
        if marks[r] >= 2 {
            return false;
        }
    }
    true
}

// The first of the n rooms that neither list holds, and one more; 0 where every one is held. For feeding.
pub fn free_room(one: &[u16], two: &[u16], n: usize) -> usize
    requires { n ≤ 512 }
    ensures { (result ≡ free_room n one.now two.now) × (result ≤ n) }
{
    first_unmarked(&marks_of(one, two), n)
}

// Is none of the n rooms held twice? For the test of a state.
pub fn none_twice(one: &[u16], two: &[u16], n: usize) -> bool
    requires { n ≤ 512 }
    ensures { result ≡ none_twice n one.now two.now }
{
    marked_once(&marks_of(one, two), n)
}

// How many rooms a list holds. For the counts. A loop, which runs on many rooms at once: `filter(..).count()` looked at one after the other.
pub fn held_rooms(rooms: &[u16]) -> usize
    ensures { result ≡ held_rooms rooms.now }
{
    let mut held: usize = 0;
    for k in 0..rooms.len() {
        if rooms[k] != 0 {
            held += 1;
        }
    }
    held
}
