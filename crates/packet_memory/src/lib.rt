// What the unpacker remembers, in bytes that the caller lends: what they mean, and how they are written.
#![tactic(auto)]

ghost use Rattle.std.specs.Prelude.{◌≡◌, [], ◌∷◌, ◌/◌, ◌%◌, ◌≤◌, length, Ok};
ghost use Rattle.ground_placing.specs.Placed.{placed};
ghost use Rattle.packet.specs.Sizes.{packet_bytes};
ghost use Rattle.packet.specs.Judging.{judged};
ghost use Rattle.packet.specs.declared.Judged.TheVariants.{Carrying};
ghost use Rattle.packet_memory.specs.Memory.{is_repeat};
ghost use Rattle.packet_memory.specs.State.{state_bytes, kept_of, ends_with, may_leave, is_possible, memory_of};
ghost use Rattle.packet_memory.specs.Keeping.{part_of, Goes, Leaves, marked, holding};

use ground_equal::same_bytes;
use packet::{PACKET_BYTES, byte_at, counter_of};
use packet_frames::UNFINISHED_MOST;

// ---- the state's bytes, as specs/State.antt has them

// How many they are.
pub const STATE_BYTES: usize = 4286;

// Where the last packet begins, and where the unfinished section.
const LAST_AT: usize = 3;

pub const UNFINISHED_AT: usize = 191;

// ---- what they mean

// How many bytes of an unfinished section are kept.
#[tactic(auto, unfolding(crate::specs::State::kept_of))]
fn kept_of(s: &[u8]) -> usize
    requires { length s.now ≡ state_bytes }
    ensures { (result ≡ kept_of s.now) × (result ≤ 65535) }
{
    usize::from(u16::from_be_bytes([s[1], s[2]]))
}

// Is u nothing, or longer than `more`, which it ends with?
#[tactic(auto, using(crate::proofs::Leaving::ends_none, crate::proofs::Leaving::ends_short, crate::proofs::Leaving::ends_then))]
fn ends_with(u: &[u8], more: &[u8]) -> bool
    ensures { result ≡ ends_with u.now more.now }
{
    u.len() == 0 || (more.len() < u.len() && same_bytes(&u[u.len() - more.len()..], more))
}

// Can the packet have left the bytes u unfinished?
fn may_leave(p: &[u8], u: &[u8]) -> bool
    requires { judged p.now ≡ (Ok Carrying) }
    ensures { result ≡ may_leave p.now u.now }
{
    let at = packet::payload_at(p);
    if !packet::has_start(p) {
        return ends_with(u, &p[at..]);
    }
    let first = at + 1 + byte_at(p, at);
    let found = packet_frames::find_sections(&p[first..]);
    let left = first + found.left;
    same_bytes(u, &p[left..])
}

// Is it a state that holds something, and can have been left by the unpacker?
#[tactic(auto, unfolding(crate::specs::State::last_of), using(crate::proofs::States::possible_unmarked))]
pub fn possible(s: &[u8]) -> bool
    requires { length s.now ≡ state_bytes }
    ensures { result ≡ is_possible s.now }
{
    if s[0] == 0 || 2 < s[0] {
        return false;
    }
    if !packet::is_carrying(&s[LAST_AT..UNFINISHED_AT]) {
        return false;
    }
    let kept = kept_of(s);
    if UNFINISHED_MOST < kept {
        return false;
    }
    let end = UNFINISHED_AT + kept;
    if !packet_frames::is_begun(&s[UNFINISHED_AT..end]) {
        return false;
    }
    may_leave(&s[LAST_AT..UNFINISHED_AT], &s[UNFINISHED_AT..end])
}

// Is the packet the one repeat of the last that is ignored? `known` says whether the state is possible. Most packets are told apart by their counter.
#[tactic(auto, unfolding(crate::specs::State::last_of))]
pub fn repeats(s: &[u8], known: bool, p: &[u8]) -> bool
    requires { (length s.now ≡ state_bytes) × (known ≡ is_possible s.now) × (length p.now ≡ packet_bytes) }
    ensures { result ≡ is_repeat (memory_of s.now) p.now }
{
    // the first two tests one by one: in one chain of four its proof didn't close
    if !known {
        return false;
    }
    if s[0] == 2 {
        return false;
    }
    let last = &s[LAST_AT..UNFINISHED_AT];
    last[3] == p[3] && same_bytes(last, p)
}

// How many bytes of an unfinished section the packet goes on from.
#[tactic(auto, unfolding(crate::specs::State::last_of))]
pub fn going_on(s: &[u8], known: bool, p: &[u8]) -> usize
    requires { (length s.now ≡ state_bytes) × (known ≡ is_possible s.now) × (length p.now ≡ packet_bytes) }
    ensures { Goes s.now p.now result }
{
    if !known {
        return 0;
    }
    if counter_of(p) != (counter_of(&s[LAST_AT..UNFINISHED_AT]) + 1) % 16 {
        return 0;
    }
    kept_of(s)
}

// ---- how they are written

// Nothing is remembered any more.
#[tactic(auto, unfolding(crate::specs::Keeping::marked))]
pub fn forget(s: &mut [u8])
    requires { length s.old ≡ state_bytes }
    ensures { s.new ≡ marked 0 s.old }
{
    s[0] = 0;
}

// The last packet's one repeat has been ignored.
#[tactic(auto, unfolding(crate::specs::Keeping::marked))]
pub fn mark_repeat(s: &mut [u8])
    requires { length s.old ≡ state_bytes }
    ensures { s.new ≡ marked 2 s.old }
{
    s[0] = 2;
}

// The state's mark and the number of unfinished bytes.
fn put_mark(s: &mut [u8], kept: usize)
    requires { (3 ≤ length s.old) × (kept ≤ 65535) }
    ensures { s.new ≡ placed s.old 0 (1 ∷ kept / 256 % 256 ∷ kept % 256 ∷ []) }
{
    let kept = (kept as u16).to_be_bytes();
    let bytes: [u8; 3] = [1, kept[0], kept[1]];
    s[..3].copy_from_slice(&bytes);
}

// The packet is the last one taken, and leaves its bytes from `left` on behind the first `goes` that were unfinished.
pub fn keep(s: &mut [u8], p: &[u8], goes: usize, left: usize)
    requires { Leaves s.old p.now goes left }
    ensures { s.new ≡ holding s.old (part_of s.old p.now goes left) p.now }
{
    ground_placing::copy_at(&p[left..], s, UNFINISHED_AT + goes);
    put_mark(s, goes + (PACKET_BYTES - left));
    ground_placing::copy_at(p, s, LAST_AT);
}
