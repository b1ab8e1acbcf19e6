// What a packet that is taken gives and leaves, decided as places in one struct before a byte is written.
#![tactic(auto)]

ghost use Rattle.std.specs.Prelude.{◌≡◌, true, Ok};
ghost use Rattle.packet.specs.Judging.{judged};
ghost use Rattle.packet.specs.declared.Judged.TheVariants.{Carrying};
ghost use Rattle.packet_frames.specs.Framing.{is_begun};
ghost use Rattle.packet_plan.specs.Plans.{Unpointed, Pointed, Planned};

use packet::PACKET_BYTES;
use packet_frames::Frame;

// Of the unfinished bytes before the packet the first `ended`, then its own bytes from `from` up to `upto` and from `first` up to `stop`, are given;
// the first `goes` of the unfinished bytes, then its own from `left` on, are left.
#[derive(Clone, Copy)]
pub struct Plan {
    pub ended: usize,
    pub from: usize,
    pub upto: usize,
    pub first: usize,
    pub stop: usize,
    pub goes: usize,
    pub left: usize,
}

// Without a start indicator; the payload begins at `at`.
fn plan_on(u: &[u8], p: &[u8], at: usize) -> Plan
    requires { Unpointed u.now p.now at }
    ensures { Planned u.now p.now result }
{
    let n = u.len();
    let nothing = Plan {
        ended: 0,
        from: at,
        upto: at,
        first: at,
        stop: at,
        goes: 0,
        left: PACKET_BYTES,
    };
    match packet_frames::grow(u, &p[at..]) {
        Frame::Nothing => nothing,
        Frame::Whole(size) => Plan {
            ended: n,
            upto: at + (size - n),
            ..nothing
        },
        Frame::Open => Plan {
            goes: n,
            left: at,
            ..nothing
        },
    }
}

// With a pointer to `first`; the bytes ahead of it begin at `at`.
fn plan_pointed(u: &[u8], p: &[u8], at: usize, first: usize) -> Plan
    requires { Pointed u.now p.now at first }
    ensures { Planned u.now p.now result }
{
    let n = u.len();
    let found = packet_frames::find_sections(&p[first..]);
    let behind = Plan {
        ended: 0,
        from: at,
        upto: at,
        first,
        stop: first + found.stop,
        goes: 0,
        left: first + found.left,
    };
    match packet_frames::grow(u, &p[at..first]) {
        Frame::Nothing => behind,
        Frame::Whole(size) => Plan {
            ended: n,
            upto: at + (size - n),
            ..behind
        },
        Frame::Open => behind,
    }
}

// What a packet that is taken gives and leaves, after the unfinished bytes u.
pub fn plan_of(u: &[u8], p: &[u8]) -> Plan
    requires { (is_begun u.now ≡ true) × (judged p.now ≡ Ok Carrying) }
    ensures { Planned u.now p.now result }
{
    let at = packet::payload_at(p);
    if !packet::has_start(p) {
        return plan_on(u, p, at);
    }
    let first = at + 1 + packet::byte_at(p, at);
    plan_pointed(u, p, at + 1, first)
}
