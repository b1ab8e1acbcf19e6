// A transport packet by itself: its fields, and whether it is refused, damaged, skipped or taken.
#![tactic(auto)]

ghost use Rattle.std.specs.Prelude.{◌≡◌, ◌≤◌, ◌<◌, length};
ghost use Rattle.packet.specs.Sizes.{packet_bytes, counter_most};
ghost use Rattle.packet.specs.Fields.{byte, starts, pid, scrambling, control, counter, payload_at, in_place};
ghost use Rattle.packet.specs.Judging.{judged, is_carrying};

use ground_refusal::Refusal;

// ---- the numbers, as specs/Sizes.antt has them

// The bytes of a packet.
pub const PACKET_BYTES: usize = 188;

// The first byte of every packet.
pub const SYNC_BYTE: u8 = 0x47;

// The PID of the emergency tables.
pub const OUR_PID: usize = 0x21;

// What fills a packet after its last section.
pub const STUFFING: u8 = 0xFF;

// The greatest continuity counter.
pub const COUNTER_MOST: u32 = 15;

// What a packet is by itself, before anything that is remembered.
#[derive(Clone, Copy)]
pub enum Judged {
    // Its error bit is set.
    Damaged,
    // It has an adaptation field and no payload.
    Skipped,
    Carrying,
}

// ---- fields

// Byte i.
pub fn byte_at(p: &[u8], i: usize) -> usize
    requires { i < length p.now }
    ensures { (result ≡ byte p.now i) × (result ≤ 255) }
{
    usize::from(p[i])
}

#[tactic(auto, unfolding(crate::specs::Fields::control))]
fn control_of(p: &[u8]) -> usize
    requires { packet_bytes ≤ length p.now }
    ensures { result ≡ control p.now }
{
    byte_at(p, 3) / 16 % 4
}

#[tactic(auto, unfolding(crate::specs::Fields::pid))]
fn pid_of(p: &[u8]) -> usize
    requires { packet_bytes ≤ length p.now }
    ensures { result ≡ pid p.now }
{
    byte_at(p, 1) % 32 * 256 + byte_at(p, 2)
}

#[tactic(auto, unfolding(crate::specs::Fields::scrambling))]
fn scrambling_of(p: &[u8]) -> usize
    requires { packet_bytes ≤ length p.now }
    ensures { result ≡ scrambling p.now }
{
    byte_at(p, 3) / 64
}

// The four-bit continuity counter.
#[tactic(auto, unfolding(crate::specs::Fields::counter))]
pub fn counter_of(p: &[u8]) -> usize
    requires { packet_bytes ≤ length p.now }
    ensures { (result ≡ counter p.now) × (result ≤ counter_most) }
{
    byte_at(p, 3) % 16
}

// The start indicator.
#[tactic(auto, unfolding(crate::specs::Fields::starts))]
pub fn has_start(p: &[u8]) -> bool
    requires { packet_bytes ≤ length p.now }
    ensures { result ≡ starts p.now }
{
    byte_at(p, 1) / 64 % 2 == 1
}

// Where the payload begins.
#[tactic(auto, unfolding(crate::specs::Fields::payload_at))]
pub fn payload_at(p: &[u8]) -> usize
    requires { packet_bytes ≤ length p.now }
    ensures { (result ≡ payload_at p.now) × (result ≤ 260) }
{
    if control_of(p) == 1 {
        return 4;
    }
    5 + byte_at(p, 4)
}

// Do adaptation field and pointer stay in the packet, and is the adaptation control not 00?
#[tactic(auto, unfolding(crate::specs::Fields::in_place, crate::specs::Fields::pointed_at))]
fn in_place(p: &[u8]) -> bool
    requires { packet_bytes ≤ length p.now }
    ensures { result ≡ in_place p.now }
{
    let control = control_of(p);
    let at = payload_at(p);
    control != 0
        && at <= PACKET_BYTES
        && (control == 2
            || !has_start(p)
            || (at < PACKET_BYTES && at + 1 + byte_at(p, at) < PACKET_BYTES))
}

// ---- the judgement

// Any byte string as a packet: refusals 30 to 34, in this order, the error bit after the sync byte.
#[tactic(auto, unfolding(crate::specs::Judging::judged, crate::specs::Fields::has_error))]
pub fn judge(p: &[u8]) -> Result<Judged, Refusal>
    ensures { result ≡ judged p.now }
{
    if p.len() != PACKET_BYTES {
        return Err(Refusal::NotAPacket);
    }
    if p[0] != SYNC_BYTE {
        return Err(Refusal::NoSyncByte);
    }
    if 0x80 <= p[1] {
        return Ok(Judged::Damaged);
    }
    if pid_of(p) != OUR_PID {
        return Err(Refusal::OtherPid);
    }
    if scrambling_of(p) != 0 {
        return Err(Refusal::Scrambled);
    }
    if !in_place(p) {
        return Err(Refusal::PastPacket);
    }
    if control_of(p) == 2 {
        return Ok(Judged::Skipped);
    }
    Ok(Judged::Carrying)
}

// Is it a packet that is taken?
#[tactic(auto, unfolding(crate::specs::Judging::is_carrying))]
pub fn is_carrying(p: &[u8]) -> bool
    ensures { result ≡ is_carrying (judged p.now) }
{
    matches!(judge(p), Ok(Judged::Carrying))
}
