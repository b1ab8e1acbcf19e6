// Sections framed in payload bytes: what begins where a section may begin, and what an unfinished one becomes with more bytes.
#![tactic(auto)]

ghost use Rattle.std.specs.Prelude.{◌≡◌, ◌++◌, true, ◌+◌, ◌≤◌, ◌<◌, length};
ghost use Rattle.packet.specs.Fields.{byte};
ghost use Rattle.packet.specs.Sizes.{packet_bytes};
ghost use Rattle.packet_frames.specs.Framing.{is_begun, unfinished_most};
ghost use Rattle.packet_frames.specs.Found.{frame_of, front_of, Scanned, Grown};

use ground_numbers::SECTION_LENGTH_MOST;
use packet::{STUFFING, byte_at};

// The most bytes of an unfinished section: one less than of the longest.
pub const UNFINISHED_MOST: usize = 4095;

// What some bytes are as a section.
#[derive(Clone, Copy)]
pub enum Frame {
    // None begins here, or one that is too long.
    Nothing,
    // So many bytes are a whole section.
    Whole(usize),
    // Its end is not there yet.
    Open,
}

// Where the sections that begin at a pointer end, and where the unfinished one after them begins: at the end, where there is none.
#[derive(Clone, Copy)]
pub struct Scan {
    pub stop: usize,
    pub left: usize,
}

// Byte i of u and then of more.
fn joint(u: &[u8], more: &[u8], i: usize) -> usize
    requires { i < length u.now + length more.now }
    ensures { (result ≡ byte (u.now ++ more.now) i) × (result ≤ 255) }
{
    if i < u.len() {
        return byte_at(u, i);
    }
    byte_at(more, i - u.len())
}

// What u and then more are as a section.
fn frame_of(u: &[u8], more: &[u8]) -> Frame
    requires { length u.now + length more.now ≤ 8192 }
    ensures { result ≡ frame_of (u.now ++ more.now) }
{
    let n = u.len() + more.len();
    if n < 3 {
        return Frame::Open;
    }
    let length = (joint(u, more, 1) * 256 + joint(u, more, 2)) % 4096;
    if (SECTION_LENGTH_MOST as usize) < length {
        return Frame::Nothing;
    }
    if length + 3 <= n {
        return Frame::Whole(length + 3);
    }
    Frame::Open
}

// What stands where a section may begin.
#[tactic(auto, using(crate::proofs::Frames::front_empty, crate::proofs::Frames::front_stuffing))]
fn front_of(d: &[u8]) -> Frame
    requires { length d.now ≤ unfinished_most }
    ensures { result ≡ front_of d.now }
{
    let n = d.len();
    if n == 0 || d[0] == STUFFING {
        return Frame::Nothing;
    }
    frame_of(d, &d[n..])
}

// Is it nothing, or bytes that a section not yet whole may begin with?
pub fn is_begun(u: &[u8]) -> bool
    requires { length u.now ≤ unfinished_most }
    ensures { result ≡ is_begun u.now }
{
    if u.len() == 0 {
        return true;
    }
    matches!(front_of(u), Frame::Open)
}

// The sections that begin at the front of d, one after the other.
pub fn find_sections(d: &[u8]) -> Scan
    requires { length d.now ≤ packet_bytes }
    ensures { Scanned d.now result }
{
    let mut at: usize = 0;
    // no `while let Whole(n)`: what is answered hangs on which of the two others ends it
    loop {
        match front_of(&d[at..]) {
            Frame::Nothing => {
                return Scan {
                    stop: at,
                    left: d.len(),
                };
            }
            Frame::Open => {
                return Scan { stop: at, left: at };
            }
            Frame::Whole(n) => {
                at += n;
            }
        }
    }
}

// The unfinished bytes u with more bytes.
pub fn grow(u: &[u8], more: &[u8]) -> Frame
    requires { (is_begun u.now ≡ true) × (length u.now + length more.now ≤ 8192) }
    ensures { Grown u.now more.now result }
{
    if u.len() == 0 {
        return Frame::Nothing;
    }
    frame_of(u, more)
}
