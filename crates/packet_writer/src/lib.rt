// The packer: a good section's packets, written one after the other at the start of a lent output.
#![tactic(auto)]

ghost use Rattle.std.specs.Prelude.{◌≡◌, [], ◌∷◌, true, false, ◌+◌, ◌*◌, ◌/◌, ◌≤◌, length, drop, replicate};
ghost use Rattle.ground_placing.specs.Placed.{placed};
ghost use Rattle.packet.specs.Sizes.{packet_bytes, stuffing, counter_most};
ghost use Rattle.packet_writer.specs.Packing.{first_room, next_room, start_byte, header, packet_of, continued, packed, laid, packing_if_room};
ghost use Rattle.packet_writer.specs.Answers.{packed_by, output_by, packed_of, packets_over, Lays};

use ground_refusal::Refusal;
use packet::{COUNTER_MOST, OUR_PID, PACKET_BYTES, STUFFING, SYNC_BYTE};

// The bytes of a section in its first packet, behind the pointer, and in each after it.
const FIRST_ROOM: usize = 183;

const NEXT_ROOM: usize = 184;

// ---- one packet

// The byte with the start indicator.
#[tactic(auto, unfolding(crate::specs::Packing::start_byte))]
fn start_byte(start: bool) -> u8
    ensures { result ≡ start_byte start }
{
    if start { 0x40 } else { 0 }
}

// A packet's four header bytes, at index at.
fn put_header(out: &mut [u8], at: usize, start: bool, counter: u8)
    requires { (at + 4 ≤ length out.old) × (counter ≤ counter_most) }
    ensures { out.new ≡ placed out.old at (header start counter) }
{
    let end = at + 4;
    let bytes: [u8; 4] = [SYNC_BYTE, start_byte(start), OUR_PID as u8, 0x10 + counter];
    out[at..end].copy_from_slice(&bytes);
}

// One byte, at index at.
fn put_byte(out: &mut [u8], at: usize, b: u8)
    requires { at + 1 ≤ length out.old }
    ensures { out.new ≡ placed out.old at (b ∷ []) }
{
    out[at] = b;
}

// n stuffing bytes, from index at on.
fn put_stuffing(out: &mut [u8], at: usize, n: usize)
    requires { at + n ≤ length out.old }
    ensures { out.new ≡ placed out.old at (replicate n stuffing) }
{
    let end = at + n;
    out[at..end].fill(STUFFING);
}

// A packet without a pointer.
fn put_continuing(out: &mut [u8], at: usize, counter: u8, bytes: &[u8])
    requires { (at + packet_bytes ≤ length out.old) × (counter ≤ counter_most) × (length bytes.now ≤ next_room) }
    ensures { out.new ≡ placed out.old at (packet_of false counter bytes.now) }
{
    let n = bytes.len();
    put_header(out, at, false, counter);
    ground_placing::copy_at(bytes, out, at + 4);
    put_stuffing(out, at + 4 + n, NEXT_ROOM - n);
}

// A section's first packet, with pointer 0.
fn put_first(out: &mut [u8], counter: u8, bytes: &[u8])
    requires { (packet_bytes ≤ length out.old) × (counter ≤ counter_most) × (length bytes.now ≤ first_room) }
    ensures { out.new ≡ placed out.old 0 (packet_of true counter (0 ∷ bytes.now)) }
{
    let n = bytes.len();
    put_header(out, 0, true, counter);
    put_byte(out, 4, 0);
    ground_placing::copy_at(bytes, out, 5);
    put_stuffing(out, 5 + n, FIRST_ROOM - n);
}

// ---- a section

// The packets after the first: k of them, behind it, with the section's bytes behind those of the first.
fn put_rest(out: &mut [u8], counter: u8, section: &[u8], k: usize)
    requires { Lays out.old counter section.now k }
    ensures { out.new ≡ placed out.old packet_bytes (laid (continued k counter (drop first_room section.now))) }
{
    // carried from packet to packet: (counter + i) % 16 would be no plainer
    let mut c = counter;
    for i in 0..k {
        let from = FIRST_ROOM + NEXT_ROOM * i;
        let upto = (from + NEXT_ROOM).min(section.len());
        put_continuing(
            out,
            PACKET_BYTES + PACKET_BYTES * i,
            c,
            &section[from..upto],
        );
        c = (c + 1) % 16;
    }
}

// A section's packets, one after the other.
fn put_packets(out: &mut [u8], counter: u8, section: &[u8])
    requires { (packet_bytes + packet_bytes * (length section.now / next_room) ≤ length out.old) × (counter ≤ counter_most) × (length section.now ≤ 4096) }
    ensures { out.new ≡ placed out.old 0 (laid (packed counter section.now)) }
{
    let n = section.len();
    let end = FIRST_ROOM.min(n);
    put_first(out, counter, &section[..end]);
    put_rest(out, (counter + 1) % 16, section, n / NEXT_ROOM);
}

// A good section's packets, if out has room for them: refusal 21.
#[tactic(auto, unfolding(crate::specs::Packing::packing_if_room, crate::specs::Answers::packed_by, crate::specs::Answers::output_by), using(crate::proofs::Packets::packed_long))]
fn pack_good(section: &[u8], counter: u8, out: &mut [u8]) -> Result<usize, Refusal>
    requires { (counter ≤ counter_most) × (length section.now ≤ 4096) }
    ensures value { result ≡ packed_by (packing_if_room (length out.old) (laid (packed counter section.now))) }
    ensures out_after { out.new ≡ output_by (packing_if_room (length out.old) (laid (packed counter section.now))) out.old }
{
    let size = PACKET_BYTES + PACKET_BYTES * (section.len() / NEXT_ROOM);
    if out.len() < size {
        return Err(Refusal::OutputTooSmall);
    }
    put_packets(out, counter, section);
    Ok(size)
}

// A section's packets from a start counter on, at the start of the output: refusals 1 to 7, 19, 21, in this order.
#[tactic(auto, unfolding(crate::specs::Packing::packing, crate::specs::Packing::packing_of, crate::specs::Answers::packed_by, crate::specs::Answers::output_by), using(ground_refusal::proofs::Exits::passed_on))]
pub fn pack(section: &[u8], counter: u32, out: &mut [u8]) -> Result<usize, Refusal>
    ensures value { result ≡ packed_of counter section.now out.old }
    ensures out_after { out.new ≡ packets_over counter section.now out.old }
{
    section_reader::read_section(section)?;
    if COUNTER_MOST < counter {
        return Err(Refusal::OutsideSet(0));
    }
    pack_good(section, counter as u8, out)
}
