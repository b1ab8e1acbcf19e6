// The cutter: how many sections a body makes, and each of them written.
#![tactic(auto)]

ghost use Rattle.std.specs.Prelude.{◌≡◌, ◌+◌, ◌≤◌, length};
ghost use Rattle.crc.specs.Crc.{big_endian};
ghost use Rattle.ground_placing.specs.Placed.{placed};
ghost use Rattle.ground_numbers.specs.Sizes.{payload_most, version_most};
ghost use Rattle.section_reader.specs.Section.{heading_bytes, printed};
ghost use Rattle.section_cutter.specs.Cutting.{part_start, part_carried, counted_of, cut_if_room, cut_by, output_by, cut_answer, cut_output};

use ground_numbers::{BODY_MOST, PAYLOAD_MOST, VERSION_MOST};
use ground_refusal::Refusal;
use section_reader::Heading;

// ---- writing

// The eight bytes of a heading before n bytes of payload.
fn put_heading(h: Heading, n: usize, out: &mut [u8])
    requires { (h.version ≤ version_most) × (n ≤ payload_most) × (8 ≤ length out.old) }
    ensures { out.new ≡ placed out.old 0 (heading_bytes h n) }
{
    let length = ((0xF000 + (n + 9)) as u16).to_be_bytes();
    let extension = h.extension.to_be_bytes();
    let bytes: [u8; 8] = [
        h.kind,
        length[0],
        length[1],
        extension[0],
        extension[1],
        0xC0 + ((h.version * 2) as u8 + u8::from(h.current)),
        h.number,
        h.last,
    ];
    out[..8].copy_from_slice(&bytes);
}

// The four bytes of a check, from index at on.
fn put_check(check: u32, out: &mut [u8], at: usize)
    requires { at + 4 ≤ length out.old }
    ensures { out.new ≡ placed out.old at (big_endian 4 check) }
{
    let end = at + 4;
    out[at..end].copy_from_slice(&check.to_be_bytes());
}

// The good section of a heading and a payload, at the start of out.
fn put_section(h: Heading, payload: &[u8], out: &mut [u8])
    requires { (h.version ≤ version_most) × (length payload.now ≤ payload_most) × (length payload.now + 12 ≤ length out.old) }
    ensures { out.new ≡ placed out.old 0 (printed h payload.now) }
{
    let n = payload.len();
    let end = 8 + n;
    put_heading(h, n, out);
    ground_copying::copy_long(payload, out, 8);
    let check = crc::crc32(&out[..end]);
    put_check(check, out, end);
}

// ---- cutting

// How many sections a body of so many bytes makes: refusals 14, 22.
#[tactic(auto, unfolding(crate::specs::Cutting::counted_of, crate::specs::Cutting::section_count))]
pub fn section_count(length: usize) -> Result<usize, Refusal>
    ensures { result ≡ counted_of length }
{
    if length == 0 {
        return Err(Refusal::PastBody(0));
    }
    if BODY_MOST < length {
        return Err(Refusal::TooLarge);
    }
    Ok((length + (PAYLOAD_MOST - 1)) / PAYLOAD_MOST)
}

// The section with the heading h of a body, if out has room for it: refusal 21.
#[tactic(auto, unfolding(crate::specs::Cutting::cut_if_room, crate::specs::Cutting::cut_by, crate::specs::Cutting::output_by, crate::specs::Cutting::part_start), using(crate::proofs::Counting::part_is, crate::proofs::Counting::part_count, section_reader::proofs::Printing::printed_length))]
fn cut_part(h: Heading, body: &[u8], out: &mut [u8]) -> Result<usize, Refusal>
    requires { (h.version ≤ version_most) × (part_start h.number ≤ length body.now) }
    ensures value { result ≡ cut_by (cut_if_room (length out.old) (printed h (part_carried body.now h.number))) }
    ensures out_after { out.new ≡ output_by (cut_if_room (length out.old) (printed h (part_carried body.now h.number))) out.old }
{
    let at = h.number as usize * PAYLOAD_MOST;
    let n = PAYLOAD_MOST.min(body.len() - at);
    if out.len() < n + 12 {
        return Err(Refusal::OutputTooSmall);
    }
    let end = at + n;
    put_section(h, &body[at..end], out);
    Ok(n + 12)
}

// Section `number` of a body, at the start of out: refusals 2, 19, 14, 22, 6, 21, in this order.
#[tactic(auto, unfolding(crate::specs::Cutting::cutting, crate::specs::Cutting::counted_of, crate::specs::Cutting::cut_by, crate::specs::Cutting::output_by, crate::specs::Cutting::section_of, crate::specs::Cutting::cut_heading), using(crate::proofs::Counting::begins_within, crate::proofs::Counting::count_most, section_reader::proofs::Reading::kind_within, ground_refusal::proofs::Exits::passed_on))]
pub fn cut_section(
    body: &[u8],
    kind: u32,
    extension: u32,
    version: u32,
    number: u32,
    out: &mut [u8],
) -> Result<usize, Refusal>
    ensures value { result ≡ cut_answer body.now kind extension version number out.old }
    ensures out_after { out.new ≡ cut_output body.now kind extension version number out.old }
{
    if !section_reader::is_kind(kind) {
        return Err(Refusal::OtherKind);
    }
    if VERSION_MOST < version || 0xFFFF < extension {
        return Err(Refusal::OutsideSet(0));
    }
    let count = section_count(body.len())?;
    if count <= number as usize {
        return Err(Refusal::NumberAboveLast);
    }
    let h = Heading {
        kind: kind as u8,
        extension: extension as u16,
        version: version as u16,
        current: true,
        number: number as u8,
        last: (count - 1) as u8,
    };
    cut_part(h, body, out)
}
