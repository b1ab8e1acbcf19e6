// The fields of an index table, asked for one by one: of the body, and of a message, which is told by where it begins and its length.
#![tactic(auto)]

ghost use Rattle.std.specs.Prelude.{◌≡◌, ◌&&◌, ◌+◌, ◌*◌, ◌/◌, ◌%◌, ◌≤◌, ◌<◌, leb, length};
ghost use Rattle.body_formats.specs.Reading.{found, and_then};
ghost use Rattle.body_formats.specs.Format.{number, nibbles_among, many};
ghost use Rattle.body_formats.specs.Answers.{number_of, ended};
ghost use Rattle.body_asking.specs.Asking.{field_in};
ghost use Rattle.index.specs.Index.{descriptor, descriptors, stream};
ghost use Rattle.index.specs.Places.{class_place, channel_program_place};
ghost use Rattle.index_fields.specs.Asked.{message_count, message_part, signature_part, identifier_part, identifier_digit, extension, network, start, end, type_part, class, level, resource_count, resource_at, resource_part, resource_digit, flag, channel_at, in_channel, channel_network, channel_stream, channel_program, pcr_pid, descriptors_part, streams_part};

use body_formats::{Number, Part, RESOURCE_BYTES, RESOURCE_PAIRS};
use ground_numbers::within;
use ground_refusal::Refusal;
use index::{
    CHANNEL_DESCRIPTORS_PLACE, CHANNEL_PROGRAM_PLACE, CHANNEL_STREAM_PLACE, CLASS_PLACE, END_PLACE,
    NETWORK_PLACE, PCR_PID_PLACE, RESOURCE_COUNT_PLACE, START_PLACE, TYPE_PLACE,
};

// How many messages there are.
pub fn message_count(s: &[u8]) -> Number
    ensures { result ≡ message_count s.now }
{
    body_numbers::read_number(s, s.len(), 0, 1)
}

// The part of the body that the i-th message fills.
pub fn message(s: &[u8], i: u64) -> Part
    ensures { result ≡ message_part s.now i }
{
    body_parts::listed_part(s, s.len(), 0, 1, 2, i)
}

// The part of the body that the signature fills.
pub fn signature(s: &[u8]) -> Part
    ensures { result ≡ signature_part s.now }
{
    let l = s.len();
    let q = body_parts::skip_list(s, l, 0, 1, 2)?;
    body_parts::read_part(s, l, q, 2)
}

// The part of the body that the identifier fills.
pub fn identifier(s: &[u8], at: usize, n: usize) -> Part
    ensures { result ≡ identifier_part s.now at n }
{
    if body_asking::in_body(s, at, n) {
        return body_identifier::read_identifier(s, at + n, at);
    }
    Err(Refusal::OutsideSet(0))
}

// The i-th digit of the identifier.
pub fn identifier_digit(s: &[u8], at: usize, n: usize, i: u64) -> Number
    ensures { result ≡ identifier_digit s.now at n i }
{
    if body_asking::in_body(s, at, n) {
        return body_identifier::identifier_digit_at(s, at + n, at, i);
    }
    Err(Refusal::OutsideSet(0))
}

// The extension of the message's content table: that of the identifier.
pub fn extension(s: &[u8], at: usize, n: usize) -> Number
    ensures { result ≡ extension s.now at n }
{
    if body_asking::in_body(s, at, n) {
        return body_extension::extension_at(s, at + n, at);
    }
    Err(Refusal::OutsideSet(0))
}

pub fn network(s: &[u8], at: usize, n: usize) -> Number
    ensures { result ≡ network s.now at n }
{
    body_asking::number_in(s, at, n, NETWORK_PLACE, 2)
}

pub fn start(s: &[u8], at: usize, n: usize) -> Number
    ensures { result ≡ start s.now at n }
{
    if body_asking::in_body(s, at, n) {
        return body_numbers::read_time(s, at + n, at + START_PLACE);
    }
    Err(Refusal::OutsideSet(0))
}

pub fn end(s: &[u8], at: usize, n: usize) -> Number
    ensures { result ≡ end s.now at n }
{
    if body_asking::in_body(s, at, n) {
        return body_numbers::read_end(s, at + n, at + END_PLACE);
    }
    Err(Refusal::OutsideSet(0))
}

// The part of the body that the type fills.
pub fn type_part(s: &[u8], at: usize, n: usize) -> Part
    ensures { result ≡ type_part s.now at n }
{
    if body_asking::in_body(s, at, n) {
        return body_digits::read_bytes(s, at + n, at + TYPE_PLACE, 5, 0, 0x7F);
    }
    Err(Refusal::OutsideSet(0))
}

// "class 4 bits (1 to 4), level 4 bits (1 to 4)", in the byte b.
fn halves_good(b: u64) -> bool
    ensures { result ≡ ((leb 1 (b / 16) && leb (b / 16) 4) && (leb 1 (b % 16) && leb (b % 16) 4)) }
{
    if within(1, b / 16, 4) {
        return within(1, b % 16, 4);
    }
    false
}

// The byte that class and level share: where either is bad, neither is answered.
fn class_and_level(s: &[u8], at: usize, n: usize) -> Number
    ensures { result ≡ number_of (and_then (field_in (nibbles_among 1 4) class_place s.now at n) (λ x q. found (x.0 * 16 + x.1) q)) }
{
    let (b, q) = body_asking::number_in(s, at, n, CLASS_PLACE, 1)?;
    if halves_good(b) {
        return Ok((b, q));
    }
    Err(Refusal::OutsideSet(at + CLASS_PLACE))
}

pub fn class(s: &[u8], at: usize, n: usize) -> Number
    ensures { result ≡ class s.now at n }
{
    let (b, q) = class_and_level(s, at, n)?;
    Ok((b / 16, q))
}

pub fn level(s: &[u8], at: usize, n: usize) -> Number
    ensures { result ≡ level s.now at n }
{
    let (b, q) = class_and_level(s, at, n)?;
    Ok((b % 16, q))
}

// How many resources the message has.
pub fn resource_count(s: &[u8], at: usize, n: usize) -> Number
    ensures { result ≡ resource_count s.now at n }
{
    body_asking::number_in(s, at, n, RESOURCE_COUNT_PLACE, 1)
}

// How many resources there are, and where the i-th begins. 19 where there is none.
fn resource_at(s: &[u8], at: usize, n: usize, i: u64) -> Number
    ensures { result ≡ number_of (resource_at s.now at n i) }
{
    let (m, q) = resource_count(s, at, n)?;
    if i < m {
        return Ok((m, q + RESOURCE_BYTES * (i as usize)));
    }
    Err(Refusal::OutsideSet(0))
}

// The part of the body that the i-th resource fills.
pub fn resource(s: &[u8], at: usize, n: usize, i: u64) -> Part
    ensures { result ≡ resource_part s.now at n i }
{
    let (m, p) = resource_at(s, at, n, i)?;
    body_digits::read_digits(s, at + n, p, RESOURCE_PAIRS)
}

// The j-th digit of the i-th resource.
pub fn resource_digit(s: &[u8], at: usize, n: usize, i: u64, j: u64) -> Number
    ensures { result ≡ resource_digit s.now at n i j }
{
    let (m, p) = resource_at(s, at, n, i)?;
    body_digits::digit_at(s, at + n, p, RESOURCE_PAIRS, j)
}

// The channel flag, which follows the resources.
pub fn flag(s: &[u8], at: usize, n: usize) -> Number
    ensures { result ≡ flag s.now at n }
{
    let (m, q) = resource_count(s, at, n)?;
    body_numbers::read_reserved(s, at + n, q + RESOURCE_BYTES * (m as usize), 7, 0)
}

// The flag, and where the channel begins; 19 where the flag is 0.
#[tactic(auto, using(crate::proofs::Answers::channel_is, crate::proofs::Answers::channel_none, crate::proofs::Answers::channel_no))]
fn channel_at(s: &[u8], at: usize, n: usize) -> Number
    ensures { result ≡ number_of (channel_at s.now at n) }
{
    let (f, q) = flag(s, at, n)?;
    if 0 < f {
        return Ok((f, q));
    }
    Err(Refusal::OutsideSet(0))
}

// The number of two bytes that stands k bytes into the channel.
fn channel_number(s: &[u8], at: usize, n: usize, k: usize) -> Number
    requires { k ≤ channel_program_place }
    ensures { result ≡ number_of (in_channel (number 2) k s.now at n) }
{
    let (f, q) = channel_at(s, at, n)?;
    body_numbers::read_number(s, at + n, q + k, 2)
}

pub fn channel_network(s: &[u8], at: usize, n: usize) -> Number
    ensures { result ≡ channel_network s.now at n }
{
    channel_number(s, at, n, 0)
}

pub fn channel_stream(s: &[u8], at: usize, n: usize) -> Number
    ensures { result ≡ channel_stream s.now at n }
{
    channel_number(s, at, n, CHANNEL_STREAM_PLACE)
}

pub fn channel_program(s: &[u8], at: usize, n: usize) -> Number
    ensures { result ≡ channel_program s.now at n }
{
    channel_number(s, at, n, CHANNEL_PROGRAM_PLACE)
}

pub fn pcr_pid(s: &[u8], at: usize, n: usize) -> Number
    ensures { result ≡ pcr_pid s.now at n }
{
    let (f, q) = channel_at(s, at, n)?;
    body_numbers::read_reserved(s, at + n, q + PCR_PID_PLACE, 3, 1)
}

// The part of the body that the channel's descriptors fill.
pub fn descriptors(s: &[u8], at: usize, n: usize) -> Part
    ensures { result ≡ descriptors_part s.now at n }
{
    let (f, q) = channel_at(s, at, n)?;
    body_parts::read_part12(s, at + n, q + CHANNEL_DESCRIPTORS_PLACE)
}

// The part of the body that the streams fill: it follows the descriptors.
pub fn streams(s: &[u8], at: usize, n: usize) -> Part
    ensures { result ≡ streams_part s.now at n }
{
    let (a, m) = descriptors(s, at, n)?;
    body_parts::read_part(s, at + n, a + m, 2)
}
