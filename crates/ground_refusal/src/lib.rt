// The refusals of documents 01 and 02: a named case for each of their numbers, the number and place that each is told by, and each without its place.
#![tactic(auto)]

ghost use Rattle.std.specs.Prelude.{◌≡◌};
ghost use Rattle.ground_refusal.specs.Numbers.{refusal_number, refusal_place, placeless};

// One case for each number of the list. A case holds a place where the list gives one.
#[derive(Clone, Copy)]
pub enum Refusal {
    // 1: a section shorter than 12 bytes.
    SectionTooShort,
    // 2: table_id not FB to FE, or not the kind this reader takes.
    OtherKind,
    // 3: one of the six fixed bits of the heading is 0.
    FixedBitZero,
    // 4: section_length below 9 or above 4,093.
    SectionLengthOutside,
    // 5: the byte string is not section_length + 3 long.
    OtherLength,
    // 6: section_number above last; or the cutter is asked for a section past the last.
    NumberAboveLast,
    // 7: the CRC_32 register is not zero.
    CheckNotZero,
    // 8: current is 0.
    NotCurrent,
    // 9: the heading differs from the gathering's.
    OtherHeading,
    // 10: the store is shorter than (last + 1) × 4,084 bytes.
    StoreTooShort,
    // 11: same heading and number, other payload; or the gathering is spoiled already.
    Contradiction,
    // 12: not a possible gathering state.
    ImpossibleState,
    // 13: a section is missing: the smallest missing number.
    Missing(usize),
    // 14: the body ends inside a field, or a counted part passes the body's end; the cutter's body is empty.
    PastBody(usize),
    // 15: a field or inner part passes the end of its counted part, or bytes are left in it; a command's content or address of wrong length.
    PastPart(usize),
    // 16: bytes left after the signature.
    LeftOver(usize),
    // 17: a reserved bit is 0, or the two top bits of a 12-bit descriptor length are not 00.
    ReservedBitZero(usize),
    // 18: a decimal digit above 9.
    DigitAboveNine(usize),
    // 19: a value outside its stated set.
    OutsideSet(usize),
    // 20: an impossible day or time, or a day outside 15079 to 65535.
    ImpossibleDay(usize),
    // 21: the output buffer or the record list is too small.
    OutputTooSmall,
    // 22: a length or count too large for its field; a body above 1,045,504 bytes; a program's input above 64 KiB.
    TooLarge,
    // 23: the content extension is not the CRC-16 of the identifier.
    OtherChecksum,
    // 24: date text not of the exact form.
    NotOfTheForm,
    // 25 was a joined body above 1,045,504 bytes. No possible state has one, so it is gone, and its number is not given again.
    // 30: a packet that is not 188 bytes.
    NotAPacket,
    // 31: no sync byte.
    NoSyncByte,
    // 32: other PID.
    OtherPid,
    // 33: scrambled.
    Scrambled,
    // 34: pointer or adaptation field past the packet's end, or adaptation control 00.
    PastPacket,
    // 35: every room is held.
    NoFreeRoom,
    // 36: a capture above 65,536 bytes.
    CaptureTooLong,
    // 37: the teaching buffer is full.
    TeachingBufferFull,
}

// The number of a refusal in the list.
pub fn number(r: Refusal) -> u8
    ensures { result ≡ refusal_number r }
{
    match r {
        Refusal::SectionTooShort => 1,
        Refusal::OtherKind => 2,
        Refusal::FixedBitZero => 3,
        Refusal::SectionLengthOutside => 4,
        Refusal::OtherLength => 5,
        Refusal::NumberAboveLast => 6,
        Refusal::CheckNotZero => 7,
        Refusal::NotCurrent => 8,
        Refusal::OtherHeading => 9,
        Refusal::StoreTooShort => 10,
        Refusal::Contradiction => 11,
        Refusal::ImpossibleState => 12,
        Refusal::Missing(_) => 13,
        Refusal::PastBody(_) => 14,
        Refusal::PastPart(_) => 15,
        Refusal::LeftOver(_) => 16,
        Refusal::ReservedBitZero(_) => 17,
        Refusal::DigitAboveNine(_) => 18,
        Refusal::OutsideSet(_) => 19,
        Refusal::ImpossibleDay(_) => 20,
        Refusal::OutputTooSmall => 21,
        Refusal::TooLarge => 22,
        Refusal::OtherChecksum => 23,
        Refusal::NotOfTheForm => 24,
        Refusal::NotAPacket => 30,
        Refusal::NoSyncByte => 31,
        Refusal::OtherPid => 32,
        Refusal::Scrambled => 33,
        Refusal::PastPacket => 34,
        Refusal::NoFreeRoom => 35,
        Refusal::CaptureTooLong => 36,
        Refusal::TeachingBufferFull => 37,
    }
}

// The place of a refusal: 0 where the list gives none.
pub fn place(r: Refusal) -> usize
    ensures { result ≡ refusal_place r }
{
    match r {
        Refusal::Missing(at)
        | Refusal::PastBody(at)
        | Refusal::PastPart(at)
        | Refusal::LeftOver(at)
        | Refusal::ReservedBitZero(at)
        | Refusal::DigitAboveNine(at)
        | Refusal::OutsideSet(at)
        | Refusal::ImpossibleDay(at) => at,
        _ => 0,
    }
}

// A refusal with place 0, as writers answer it.
pub fn placeless(r: Refusal) -> Refusal
    ensures { result ≡ placeless r }
{
    match r {
        Refusal::Missing(_) => Refusal::Missing(0),
        Refusal::PastBody(_) => Refusal::PastBody(0),
        Refusal::PastPart(_) => Refusal::PastPart(0),
        Refusal::LeftOver(_) => Refusal::LeftOver(0),
        Refusal::ReservedBitZero(_) => Refusal::ReservedBitZero(0),
        Refusal::DigitAboveNine(_) => Refusal::DigitAboveNine(0),
        Refusal::OutsideSet(_) => Refusal::OutsideSet(0),
        Refusal::ImpossibleDay(_) => Refusal::ImpossibleDay(0),
        _ => r,
    }
}
