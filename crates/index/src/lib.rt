// What an index table is, with no functions. `index_reader` reads it, `index_writer` writes it, `index_fields` and `index_records` tell its fields.
#![tactic(auto)]

use body_formats::IDENTIFIER_BYTES;

// ---- where fields begin in a message, in its channel and in a stream, counted from the first byte of each, as specs/Places.antt has it

pub const NETWORK_PLACE: usize = IDENTIFIER_BYTES;

pub const START_PLACE: usize = NETWORK_PLACE + 2;

pub const END_PLACE: usize = START_PLACE + 5;

pub const TYPE_PLACE: usize = END_PLACE + 5;

// Class and level share a byte.
pub const CLASS_PLACE: usize = TYPE_PLACE + 5;

pub const RESOURCE_COUNT_PLACE: usize = CLASS_PLACE + 1;

pub const CHANNEL_STREAM_PLACE: usize = 2;

pub const CHANNEL_PROGRAM_PLACE: usize = CHANNEL_STREAM_PLACE + 2;

pub const PCR_PID_PLACE: usize = CHANNEL_PROGRAM_PLACE + 2;

pub const CHANNEL_DESCRIPTORS_PLACE: usize = PCR_PID_PLACE + 2;

pub const STREAM_PID_PLACE: usize = 1;

pub const STREAM_DESCRIPTORS_PLACE: usize = STREAM_PID_PLACE + 2;
