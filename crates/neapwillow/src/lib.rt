// What is offered to C: each function takes numbers and byte strings, and tells what its inner one answers by one convention. A module carries the name of its crate, or of its group, after `c_`.
// Many differ only in what they call: each is a function all the same, as C needs its name, and a macro can write no item.
#![tactic(auto)]

pub mod c_certificate;
pub mod c_configuration;
pub mod c_configuration_fields;
pub mod c_content;
pub mod c_content_fields;
pub mod c_crc;
pub mod c_gathering;
pub mod c_index;
pub mod c_index_fields;
pub mod c_index_records;
pub mod c_index_stream_fields;
pub mod c_packet;
pub mod c_salvage;
pub mod c_section;
pub mod c_time;
pub mod c_time_days;
pub mod c_time_printing;
pub mod c_version;
