// What is offered to C: each function takes numbers and byte strings, and tells what its inner one answers by one convention. A module carries the name of its crate, or of its group, after `c_`.
// Each function is the one of its name in `neapwillow`, with its clauses.
#![tactic(auto)]

mod c_certificate;
mod c_configuration;
mod c_configuration_fields;
mod c_content;
mod c_content_fields;
mod c_crc;
mod c_gathering;
mod c_index;
mod c_index_fields;
mod c_index_records;
mod c_index_stream_fields;
mod c_packet;
mod c_salvage;
mod c_section;
mod c_time;
mod c_time_days;
mod c_time_printing;
mod c_version;
