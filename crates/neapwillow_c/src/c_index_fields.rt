// The fields of an index table for C, asked for one by one.
ghost use Rattle.std.specs.Prelude.{◌≡◌};
ghost use Rattle.index_fields.specs.Asked.{message_count, message_part, signature_part, identifier_part, identifier_digit, extension, network, start, end, type_part, class, level, resource_count, resource_part, resource_digit, flag, channel_network, channel_stream, channel_program, pcr_pid, descriptors_part, streams_part};
ghost use Rattle.c_answers.specs.Answers.{number_answer, part_answer, local_field_answer};

#[unsafe(no_mangle)]
pub extern "C" fn nw_index_message_count(body: &[u8]) -> u64
    ensures { result ≡ number_answer (message_count body.now) }
{
    neapwillow::c_index_fields::nw_index_message_count(body)
}

#[unsafe(no_mangle)]
pub extern "C" fn nw_index_message(body: &[u8], i: u64) -> u64
    ensures { result ≡ part_answer (message_part body.now i) }
{
    neapwillow::c_index_fields::nw_index_message(body, i)
}

#[unsafe(no_mangle)]
pub extern "C" fn nw_index_signature(body: &[u8]) -> u64
    ensures { result ≡ part_answer (signature_part body.now) }
{
    neapwillow::c_index_fields::nw_index_signature(body)
}

#[unsafe(no_mangle)]
pub extern "C" fn nw_message_identifier(body: &[u8], at: usize, length: usize) -> u64
    ensures { result ≡ part_answer (identifier_part body.now at length) }
{
    neapwillow::c_index_fields::nw_message_identifier(body, at, length)
}

#[unsafe(no_mangle)]
pub extern "C" fn nw_message_identifier_digit(body: &[u8], at: usize, length: usize, i: u64) -> u64
    ensures { result ≡ number_answer (identifier_digit body.now at length i) }
{
    neapwillow::c_index_fields::nw_message_identifier_digit(body, at, length, i)
}

#[unsafe(no_mangle)]
pub extern "C" fn nw_message_extension(body: &[u8], at: usize, length: usize) -> u64
    ensures { result ≡ number_answer (extension body.now at length) }
{
    neapwillow::c_index_fields::nw_message_extension(body, at, length)
}

#[unsafe(no_mangle)]
pub extern "C" fn nw_message_network(body: &[u8], at: usize, length: usize) -> u64
    ensures { result ≡ number_answer (network body.now at length) }
{
    neapwillow::c_index_fields::nw_message_network(body, at, length)
}

#[unsafe(no_mangle)]
pub extern "C" fn nw_message_start(body: &[u8], at: usize, length: usize) -> u64
    ensures { result ≡ number_answer (start body.now at length) }
{
    neapwillow::c_index_fields::nw_message_start(body, at, length)
}

#[unsafe(no_mangle)]
pub extern "C" fn nw_message_end(body: &[u8], at: usize, length: usize) -> u64
    ensures { result ≡ number_answer (end body.now at length) }
{
    neapwillow::c_index_fields::nw_message_end(body, at, length)
}

#[unsafe(no_mangle)]
pub extern "C" fn nw_message_type(body: &[u8], at: usize, length: usize) -> u64
    ensures { result ≡ part_answer (type_part body.now at length) }
{
    neapwillow::c_index_fields::nw_message_type(body, at, length)
}

#[unsafe(no_mangle)]
pub extern "C" fn nw_message_class(body: &[u8], at: usize, length: usize) -> u64
    ensures { result ≡ number_answer (class body.now at length) }
{
    neapwillow::c_index_fields::nw_message_class(body, at, length)
}

#[unsafe(no_mangle)]
pub extern "C" fn nw_message_level(body: &[u8], at: usize, length: usize) -> u64
    ensures { result ≡ number_answer (level body.now at length) }
{
    neapwillow::c_index_fields::nw_message_level(body, at, length)
}

#[unsafe(no_mangle)]
pub extern "C" fn nw_message_resource_count(body: &[u8], at: usize, length: usize) -> u64
    ensures { result ≡ number_answer (resource_count body.now at length) }
{
    neapwillow::c_index_fields::nw_message_resource_count(body, at, length)
}

#[unsafe(no_mangle)]
pub extern "C" fn nw_message_resource(body: &[u8], at: usize, length: usize, i: u64) -> u64
    ensures { result ≡ part_answer (resource_part body.now at length i) }
{
    neapwillow::c_index_fields::nw_message_resource(body, at, length, i)
}

#[unsafe(no_mangle)]
pub extern "C" fn nw_message_resource_digit(
    body: &[u8],
    at: usize,
    length: usize,
    i: u64,
    j: u64,
) -> u64
    ensures { result ≡ number_answer (resource_digit body.now at length i j) }
{
    neapwillow::c_index_fields::nw_message_resource_digit(body, at, length, i, j)
}

#[unsafe(no_mangle)]
pub extern "C" fn nw_message_channel_flag(body: &[u8], at: usize, length: usize) -> u64
    ensures { result ≡ number_answer (flag body.now at length) }
{
    neapwillow::c_index_fields::nw_message_channel_flag(body, at, length)
}

#[unsafe(no_mangle)]
pub extern "C" fn nw_message_channel_network(body: &[u8], at: usize, length: usize) -> u64
    ensures { result ≡ number_answer (channel_network body.now at length) }
{
    neapwillow::c_index_fields::nw_message_channel_network(body, at, length)
}

#[unsafe(no_mangle)]
pub extern "C" fn nw_message_channel_stream(body: &[u8], at: usize, length: usize) -> u64
    ensures { result ≡ number_answer (channel_stream body.now at length) }
{
    neapwillow::c_index_fields::nw_message_channel_stream(body, at, length)
}

#[unsafe(no_mangle)]
pub extern "C" fn nw_message_channel_program(body: &[u8], at: usize, length: usize) -> u64
    ensures { result ≡ number_answer (channel_program body.now at length) }
{
    neapwillow::c_index_fields::nw_message_channel_program(body, at, length)
}

#[unsafe(no_mangle)]
pub extern "C" fn nw_message_pcr_pid(body: &[u8], at: usize, length: usize) -> u64
    ensures { result ≡ number_answer (pcr_pid body.now at length) }
{
    neapwillow::c_index_fields::nw_message_pcr_pid(body, at, length)
}

#[unsafe(no_mangle)]
pub extern "C" fn nw_message_descriptors(body: &[u8], at: usize, length: usize) -> u64
    ensures { result ≡ part_answer (descriptors_part body.now at length) }
{
    neapwillow::c_index_fields::nw_message_descriptors(body, at, length)
}

#[unsafe(no_mangle)]
pub extern "C" fn nw_message_streams(body: &[u8], at: usize, length: usize) -> u64
    ensures { result ≡ part_answer (streams_part body.now at length) }
{
    neapwillow::c_index_fields::nw_message_streams(body, at, length)
}

#[unsafe(no_mangle)]
pub extern "C" fn nw_message_local_start(body: &[u8], at: usize, length: usize, offset: i32) -> u64
    ensures { result ≡ local_field_answer offset (start body.now at length) }
{
    neapwillow::c_index_fields::nw_message_local_start(body, at, length, offset)
}

#[unsafe(no_mangle)]
pub extern "C" fn nw_message_local_end(body: &[u8], at: usize, length: usize, offset: i32) -> u64
    ensures { result ≡ local_field_answer offset (end body.now at length) }
{
    neapwillow::c_index_fields::nw_message_local_end(body, at, length, offset)
}
