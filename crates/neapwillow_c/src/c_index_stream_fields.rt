// The fields of a descriptor or a stream for C, asked for one by one, and how many there are.
ghost use Rattle.std.specs.Prelude.{◌≡◌};
ghost use Rattle.index_stream_fields.specs.Asked.{descriptor_tag, descriptor_part, stream_type, stream_pid, stream_descriptors, descriptor_count, stream_count};
ghost use Rattle.c_answers.specs.Answers.{number_answer, part_answer};

#[unsafe(no_mangle)]
pub extern "C" fn nw_descriptor_tag(body: &[u8], at: usize, length: usize) -> u64
    ensures { result ≡ number_answer (descriptor_tag body.now at length) }
{
    neapwillow::c_index_stream_fields::nw_descriptor_tag(body, at, length)
}

#[unsafe(no_mangle)]
pub extern "C" fn nw_descriptor_bytes(body: &[u8], at: usize, length: usize) -> u64
    ensures { result ≡ part_answer (descriptor_part body.now at length) }
{
    neapwillow::c_index_stream_fields::nw_descriptor_bytes(body, at, length)
}

#[unsafe(no_mangle)]
pub extern "C" fn nw_stream_type(body: &[u8], at: usize, length: usize) -> u64
    ensures { result ≡ number_answer (stream_type body.now at length) }
{
    neapwillow::c_index_stream_fields::nw_stream_type(body, at, length)
}

#[unsafe(no_mangle)]
pub extern "C" fn nw_stream_pid(body: &[u8], at: usize, length: usize) -> u64
    ensures { result ≡ number_answer (stream_pid body.now at length) }
{
    neapwillow::c_index_stream_fields::nw_stream_pid(body, at, length)
}

#[unsafe(no_mangle)]
pub extern "C" fn nw_stream_descriptors(body: &[u8], at: usize, length: usize) -> u64
    ensures { result ≡ part_answer (stream_descriptors body.now at length) }
{
    neapwillow::c_index_stream_fields::nw_stream_descriptors(body, at, length)
}

#[unsafe(no_mangle)]
pub extern "C" fn nw_descriptor_count(body: &[u8], at: usize, length: usize) -> u64
    ensures { result ≡ number_answer (descriptor_count body.now at length) }
{
    neapwillow::c_index_stream_fields::nw_descriptor_count(body, at, length)
}

#[unsafe(no_mangle)]
pub extern "C" fn nw_stream_count(body: &[u8], at: usize, length: usize) -> u64
    ensures { result ≡ number_answer (stream_count body.now at length) }
{
    neapwillow::c_index_stream_fields::nw_stream_count(body, at, length)
}
