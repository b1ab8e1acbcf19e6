// Packets for C: a section packed, and one packet unpacked over the state that C lends.
ghost use Rattle.std.specs.Prelude.{◌≡◌};
ghost use Rattle.packet_writer.specs.Answers.{packed_of, packets_over};
ghost use Rattle.packet_reader.specs.Answers.{completed_of, state_after, sections_over};
ghost use Rattle.c_answers.specs.Answers.{value_answer};

#[unsafe(no_mangle)]
pub extern "C" fn nw_packet_pack(section: &[u8], counter: u32, out: &mut [u8]) -> u64
    ensures value { result ≡ value_answer (packed_of counter section.now out.old) }
    ensures out_after { out.new ≡ packets_over counter section.now out.old }
{
    neapwillow::c_packet::nw_packet_pack(section, counter, out)
}

// The state that was lent becomes the state after the packet.
#[unsafe(no_mangle)]
pub extern "C" fn nw_packet_unpack(
    state: &mut [u8; packet_memory::STATE_BYTES],
    packet: &[u8],
    out: &mut [u8],
) -> u64
    ensures { (result ≡ value_answer (completed_of state.old packet.now out.old)) × (state.new ≡ state_after state.old packet.now out.old) × (out.new ≡ sections_over state.old packet.now out.old) }
{
    neapwillow::c_packet::nw_packet_unpack(state, packet, out)
}
