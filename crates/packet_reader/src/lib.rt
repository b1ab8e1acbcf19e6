// The unpacker over a state of bytes that the caller lends: one packet at a time, decided first and written second.
#![tactic(auto)]

ghost use Rattle.std.specs.Prelude.{◌≡◌, ◌+◌, ◌-◌, ◌≤◌, length, take, drop, Ok};
ghost use Rattle.ground_placing.specs.Placed.{placed};
ghost use Rattle.packet.specs.Judging.{judged};
ghost use Rattle.packet.specs.declared.Judged.TheVariants.{Carrying};
ghost use Rattle.packet_plan.specs.Reading.{read_on};
ghost use Rattle.packet_plan.specs.Plans.{given, Planned};
ghost use Rattle.packet_memory.specs.State.{unfinished_at, state_bytes, memory_of};
ghost use Rattle.packet_reader.specs.Unpacking.{fitting, carrying};
ghost use Rattle.packet_reader.specs.Answers.{verdict_for, state_read, state_taken, state_after, Unpacks, Kept};

use ground_refusal::Refusal;
use packet::Judged;
use packet_memory::{STATE_BYTES, UNFINISHED_AT};
use packet_plan::Plan;

// What a packet gives, at the start of the output.
#[tactic(auto, unfolding(packet_plan::specs::Plans::piece, packet_plan::specs::Plans::given))]
fn put_sections(u: &[u8], p: &[u8], n: Plan, out: &mut [u8])
    requires { Planned u.now p.now n × (n.ended + (n.upto - n.from) + (n.stop - n.first) ≤ length out.old) }
    ensures { out.new ≡ placed out.old 0 (given n u.now p.now) }
{
    let Plan {
        ended,
        from,
        upto,
        first,
        stop,
        ..
    } = n;
    ground_placing::copy_at(&u[..ended], out, 0);
    ground_placing::copy_at(&p[from..upto], out, ended);
    ground_placing::copy_at(&p[first..stop], out, ended + (upto - from));
}

// A packet that is no repeat, after the first `kept` bytes that the state has of an unfinished section: refusal 21.
fn read_on(s: &mut [u8], kept: usize, p: &[u8], out: &mut [u8]) -> Result<usize, Refusal>
    requires { Kept s.old kept p.now }
    ensures { Unpacks (fitting (length out.old) p.now (read_on (take kept (drop unfinished_at s.old)) p.now)) (state_read s.old (length out.old) p.now (read_on (take kept (drop unfinished_at s.old)) p.now)) out.old result s.new out.new }
{
    let end = UNFINISHED_AT + kept;
    let plan = packet_plan::plan_of(&s[UNFINISHED_AT..end], p);
    let given = plan.ended + (plan.upto - plan.from) + (plan.stop - plan.first);
    if out.len() < given {
        return Err(Refusal::OutputTooSmall);
    }
    put_sections(&s[UNFINISHED_AT..end], p, plan, out);
    packet_memory::keep(s, p, plan.goes, plan.left);
    Ok(given)
}

// A packet with a payload, whose counter counts.
fn carry(s: &mut [u8], p: &[u8], out: &mut [u8]) -> Result<usize, Refusal>
    requires { (length s.old ≡ state_bytes) × (judged p.now ≡ Ok Carrying) }
    ensures { Unpacks (carrying (length out.old) (memory_of s.old) p.now) (state_taken s.old (length out.old) p.now) out.old result s.new out.new }
{
    let known = packet_memory::possible(s);
    if packet_memory::repeats(s, known, p) {
        packet_memory::mark_repeat(s);
        return Ok(0);
    }
    let kept = packet_memory::going_on(s, known, p);
    read_on(s, kept, p, out)
}

// One packet: the sections that it completes stand at the start of the output, one after the other. Refusals 30 to 34 and 21, in this
// order; a refused packet changes nothing. Any bytes are a state, and all zeros is the fresh one.
pub fn unpack(
    state: &mut [u8; STATE_BYTES],
    packet: &[u8],
    out: &mut [u8],
) -> Result<usize, Refusal>
    ensures { Unpacks (verdict_for state.old packet.now out.old) (state_after state.old packet.now out.old) out.old result state.new out.new }
{
    match packet::judge(packet)? {
        Judged::Damaged => {
            packet_memory::forget(state);
            Ok(0)
        }
        Judged::Skipped => Ok(0),
        Judged::Carrying => carry(state, packet, out),
    }
}
