// What is offered to C for the training room: the slow gathering over the buffer that C lends, and its answers told as all others are.
// Each function is the one of its name in `neapwillow_teaching`, with its clauses.
#![tactic(auto)]

ghost use Rattle.std.specs.Prelude.{◌≡◌};
ghost use Rattle.teaching_feed.specs.Feeding.{taught_of, buffer_after};
ghost use Rattle.teaching_hand_out.specs.Asking.{heading_of, lacking_of, handed_of, out_after};
ghost use Rattle.c_answers.specs.Answers.{feed_answer, value_answer};
ghost use Rattle.c_teaching_answers.specs.Answers.{headed_answer, lacking_answer};

// One byte string is fed: it is kept after the bytes in use, and the number of these that was lent becomes the number after it.
#[unsafe(no_mangle)]
pub extern "C" fn nw_teaching_feed(
    buffer: &mut [u8],
    used: &mut usize,
    store: usize,
    s: &[u8],
) -> u64
    ensures { (result ≡ feed_answer (taught_of buffer.old used.old store s.now).answer) ×
        (buffer.new ≡ buffer_after buffer.old used.old s.now) ×
        (used.new ≡ (taught_of buffer.old used.old store s.now).used) }
{
    neapwillow_teaching::nw_teaching_feed(buffer, used, store, s)
}

// The body of what is kept is handed out, or the first rule that forbids it is told. What is kept is only looked at.
#[unsafe(no_mangle)]
pub extern "C" fn nw_teaching_hand_out(
    buffer: &[u8],
    used: usize,
    store: usize,
    out: &mut [u8],
) -> u64
    ensures { (result ≡ value_answer (handed_of buffer.now used store out.old)) ×
        (out.new ≡ out_after buffer.now used store out.old) }
{
    neapwillow_teaching::nw_teaching_hand_out(buffer, used, store, out)
}

// The heading of the section that began the fixed table.
#[unsafe(no_mangle)]
pub extern "C" fn nw_teaching_heading(buffer: &[u8], used: usize, store: usize) -> u64
    ensures { result ≡ headed_answer (heading_of buffer.now used store) }
{
    neapwillow_teaching::nw_teaching_heading(buffer, used, store)
}

// How many sections of the fixed table are missing.
#[unsafe(no_mangle)]
pub extern "C" fn nw_teaching_missing(buffer: &[u8], used: usize, store: usize) -> u64
    ensures { result ≡ lacking_answer (lacking_of buffer.now used store) }
{
    neapwillow_teaching::nw_teaching_missing(buffer, used, store)
}
