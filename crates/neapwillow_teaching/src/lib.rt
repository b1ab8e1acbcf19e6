// What is offered to C for the training room: the slow gathering over the buffer that C lends, and its answers told as all others are.
#![tactic(auto)]

ghost use Rattle.std.specs.Prelude.{◌≡◌};
ghost use Rattle.teaching_feed.specs.Feeding.{taught_of, buffer_after};
ghost use Rattle.teaching_hand_out.specs.Asking.{heading_of, lacking_of, handed_of, out_after};
ghost use Rattle.c_answers.specs.Answers.{feed_answer, value_answer};
ghost use Rattle.c_teaching_answers.specs.Answers.{headed_answer, lacking_answer};

// One byte string is fed: it is kept after the bytes in use, and the number of these that was lent becomes the number after it.
pub fn nw_teaching_feed(buffer: &mut [u8], used: &mut usize, store: usize, s: &[u8]) -> u64
    ensures { (result ≡ feed_answer (taught_of buffer.old used.old store s.now).answer) ×
        (buffer.new ≡ buffer_after buffer.old used.old s.now) ×
        (used.new ≡ (taught_of buffer.old used.old store s.now).used) }
{
    let before = *used;
    let taught = teaching_feed::feed(buffer, before, store, s);
    let answer = taught.answer;
    let after = taught.used;
    *used = after;
    c_answers::feed_answer(answer)
}

// The body of what is kept is handed out, or the first rule that forbids it is told. What is kept is only looked at.
pub fn nw_teaching_hand_out(buffer: &[u8], used: usize, store: usize, out: &mut [u8]) -> u64
    ensures { (result ≡ value_answer (handed_of buffer.now used store out.old)) ×
        (out.new ≡ out_after buffer.now used store out.old) }
{
    c_answers::length_answer(teaching_hand_out::hand_out(buffer, used, store, out))
}

// The heading of the section that began the fixed table.
pub fn nw_teaching_heading(buffer: &[u8], used: usize, store: usize) -> u64
    ensures { result ≡ headed_answer (heading_of buffer.now used store) }
{
    c_teaching_answers::headed_answer(teaching_hand_out::heading(buffer, used, store))
}

// How many sections of the fixed table are missing.
pub fn nw_teaching_missing(buffer: &[u8], used: usize, store: usize) -> u64
    ensures { result ≡ lacking_answer (lacking_of buffer.now used store) }
{
    c_teaching_answers::lacking_answer(teaching_hand_out::missing(buffer, used, store))
}
