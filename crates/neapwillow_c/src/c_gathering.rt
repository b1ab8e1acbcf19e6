// The gathering as C has it: a pointer to the state, byte strings as pointer and length, and one number for the answer.
ghost use Rattle.std.specs.Prelude.{◌≡◌};
ghost use Rattle.gathering_feed.specs.Feeding.{fed_of, store_after};
ghost use Rattle.gathering_hand_out.specs.Handing.{handed_of, out_after};
ghost use Rattle.gathering_pack.specs.Packing.{packing_of, store_packed};
ghost use Rattle.c_answers.specs.Answers.{feed_answer, value_answer};

use gathering_state::Gathering;

// One byte string is fed: the state that was lent becomes the state after it.
#[unsafe(no_mangle)]
pub extern "C" fn nw_gathering_feed(g: &mut Gathering, store: &mut [u8], s: &[u8]) -> u64
    ensures { (result ≡ feed_answer (fed_of g.old store.old s.now).answer) × (g.new ≡ (fed_of g.old store.old s.now).state) × (store.new ≡ store_after g.old store.old s.now) }
{
    neapwillow::c_gathering::nw_gathering_feed(g, store, s)
}

// The body is handed out, or the first rule that forbids it is told. The state is only looked at.
#[unsafe(no_mangle)]
pub extern "C" fn nw_gathering_hand_out(g: &Gathering, store: &[u8], out: &mut [u8]) -> u64
    ensures { (result ≡ value_answer (handed_of g.now store.now out.old)) × (out.new ≡ out_after g.now store.now out.old) }
{
    neapwillow::c_gathering::nw_gathering_hand_out(g, store, out)
}

// The body is packed where it stands, and the state that was lent becomes fresh; or the first rule that forbids it is told, and all stays.
#[unsafe(no_mangle)]
pub extern "C" fn nw_gathering_pack(g: &mut Gathering, store: &mut [u8]) -> u64
    ensures { (result ≡ value_answer (packing_of g.old store.old).answer) × (g.new ≡ (packing_of g.old store.old).state) × (store.new ≡ store_packed g.old store.old) }
{
    neapwillow::c_gathering::nw_gathering_pack(g, store)
}
