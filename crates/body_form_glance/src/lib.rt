// Fields of a form at a glance: whether a writer takes them and how many bytes they make, and not what is wrong. A pen through the form tells that.
#![tactic(auto)]

ghost use Rattle.std.specs.Prelude.{◌≡◌, ◌+◌, ◌*◌, ◌≤◌, length, get_or, leb};
ghost use Rattle.body_formats.specs.Format.{digits, times, opaque};
ghost use Rattle.body_formats.specs.Resource.{resource};
ghost use Rattle.body_form_glance.specs.Lays.{Good, Told, Listed};

use body_formats::RESOURCE_BYTES;

// What a glance at a part of a form tells: its bytes, and the entry of the tape after it. Entry 0: it has to be judged field by field.
#[derive(Clone, Copy)]
pub struct Sight {
    pub bytes: usize,
    pub entry: usize,
}

// Nothing is told.
pub fn unseen() -> Sight
    ensures { (result.bytes ≡ 0) × (result.entry ≡ 0) }
{
    Sight { bytes: 0, entry: 0 }
}

// Whether the span that the entries k and k + 1 say lies in the pool.
pub fn good_span(pool: &[u8], tape: &[u64], k: usize) -> bool
    requires { k + 2 ≤ length tape.now }
    ensures { result ≡ leb (get_or tape.now k 0 + get_or tape.now (k + 1) 0) (length pool.now) }
{
    let len = pool.len() as u64;
    let a = tape[k];
    if len < a {
        return false;
    }
    tape[k + 1] <= len - a
}

// Opaque bytes after a length of two, by the last two entries of the tape, as signatures are: their bytes, or 0.
pub fn last_part(pool: &[u8], tape: &[u64], k: usize) -> usize
    requires { k ≤ length tape.now }
    ensures short { result ≤ 65537 }
    ensures laid { Told (opaque 2) pool.now tape.now k (length tape.now) result }
{
    if tape.len() - k != 2 {
        return 0;
    }
    if 65535 < tape[k + 1] {
        return 0;
    }
    if !good_span(pool, tape, k) {
        return 0;
    }
    2 + (tape[k + 1] as usize)
}

// 2 h + 1 decimal digits, in h + 1 bytes: the pool's reserved bits are not looked at.
pub fn good_digits(pool: &[u8], tape: &[u64], k: usize, h: usize) -> bool
    requires { (k + 2 ≤ length tape.now) × (h ≤ 255) }
    ensures { Good (digits h) pool.now tape.now k (k + 2) (h + 1) result }
{
    if tape[k + 1] != ((h + 1) as u64) {
        return false;
    }
    if !good_span(pool, tape, k) {
        return false;
    }
    let a = tape[k] as usize;
    if 9 < pool[a] % 16 {
        return false;
    }
    body_digits::all_decimal(pool, a + 1, h)
}

// "4 reserved + 23 digits", by the first byte and twice eight of the eleven others: a loop that calls this has no call and no loop in it.
fn good_resource(pool: &[u8], tape: &[u64], k: usize) -> bool
    requires { k + 2 ≤ length tape.now }
    ensures { Good resource pool.now tape.now k (k + 2) 12 result }
{
    if tape[k + 1] != (RESOURCE_BYTES as u64) {
        return false;
    }
    if !good_span(pool, tape, k) {
        return false;
    }
    let a = tape[k] as usize;
    if 9 < pool[a] % 16 {
        return false;
    }
    if !body_digits::eight(pool, a + 1) {
        return false;
    }
    body_digits::eight(pool, a + 4)
}

// n resources.
fn good_resources(pool: &[u8], tape: &[u64], k: usize, n: usize) -> bool
    requires { k + n * 2 ≤ length tape.now }
    ensures { Good (times n resource) pool.now tape.now k (k + n * 2) (n * 12) result }
{
    for i in 0..n {
        if !good_resource(pool, tape, k + i * 2) {
            return false;
        }
    }
    true
}

// "resource count 8, resources of 4 reserved + 23 digits": how many they are and one more, or 0. One number is handed back in a register.
pub fn resource_list(pool: &[u8], tape: &[u64], k: usize) -> usize
    ensures { Listed pool.now tape.now k result }
{
    if tape.len() <= k {
        return 0;
    }
    if 255 < tape[k] {
        return 0;
    }
    let n = tape[k] as usize;
    if tape.len() - k - 1 < n * 2 {
        return 0;
    }
    if good_resources(pool, tape, k + 1, n) {
        return n + 1;
    }
    0
}
