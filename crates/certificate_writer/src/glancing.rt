// A glance at the form of a certificate table, from its parts up to the whole: of what it takes for good, which the format of its name lays out, the bytes
// are told; any other form, told by 0, is for the pen.
ghost use Rattle.std.specs.Prelude.{◌≡◌, List, ℕ, suc, ◌+◌, ◌*◌, ◌^◌, ◌≤◌, ◌<◌, length, get_or};
ghost use Rattle.ground_numbers.specs.Sizes.{body_most};
ghost use Rattle.body_formats.specs.Format.{opaque, times};
ghost use Rattle.body_form_glance.specs.Lays.{Lays, Told};
ghost use Rattle.certificate.specs.Certificate.{certificate, parts};

use ground_numbers::BODY_MOST;

// n parts after lengths of w bytes, which count below the limit: their bytes, and one more for the count before them.
fn parts_bytes(pool: &[u8], tape: &[u64], k: usize, n: usize, w: usize, limit: u64) -> usize
    requires { (k + n * 2 ≤ length tape.now) × (n ≤ 255) × (w ≤ 2) × (limit ≡ 256 ^ w) }
    ensures { (result ≤ 1 + n * 65537) × ((m : ℕ) → result ≡ suc m → (xs : List (List ℕ)) × Lays (times n (opaque w)) pool.now tape.now k xs (k + n * 2) m) }
{
    let mut bytes: usize = 1;
    for i in 0..n {
        let at = k + i * 2;
        if limit <= tape[at + 1] {
            return 0;
        }
        if !body_form_glance::good_span(pool, tape, at) {
            return 0;
        }
        bytes = bytes + w + (tape[at + 1] as usize);
    }
    bytes
}

// A list of parts after its count.
fn list_bytes(pool: &[u8], tape: &[u64], k: usize, w: usize, limit: u64) -> usize
    requires { (w ≤ 2) × (limit ≡ 256 ^ w) }
    ensures short { result ≤ 1 + 255 * 65537 }
    ensures inside { 0 < result → (get_or tape.now k 0 ≤ 255) × (k + 1 + get_or tape.now k 0 * 2 ≤ length tape.now) }
    ensures laid { Told (parts w) pool.now tape.now k (k + 1 + get_or tape.now k 0 * 2) result }
{
    if tape.len() <= k {
        return 0;
    }
    if 255 < tape[k] {
        return 0;
    }
    let n = tape[k] as usize;
    if tape.len() - k - 1 < n * 2 {
        return 0;
    }
    parts_bytes(pool, tape, k + 1, n, w, limit)
}

// The three fields.
pub fn certificate_bytes(pool: &[u8], tape: &[u64]) -> usize
    ensures short { result ≤ body_most }
    ensures laid { Told certificate pool.now tape.now 0 (length tape.now) result }
{
    let a = list_bytes(pool, tape, 0, 2, 65536);
    if a == 0 {
        return 0;
    }
    let k = 1 + (tape[0] as usize) * 2;
    let b = list_bytes(pool, tape, k, 1, 256);
    if b == 0 {
        return 0;
    }
    let c = body_form_glance::last_part(pool, tape, k + 1 + (tape[k] as usize) * 2);
    if c == 0 {
        return 0;
    }
    let size = a + b + c;
    if BODY_MOST < size {
        return 0;
    }
    size
}
