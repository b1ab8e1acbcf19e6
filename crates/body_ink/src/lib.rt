// The bytes of a form that was judged, field by field: nothing is asked of it again.
#![tactic(auto)]

ghost use Rattle.std.specs.Prelude.{◌≡◌, ◌+◌, ◌≤◌, length, take, drop};
ghost use Rattle.ground_placing.specs.Placed.{placed};
ghost use Rattle.body_formats.specs.Format.{bytes_of, digits, opaque};
ghost use Rattle.body_formats.specs.Resource.{resources};
ghost use Rattle.body_ink.specs.Inked.{Ready, Inked};

use body_formats::RESOURCE_PAIRS;

// How far a list or a record of lists went: where its bytes end, and the entry of the tape after its own.
#[derive(Clone, Copy)]
pub struct Mark {
    pub at: usize,
    pub entry: usize,
}

// x in w bytes, from index at on. Where w is a number in the code, the compiler makes one store of it.
pub fn number(out: &mut [u8], at: usize, w: usize, x: u64)
    requires { at + w ≤ length out.old }
    ensures { out.new ≡ placed out.old at (bytes_of w x) }
{
    let mut v = x;
    for k in (0..w).rev() {
        out[at + k] = (v % 256) as u8;
        v = v / 256;
    }
}

// n bytes of the pool from index a on, from index at on: where n is a number in the code, the compiler makes two moves of it.
pub fn copy(pool: &[u8], a: usize, n: usize, out: &mut [u8], at: usize)
    requires { (a + n ≤ length pool.now) × (at + n ≤ length out.old) }
    ensures { out.new ≡ placed out.old at (take n (drop a pool.now)) }
{
    let end = a + n;
    ground_copying::copy_at(&pool[a..end], out, at);
}

// Opaque bytes after a length of w bytes, by two entries of the tape: where they end.
pub fn part(pool: &[u8], tape: &[u64], k: usize, w: usize, out: &mut [u8], at: usize) -> usize
    requires { Ready (opaque w) pool.now tape.now at k (length out.old) }
    ensures { Inked (opaque w) pool.now tape.now at k out.old result (k + 2) out.new }
{
    let n = tape[k + 1];
    number(out, at, w, n);
    copy(pool, tape[k] as usize, n as usize, out, at + w);
    at + w + (n as usize)
}

// Four reserved bits and 2 h + 1 decimal digits, in h + 1 bytes, by two entries of the tape: the pool's reserved bits are not looked at.
pub fn digits(pool: &[u8], tape: &[u64], k: usize, h: usize, out: &mut [u8], at: usize)
    requires { Ready (digits h) pool.now tape.now at k (length out.old) }
    ensures { Inked (digits h) pool.now tape.now at k out.old (at + (h + 1)) (k + 2) out.new }
{
    let a = tape[k] as usize;
    number(out, at, 1, 240 + ground_numbers::wide(pool[a]) % 16);
    copy(pool, a + 1, h, out, at + 1);
}

// "resource count 8, resources of 4 reserved + 23 digits".
pub fn resources(pool: &[u8], tape: &[u64], k: usize, out: &mut [u8], at: usize) -> Mark
    requires { Ready resources pool.now tape.now at k (length out.old) }
    ensures { Inked resources pool.now tape.now at k out.old result.at result.entry out.new }
{
    let n = tape[k];
    number(out, at, 1, n);
    let mut past = Mark {
        at: at + 1,
        entry: k + 1,
    };
    for _ in 0..n {
        digits(pool, tape, past.entry, RESOURCE_PAIRS, out, past.at);
        past = Mark {
            at: past.at + (RESOURCE_PAIRS + 1),
            entry: past.entry + 2,
        };
    }
    past
}
