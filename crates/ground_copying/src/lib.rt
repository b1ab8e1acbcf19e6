// Bytes copied into a lent buffer: few by two pieces that overlap, each of which the compiler moves as one, and many by blocks that the system moves.
#![tactic(auto)]

ghost use Rattle.std.specs.Prelude.{◌≡◌, ◌+◌, ◌≤◌, length, take, drop};
ghost use Rattle.ground_placing.specs.Placed.{placed};

// The bytes that are moved at once, at most.
const BLOCK: usize = 4096;

// N bytes of src from i on into dst from at on, by way of an array of their own: so the compiler reads them all before it writes one.
fn piece<const N: usize>(src: &[u8], i: usize, dst: &mut [u8], at: usize)
    requires { (i + N ≤ length src.now) × (at + N ≤ length dst.old) }
    ensures { dst.new ≡ placed dst.old at (take N (drop i src.now)) }
{
    let mut held = [0u8; N];
    let end = i + N;
    ground_placing::copy_at(&src[i..end], &mut held, 0);
    ground_placing::copy_at(&held, dst, at);
}

// N to 2N bytes of src into dst from at on: the first N, and the last N, some of them once more, so that there is no loop.
fn two_pieces<const N: usize>(src: &[u8], dst: &mut [u8], at: usize)
    requires { (N ≤ length src.now) × (length src.now ≤ N + N) × (at + length src.now ≤ length dst.old) }
    ensures { dst.new ≡ placed dst.old at src.now }
{
    let last = src.len() - N;
    piece::<N>(src, 0, dst, at);
    piece::<N>(src, last, dst, at + last);
}

// Up to 4,096 bytes into dst from at on, by way of an array: the compiler makes one call of the system's memmove of it, and no array.
fn block(src: &[u8], dst: &mut [u8], at: usize)
    requires { (length src.now ≤ 4096) × (at + length src.now ≤ length dst.old) }
    ensures { dst.new ≡ placed dst.old at src.now }
{
    let mut held: [u8; BLOCK] = [0; BLOCK];
    let n = src.len();
    ground_placing::copy_at(src, &mut held, 0);
    ground_placing::copy_at(&held[0..n], dst, at);
}

// The bytes of src into dst, from index at on, for what is mostly long, as payloads are: a block a turn, and then the rest, which is a block too.
pub fn copy_long(src: &[u8], dst: &mut [u8], at: usize)
    requires { at + length src.now ≤ length dst.old }
    ensures { dst.new ≡ placed dst.old at src.now }
{
    let n = src.len();
    let mut i: usize = 0;
    while BLOCK < n - i {
        let end = i + BLOCK;
        block(&src[i..end], dst, at + i);
        i += BLOCK;
    }
    block(&src[i..], dst, at + i);
}

// The bytes of src into dst, from index at on. Where the length is a number in the code, the compiler leaves two moves of it; the order of the tests was measured.
pub fn copy_at(src: &[u8], dst: &mut [u8], at: usize)
    requires { at + length src.now ≤ length dst.old }
    ensures { dst.new ≡ placed dst.old at src.now }
{
    if 32 < src.len() {
        copy_long(src, dst, at);
        return;
    }
    if 16 < src.len() {
        two_pieces::<16>(src, dst, at);
        return;
    }
    if 8 < src.len() {
        two_pieces::<8>(src, dst, at);
        return;
    }
    if 4 <= src.len() {
        two_pieces::<4>(src, dst, at);
        return;
    }
    ground_placing::copy_at(src, dst, at);
}
