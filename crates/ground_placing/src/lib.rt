// Bytes copied into a lent buffer, for every crate that writes one.
#![tactic(auto)]

ghost use Rattle.std.specs.Prelude.{◌≡◌, ◌+◌, ◌≤◌, length};
ghost use Rattle.ground_placing.specs.Placed.{placed};

// The bytes of src into dst, from index at on.
#[tactic(auto, unfolding(crate::specs::Placed::placed))]
pub fn copy_at(src: &[u8], dst: &mut [u8], at: usize)
    requires { at + length src.now ≤ length dst.old }
    ensures { dst.new ≡ placed dst.old at src.now }
{
    dst[at..at + src.len()].copy_from_slice(src);
}
