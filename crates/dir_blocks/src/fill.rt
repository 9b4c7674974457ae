//! Puts bytes or zeros into a slice from a place on.
ghost use Rattle.std.specs.Prelude.{◌≡◌, ◌+◌, ◌≤◌, length, replicate};
ghost use Rattle.lufs_base.specs.Fields.{put_at};

// Writes the bytes from byte `at` on.
pub fn put_bytes(out: &mut [u8], at: usize, bytes: &[u8])
    requires { at + length bytes.now ≤ length out.old }
    ensures { out.new ≡ put_at out.old at bytes.now }
{
    out[at..at + bytes.len()].copy_from_slice(bytes);
}

// Writes so many zeros from byte `at` on.
pub fn put_zeros(out: &mut [u8], at: usize, count: usize)
    requires { at + count ≤ length out.old }
    ensures { out.new ≡ put_at out.old at (replicate count 0) }
{
    out[at..at + count].fill(0);
}
