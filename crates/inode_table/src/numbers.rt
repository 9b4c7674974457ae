//! Rows of block numbers of four bytes each, read and written.
ghost use Rattle.std.specs.Prelude.{◌≡◌, ℕ, ◌<◌, ◌^◌, slice_index, ◌+◌, ◌*◌, ◌≤◌, length, drop};
ghost use Rattle.lufs_base.specs.Fields.{put_at};
ghost use Rattle.volume_model.specs.Format.{numbers_in, numbers_bytes};

use lufs_base::{get_u32, put_u32};

/// The numbers of four bytes each from byte `at` on.
pub fn get_numbers<const N: usize>(bytes: &[u8], at: usize) -> [u32; N]
    requires { at + 4 * N ≤ length bytes.now }
    ensures value { result ≡ numbers_in N (drop at bytes.now) }
    ensures fits { (i : ℕ) → slice_index result i < 2 ^ 32 }
{
    let mut numbers = [0; N];
    for i in 0..N {
        numbers[i] = get_u32(bytes, at + 4 * i);
    }
    numbers
}

/// Writes the numbers, four bytes each, from byte `at` on. The other bytes stay.
pub fn put_numbers(out: &mut [u8], at: usize, numbers: &[u32])
    requires { at + 4 * length numbers.now ≤ length out.old }
    ensures { out.new ≡ put_at out.old at (numbers_bytes numbers.now) }
{
    for (i, number) in numbers.iter().enumerate() {
        put_u32(out, at + 4 * i, *number);
    }
}
