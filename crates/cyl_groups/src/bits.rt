//! Bits in a slice of bytes: tested, searched, set and cleared.
ghost use Rattle.std.specs.Prelude.{◌≡◌, ◌<◌, ◌≤◌, ◌*◌, length, true, false};
ghost use Rattle.volume_model.specs.Format.{bit_at, are_set, HasBit};
ghost use Rattle.cyl_groups.specs.Bits.{IsFirstClear};

/// Whether bit `i` is set.
pub fn is_set(bits: &[u8], i: u32) -> bool
    requires { i < 8 * length bits.now }
    ensures { result ≡ bit_at bits.now i }
{
    bits[(i / 8) as usize] >> (i % 8) & 1 == 1
}

/// Whether each of the first `n` bits is set.
pub fn are_set(bits: &[u8], n: u32) -> bool
    requires { n ≤ 8 * length bits.now }
    ensures { result ≡ are_set bits.now n }
{
    (0..n).all(|i| is_set(bits, i))
}

/// The first clear bit from bit `from` on, before bit `end`.
pub fn first_clear(bits: &[u8], from: u32, end: u32) -> Option<u32>
    requires { end ≤ 8 * length bits.now }
    ensures { IsFirstClear bits.now from end result }
{
    (from..end).find(|i| !is_set(bits, *i))
}

/// Sets bit `i`.
pub fn set(bits: &mut [u8], i: u32)
    requires { i < 8 * length bits.old }
    ensures { HasBit i true bits.old bits.new }
{
    bits[(i / 8) as usize] |= 1 << (i % 8);
}

/// Clears bit `i`.
pub fn clear(bits: &mut [u8], i: u32)
    requires { i < 8 * length bits.old }
    ensures { HasBit i false bits.old bits.new }
{
    bits[(i / 8) as usize] &= !(1 << (i % 8));
}
