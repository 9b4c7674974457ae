//! Big-endian numbers in bytes, read and written, with the laws that the two agree.
ghost use Rattle.std.specs.Prelude.{◌≡◌, ℕ, List, ◌+◌, ◌^◌, ◌≤◌, ◌<◌, ◌++◌, length, take, drop, replicate};
ghost use Rattle.lufs_base.specs.Fields.{u16_at, u32_at, u64_at, number_in, AreBytes, field_bytes, put_at, are_zeros};

use byteorder::{BigEndian, ByteOrder};

/// The big-endian number in the two bytes from byte `at`.
#[tactic(auto, unfolding(crate::specs::Fields::number_in))]
pub fn get_u16(bytes: &[u8], at: usize) -> u16
    requires { at + 2 ≤ length bytes.now }
    ensures { result ≡ u16_at bytes.now at }
{
    BigEndian::read_u16(&bytes[at..])
}

/// The big-endian number in the four bytes from byte `at`.
#[tactic(auto, unfolding(crate::specs::Fields::number_in))]
pub fn get_u32(bytes: &[u8], at: usize) -> u32
    requires { at + 4 ≤ length bytes.now }
    ensures { result ≡ u32_at bytes.now at }
{
    BigEndian::read_u32(&bytes[at..])
}

/// The big-endian number in the eight bytes from byte `at`.
#[tactic(auto, unfolding(crate::specs::Fields::number_in))]
pub fn get_u64(bytes: &[u8], at: usize) -> u64
    requires { at + 8 ≤ length bytes.now }
    ensures { result ≡ u64_at bytes.now at }
{
    BigEndian::read_u64(&bytes[at..])
}

/// Writes the number to the two bytes from byte `at`, big-endian. The other bytes stay.
pub fn put_u16(out: &mut [u8], at: usize, value: u16)
    requires { at + 2 ≤ length out.old }
    ensures { out.new ≡ put_at out.old at (field_bytes 2 value) }
{
    BigEndian::write_u16(&mut out[at..], value);
}

/// Writes the number to the four bytes from byte `at`, big-endian. The other bytes stay.
pub fn put_u32(out: &mut [u8], at: usize, value: u32)
    requires { at + 4 ≤ length out.old }
    ensures { out.new ≡ put_at out.old at (field_bytes 4 value) }
{
    BigEndian::write_u32(&mut out[at..], value);
}

/// Writes the number to the eight bytes from byte `at`, big-endian. The other bytes stay.
pub fn put_u64(out: &mut [u8], at: usize, value: u64)
    requires { at + 8 ≤ length out.old }
    ensures { out.new ≡ put_at out.old at (field_bytes 8 value) }
{
    BigEndian::write_u64(&mut out[at..], value);
}

/// Makes each byte 0.
pub fn clear(out: &mut [u8])
    ensures { out.new ≡ replicate (length out.old) 0 }
{
    out.fill(0);
}

/// Whether each byte is 0.
pub fn are_zeros(bytes: &[u8]) -> bool
    ensures { result ≡ are_zeros bytes.now }
{
    let mut are = true;
    // None ends the loop early, so that sixteen are looked at at once.
    for b in bytes {
        are &= *b == 0;
    }
    are
}

/// Two fields of one width with the same number have the same bytes.
pub fn one_spelling()
    ensures { (n : ℕ) (xs ys : List ℕ) → AreBytes xs → AreBytes ys → n ≤ length xs → n ≤ length ys
        → number_in n xs ≡ number_in n ys → take n xs ≡ take n ys }
{}

/// A field reads as the number that was written.
pub fn read_back()
    ensures { (n value : ℕ) (rest : List ℕ) → value < 256 ^ n → number_in n (field_bytes n value ++ rest) ≡ value }
{}

/// The number that bytes read as is written as the bytes that they begin with.
pub fn spelled_again()
    ensures { (n : ℕ) (bytes : List ℕ) → AreBytes bytes → n ≤ length bytes → field_bytes n (number_in n bytes) ++ drop n bytes ≡ bytes }
{}

/// A number of n bytes depends on these n bytes alone.
pub fn its_bytes_alone()
    ensures { (n : ℕ) (xs ys : List ℕ) → take n xs ≡ take n ys → number_in n xs ≡ number_in n ys }
{}
