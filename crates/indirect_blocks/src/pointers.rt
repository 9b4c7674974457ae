//! The numbers of a pointer block, read, written and changed, with the laws of reading back.
ghost use Rattle.std.specs.Prelude.{◌≡◌, ℕ, List, ◌<◌, ◌^◌, length, All, IfOk, slice_index, slice_set};
ghost use Rattle.lufs_base.specs.Fields.{AreBytes};
ghost use Rattle.volume_model.specs.Format.{pointers_of, pointer_bytes};

use lufs_base::{Mem, get_u32, put_u32};
use std::alloc::Global;
use std::marker::Model;

/// Numbers of a pointer block.
const NUMBERS: usize = 1024;

/// The 1,024 block numbers of a pointer block, 0 for none (`docs/FORMAT.md`, "Pointer blocks").
#[derive(Debug, Drop)]
pub struct Pointers {
    numbers: Vec<u32>,
}

impl Model for Pointers {
    ghost Value = { List ℕ };

    ghost view = { λ p. p.numbers.items };

    ghost invariant = { λ p. length p.numbers.items ≡ 1024 };
}

impl Pointers {
    /// The number in this entry.
    pub fn get(&self, entry: usize) -> u32
        requires { entry < 1024 }
        ensures { result ≡ slice_index self.now entry }
    {
        self.numbers[entry]
    }

    /// The numbers, in their order.
    pub fn as_slice(&self) -> &[u32]
        ensures value { result.now ≡ self.now }
        ensures size { length self.now ≡ 1024 }
    {
        self.numbers.as_slice()
    }

    /// Sets the number in this entry. The others stay.
    pub fn set(&mut self, entry: usize, number: u32)
        requires { entry < 1024 }
        ensures { self.new ≡ slice_set self.old entry number }
    {
        self.numbers[entry] = number;
    }
}

/// The numbers of the pointer block that these 4,096 bytes are (`docs/FORMAT.md`, "Pointer blocks").
pub fn read_pointers(alloc: Global, bytes: &[u8]) -> Result<Pointers, Mem>
    requires { length bytes.now ≡ 4096 }
    ensures { IfOk result (λ pointers. pointers ≡ pointers_of bytes.now) }
{
    let mut numbers = Vec::with_capacity(alloc, NUMBERS)?;
    for i in 0..NUMBERS {
        numbers.push(get_u32(bytes, 4 * i))?;
    }
    Ok(Pointers { numbers })
}

/// Writes the numbers as a pointer block to these 4,096 bytes.
pub fn write_pointers(pointers: &Pointers, out: &mut [u8])
    requires { length out.old ≡ 4096 }
    ensures { out.new ≡ pointer_bytes pointers.now }
{
    for i in 0..NUMBERS {
        put_u32(out, 4 * i, pointers.numbers[i]);
    }
}

/// A pointer block reads as the numbers that were written.
pub fn numbers_read_back()
    ensures { (numbers : List ℕ) → length numbers ≡ 1024 → All (λ n. n < 2 ^ 32) numbers → pointers_of (pointer_bytes numbers) ≡ numbers }
{}

/// The numbers that a pointer block reads as are written as that same block.
pub fn numbers_spelled_again()
    ensures { (bytes : List ℕ) → AreBytes bytes → length bytes ≡ 4096 → pointer_bytes (pointers_of bytes) ≡ bytes }
{}
