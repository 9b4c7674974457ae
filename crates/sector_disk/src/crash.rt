//! Computes what a crash leaves, where the value of each sector is chosen.
ghost use Rattle.std.specs.Prelude.{◌≡◌, ◌≤◌, ◌⊎◌, ℕ, ◌+◌, ◌*◌, length, take, drop, IfOk, IfErr, Ok, Err, Option, Some, List, ◌∷◌, ◌++◌};
ghost use Rattle.std.specs.Option.{option_copied};
ghost use Rattle.std.specs.List.{AllByRecursion};
ghost use Rattle.volume_model.specs.Format.{Image, sector};
ghost use Rattle.volume_model.specs.Crash.{Record, IsInside, IsOfSectors, flushed, pending, image_after, kept_at};
ghost use Rattle.sector_disk.specs.Chosen.{nth_written, with_choice, crash_of, IsUnnamed};
ghost use Rattle.sector_disk.specs.declared.crash.CrashError.TheVariants.{Mem};

use crate::image::{lay, put};
use std::alloc::{AllocError, AllocFailed, Global};
use volume_model::DeviceCall;

/// Why no crash leaves what was chosen.
#[derive(Clone, Copy, Debug, PartialEq, Eq)]
pub enum CrashError {
    /// The sector was written fewer than `j` times since the last flush, or `j` is 0.
    NoSuch { sector: u64, j: u32 },
    /// Out of memory.
    Mem,
}

impl<T: Drop> From<AllocFailed<T>> for CrashError {
    ghost from_gives = { λ _ e. e ≡ Mem };

    fn from(_: AllocFailed<T>) -> Self {
        CrashError::Mem
    }
}

impl From<AllocError> for CrashError {
    ghost from_gives = { λ _ e. e ≡ Mem };

    fn from(_: AllocError) -> Self {
        CrashError::Mem
    }
}

// How many calls there are up to the last flush.
fn flushed_len(calls: &[DeviceCall]) -> usize
    ensures within { result ≤ length calls.now }
    ensures flushed { take result calls.now ≡ flushed calls.now }
    ensures pending { drop result calls.now ≡ pending calls.now }
{
    let mut end = 0;
    let mut seen = 0;
    for call in calls {
        seen += 1;
        match call {
            DeviceCall::Flush => end = seen,
            DeviceCall::Write { .. } => {}
        }
    }
    end
}

// The j-th value, from 1, that these calls write to a sector.
fn nth_written(calls: &[DeviceCall], sector: u64, j: u32) -> Option<&[u8]>
    ensures { option_copied result ≡ nth_written calls.now sector j }
{
    let mut left = j.checked_sub(1)?;
    for call in calls {
        if let DeviceCall::Write { first, bytes } = call {
            let bytes = bytes.as_slice();
            if *first <= sector && sector - *first < bytes.len() as u64 / 512 {
                if left == 0 {
                    let at = 512 * (sector - *first) as usize;
                    return Some(&bytes[at..at + 512]);
                }
                left -= 1;
            }
        }
    }
    None
}

// Lays the chosen values over an image, in order.
fn lay_chosen(
    image: &mut Vec<u8>,
    calls: &[DeviceCall],
    choice: &[(u64, u32)],
) -> Result<(), CrashError>
    requires { AllByRecursion (IsInside (length image.old.items)) calls.now }
    ensures ok { IfOk result (λ _. with_choice calls.now image.old.items choice.now ≡ Ok image.new.items) }
    ensures err { IfErr result (λ e. with_choice calls.now image.old.items choice.now ≡ Err e) }
{
    for &(sector, j) in choice {
        let Some(value) = nth_written(calls, sector, j) else {
            return Err(CrashError::NoSuch { sector, j });
        };
        put(image, sector, value);
    }
    Ok(())
}

// What a crash after these calls leaves of an image, with the chosen values.
pub(crate) fn crash_image(
    alloc: Global,
    opening: &[u8],
    calls: &[DeviceCall],
    choice: &[(u64, u32)],
) -> Result<Vec<u8>, CrashError>
    requires { AllByRecursion (IsInside (length opening.now)) calls.now }
    ensures ok { IfOk result (λ image. with_choice (pending calls.now) (image_after opening.now (flushed calls.now)) choice.now ≡ Ok image.items) }
    ensures err { IfErr result (λ e. (e ≡ CrashError.Mem) ⊎ (with_choice (pending calls.now) (image_after opening.now (flushed calls.now)) choice.now ≡ Err e)) }
{
    let end = flushed_len(calls);
    let mut image = opening.to_vec(alloc)?;
    lay(&mut image, &calls[..end]);
    lay_chosen(&mut image, &calls[end..], choice)?;
    Ok(image)
}

/// A crash leaves what was chosen, sector by sector.
pub fn chosen_sectors()
    // A sector that no pair names has its value at the last flush.
    ensures others { (r : Record) (n : ℕ) (choice : List (ℕ × ℕ)) (image : Image) (k : ℕ) → IsOfSectors r → crash_of r n choice ≡ Ok image
        → IsUnnamed k choice → sector image k ≡ sector (kept_at r n) k }
    // A sector has the value that the last pair that names it chooses.
    ensures named { (r : Record) (n : ℕ) (front back : List (ℕ × ℕ)) (image : Image) (k j : ℕ) → IsOfSectors r → crash_of r n (front ++ ((k, j) ∷ back)) ≡ Ok image
        → IsUnnamed k back → nth_written (pending (take n r.calls)) k j ≡ Some (sector image k) }
{}
