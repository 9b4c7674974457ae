//! A disk in memory that never fails.
ghost use Rattle.std.specs.Prelude.{◌≡◌, ◌≤◌, ◌+◌, ◌*◌, ◌%◌, ◌∷◌, [], length, IsOk};
ghost use Rattle.volume_model.specs.Format.{sectors_of};
ghost use Rattle.volume_model.specs.declared.device_call.DeviceCall.TheVariants.{Write, Flush};
ghost use Rattle.sector_disk.specs.Disk.{IsWhole, IsRead, HasMade, NoneFailed};
ghost use Rattle.sector_disk.specs.SureDisk.{told_of};

use crate::Disk;
use crate::image::put;
use lufs_base::DiskFault;
use std::marker::Model;

/// A disk in memory that never fails and whose calls take no memory. It tells what it holds, and counts its calls
/// without listing them.
#[derive(Drop)]
pub struct SureDisk {
    image: Vec<u8>,
    calls: u64,
}

impl Model for SureDisk {
    ghost use Rattle.std.specs.Prelude.{◌≡◌, ◌%◌, length};
    ghost use Rattle.sector_disk.specs.SureDisk.{State};

    ghost Value = { State };

    ghost view = { λ d. record { image = d.image.items; calls = d.calls } };

    ghost invariant = { λ d. length d.image.items % 512 ≡ 0 };
}

impl SureDisk {
    /// A disk of this image, whole sectors, of which no call was made.
    pub fn new(image: Vec<u8>) -> Self
        requires { length image.items % 512 ≡ 0 }
        ensures { result ≡ record { image = image.items; calls = 0 } }
    {
        SureDisk { image, calls: 0 }
    }
}

impl Disk for SureDisk {
    ghost use Rattle.std.specs.Prelude.{refl};
    ghost use Rattle.sector_disk.specs.SureDisk.{told_of};

    ghost told = { λ d. told_of d };

    fn sectors(&self) -> u64 {
        self.image.len() as u64 / 512
    }

    fn calls(&self) -> u64 {
        self.calls
    }

    fn faults(&self) -> u64 {
        0
    }

    fn read(&mut self, first: u64, out: &mut [u8]) -> Result<(), DiskFault>
        requires whole { IsWhole (length out.old) }
        requires inside { 512 * first + length out.old ≤ 512 * sectors_of self.old.image }
        ensures sure { IsOk result }
        ensures bytes { IsRead first out.new (told_of self.old) }
        ensures same { self.new ≡ self.old }
    {
        let image = &self.image;
        let at = 512 * first as usize;
        out.copy_from_slice(&image[at..at + out.len()]);
        Ok(())
    }

    fn write(&mut self, first: u64, bytes: &[u8]) -> Result<(), DiskFault>
        requires whole { IsWhole (length bytes.now) }
        requires inside { 512 * first + length bytes.now ≤ 512 * sectors_of self.old.image }
        ensures sure { IsOk result }
        ensures made { HasMade (Write first bytes.now ∷ []) (told_of self.old) (told_of self.new) }
        ensures none_failed { NoneFailed (told_of self.old) (told_of self.new) }
    {
        self.calls = self.calls.saturating_add(1);
        put(&mut self.image, first, bytes);
        Ok(())
    }

    fn flush(&mut self) -> Result<(), DiskFault>
        ensures sure { IsOk result }
        ensures made { HasMade (Flush ∷ []) (told_of self.old) (told_of self.new) }
        ensures none_failed { NoneFailed (told_of self.old) (told_of self.new) }
    {
        self.calls = self.calls.saturating_add(1);
        Ok(())
    }

    ghost size = { λ _. refl };

    ghost counted = { λ _. tt };
}
