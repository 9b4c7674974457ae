//! Why work on a store came to no end.
ghost use Rattle.std.specs.Prelude.{◌≡◌};

use lufs_base::{DiskFault, Mem};
use std::alloc::{AllocError, AllocFailed};

/// What ended the work on a store.
#[derive(Clone, Copy, Debug, PartialEq, Eq)]
pub enum StoreError {
    /// The disk under the store failed.
    Disk,
    /// Out of memory.
    Mem,
}

impl From<DiskFault> for StoreError {
    ghost use Rattle.std.specs.Prelude.{◌≡◌};
    ghost use Rattle.meta_store.specs.declared.error.StoreError.TheVariants.{Disk};

    ghost from_gives = { λ _ e. e ≡ Disk };

    fn from(_: DiskFault) -> Self {
        StoreError::Disk
    }
}

impl From<Mem> for StoreError {
    ghost use Rattle.std.specs.Prelude.{◌≡◌};
    ghost use Rattle.meta_store.specs.declared.error.StoreError.TheVariants.{Mem as no_memory};

    ghost from_gives = { λ _ e. e ≡ no_memory };

    fn from(_: Mem) -> Self {
        StoreError::Mem
    }
}

impl From<AllocError> for StoreError {
    ghost use Rattle.std.specs.Prelude.{◌≡◌};
    ghost use Rattle.meta_store.specs.declared.error.StoreError.TheVariants.{Mem as no_memory};

    ghost from_gives = { λ _ e. e ≡ no_memory };

    fn from(_: AllocError) -> Self {
        StoreError::Mem
    }
}

impl<T: Drop> From<AllocFailed<T>> for StoreError {
    ghost use Rattle.std.specs.Prelude.{◌≡◌};
    ghost use Rattle.meta_store.specs.declared.error.StoreError.TheVariants.{Mem as no_memory};

    ghost from_gives = { λ _ e. e ≡ no_memory };

    fn from(_: AllocFailed<T>) -> Self {
        StoreError::Mem
    }
}
