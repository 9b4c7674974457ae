//! Why a walk comes to no end.
use lufs_base::{DiskFault, Mem};
use meta_store::StoreError;
use tree_types::Refusal;

/// Why a walk comes to no end.
#[derive(Clone, Copy, Debug, PartialEq, Eq)]
pub enum WalkError {
    /// The path leads nowhere, or where the caller may not go.
    Refused(Refusal),
    /// The disk under the store failed.
    Disk,
    /// Out of memory.
    Mem,
}

impl From<DiskFault> for WalkError {
    ghost use Rattle.std.specs.Prelude.{◌≡◌};
    ghost use Rattle.path_walk.specs.declared.error.WalkError.TheVariants.{Disk};

    ghost from_gives = { λ _ e. e ≡ Disk };

    fn from(_: DiskFault) -> Self {
        WalkError::Disk
    }
}

impl From<Mem> for WalkError {
    ghost use Rattle.std.specs.Prelude.{◌≡◌};
    ghost use Rattle.path_walk.specs.declared.error.WalkError.TheVariants.{Mem as no_memory};

    ghost from_gives = { λ _ e. e ≡ no_memory };

    fn from(_: Mem) -> Self {
        WalkError::Mem
    }
}

impl From<StoreError> for WalkError {
    ghost use Rattle.std.specs.Prelude.{◌≡◌};
    ghost use Rattle.path_walk.specs.Answers.{walk_error};

    ghost from_gives = { λ error e. e ≡ walk_error error };

    fn from(error: StoreError) -> Self {
        match error {
            StoreError::Disk => WalkError::Disk,
            StoreError::Mem => WalkError::Mem,
        }
    }
}
