//! Why a check ends early: a rule is broken, or there is no reading on.
ghost use Rattle.std.specs.Prelude.{◌≡◌};
ghost use Rattle.fsck_core.specs.Answers.{unless_found};

use lufs_base::{DiskFault, Mem};
use meta_store::StoreError;
use std::alloc::{AllocError, AllocFailed};
use volume_model::Kind;

#[derive(Clone, Copy, Debug, PartialEq, Eq)]
pub(crate) enum Stop {
    /// The first rule that is broken, and the lowest number for which it is.
    Found(Kind, u32),
    Failed(StoreError),
}

impl From<StoreError> for Stop {
    ghost use Rattle.fsck_core.specs.declared.stop.Stop.TheVariants.{Failed};

    ghost from_gives = { λ error stop. stop ≡ Failed error };

    fn from(error: StoreError) -> Self {
        Stop::Failed(error)
    }
}

impl From<DiskFault> for Stop {
    ghost use Rattle.meta_store.specs.declared.error.StoreError.TheVariants.{Disk};
    ghost use Rattle.fsck_core.specs.declared.stop.Stop.TheVariants.{Failed};

    ghost from_gives = { λ _ stop. stop ≡ Failed Disk };

    fn from(_: DiskFault) -> Self {
        Stop::Failed(StoreError::Disk)
    }
}

impl From<Mem> for Stop {
    ghost use Rattle.meta_store.specs.declared.error.StoreError.TheVariants.{Mem as no_memory};
    ghost use Rattle.fsck_core.specs.declared.stop.Stop.TheVariants.{Failed};

    ghost from_gives = { λ _ stop. stop ≡ Failed no_memory };

    fn from(_: Mem) -> Self {
        Stop::Failed(StoreError::Mem)
    }
}

impl<T: Drop> From<AllocFailed<T>> for Stop {
    ghost use Rattle.meta_store.specs.declared.error.StoreError.TheVariants.{Mem as no_memory};
    ghost use Rattle.fsck_core.specs.declared.stop.Stop.TheVariants.{Failed};

    ghost from_gives = { λ _ stop. stop ≡ Failed no_memory };

    fn from(_: AllocFailed<T>) -> Self {
        Stop::Failed(StoreError::Mem)
    }
}

impl From<AllocError> for Stop {
    ghost use Rattle.meta_store.specs.declared.error.StoreError.TheVariants.{Mem as no_memory};
    ghost use Rattle.fsck_core.specs.declared.stop.Stop.TheVariants.{Failed};

    ghost from_gives = { λ _ stop. stop ≡ Failed no_memory };

    fn from(_: AllocError) -> Self {
        Stop::Failed(StoreError::Mem)
    }
}

/// Goes on where nothing is found that breaks the rule.
pub(crate) fn unless_found(kind: Kind, found: Option<u32>) -> Result<(), Stop>
    ensures { result ≡ unless_found kind found }
{
    match found {
        None => Ok(()),
        Some(number) => Err(Stop::Found(kind, number)),
    }
}
