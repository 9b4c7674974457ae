//! The changes of small journals, so that a reader sees that what a change asks for can be met.
ghost use Rattle.std.specs.Prelude.{ℕ, [], true, false};
ghost use Rattle.volume_model.specs.Format.{Image};
ghost use Rattle.volume_model.specs.Worked.{smallest};
ghost use Rattle.journal_model.specs.BlockRoles.{Changes};
ghost use Rattle.journal_model.specs.Changes.{owner_after};
ghost use Rattle.journal_model.specs.Steps.{Step};
ghost use Rattle.journal_model.specs.Worked.{mounted_at, removal, with_directory};
ghost use Rattle.journal_laws.specs.Worked.{with_block, making, reserved};

/// A directory is made with block 38, which may be given out, and removed: its block is cancelled and freed.
pub fn changes_of_a_directory()
    ensures made { (home : Image) → Step smallest (λ v. with_block false) home (reserved (mounted_at 0 1) 1000) (Changes (with_block true)) []
        (record (reserved (mounted_at 0 1) 1000) { running = making.deltas; owners = owner_after smallest (reserved (mounted_at 0 1) 1000) making; unspent = 456 }) }
    ensures removed { (home : Image) → Step smallest (λ v. with_block true) home (reserved with_directory 16) (Changes (with_block false)) []
        (record (reserved with_directory 16) { running = removal.deltas; owners = owner_after smallest (reserved with_directory 16) removal; unspent = 0 }) }
{}
