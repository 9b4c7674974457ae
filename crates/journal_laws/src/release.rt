//! Which blocks a journal gives out.
ghost use Rattle.std.specs.Prelude.{◌≡◌, ℕ, true, false};
ghost use Rattle.lufs_base.specs.declared.geometry.Geometry.{Geometry};
ghost use Rattle.volume_model.specs.Crash.{Record};
ghost use Rattle.journal_model.specs.Journals.{Journal};
ghost use Rattle.journal_model.specs.Versions.{Version, txs_of};
ghost use Rattle.journal_model.specs.LaidBlocks.{is_laid_by};
ghost use Rattle.journal_model.specs.BlockRoles.{Roles};
ghost use Rattle.journal_model.specs.Batches.{is_held, is_released};
ghost use Rattle.journal_model.specs.Kept.{IsGone};
ghost use Rattle.journal_model.specs.Safety.{IsSafe};

/// No version claims a block that may be given out, no transaction that isn't committed cancels it, no batch holds it, and no
/// version lays bytes over it: neither a replay nor a roll writes there.
pub fn released_blocks()
    ensures { (g : Geometry) (roles : Roles) (r : Record) (j : Journal) (b : ℕ) → IsSafe g roles r j → is_released j b ≡ true
        → IsGone g roles j b × (is_held j b ≡ false) × ((v : Version) → is_laid_by (txs_of g j v) b ≡ false) }
{}
