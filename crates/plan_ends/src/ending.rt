//! The change of a draft that is finished.
ghost use Rattle.std.specs.Prelude.{◌≡◌, ◌≤◌, []};
ghost use Rattle.lufs_base.specs.Layout.{IsGeometry};
ghost use Rattle.volume_model.specs.Log.{delta_bytes};
ghost use Rattle.dir_ops.specs.Edits.{PutsDeltas};
ghost use Rattle.draft_laws.specs.Drafts.{IsRecorded};
ghost use Rattle.meta_store.specs.NoChange.{no_change};

use crate::is_recorded;
use lufs_base::Geometry;
use meta_draft::Draft;
use meta_store::Change;
use std::alloc::Global;

/// The change of a draft, or none where it may not be recorded. One that was drawn by the content of a store always
/// may.
pub fn finished(alloc: Global, g: &Geometry, draft: Draft) -> Change
    requires { IsGeometry g.now }
    ensures recorded { IsRecorded g.now result }
    ensures whole { IsRecorded g.now draft.change → result ≡ draft.change }
    ensures deltas { PutsDeltas no_change draft.change → PutsDeltas no_change result }
    ensures taken { draft.change.taken ≡ [] → result.taken ≡ [] }
    ensures size { delta_bytes result.deltas ≤ delta_bytes draft.change.deltas }
{
    let change = draft.into_change();
    if !is_recorded(g, &change) {
        return Change::new(alloc);
    }
    change
}
