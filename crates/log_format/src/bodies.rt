//! The homes in the body blocks of a group. After a delta in such a block most deltas have their homes in those of the
//! same group, and are judged without a division.
ghost use Rattle.std.specs.Prelude.{◌≡◌, ◌<◌};
ghost use Rattle.lufs_base.specs.Layout.{IsGeometry};
ghost use Rattle.lufs_base.specs.declared.geometry.Geometry.{Geometry as IsOfGeometry};
ghost use Rattle.volume_model.specs.Log.{may_be_logged};
ghost use Rattle.log_format.specs.BodyHomes.{AreInBodies, homes_of};

use crate::records::{is_home_of, is_part_of_block};
use lufs_base::{BLOCK, BlockNo, DeltaKind, Geometry, Region};

/// Homes from `first` on and before `end`, in bytes of the volume.
#[derive(Clone, Copy, Debug)]
pub(crate) struct BodyHomes {
    first: u64,
    end: u64,
}

// The homes in the body blocks of group n.
fn homes_of(g: &Geometry, n: u32) -> BodyHomes
    requires geometry { IsGeometry g.now }
    requires group { n < g.now.groups }
    ensures { result ≡ homes_of g.now n }
{
    let start = g.group_block(n).0;
    BodyHomes {
        first: BLOCK as u64 * u64::from(start + g.ipg / 32 + 1),
        end: BLOCK as u64 * u64::from(start + g.bpg),
    }
}

impl BodyHomes {
    pub(crate) fn none() -> Self
        ensures { (g : IsOfGeometry) → AreInBodies g result }
    {
        BodyHomes { first: 0, end: 0 }
    }

    // Whether a delta of this kind may have this home and this length, where its home isn't among these. If it lies in a
    // body block, these are the homes of its group from now on.
    #[tactic(auto, unfolding(volume_model::specs::Log::LogRecord::may_be_logged))]
    fn look_up(&mut self, g: &Geometry, kind: DeltaKind, home: u64, len: u32) -> bool
        requires geometry { IsGeometry g.now }
        requires bodies { AreInBodies g.now self.old }
        ensures value { result ≡ may_be_logged g.now kind home len }
        ensures bodies { AreInBodies g.now self.new }
    {
        if home / BLOCK as u64 >= u64::from(g.total()) {
            return false;
        }
        let region = g.region(BlockNo((home / BLOCK as u64) as u32));
        if let Region::Body(n) = region {
            *self = homes_of(g, n);
        }
        is_home_of(kind, region) && is_part_of_block(kind, (home % BLOCK as u64) as u32, len)
    }

    /// Whether a delta of this kind may have this home and this length.
    pub(crate) fn may_be_logged(
        &mut self,
        g: &Geometry,
        kind: DeltaKind,
        home: u64,
        len: u32,
    ) -> bool
        requires geometry { IsGeometry g.now }
        requires bodies { AreInBodies g.now self.old }
        ensures value { result ≡ may_be_logged g.now kind home len }
        ensures bodies { AreInBodies g.now self.new }
    {
        if self.first <= home && home < self.end {
            return is_home_of(kind, Region::Body(0))
                && is_part_of_block(kind, (home % BLOCK as u64) as u32, len);
        }
        self.look_up(g, kind, home, len)
    }
}
