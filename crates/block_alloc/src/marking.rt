//! The change that marks a hand in the records of the groups.
ghost use Rattle.std.specs.Prelude.{◌≡◌, ◌<◌, IfOk, length};
ghost use Rattle.lufs_base.specs.Layout.{IsGeometry};
ghost use Rattle.block_alloc.specs.Records.{IsReadGroup, AreReadGroups};
ghost use Rattle.block_alloc.specs.Marks.{IsOfVolume, IsMarkedDelta, AreMarkings, IsMarking};

use crate::marks::{counted, has_of_group, mark};
use cyl_groups::{Group, write_group};
use lufs_base::{BlockNo, Bytes, Delta, DeltaKind, DeltaList, Geometry, Mem};
use meta_store::{Change, FreedList, RawList};
use std::alloc::Global;
use volume_model::{BlockList, Hand};

// The delta of the record of group n with the hand's bits set, where the hand has some of it.
fn marked_delta(
    alloc: Global,
    g: &Geometry,
    n: u32,
    found: &Option<Group>,
    hand: &Hand,
) -> Result<Option<Delta>, Mem>
    requires geometry { IsGeometry g.now }
    requires within { n < g.now.groups }
    requires group { IsReadGroup g.now n found.now }
    requires hand { IsOfVolume g.now hand.now }
    ensures { IfOk result (IsMarkedDelta g.now n hand.now found.now) }
{
    let Some(group) = found else {
        return Ok(None);
    };
    if !has_of_group(g, hand, n) {
        return Ok(None);
    }
    let mut group = counted(g, group);
    mark(g, &mut group, hand);
    let mut bytes = [0; 416];
    write_group(&group, &mut bytes);
    Ok(Some(Delta {
        kind: DeltaKind::Group,
        home: 4096 * u64::from(g.group_block(n).0),
        len: 416,
        bytes: Bytes::from_slice(alloc, &bytes)?,
    }))
}

// The same blocks.
fn copy_of(alloc: Global, blocks: &[u32]) -> Result<BlockList, Mem>
    ensures { IfOk result (λ copy. copy ≡ blocks.now) }
{
    let mut copy = BlockList::new(alloc);
    for b in blocks {
        copy.push(BlockNo(*b))?;
    }
    Ok(copy)
}

// A delta for each group of which the hand has some, in rising order.
fn marking_deltas(
    alloc: Global,
    g: &Geometry,
    records: &[Option<Group>],
    hand: &Hand,
) -> Result<DeltaList, Mem>
    requires geometry { IsGeometry g.now }
    requires size { length records.now ≡ g.now.groups }
    requires groups { AreReadGroups g.now records.now }
    requires hand { IsOfVolume g.now hand.now }
    ensures { IfOk result (AreMarkings g.now records.now hand.now g.now.groups) }
{
    let mut deltas = DeltaList::new(alloc);
    for n in 0..g.groups {
        if let Some(delta) = marked_delta(alloc, g, n, &records[n as usize], hand)? {
            deltas.push(delta)?;
        }
    }
    Ok(deltas)
}

/// The change that takes the hand's blocks and sets its bits.
pub(crate) fn marking(
    alloc: Global,
    g: &Geometry,
    records: &[Option<Group>],
    hand: &Hand,
) -> Result<Change, Mem>
    requires geometry { IsGeometry g.now }
    requires size { length records.now ≡ g.now.groups }
    requires groups { AreReadGroups g.now records.now }
    requires hand { IsOfVolume g.now hand.now }
    ensures { IfOk result (IsMarking g.now records.now hand.now) }
{
    Ok(Change {
        deltas: marking_deltas(alloc, g, records, hand)?,
        taken: copy_of(alloc, hand.blocks.as_slice())?,
        freed: FreedList::new(alloc),
        raw: RawList::new(alloc),
    })
}
