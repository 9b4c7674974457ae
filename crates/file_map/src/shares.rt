//! Which of the blocks that are given up lie in a group.
ghost use Rattle.std.specs.Prelude.{◌≡◌, ◌<◌, ◌++◌, ◌∷◌, [], if◌then◌else◌, OnOk, IfOk};
ghost use Rattle.std.specs.List.{filter};
ghost use Rattle.lufs_base.specs.Layout.{IsGeometry};
ghost use Rattle.change_laws.specs.Marks.{group_of_block};
ghost use Rattle.file_map.specs.Freed.{is_block_of, inode_in};

use lufs_base::{BlockNo, Geometry, Ino, Mem};
use meta_store::Freed;
use std::alloc::Global;

// The group that a block lies in, which is one of a group.
fn group_of_block(g: &Geometry, b: BlockNo) -> u32
    requires { IsGeometry g.now }
    ensures { result ≡ group_of_block g.now b.0 }
{
    b.0.saturating_sub(g.group_block(0).0) / g.bpg
}

// Whether this is a body block of group `n`.
fn is_block_of(g: &Geometry, n: u32, freed: Freed) -> bool
    requires { IsGeometry g.now }
    ensures { result ≡ is_block_of g.now n freed }
{
    let b = freed.block;
    g.is_body(b) && group_of_block(g, b) == n
}

// Adds the block to the list, if it is one of group `n`.
fn push_if(list: &mut Vec<Freed>, g: &Geometry, n: u32, freed: Freed) -> Result<(), Mem>
    requires { IsGeometry g.now }
    ensures { OnOk result (list.new.items ≡ list.old.items ++ (if is_block_of g.now n freed then freed ∷ [] else [])) }
{
    if is_block_of(g, n, freed) {
        list.push(freed)?;
    }
    Ok(())
}

/// The blocks of group `n` among these.
pub(crate) fn share_of(
    alloc: Global,
    g: &Geometry,
    n: u32,
    freed: &[Freed],
) -> Result<Vec<Freed>, Mem>
    requires { IsGeometry g.now }
    ensures { IfOk result (λ share. share.items ≡ filter (is_block_of g.now n) freed.now) }
{
    let mut share = Vec::new(alloc);
    for f in freed {
        push_if(&mut share, g, n, *f)?;
    }
    Ok(share)
}

/// The inode, if there is one and it is of group `n`.
pub(crate) fn inode_in(g: &Geometry, n: u32, inode: Option<Ino>) -> Option<Ino>
    requires { IsGeometry g.now }
    ensures { result ≡ inode_in g.now n inode }
{
    match inode {
        Some(i) if i.0 / g.ipg == n => Some(i),
        _ => None,
    }
}
