//! Reads a group record from its bytes and writes it there.
ghost use Rattle.std.specs.Prelude.{◌≡◌, length, option_map, IfOk};
ghost use Rattle.std.specs.Result.{result_ok};
ghost use Rattle.lufs_base.specs.Layout.{IsGeometry};
ghost use Rattle.volume_model.specs.Format.{has_clear_rest, has_reserved, group_of, group_bytes, IsGroup};
ghost use Rattle.cyl_groups.specs.Group.{record_of, HasSizesOf};

use crate::Group;
use crate::bits::are_set;
use lufs_base::{Geometry, are_zeros, get_u32, put_u32};

/// The first four bytes of a group record, as in UFS.
const MAGIC: u32 = 0x0009_0255;

/// The bytes aren't a record of the group.
#[derive(Clone, Copy, Debug, PartialEq, Eq)]
pub struct BadGroup;

// Whether the bits past the group's inodes and blocks are clear.
fn has_clear_rest(g: &Geometry, group: &Group) -> bool
    requires { IsGeometry g.now }
    ensures { result ≡ has_clear_rest g.now (record_of group.now) }
{
    are_zeros(&group.inode_bits[(g.ipg / 8) as usize..])
        && are_zeros(&group.block_bits[(g.bpg / 8) as usize..])
}

// Whether the bits of what is never free are set.
fn has_reserved(g: &Geometry, group: &Group) -> bool
    requires { IsGeometry g.now }
    ensures { result ≡ has_reserved g.now (record_of group.now) }
{
    are_set(&group.block_bits, 1 + g.ipg / 32)
        && (group.number != 0 || are_set(&group.inode_bits, 2))
}

/// Reads the record of group `n` (`docs/FORMAT.md`, "Group record"). It answers an error exactly where the format
/// allows no record. The record's counts aren't compared with its bits.
pub fn read_group(g: &Geometry, n: u32, bytes: &[u8]) -> Result<Group, BadGroup>
    requires geometry { IsGeometry g.now }
    requires record { length bytes.now ≡ 416 }
    ensures value { option_map record_of (result_ok result) ≡ group_of g.now n bytes.now }
    ensures sizes { IfOk result (HasSizesOf g.now) }
    ensures group { IfOk result (λ x. IsGroup g.now n (record_of x)) }
{
    let mut inode_bits = [0; 128];
    inode_bits.copy_from_slice(&bytes[32..160]);
    let mut block_bits = [0; 256];
    block_bits.copy_from_slice(&bytes[160..]);
    let group = Group {
        number: get_u32(bytes, 4),
        free_inodes: get_u32(bytes, 8),
        free_blocks: get_u32(bytes, 12),
        ipg: g.ipg,
        bpg: g.bpg,
        inode_bits,
        block_bits,
    };
    if get_u32(bytes, 0) != MAGIC {
        return Err(BadGroup);
    }
    if group.number != n {
        return Err(BadGroup);
    }
    if !are_zeros(&bytes[16..32]) {
        return Err(BadGroup);
    }
    if !has_clear_rest(g, &group) {
        return Err(BadGroup);
    }
    if !has_reserved(g, &group) {
        return Err(BadGroup);
    }
    Ok(group)
}

/// Writes the group's record (`docs/FORMAT.md`, "Group record").
pub fn write_group(group: &Group, out: &mut [u8])
    requires { length out.old ≡ 416 }
    ensures { out.new ≡ group_bytes (record_of group.now) }
{
    put_u32(out, 0, MAGIC);
    put_u32(out, 4, group.number);
    put_u32(out, 8, group.free_inodes);
    put_u32(out, 12, group.free_blocks);
    out[16..32].fill(0);
    out[32..160].copy_from_slice(&group.inode_bits);
    out[160..].copy_from_slice(&group.block_bits);
}
