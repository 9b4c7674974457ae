//! Reads an inode record from its 128 bytes and writes it there.
ghost use Rattle.std.specs.Prelude.{◌≡◌, Some, length, option_map, IfOk, IfSome};
ghost use Rattle.std.specs.Result.{result_ok};
ghost use Rattle.volume_model.specs.Format.{is_mode, has_indirect, is_dinode, dinode_of, dinode_bytes, IsDinode};

use crate::numbers::{get_numbers, put_numbers};
use lufs_base::{are_zeros, get_u16, get_u32, get_u64, put_u16, put_u32, put_u64};
use volume_model::Dinode;

/// The bytes aren't an inode record.
#[derive(Clone, Copy, Debug, PartialEq, Eq)]
pub struct BadInode;

// Whether the mode is that of a file, a directory or a link, with rights of 0 to 0777.
fn is_mode(mode: u16) -> bool
    ensures { result ≡ is_mode mode }
{
    matches!(mode, 0o100000..=0o100777 | 0o040000..=0o040777 | 0o120000..=0o120777)
}

// Whether the version has such a second and third indirect block.
fn has_indirect(version: u32, second: u32, third: u32) -> bool
    ensures { result ≡ has_indirect version second third }
{
    version != 1 || (second == 0 && third == 0)
}

// Whether the bytes are the record of an inode in use.
#[tactic(auto, using(std::proofs::lemmas::List::take_rest))]
fn is_dinode(version: u32, bytes: &[u8]) -> bool
    requires { length bytes.now ≡ 128 }
    ensures { result ≡ is_dinode version bytes.now }
{
    if !is_mode(get_u16(bytes, 0)) {
        return false;
    }
    if !are_zeros(&bytes[12..16]) {
        return false;
    }
    if !are_zeros(&bytes[96..]) {
        return false;
    }
    has_indirect(version, get_u32(bytes, 84), get_u32(bytes, 88))
}

/// Reads an inode from its record (`docs/FORMAT.md`, "Inode record"), or `None` where the record is free. It
/// answers an error exactly where the format allows no such record.
#[tactic(auto, unfolding(volume_model::specs::Format::InodeRecords::dinode_of))]
pub fn read_dinode(version: u32, bytes: &[u8]) -> Result<Option<Dinode>, BadInode>
    requires { length bytes.now ≡ 128 }
    ensures value { result_ok result ≡ dinode_of version bytes.now }
    ensures inode { IfOk result (λ d. IfSome d (IsDinode version)) }
{
    if are_zeros(bytes) {
        return Ok(None);
    }
    if !is_dinode(version, bytes) {
        return Err(BadInode);
    }
    Ok(Some(Dinode {
        mode: get_u16(bytes, 0),
        links: get_u16(bytes, 2),
        uid: get_u32(bytes, 4),
        gid: get_u32(bytes, 8),
        size: get_u64(bytes, 16),
        mtime: get_u64(bytes, 24),
        direct: get_numbers(bytes, 32),
        indirect: get_numbers(bytes, 80),
        blocks: get_u32(bytes, 92),
    }))
}

// Writes the record of an inode.
fn put_dinode(d: &Dinode, out: &mut [u8])
    requires { length out.old ≡ 128 }
    ensures { out.new ≡ dinode_bytes (Some d.now) }
{
    out.fill(0);
    put_u16(out, 0, d.mode);
    put_u16(out, 2, d.links);
    put_u32(out, 4, d.uid);
    put_u32(out, 8, d.gid);
    put_u64(out, 16, d.size);
    put_u64(out, 24, d.mtime);
    put_numbers(out, 32, &d.direct);
    put_numbers(out, 80, &d.indirect);
    put_u32(out, 92, d.blocks);
}

/// Writes the record of this inode, or that of a free one (`docs/FORMAT.md`, "Inode record").
#[tactic(auto, unfolding(volume_model::specs::Format::InodeRecords::dinode_bytes))]
pub fn write_dinode(d: Option<&Dinode>, out: &mut [u8])
    requires { length out.old ≡ 128 }
    ensures { out.new ≡ dinode_bytes (option_map (λ d. d.now) d.entry) }
{
    match d {
        None => out.fill(0),
        Some(d) => put_dinode(d, out),
    }
}
