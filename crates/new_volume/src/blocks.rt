//! The blocks of an empty volume: its log, its group records, its inodes and its root directory.
ghost use Rattle.std.specs.Prelude.{OnOk, ◌++◌, vec_len, ◌≤◌, length, ◌≡◌, ◌<◌, ◌+◌, ◌*◌, ◌^◌, ◌-◌, min, Some, IfOk, replicate, ◌/◌};
ghost use Rattle.lufs_base.specs.Layout.{IsGeometry};
ghost use Rattle.volume_model.specs.Format.{dinode_bytes, chunk_bytes};
ghost use Rattle.volume_model.specs.MkfsImage.{first_bits, used_inodes, used_blocks, root_block, made_group, made_root, block_with};
ghost use Rattle.cyl_groups.specs.Group.{record_of};
ghost use Rattle.new_volume.specs.Mkfs.{log_bytes, group_block_of, first_metadata};

use cyl_groups::{Group, write_group};
use dir_blocks::{Chunk, write_chunk};
use inode_table::{Dinode, write_dinode};
use log_format::{Header, write_header};
use lufs_base::{BLOCK, Geometry, Ino, Mem, SECTOR};
use std::alloc::Global;

/// The inode of the root directory.
const ROOT: Ino = Ino(2);

/// A directory, whose owner may do all and everybody else may read and search.
const ROOT_MODE: u16 = 0o040_755;

// Byte i of bits of which the first n are set.
fn first_byte(n: u32, i: u32) -> u8
    requires { i < 256 }
    ensures { result ≡ 2 ^ min 8 (n - 8 * i) - 1 }
{
    match n.saturating_sub(8 * i) {
        0 => 0x00,
        1 => 0x01,
        2 => 0x03,
        3 => 0x07,
        4 => 0x0f,
        5 => 0x1f,
        6 => 0x3f,
        7 => 0x7f,
        _ => 0xff,
    }
}

// Bits of which the first n are set.
fn first_bits<const N: usize>(n: u32) -> [u8; N]
    requires { N < 257 }
    ensures { result ≡ first_bits n N }
{
    let mut bits = [0; N];
    for i in 0..N {
        bits[i] = first_byte(n, i as u32);
    }
    bits
}

// The inodes of group n that are in use.
fn used_inodes(n: u32) -> u32
    ensures { result ≡ used_inodes n }
{
    if n == 0 { 3 } else { 0 }
}

// The blocks of group n that are in use.
fn used_blocks(g: &Geometry, n: u32) -> u32
    requires { IsGeometry g.now }
    ensures { result ≡ used_blocks g.now n }
{
    1 + g.ipg / 32 + if n == 0 { 1 } else { 0 }
}

// The record of group n.
fn new_group(g: &Geometry, n: u32) -> Group
    requires { IsGeometry g.now }
    ensures { record_of result ≡ made_group g.now n }
{
    let inodes = used_inodes(n);
    let blocks = used_blocks(g, n);
    Group {
        number: n,
        free_inodes: g.ipg - inodes,
        free_blocks: g.bpg - blocks,
        ipg: g.ipg,
        bpg: g.bpg,
        inode_bits: first_bits(inodes),
        block_bits: first_bits(blocks),
    }
}

// The root's record.
fn new_root(g: &Geometry, moment: u64) -> Dinode
    requires { IsGeometry g.now }
    ensures { result ≡ made_root g.now moment }
{
    let mut direct = [0; 12];
    direct[0] = g.group_block(0).0 + 1 + g.ipg / 32;
    Dinode {
        mode: ROOT_MODE,
        links: 2,
        uid: 0,
        gid: 0,
        size: SECTOR as u64,
        mtime: moment,
        direct,
        indirect: [0; 3],
        blocks: 1,
    }
}

// A block with these bytes from byte `at` on, and zeros elsewhere.
fn block_with(at: usize, bytes: &[u8]) -> [u8; BLOCK]
    requires { at + length bytes.now ≤ 4096 }
    ensures { result ≡ block_with at bytes.now }
{
    let mut block = [0; BLOCK];
    block[at..at + bytes.len()].copy_from_slice(bytes);
    block
}

/// The group block of group n.
pub fn group_block(g: &Geometry, n: u32) -> [u8; BLOCK]
    requires { IsGeometry g.now }
    ensures { result ≡ group_block_of g.now n }
{
    let mut record = [0; 416];
    write_group(&new_group(g, n), &mut record);
    block_with(0, &record)
}

// The first inode block of the volume, whose third record is the root's.
fn root_inode_block(g: &Geometry, moment: u64) -> [u8; BLOCK]
    requires { IsGeometry g.now }
    ensures { result ≡ block_with 256 (dinode_bytes (Some (made_root g.now moment))) }
{
    let mut record = [0; 128];
    write_dinode(Some(&new_root(g, moment)), &mut record);
    block_with(256, &record)
}

// The block of a directory that has this chunk alone.
fn chunk_block(chunk: &Chunk) -> [u8; BLOCK]
    ensures { result ≡ block_with 0 (chunk_bytes chunk.now) }
{
    let mut bytes = [0; SECTOR];
    write_chunk(chunk, &mut bytes);
    block_with(0, &bytes)
}

// Adds n zeros at the end.
fn push_zeros(bytes: &mut Vec<u8>, n: usize) -> Result<(), Mem>
    requires { vec_len bytes.old + n < 2 ^ 63 }
    ensures { OnOk result (bytes.new.items ≡ bytes.old.items ++ replicate n 0) }
{
    bytes.resize(bytes.len() + n, 0)?;
    Ok(())
}

/// The sectors of an empty log: its header, and a ring of zeros.
pub fn empty_log(alloc: Global, g: &Geometry) -> Result<Vec<u8>, Mem>
    requires { IsGeometry g.now }
    ensures { IfOk result (λ log. log.items ≡ log_bytes g.now) }
{
    let header = Header {
        epoch: 1,
        head: 0,
        tid: 1,
    };
    let mut sector = [0; SECTOR];
    write_header(&header, &mut sector);
    let sectors = g.log as usize;
    let mut log = Vec::with_capacity(alloc, SECTOR * sectors)?;
    log.extend_from_slice(&sector)?;
    push_zeros(&mut log, SECTOR * (sectors - 1))?;
    Ok(log)
}

/// The blocks of the first group's metadata: the group block, the inode blocks and that of the root.
pub fn first_metadata(alloc: Global, g: &Geometry, moment: u64) -> Result<Vec<u8>, Mem>
    requires { IsGeometry g.now }
    ensures { IfOk result (λ bytes. bytes.items ≡ first_metadata g.now moment) }
{
    let chunk = Chunk::new_directory(alloc, ROOT, ROOT)?;
    let inode_blocks = g.ipg as usize / 32;
    let mut bytes = Vec::with_capacity(alloc, BLOCK * (2 + inode_blocks))?;
    bytes.extend_from_slice(&group_block(g, 0))?;
    bytes.extend_from_slice(&root_inode_block(g, moment))?;
    push_zeros(&mut bytes, BLOCK * (inode_blocks - 1))?;
    bytes.extend_from_slice(&chunk_block(&chunk))?;
    Ok(bytes)
}

/// Room for the blocks of another group's metadata: its group block, and inode blocks of zeros.
pub fn other_metadata(alloc: Global, g: &Geometry) -> Result<Vec<u8>, Mem>
    requires { IsGeometry g.now }
    ensures { IfOk result (λ bytes. bytes.items ≡ replicate (4096 * (1 + g.now.ipg / 32)) 0) }
{
    Ok(vec![in alloc; 0u8; BLOCK * (1 + g.ipg as usize / 32)]?)
}
