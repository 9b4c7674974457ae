//! The change that one call is making, what is read with it, and what is put into it.
ghost use Rattle.std.specs.Prelude.{◌≡◌, ◌≤◌, ◌*◌, [], length, All, IfOk, IfSome, option_map};
ghost use Rattle.std.specs.Option.{option_flatten};
ghost use Rattle.lufs_base.specs.Layout.{IsGeometry};
ghost use Rattle.volume_model.specs.Format.{dinode_of, group_of, numbers_bytes, IsDinode, IsGroup};
ghost use Rattle.cyl_groups.specs.Group.{record_of, HasSizesOf};
ghost use Rattle.meta_store.specs.Laid.{IsWithinBlock};
ghost use Rattle.meta_store.specs.Merged.{merged};
ghost use Rattle.meta_draft.specs.OnBlock.{IsInOneBlock};

use crate::blocks::{lay_on, lay_raw};
use cyl_groups::{Group, read_group, write_group};
use dir_blocks::{Chunk, write_chunk};
use inode_table::{put_numbers, read_dinode, write_dinode};
use lufs_base::{
    BLOCK, BlockNo, Bytes, Delta, DeltaKind, DeltaList, DiskFault, Geometry, Ino, Mem,
};
use meta_store::{Change, Freed, MetaRead, RawWrite, merged};
use std::alloc::Global;
use volume_model::Dinode;

/// The bytes of the record of a group.
const GROUP: usize = 416;

/// The bytes of the record of an inode.
const INODE: usize = 128;

/// The bytes of a chunk.
const CHUNK: usize = 512;

/// What one call has changed so far. A store doesn't have it yet, and is given at each read.
#[derive(Debug, Drop)]
pub struct Draft {
    pub change: Change,
    pub ghost within: { All IsWithinBlock change.deltas },
    pub ghost raw_within: { All IsInOneBlock change.raw },
}

// The deltas as a list.
fn list_of(alloc: Global, deltas: Vec<Delta>) -> Result<DeltaList, Mem>
    ensures { IfOk result (λ list. list ≡ deltas.items) }
{
    let mut list = DeltaList::new(alloc);
    for delta in deltas {
        list.push(delta)?;
    }
    Ok(list)
}

// The deltas with one more.
fn list_with(alloc: Global, deltas: &[Delta], delta: &Delta) -> Result<DeltaList, Mem>
    requires deltas { All IsWithinBlock deltas.now }
    requires delta { IsWithinBlock delta.now }
    ensures list { IfOk result (λ list. list ≡ merged deltas.now delta.now) }
    ensures within { IfOk result (λ list. All IsWithinBlock list) }
{
    let all = merged(alloc, deltas, delta)?;
    let list = list_of(alloc, all)?;
    Ok(list)
}

// The address of the front of a block, in bytes.
fn front_of(b: BlockNo) -> u64
    ensures { result ≡ 4096 * b.0 }
{
    BLOCK as u64 * u64::from(b.0)
}

// The delta of a whole block.
fn whole_block(alloc: Global, kind: DeltaKind, b: BlockNo) -> Delta
    ensures { result ≡ record { kind = kind; home = 4096 * b.0; len = 4096; bytes = [] } }
{
    Delta {
        kind,
        home: front_of(b),
        len: 4096,
        bytes: Bytes::from_vec(Vec::new(alloc)),
    }
}

// The bytes of these numbers.
fn bytes_of(alloc: Global, numbers: &[u32]) -> Result<Vec<u8>, Mem>
    requires { length numbers.now ≤ 1024 }
    ensures bytes { IfOk result (λ bytes. bytes.items ≡ numbers_bytes numbers.now) }
    ensures size { IfOk result (λ bytes. length bytes.items ≡ 4 * length numbers.now) }
{
    let mut bytes = vec![in alloc; 0u8; 4 * numbers.len()]?;
    put_numbers(bytes.as_mut_slice(), 0, numbers);
    Ok(bytes)
}

// The record that these bytes are, if it is one in use.
fn used_record(version: u32, bytes: &[u8]) -> Option<Dinode>
    requires { length bytes.now ≡ 128 }
    ensures value { result ≡ option_flatten (dinode_of version bytes.now) }
    ensures inode { IfSome result (IsDinode version) }
{
    read_dinode(version, bytes).ok().flatten()
}

// The record of group n that these bytes are, if they are one.
fn group_record(g: &Geometry, n: u32, bytes: &[u8]) -> Option<Group>
    requires geometry { IsGeometry g.now }
    requires record { length bytes.now ≡ 416 }
    ensures value { option_map record_of result ≡ group_of g.now n bytes.now }
    ensures sizes { IfSome result (HasSizesOf g.now) }
    ensures group { IfSome result (λ x. IsGroup g.now n (record_of x)) }
{
    read_group(g, n, bytes).ok()
}

impl Draft {
    ghost use Rattle.std.specs.Prelude.{◌≡◌, ◌<◌, ◌≤◌, ◌+◌, ◌*◌, ◌%◌, [], length, IfOk, OnOk, OnErr, option_map};
    ghost use Rattle.lufs_base.specs.Layout.{IsGeometry, blocks_of};
    ghost use Rattle.volume_model.specs.Format.{inodes_of, group_bytes, dinode_bytes, chunk_bytes, numbers_bytes};
    ghost use Rattle.volume_model.specs.Log.{delta_bytes, logged_len};
    ghost use Rattle.sector_disk.specs.Disk.{CountsFailure};
    ghost use Rattle.cyl_groups.specs.Group.{record_of};
    ghost use Rattle.meta_store.specs.Store.{IsBlockRead, IsUnchanged};
    ghost use Rattle.meta_store.specs.Changing.{IsKept};
    ghost use Rattle.meta_store.specs.NoChange.{no_change};
    ghost use Rattle.meta_store.specs.Laid.{IsWithinBlock};
    ghost use Rattle.meta_store.specs.Deltas.{group_delta, inode_delta, chunk_delta, pointers_delta, zero_delta, text_delta};
    ghost use Rattle.meta_draft.specs.Drafted.{drafted, with_delta, with_freed, with_taken, with_raw};
    ghost use Rattle.meta_draft.specs.Records.{IsInodeRead, IsGroupRead};
    ghost use Rattle.meta_draft.specs.OnBlock.{IsInOneBlock};

    /// No change yet.
    pub fn new(alloc: Global) -> Self
        ensures { result.change ≡ no_change }
    {
        Draft {
            change: Change::new(alloc),
        }
    }

    /// The change, for a store to take.
    pub fn into_change(self) -> Change
        ensures { result ≡ self.change }
    {
        self.change
    }

    /// Reads block `b` of the store as it is with this change, 4,096 bytes. After an `Err` `out` holds anything.
    pub fn block<S: MetaRead>(
        &self,
        store: &mut S,
        b: BlockNo,
        out: &mut [u8],
    ) -> Result<(), DiskFault>
        requires inside { b.0 < blocks_of (S.store store.old).geometry }
        requires size { length out.old ≡ 4096 }
        ensures bytes { OnOk result (IsBlockRead b.0 out.new (drafted self.now.change (S.store store.old))) }
        ensures unchanged { IsUnchanged (S.store store.old) (S.store store.new) }
        ensures kept { IsKept (S.changing store.old) (S.changing store.new) }
        ensures failure { CountsFailure result (S.store store.old).disk (S.store store.new).disk }
    {
        store.block(b, out)?;
        lay_raw(self.change.raw.as_slice(), b, out);
        lay_on(self.change.deltas.as_slice(), b, out);
        Ok(())
    }

    /// Inode `i` of the store with this change, if its record is one in use.
    pub fn inode<S: MetaRead>(&self, store: &mut S, i: Ino) -> Result<Option<Dinode>, DiskFault>
        requires inside { i.0 < inodes_of (S.store store.old).geometry }
        ensures read { IfOk result (λ answer. IsInodeRead i.0 answer (drafted self.now.change (S.store store.old))) }
        ensures unchanged { IsUnchanged (S.store store.old) (S.store store.new) }
        ensures kept { IsKept (S.changing store.old) (S.changing store.new) }
        ensures failure { CountsFailure result (S.store store.old).disk (S.store store.new).disk }
    {
        let g = *store.geometry();
        let place = g.inode_place(i);
        let b = (place / BLOCK as u64) as u32;
        let mut bytes = [0; BLOCK];
        self.block(store, BlockNo(b), &mut bytes)?;
        let at = (place % BLOCK as u64) as usize;
        let end = at + INODE;
        Ok(used_record(g.version, &bytes[at..end]))
    }

    /// Group `n` of the store with this change, if its bytes are a record of it.
    pub fn group<S: MetaRead>(&self, store: &mut S, n: u32) -> Result<Option<Group>, DiskFault>
        requires inside { n < (S.store store.old).geometry.groups }
        ensures read { IfOk result (λ answer. IsGroupRead n answer (drafted self.now.change (S.store store.old))) }
        ensures unchanged { IsUnchanged (S.store store.old) (S.store store.new) }
        ensures kept { IsKept (S.changing store.old) (S.changing store.new) }
        ensures failure { CountsFailure result (S.store store.old).disk (S.store store.new).disk }
    {
        let g = *store.geometry();
        let mut bytes = [0; BLOCK];
        self.block(store, g.group_block(n), &mut bytes)?;
        Ok(group_record(&g, n, &bytes[..GROUP]))
    }

    // Puts a delta into the change.
    fn put(&mut self, alloc: Global, delta: &Delta) -> Result<(), Mem>
        requires { IsWithinBlock delta.now }
        ensures ok { OnOk result (self.new.change ≡ with_delta self.old.change delta.now) }
        ensures err { OnErr result (self.new.change ≡ self.old.change) }
        ensures growth { delta_bytes self.new.change.deltas ≤ delta_bytes self.old.change.deltas + (16 + logged_len delta.now.kind delta.now.len) }
    {
        self.change.deltas = list_with(alloc, self.change.deltas.as_slice(), delta)?;
        Ok(())
    }

    // Puts a delta with these bytes into the change.
    fn put_bytes(
        &mut self,
        alloc: Global,
        kind: DeltaKind,
        home: u64,
        bytes: &[u8],
    ) -> Result<(), Mem>
        requires { home % 4096 + length bytes.now ≤ 4096 }
        ensures ok { OnOk result (self.new.change ≡ with_delta self.old.change (record { kind = kind; home = home; len = length bytes.now; bytes = bytes.now })) }
        ensures err { OnErr result (self.new.change ≡ self.old.change) }
        ensures growth { delta_bytes self.new.change.deltas ≤ delta_bytes self.old.change.deltas + (16 + length bytes.now) }
    {
        let delta = Delta {
            kind,
            home,
            len: bytes.len() as u32,
            bytes: Bytes::from_slice(alloc, bytes)?,
        };
        self.put(alloc, &delta)
    }

    /// Puts the record of group `n` into the change. An `Err` leaves the draft as it was.
    pub fn put_group(
        &mut self,
        alloc: Global,
        g: &Geometry,
        n: u32,
        group: &Group,
    ) -> Result<(), Mem>
        requires geometry { IsGeometry g.now }
        requires inside { n < g.now.groups }
        ensures ok { OnOk result (self.new.change ≡ with_delta self.old.change (group_delta g.now n (group_bytes (record_of group.now)))) }
        ensures err { OnErr result (self.new.change ≡ self.old.change) }
        ensures growth { delta_bytes self.new.change.deltas ≤ delta_bytes self.old.change.deltas + 432 }
    {
        let mut bytes = [0; GROUP];
        write_group(group, &mut bytes);
        let home = front_of(g.group_block(n));
        self.put_bytes(alloc, DeltaKind::Group, home, &bytes)
    }

    /// Puts the record of inode `i` into the change, or that of a free one. An `Err` leaves the draft as it was.
    pub fn put_inode(
        &mut self,
        alloc: Global,
        g: &Geometry,
        i: Ino,
        d: Option<&Dinode>,
    ) -> Result<(), Mem>
        requires geometry { IsGeometry g.now }
        requires inside { i.0 < inodes_of g.now }
        ensures ok { OnOk result (self.new.change ≡ with_delta self.old.change (inode_delta g.now i.0 (dinode_bytes (option_map (λ d. d.now) d.entry)))) }
        ensures err { OnErr result (self.new.change ≡ self.old.change) }
        ensures growth { delta_bytes self.new.change.deltas ≤ delta_bytes self.old.change.deltas + 144 }
    {
        let mut bytes = [0; INODE];
        write_dinode(d, &mut bytes);
        self.put_bytes(alloc, DeltaKind::Inode, g.inode_place(i), &bytes)
    }

    /// Puts chunk `k` of block `b`, of its eight, into the change. An `Err` leaves the draft as it was.
    pub fn put_chunk(&mut self, alloc: Global, b: BlockNo, k: u32, chunk: &Chunk) -> Result<(), Mem>
        requires { k < 8 }
        ensures ok { OnOk result (self.new.change ≡ with_delta self.old.change (chunk_delta b.0 k (chunk_bytes chunk.now))) }
        ensures err { OnErr result (self.new.change ≡ self.old.change) }
        ensures growth { delta_bytes self.new.change.deltas ≤ delta_bytes self.old.change.deltas + 528 }
    {
        let mut bytes = [0; CHUNK];
        write_chunk(chunk, &mut bytes);
        let home = front_of(b) + CHUNK as u64 * u64::from(k);
        self.put_bytes(alloc, DeltaKind::Chunk, home, &bytes)
    }

    /// Puts the numbers of pointer block `b` from entry `j` on into the change. An `Err` leaves the draft as it was.
    pub fn put_pointers(
        &mut self,
        alloc: Global,
        b: BlockNo,
        j: u32,
        numbers: &[u32],
    ) -> Result<(), Mem>
        requires { j + length numbers.now ≤ 1024 }
        ensures ok { OnOk result (self.new.change ≡ with_delta self.old.change (pointers_delta b.0 j (numbers_bytes numbers.now))) }
        ensures err { OnErr result (self.new.change ≡ self.old.change) }
        ensures growth { delta_bytes self.new.change.deltas ≤ delta_bytes self.old.change.deltas + (16 + 4 * length numbers.now) }
    {
        let bytes = bytes_of(alloc, numbers)?;
        let home = front_of(b) + 4 * u64::from(j);
        self.put_bytes(alloc, DeltaKind::Pointers, home, &bytes)
    }

    /// Puts zeros into the whole of block `b` in the change. An `Err` leaves the draft as it was.
    pub fn put_zeros(&mut self, alloc: Global, b: BlockNo) -> Result<(), Mem>
        ensures ok { OnOk result (self.new.change ≡ with_delta self.old.change (zero_delta b.0)) }
        ensures err { OnErr result (self.new.change ≡ self.old.change) }
        ensures growth { delta_bytes self.new.change.deltas ≤ delta_bytes self.old.change.deltas + 16 }
    {
        let delta = whole_block(alloc, DeltaKind::Zero, b);
        self.put(alloc, &delta)
    }

    /// Puts the text of a link, in block `b`, into the change. An `Err` leaves the draft as it was.
    pub fn put_text(&mut self, alloc: Global, b: BlockNo, text: &[u8]) -> Result<(), Mem>
        requires { length text.now ≤ 4096 }
        ensures ok { OnOk result (self.new.change ≡ with_delta self.old.change (text_delta b.0 text.now)) }
        ensures err { OnErr result (self.new.change ≡ self.old.change) }
        ensures growth { delta_bytes self.new.change.deltas ≤ delta_bytes self.old.change.deltas + (16 + length text.now) }
    {
        self.put_bytes(alloc, DeltaKind::LinkText, front_of(b), text)
    }

    /// Frees a block, whose deltas become void if it held metadata. An `Err` leaves the draft as it was.
    pub fn free(&mut self, alloc: Global, freed: Freed) -> Result<(), Mem>
        ensures ok { OnOk result (self.new.change ≡ with_freed self.old.change freed) }
        ensures err { OnErr result (self.new.change ≡ self.old.change) }
        ensures growth { delta_bytes self.new.change.deltas ≤ delta_bytes self.old.change.deltas + 16 }
    {
        if !freed.meta {
            return self.change.freed.push(freed);
        }
        let cancel = whole_block(alloc, DeltaKind::Cancel, freed.block);
        let deltas = list_with(alloc, self.change.deltas.as_slice(), &cancel)?;
        self.change.freed.push(freed)?;
        self.change.deltas = deltas;
        Ok(())
    }

    /// Takes block `b`. An `Err` leaves the draft as it was.
    pub fn take(&mut self, b: BlockNo) -> Result<(), Mem>
        ensures ok { OnOk result (self.new.change ≡ with_taken self.old.change b.0) }
        ensures err { OnErr result (self.new.change ≡ self.old.change) }
    {
        self.change.taken.push(b)
    }

    /// Writes bytes of a file in place, within one block. An `Err` leaves the draft as it was.
    pub fn write(&mut self, write: RawWrite) -> Result<(), Mem>
        requires { IsInOneBlock write }
        ensures ok { OnOk result (self.new.change ≡ with_raw self.old.change write) }
        ensures err { OnErr result (self.new.change ≡ self.old.change) }
    {
        self.change.raw.push(write)
    }
}
