//! The ring of the log, which is read from its head on in pieces, each sector at most once.
ghost use Rattle.std.specs.Prelude.{◌≡◌, ◌<◌, ◌≤◌, ◌+◌, ◌-◌, ◌*◌, ◌^◌, ◌&&◌, nat_lt, true, length, take, IfOk, OnOk, IfSome, [], get_or};
ghost use Rattle.lufs_base.specs.Layout.{IsGeometry, ring_of, blocks_of};
ghost use Rattle.volume_model.specs.Format.{sector, sectors_from};
ghost use Rattle.volume_model.specs.Log.{belongs_to};
ghost use Rattle.sector_disk.specs.Disk.{IsUnwritten, CountsFailure};
ghost use Rattle.log_scan.specs.Ring.{ring_in};
ghost use Rattle.log_scan.specs.Pieces.{Holds, Shows};

use crate::Header;
use log_format::read_trailer;
use lufs_base::{DiskFault, Geometry, Mem, PAYLOAD, SECTOR};
use sector_disk::Disk;
use std::alloc::Global;

// Whether the sector's trailer names this transaction of this epoch.
fn belongs_to(sector: &[u8], epoch: u32, tid: u64) -> bool
    requires { length sector.now ≡ 512 }
    ensures value { result ≡ belongs_to epoch tid sector.now }
    ensures number { result ≡ true → tid < 2 ^ 32 }
{
    let trailer = read_trailer(sector);
    u64::from(trailer.tid) == tid && trailer.ident == epoch
}

// Reads so many sectors, from sector `first` of the disk on, to the front of these bytes.
fn read_to_front<D: Disk>(
    disk: &mut D,
    first: u64,
    count: u32,
    out: &mut [u8],
) -> Result<(), DiskFault>
    requires some { 0 < count }
    requires inside { first + count ≤ (D.told disk.old).sectors }
    requires room { 512 * count ≤ length out.old }
    ensures bytes { OnOk result (IfSome (D.told disk.old).present (λ image. take (512 * count) out.new ≡ sectors_from image first count)) }
    ensures unwritten { IsUnwritten (D.told disk.old) (D.told disk.new) }
    ensures failure { CountsFailure result (D.told disk.old) (D.told disk.new) }
{
    disk.read(first, &mut out[..SECTOR * count as usize])
}

/// The most sectors of a piece.
const PIECE: u32 = 128;

/// The sectors of the ring that were read last. The ring is numbered from its head on.
#[derive(Drop)]
pub(crate) struct Piece {
    first: u32,
    count: u32,
    bytes: Vec<u8>,
}

impl Piece {
    /// A piece of no sectors.
    pub(crate) fn new(alloc: Global) -> Result<Self, Mem>
        ensures { IfOk result (λ piece. (length piece.bytes.items ≡ 65536) × (piece.count ≡ 0)) }
    {
        Ok(Piece {
            first: 0,
            count: 0,
            bytes: vec![in alloc; 0u8; SECTOR * PIECE as usize]?,
        })
    }

    // Reads the next piece, from sector `i` on. It ends where the volume's ring does, and where the ring has been
    // read once round.
    fn show<D: Disk>(
        &mut self,
        disk: &mut D,
        g: &Geometry,
        head: u32,
        i: u32,
    ) -> Result<(), DiskFault>
        requires geometry { IsGeometry g.now }
        requires head { head < ring_of g.now }
        requires disk { 8 * blocks_of g.now ≤ (D.told disk.old).sectors }
        requires inside { i < ring_of g.now }
        requires held { Holds g.now head (D.told disk.old).present self.old }
        ensures shown { OnOk result (Shows i self.new) }
        ensures held { Holds g.now head (D.told disk.old).present self.new }
        ensures unwritten { IsUnwritten (D.told disk.old) (D.told disk.new) }
        ensures failure { CountsFailure result (D.told disk.old) (D.told disk.new) }
    {
        if self.first <= i && i - self.first < self.count {
            return Ok(());
        }
        let place = (head + i) % g.ring();
        let count = PIECE.min(g.ring() - place).min(g.ring() - i);
        self.count = 0;
        read_to_front(disk, g.ring_place(place), count, &mut self.bytes)?;
        self.first = i;
        self.count = count;
        Ok(())
    }

    // Sector `i` of the ring.
    fn sector(&self, i: u32) -> &[u8]
        requires room { 512 * self.now.count ≤ length self.now.bytes.items }
        requires shown { Shows i self.now }
        ensures value { result.now ≡ sector self.now.bytes.items (i - self.now.first) }
        ensures size { length result.now ≡ 512 }
    {
        let at = SECTOR * (i - self.first) as usize;
        &self.bytes[at..at + SECTOR]
    }

    /// What sector `i` of the ring carries, without its trailer.
    pub(crate) fn carried(&self, i: u32) -> &[u8]
        requires room { 512 * self.now.count ≤ length self.now.bytes.items }
        requires shown { Shows i self.now }
        ensures value { result.now ≡ take 504 (sector self.now.bytes.items (i - self.now.first)) }
        ensures size { length result.now ≡ 504 }
    {
        &self.sector(i)[..PAYLOAD]
    }

    /// Whether the ring has a sector `i` that belongs to transaction `tid`. The piece then shows it.
    pub(crate) fn goes_on<D: Disk>(
        &mut self,
        disk: &mut D,
        g: &Geometry,
        header: &Header,
        tid: u64,
        i: u32,
    ) -> Result<bool, DiskFault>
        requires geometry { IsGeometry g.now }
        requires head { header.now.head < ring_of g.now }
        requires disk { 8 * blocks_of g.now ≤ (D.told disk.old).sectors }
        requires held { Holds g.now header.now.head (D.told disk.old).present self.old }
        ensures shown { IfOk result (λ more. more ≡ true → (i < ring_of g.now) × Shows i self.new × (tid < 2 ^ 32)) }
        ensures value { IfSome (D.told disk.old).present (λ image. IfOk result (λ more.
            more ≡ (nat_lt i (ring_of g.now) && belongs_to header.now.epoch tid (get_or (ring_in g.now header.now.head image) i [])))) }
        ensures held { Holds g.now header.now.head (D.told disk.old).present self.new }
        ensures unwritten { IsUnwritten (D.told disk.old) (D.told disk.new) }
        ensures failure { CountsFailure result (D.told disk.old) (D.told disk.new) }
    {
        if i >= g.ring() {
            return Ok(false);
        }
        self.show(disk, g, header.head, i)?;
        Ok(belongs_to(self.sector(i), header.epoch, tid))
    }
}
