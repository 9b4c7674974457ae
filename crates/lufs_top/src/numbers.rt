//! The numbers in the words of `mkfs`: read from digits, and tested against their ranges.
ghost use Rattle.std.specs.Prelude.{◌≡◌, Some, None, IfOk, IfErr};
ghost use Rattle.lufs_base.specs.Layout.{IsGeometry};
ghost use Rattle.lufs_top.specs.Numbers.{first_out_of_range, geometry_from, has_leading_zero, name_of_number, number_of};

use lufs_base::{Geometry, is_step};

/// The numbers that a new volume is to have, as they were given.
#[derive(Clone, Copy)]
pub(crate) struct VolumeNumbers {
    /// Groups of the volume.
    pub(crate) groups: u64,
    /// Blocks of a group.
    pub(crate) bpg: u64,
    /// Inodes of a group.
    pub(crate) ipg: u64,
    /// Sectors of the log, with its header.
    pub(crate) log: u64,
}

/// A number of a new volume that can be wrong.
#[derive(Clone, Copy)]
pub(crate) enum GeometryWord {
    Groups,
    Bpg,
    Ipg,
    Log,
    /// The sectors of the disk.
    Sectors,
}

impl GeometryWord {
    /// The name that it is printed by.
    pub(crate) fn name(self) -> &'static str
        ensures { result.now ≡ name_of_number self }
    {
        match self {
            GeometryWord::Groups => "G",
            GeometryWord::Bpg => "bpg",
            GeometryWord::Ipg => "ipg",
            GeometryWord::Log => "L",
            GeometryWord::Sectors => "sectors",
        }
    }
}

/// A number that is out of its range, or too small.
#[derive(Clone, Copy)]
pub(crate) struct BadNumber {
    pub(crate) word: GeometryWord,
    pub(crate) number: u64,
}

fn has_leading_zero(text: &[u8]) -> bool
    ensures { result ≡ has_leading_zero text.now }
{
    text.len() > 1 && text[0] == b'0'
}

/// The number of these digits, which has no sign and no leading zero.
pub(crate) fn number_of(text: &str) -> Option<u64>
    ensures { result ≡ number_of text.now }
{
    let bytes = text.as_bytes();
    if bytes.is_empty() {
        return None;
    }
    if has_leading_zero(bytes) {
        return None;
    }
    if bytes[0] == b'+' {
        return None;
    }
    text.parse::<u64>().ok()
}

// The first number that leaves its range.
#[tactic(auto, unfolding(crate::specs::Numbers::first_out_of_range))]
fn first_out_of_range(numbers: VolumeNumbers) -> Option<BadNumber>
    ensures { result ≡ first_out_of_range numbers }
{
    let VolumeNumbers {
        groups,
        bpg,
        ipg,
        log,
    } = numbers;
    let bad = |word, number| Some(BadNumber { word, number });
    if !is_step(1, 64, 1, groups) {
        return bad(GeometryWord::Groups, groups);
    }
    if !is_step(64, 2048, 8, bpg) {
        return bad(GeometryWord::Bpg, bpg);
    }
    if !is_step(32, 1024, 32, ipg) {
        return bad(GeometryWord::Ipg, ipg);
    }
    if !is_step(256, 65_536, 8, log) {
        return bad(GeometryWord::Log, log);
    }
    None
}

/// The geometry of these numbers, or the first of them that leaves its range.
pub(crate) fn geometry_from(numbers: VolumeNumbers) -> Result<Geometry, BadNumber>
    ensures geometry { IfOk result (λ g. g ≡ geometry_from numbers) }
    ensures in_range { IfOk result (λ g. first_out_of_range numbers ≡ None) }
    ensures sound { IfOk result IsGeometry }
    ensures bad { IfErr result (λ bad. first_out_of_range numbers ≡ Some bad) }
{
    match first_out_of_range(numbers) {
        Some(bad) => Err(bad),
        None => Ok(Geometry {
            version: 1,
            groups: numbers.groups as u32,
            bpg: numbers.bpg as u32,
            ipg: numbers.ipg as u32,
            log: numbers.log as u32,
        }),
    }
}
