//! Where the number of a file's block stands: in the inode, or in which entry of which pointer block.
ghost use Rattle.std.specs.Prelude.{◌≡◌};
ghost use Rattle.indirect_blocks.specs.FileIndex.{place_of, IsPlace};

/// Direct numbers of an inode.
const DIRECT: u32 = 12;

/// Numbers of a pointer block.
const NUMBERS: u32 = 1024;

/// Where the number of a file's block stands.
#[derive(Clone, Copy, Debug, PartialEq, Eq)]
pub enum Place {
    /// In the inode, as this direct number.
    Direct(u32),
    /// In this entry of the inode's pointer block.
    Single(u32),
    /// In an entry of a pointer block that the inode's double pointer block names: first the entry there, and then
    /// the one in the named block.
    Double(u32, u32),
    /// Nowhere, since the index is too great.
    Past,
}

/// Where the number of the block at this index of a file stands (`docs/FORMAT.md`, "Pointer blocks").
pub fn place_of(index: u32) -> Place
    ensures value { result ≡ place_of index }
    ensures place { IsPlace index result }
{
    if index < DIRECT {
        return Place::Direct(index);
    }
    let index = index - DIRECT;
    if index < NUMBERS {
        return Place::Single(index);
    }
    let index = index - NUMBERS;
    if index < NUMBERS * NUMBERS {
        Place::Double(index / NUMBERS, index % NUMBERS)
    } else {
        Place::Past
    }
}
