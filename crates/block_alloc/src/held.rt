//! How many inodes and blocks are in hand.
ghost use Rattle.std.specs.Prelude.{◌≡◌, ◌+◌, ◌-◌, ◌^◌, length, min, count_by, sum_by, is_some};

use volume_model::Hand;

/// How many inodes are in hand.
pub(crate) fn count_inodes(hands: &[Hand]) -> usize
    ensures { result ≡ count_by (λ hand. is_some hand.inode) hands.now }
{
    hands.iter().filter(|hand| hand.inode.is_some()).count()
}

/// How many blocks are in hand, or the greatest number where that isn't one of 64 bits.
pub(crate) fn count_blocks(hands: &[Hand]) -> usize
    ensures { result ≡ min (sum_by (λ hand. length hand.blocks) hands.now) (2 ^ 64 - 1) }
{
    let mut count: usize = 0;
    for hand in hands {
        count = count.saturating_add(hand.blocks.len());
    }
    count
}

/// The sum of the two, or the greatest number where that isn't one of 32 bits.
pub(crate) fn sum_of(count: u32, held: usize) -> u32
    ensures { result ≡ min (count + held) (2 ^ 32 - 1) }
{
    match u32::try_from(held) {
        Ok(held) => count.saturating_add(held),
        Err(_) => u32::MAX,
    }
}
