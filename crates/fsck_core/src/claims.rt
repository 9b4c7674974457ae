//! Which blocks are claimed, how many claims there are, and the lowest block that is claimed twice.
ghost use Rattle.std.specs.Prelude.{◌≡◌, ◌≢◌, ◌<◌, ◌≤◌, ℕ, ◌+◌, ◌*◌, ◌^◌, min, List, [], ◌∷◌, ◌++◌, All, length, IfOk};
ghost use Rattle.std.specs.Option.{option_map_or};
ghost use Rattle.volume_model.specs.Format.{bit_at};
ghost use Rattle.fsck_core.specs.Claimed.{HasClaimed, blocks_claimed, nonzero};

use cyl_groups::{is_set, set};
use lufs_base::Mem;
use std::alloc::Global;
use volume_model::Dinode;

/// Which blocks are claimed, a bit for each; how many claims there are; and the lowest block that is claimed
/// twice.
#[derive(Debug, Drop)]
pub(crate) struct Claims {
    pub(crate) bits: Vec<u8>,
    pub(crate) count: u32,
    pub(crate) twice: Option<u32>,
}

/// The lower of a block and the one found before, if there is one.
fn lower_of(found: Option<u32>, b: u32) -> u32
    ensures { result ≡ option_map_or (λ a. min a b) found b }
{
    match found {
        Some(a) => a.min(b),
        None => b,
    }
}

impl Claims {
    /// Of a volume of so many blocks none is claimed.
    pub(crate) fn new(alloc: Global, total: u32) -> Result<Self, Mem>
        ensures { IfOk result (HasClaimed total []) }
    {
        Ok(Claims {
            bits: vec![in alloc; 0u8; total as usize / 8 + 1]?,
            count: 0,
            twice: None,
        })
    }

    /// Whether block `b` is claimed.
    pub(crate) fn is_claimed(&self, b: u32) -> bool
        requires { b < 8 * length self.now.bits.items }
        ensures { result ≡ bit_at self.now.bits.items b }
    {
        is_set(&self.bits, b)
    }

    /// Claims block `b`.
    pub(crate) fn claim(&mut self, b: u32)
        requires room { b < 8 * length self.old.bits.items }
        requires counted { self.old.count + 1 < 2 ^ 32 }
        ensures claimed { (total : ℕ) (blocks : List ℕ) → b < total → HasClaimed total blocks self.old → HasClaimed total (blocks ++ b ∷ []) self.new }
        ensures room { length self.new.bits.items ≡ length self.old.bits.items }
        ensures count { self.new.count ≡ self.old.count + 1 }
    {
        if self.is_claimed(b) {
            self.twice = Some(lower_of(self.twice, b));
        } else {
            set(&mut self.bits, b);
        }
        self.count += 1;
    }

    /// Claims the block of this number. The number 0 claims nothing.
    fn claim_number(&mut self, b: u32)
        requires room { b ≢ 0 → b < 8 * length self.old.bits.items }
        requires counted { self.old.count + 1 < 2 ^ 32 }
        ensures claimed { (total : ℕ) (blocks : List ℕ) → (b ≢ 0 → b < total) → HasClaimed total blocks self.old → HasClaimed total (blocks ++ nonzero (b ∷ [])) self.new }
        ensures room { length self.new.bits.items ≡ length self.old.bits.items }
        ensures count { self.new.count ≤ self.old.count + 1 }
    {
        if b != 0 {
            self.claim(b);
        }
    }

    /// Claims the blocks of an inode: its pointer block, and the block at each index. The number 0 claims nothing.
    pub(crate) fn claim_all(&mut self, d: &Dinode, numbers: &[u32])
        requires room { All (λ b. b < 8 * length self.old.bits.items) (blocks_claimed d.now numbers.now) }
        requires counted { self.old.count + length numbers.now + 1 < 2 ^ 32 }
        ensures claimed { (total : ℕ) (blocks : List ℕ) → All (λ b. b < total) (blocks_claimed d.now numbers.now) → HasClaimed total blocks self.old → HasClaimed total (blocks ++ blocks_claimed d.now numbers.now) self.new }
        ensures room { length self.new.bits.items ≡ length self.old.bits.items }
        ensures count { self.new.count ≤ self.old.count + length numbers.now + 1 }
    {
        self.claim_number(d.indirect[0]);
        for b in numbers {
            self.claim_number(*b);
        }
    }
}
