//! Whether each directory has its place in the tree, and each inode its links.
ghost use Rattle.std.specs.Prelude.{◌≡◌, ◌<◌, ◌^◌, ◌==◌, ℕ, map, length, slice_get, slice_index, slice_index_or, slice_set, min, find, None, IfOk, IsTrue};
ghost use Rattle.std.specs.List.{list_all, range_with_len};
ghost use Rattle.std.specs.Option.{option_flatten, option_map};
ghost use Rattle.volume_model.specs.Sound.{Names, Reading, inodes_in, used_at, names_in_reading, is_directory_in, parent_at, has_bad_parent, has_bad_links};
ghost use Rattle.fsck_core.specs.Inodes.{brief_of};
ghost use Rattle.fsck_core.specs.NameTables.{most_links, HasSizes, HasNames};
ghost use Rattle.fsck_core.specs.StepsUp.{is_directory_record, is_placed, is_misplaced, has_other_links, far_from, LeadsUp};

use crate::inodes::Brief;
use crate::names::{NameTables, Namer};
use lufs_base::Mem;
use std::alloc::Global;

/// The number of the root.
const ROOT: u32 = 2;

/// The first directory that doesn't have its one place in the tree.
pub(crate) fn first_bad_parent(
    alloc: Global,
    inodes: &[Option<Brief>],
    tables: &NameTables,
) -> Result<Option<u32>, Mem>
    requires fits { length inodes.now < 2 ^ 32 }
    requires sizes { HasSizes (length inodes.now) tables.now }
    ensures { (m : Names) → let n = length inodes.now in HasNames n n m tables.now
        → ((i : ℕ) → i < n → is_directory_in m i ≡ is_directory_record (option_flatten (slice_get inodes.now i)))
        → ((i : ℕ) → i < n → parent_at m i < n)
        → IfOk result (λ found. found ≡ find (has_bad_parent n m) (range_with_len 0 n)) }
{
    let count = inodes.len() as u32;
    let above = steps_up(alloc, &tables.parents)?;
    // Without a circle the steps to the root are fewer than there are inodes.
    let far = far_above(alloc, above, count.saturating_sub(1))?;
    Ok((0..count).find(|i| is_misplaced(inodes, tables, &far, *i)))
}

/// The first inode in use whose record has another number of links than there are slots that name it.
pub(crate) fn first_bad_links(inodes: &[Option<Brief>], tables: &NameTables) -> Option<u32>
    requires fits { length inodes.now < 2 ^ 32 }
    requires sizes { HasSizes (length inodes.now) tables.now }
    ensures { (r : Reading) → inodes_in r ≡ length inodes.now
        → ((i : ℕ) → i < inodes_in r → brief_of (option_map (λ u. u.inode) (used_at r i)) ≡ option_flatten (slice_get inodes.now i))
        → HasNames (inodes_in r) (inodes_in r) (names_in_reading r) tables.now
        → result ≡ find (has_bad_links r) (range_with_len 0 (inodes_in r)) }
{
    (0..inodes.len() as u32).find(|i| has_other_links(inodes, tables, *i))
}

// Whether inode `i` is a directory that doesn't have its one place in the tree, where steps up end at `far`.
fn is_misplaced(inodes: &[Option<Brief>], tables: &NameTables, far: &[u32], i: u32) -> bool
    requires inside { i < length inodes.now }
    requires sizes { HasSizes (length inodes.now) tables.now }
    requires far { length far.now ≡ length inodes.now }
    ensures { result ≡ is_misplaced inodes.now tables.now far.now i }
{
    let at = i as usize;
    match &inodes[at] {
        Some(d) => {
            d.is_directory() && !is_placed(i, tables.namers[at], tables.parents[at], far[at])
        }
        None => false,
    }
}

// Whether inode `i` is in use, and its record has another number of links than there are. Where the tables
// can't say how many, they are more than a record can say.
fn has_other_links(inodes: &[Option<Brief>], tables: &NameTables, i: u32) -> bool
    requires inside { i < length inodes.now }
    requires sizes { HasSizes (length inodes.now) tables.now }
    ensures { (links : ℕ) → slice_index tables.now.links.items i ≡ min links most_links
        → result ≡ has_other_links (slice_index_or inodes.now i None) links }
{
    let at = i as usize;
    match &inodes[at] {
        Some(d) => u32::from(d.links) != tables.links[at],
        None => false,
    }
}

// Whether directory `i` has its one place in the tree, where `namer` names it, `above` is above it, and the
// steps up from it end at `far`.
fn is_placed(i: u32, namer: Namer, above: u32, far: u32) -> bool
    ensures { result ≡ is_placed i namer above far }
{
    match namer {
        Namer::Nobody => i == ROOT && above == ROOT,
        Namer::One(j) => i != ROOT && j == above && far == ROOT,
        Namer::Many => false,
    }
}

// The inode one step up from each, where the root is above itself whatever its slots say.
fn steps_up(alloc: Global, parents: &[u32]) -> Result<Vec<u32>, Mem>
    ensures { IfOk result (λ above. above.items ≡ slice_set parents.now 2 2) }
{
    let mut above = Vec::from_slice(alloc, parents)?;
    if let Some(root) = above.get_mut(ROOT as usize) {
        *root = ROOT;
    }
    Ok(above)
}

// The inode to which so many steps up lead from each. A pass doubles the length of a step, so that few are
// needed; where two steps lead no further than one, that leads as far as all that are left.
fn far_above(alloc: Global, above: Vec<u32>, steps: u32) -> Result<Vec<u32>, Mem>
    requires { length above.items < 2 ^ 32 }
    ensures { IfOk result (λ far. LeadsUp above.items steps far.items) }
{
    // None where no step is taken yet.
    let mut far: Option<Vec<u32>> = None;
    let mut step = above;
    let mut left = steps;
    while left != 0 {
        if leads_no_further(&step) {
            return with_last(alloc, far, step);
        }
        if left % 2 == 1 {
            far = Some(one_further(alloc, &far, &step)?);
        }
        step = composed(alloc, &step, &step)?;
        left /= 2;
    }
    ended(alloc, far, step.len() as u32)
}

// Where one step more leads from each, or one alone.
fn one_further(alloc: Global, far: &Option<Vec<u32>>, step: &[u32]) -> Result<Vec<u32>, Mem>
    ensures { IfOk result (λ v. v.items ≡ map (slice_index step.now) (far_from (length step.now) (option_map (λ f. f.items) far.now))) }
{
    match far {
        Some(far) => composed(alloc, far, step),
        None => Ok(Vec::from_slice(alloc, step)?),
    }
}

// The same, where that step is the last, so that no copy of it is needed.
fn with_last(alloc: Global, far: Option<Vec<u32>>, step: Vec<u32>) -> Result<Vec<u32>, Mem>
    ensures { IfOk result (λ v. v.items ≡ map (slice_index step.items) (far_from (length step.items) (option_map (λ f. f.items) far))) }
{
    match far {
        Some(far) => composed(alloc, &far, &step),
        None => Ok(step),
    }
}

// Where the steps lead that were taken from each of so many.
fn ended(alloc: Global, far: Option<Vec<u32>>, count: u32) -> Result<Vec<u32>, Mem>
    ensures { IfOk result (λ v. v.items ≡ far_from count (option_map (λ f. f.items) far)) }
{
    match far {
        Some(far) => Ok(far),
        None => Ok((0..count).collect(alloc)?),
    }
}

// Whether two such steps lead no further than one.
fn leads_no_further(step: &[u32]) -> bool
    ensures { result ≡ list_all (λ i. slice_index step.now i == i) step.now }
{
    step.iter().all(|i| step_from(step, *i) == *i)
}

// Where a step leads from inode `i`.
fn step_from(step: &[u32], i: u32) -> u32
    ensures { result ≡ slice_index step.now i }
{
    step.get(i as usize).copied().unwrap_or(0)
}

// For each number of the first list what the second one has at that place, and 0 past its end.
fn composed(alloc: Global, first: &[u32], second: &[u32]) -> Result<Vec<u32>, Mem>
    ensures { IfOk result (λ v. v.items ≡ map (slice_index second.now) first.now) }
{
    Ok(first.iter().map(|i| step_from(second, *i)).collect(alloc)?)
}
