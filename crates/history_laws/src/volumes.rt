//! Each step of a mounted volume leaves it one that keeps its history.
ghost use Rattle.std.specs.Prelude.{◌≡◌, ◌≤◌, ℕ, suc, ◌+◌, true, List, [], ◌∷◌, ◌++◌, length, take};
ghost use Rattle.lufs_base.specs.declared.delta.Delta.{Delta};
ghost use Rattle.lufs_base.specs.declared.geometry.Geometry.{Geometry};
ghost use Rattle.tree_types.specs.declared.waiting.Cause.{Cause};
ghost use Rattle.tree_types.specs.declared.history.Entry.{Entry};
ghost use Rattle.tree_types.specs.declared.history.RollNote.{RollNote};
ghost use Rattle.volume_model.specs.declared.device_call.DeviceCall.{DeviceCall};
ghost use Rattle.volume_model.specs.declared.device_call.DeviceCall.TheVariants.{Write};
ghost use Rattle.volume_model.specs.declared.hand.Hand.{Hand};
ghost use Rattle.volume_model.specs.Format.{Image, block};
ghost use Rattle.volume_model.specs.Crash.{Record, with_calls, present_of};
ghost use Rattle.volume_model.specs.Sound.{reading_of, Sound, Tree, tree_of, shape_of};
ghost use Rattle.history_model.specs.Histories.{replay_of};
ghost use Rattle.journal_model.specs.Journals.{Journal};
ghost use Rattle.journal_model.specs.Versions.{Published, Running, content_of};
ghost use Rattle.journal_model.specs.BlockRoles.{Role, Roles, Stays, Seals, Publishes, Changes, moved, moved_from, is_claimed};
ghost use Rattle.journal_model.specs.Changes.{Change, MovesRoles, MovesDeltas};
ghost use Rattle.journal_model.specs.Safety.{IsSafe};
ghost use Rattle.journal_model.specs.Steps.{IsRawWrite, Step};
ghost use Rattle.history_laws.specs.Named.{named_block};
ghost use Rattle.history_laws.specs.RawWrites.{WritesTouched};
ghost use Rattle.history_laws.specs.Applied.{with_running, IsApplied, IsMadeBy};
ghost use Rattle.history_laws.specs.Published.{AreRolesOf, reading_in};
ghost use Rattle.history_laws.specs.Volumes.{Volume, readings_of, IsRunningAs, KeepsHistory};
ghost use Rattle.history_laws.specs.VolumeSteps.{is_quiet, IsPassing, IsBegun, with_told, MayBeTold};

/// A step of the journal that moves no version and writes no bytes of files: a call comes in, a commit writes to the log, or a
/// roll goes on.
pub fn quiet_steps_keep()
    ensures { (g : Geometry) (moment : ℕ) (opening : Tree) (first : ℕ) (v : Volume) (calls : List DeviceCall) (k : Journal)
        (step : Step g v.roles (present_of v.r) v.j Stays calls k) → is_quiet step ≡ true → KeepsHistory g moment opening first v
        → KeepsHistory g moment opening first (record v { r = with_calls v.r calls; j = k }) }
{}

/// A call goes out. With the last one nothing is in hand.
pub fn leaving_calls_keep()
    ensures { (g : Geometry) (moment : ℕ) (opening : Tree) (first : ℕ) (v : Volume) (members unspent left : ℕ) → v.j.members ≡ members + 1
        → v.j.unspent ≡ unspent + left → (members ≡ 0 → unspent ≡ 0) → (members ≡ 0 → v.hands ≡ []) → KeepsHistory g moment opening first v
        → KeepsHistory g moment opening first (record v { j = record v.j { members = members; unspent = unspent } }) }
{}

/// A call writes bytes in place: those that are there, or those that an entry under way touches.
pub fn raw_writes_keep()
    ensures { (g : Geometry) (moment : ℕ) (opening : Tree) (first : ℕ) (v : Volume) (start : ℕ) (bytes : List ℕ) → IsRawWrite g v.roles v.j start bytes
        → WritesTouched g moment opening v.h.entries v.r (v.held Running) (readings_of g v) start bytes → KeepsHistory g moment opening first v
        → KeepsHistory g moment opening first (record v { r = with_calls v.r (Write start bytes ∷ []) }) }
{}

/// A commit begins: its boundary is that of the running version, which becomes the sealed one.
pub fn seals_keep()
    ensures { (g : Geometry) (moment : ℕ) (opening : Tree) (first : ℕ) (v : Volume) (cause : Cause) (k : Journal)
        → Step g v.roles (present_of v.r) v.j Seals [] k → KeepsHistory g moment opening first v
        → KeepsHistory g moment opening first (record v {
          j = k;
          roles = moved Seals v.roles;
          held = λ w. v.held (moved_from Seals w);
          h = record v.h { commits = v.h.commits ++ record { boundary = v.held Running; cause = cause } ∷ [] };
        }) }
{}

/// A commit ends: the sealed version becomes the published one.
pub fn publishes_keep()
    ensures { (g : Geometry) (moment : ℕ) (opening : Tree) (first : ℕ) (v : Volume) (calls : List DeviceCall) (k : Journal)
        → Step g v.roles (present_of v.r) v.j Publishes calls k → KeepsHistory g moment opening first v
        → KeepsHistory g moment opening first (record v { r = with_calls v.r calls; j = k; roles = moved Publishes v.roles; held = λ w. v.held (moved_from Publishes w) }) }
{}

/// A call that is inside takes blocks or an inode into its hand, or gives them back. The tree and the names of its files' blocks
/// stay.
pub fn hands_keep()
    ensures { (g : Geometry) (moment : ℕ) (opening : Tree) (first : ℕ) (v : Volume) (to : ℕ → Role) (k : Journal) (hands : List Hand)
        → Step g v.roles (present_of v.r) v.j (Changes to) [] k → 1 ≤ v.j.members
        → IsRunningAs g (moved (Changes to) v.roles) (present_of v.r) k hands (shape_of (replay_of g moment opening v.h.entries (v.held Running)))
        → ((ino index : ℕ) → named_block (reading_in g k (present_of v.r) Running) ino index ≡ named_block (readings_of g v Running) ino index)
        → KeepsHistory g moment opening first v → KeepsHistory g moment opening first (record v { j = k; roles = moved (Changes to) v.roles; hands = hands }) }
{}

/// The call of the next entry is carried out: the running version comes to stand for the tree after it, and does with the bytes
/// of files what `applied_entries` asks.
pub fn changes_keep()
    ensures { (g : Geometry) (moment : ℕ) (opening : Tree) (first : ℕ) (v : Volume) (to : ℕ → Role) (k : Journal) (hands : List Hand)
        → Step g v.roles (present_of v.r) v.j (Changes to) [] k → 1 ≤ v.j.members
        → IsRunningAs g (moved (Changes to) v.roles) (present_of v.r) k hands (shape_of (replay_of g moment opening v.h.entries (suc (v.held Running))))
        → IsApplied g moment opening v.h.entries v.r (readings_of g v) (v.held Running) (reading_in g k (present_of v.r) Running)
        → KeepsHistory g moment opening first v
        → KeepsHistory g moment opening first (record v { j = k; roles = moved (Changes to) v.roles; held = with_running v.held (suc (v.held Running)); hands = hands }) }
{}

/// The next entry changes nothing.
pub fn entries_pass()
    ensures { (g : Geometry) (moment : ℕ) (opening : Tree) (first : ℕ) (v : Volume) → IsPassing g moment opening v.h.entries (v.held Running)
        → KeepsHistory g moment opening first v → KeepsHistory g moment opening first (record v { held = with_running v.held (suc (v.held Running)) }) }
{}

/// An entry begins: it is right after those before it, and isn't told.
pub fn entries_begin()
    ensures { (g : Geometry) (moment : ℕ) (opening : Tree) (first : ℕ) (v : Volume) (e : Entry) → IsBegun g moment opening v.h.entries (length v.r.calls) e
        → KeepsHistory g moment opening first v → KeepsHistory g moment opening first (record v { h = record v.h { entries = v.h.entries ++ e ∷ [] } }) }
{}

/// A reply is told: that of a synchronous entry once the entry is published.
pub fn replies_are_told()
    ensures { (g : Geometry) (moment : ℕ) (opening : Tree) (first : ℕ) (v : Volume) (k : ℕ) → MayBeTold v.h.entries (v.held Published) k
        → KeepsHistory g moment opening first v
        → KeepsHistory g moment opening first (record v { h = record v.h { entries = with_told (length v.r.calls) v.h.entries k } }) }
{}

/// A roll is noted.
pub fn rolls_are_noted()
    ensures { (g : Geometry) (moment : ℕ) (opening : Tree) (first : ℕ) (v : Volume) (note : RollNote) → KeepsHistory g moment opening first v
        → KeepsHistory g moment opening first (record v { h = record v.h { rolls = v.h.rolls ++ note ∷ [] } }) }
{}

/// What `hands_keep` and `changes_keep` ask of the running version follows from the content that the deltas make of the one
/// before: the running version reads as it does, and has its bytes in each block that is claimed then.
pub fn changed_contents()
    ensures running { (g : Geometry) (roles : Roles) (r : Record) (j : Journal) (change : Change) (to : ℕ → Role) (running : List Delta) (image : Image) (hands : List Hand) (shape : Tree)
        → IsSafe g roles r j → MovesRoles g roles j change to → MovesDeltas g roles j change to running → IsMadeBy change.deltas (content_of g j Running (present_of r)) image
        → Sound g (block image) hands → shape_of (tree_of g (block image)) ≡ shape → AreRolesOf g to (reading_of g (block image))
        → IsRunningAs g (moved (Changes to) roles) (present_of r) (record j { running = running }) hands shape
        × (reading_in g (record j { running = running }) (present_of r) Running ≡ reading_of g (block image)) }
    ensures blocks { (g : Geometry) (roles : Roles) (r : Record) (j : Journal) (change : Change) (to : ℕ → Role) (running : List Delta) (image : Image) (b n : ℕ)
        → IsSafe g roles r j → MovesRoles g roles j change to → MovesDeltas g roles j change to running → IsMadeBy change.deltas (content_of g j Running (present_of r)) image
        → is_claimed (to b) ≡ true
        → take n (block (content_of g (record j { running = running }) Running (present_of r)) b) ≡ take n (block image b) }
{}
