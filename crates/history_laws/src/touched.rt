//! What entries don't touch was there before.
ghost use Rattle.std.specs.Prelude.{◌≡◌, ◌⊎◌, ℕ, suc, false, List, [], Some};
ghost use Rattle.lufs_base.specs.declared.geometry.Geometry.{Geometry};
ghost use Rattle.tree_types.specs.declared.credentials.Cred.{Cred};
ghost use Rattle.tree_types.specs.declared.call.Call.{Call};
ghost use Rattle.tree_types.specs.declared.history.Entry.{Entry};
ghost use Rattle.volume_model.specs.declared.hand.Hand.{Hand};
ghost use Rattle.volume_model.specs.Crash.{Record, present_of};
ghost use Rattle.volume_model.specs.Sound.{Tree, shape_of};
ghost use Rattle.history_model.specs.Histories.{entry_at, replay_of, Legal};
ghost use Rattle.history_model.specs.Replies.{tree_after};
ghost use Rattle.history_model.specs.Touched.{may_have_written, touches_byte};
ghost use Rattle.journal_model.specs.Journals.{Journal};
ghost use Rattle.journal_model.specs.Versions.{Running};
ghost use Rattle.journal_model.specs.BlockRoles.{Role, Changes, moved};
ghost use Rattle.journal_model.specs.Steps.{Step};
ghost use Rattle.history_laws.specs.Named.{HasByteOf};
ghost use Rattle.history_laws.specs.Applied.{IsApplied, NamesStay, AreTouchedPresent};
ghost use Rattle.history_laws.specs.Published.{reading_in};
ghost use Rattle.history_laws.specs.Volumes.{Volume, readings_of, IsRunningAs, KeepsHistory};
ghost use Rattle.history_laws.specs.VolumeSteps.{may_change, IsPassing};
ghost use Rattle.history_laws.specs.Sessions.{Session};
ghost use Rattle.history_laws.specs.WholeFiles.{HasWholeFiles};

/// The blocks of files are of 4,096 bytes in the tree on which a session begins, after every call, and so along a history.
pub fn blocks_stay_whole()
    ensures opening { (g : Geometry) (moment : ℕ) (opening : Tree) (start : Record) (v : Volume) → Session g moment opening start v → HasWholeFiles opening }
    ensures call { (g : Geometry) (tree : Tree) (cred : Cred) (ino moment : ℕ) (call : Call) → HasWholeFiles tree
        → HasWholeFiles (tree_after g tree cred ino moment call) }
    ensures history { (g : Geometry) (moment : ℕ) (opening : Tree) (entries : List Entry) (k : ℕ) → Legal g moment opening entries
        → HasWholeFiles opening → HasWholeFiles (replay_of g moment opening entries k) }
{}

/// A byte of a file after an entry that doesn't touch it was there before, whatever the call.
pub fn untouched_bytes_stay()
    ensures { (g : Geometry) (moment : ℕ) (opening : Tree) (entries : List Entry) (k ino p value : ℕ) (e : Entry) → Legal g moment opening entries
        → HasWholeFiles opening → entry_at entries (suc k) ≡ Some e → HasByteOf (replay_of g moment opening entries (suc k)) ino p value
        → touches_byte (replay_of g moment opening entries k) e ino p ≡ false → HasByteOf (replay_of g moment opening entries k) ino p value }
{}

/// What `changes_keep` asks of a call's bytes follows from what the call makes of the names of blocks, and from the bytes that it
/// wrote: blocks of files stay at their places, or are new ones, and what it touches is there.
pub fn changes_apply()
    ensures { (g : Geometry) (moment : ℕ) (opening : Tree) (first : ℕ) (v : Volume) (to : ℕ → Role) (k : Journal) (hands : List Hand) (entry : Entry)
        → HasWholeFiles opening → Step g v.roles (present_of v.r) v.j (Changes to) [] k
        → IsRunningAs g (moved (Changes to) v.roles) (present_of v.r) k hands (shape_of (replay_of g moment opening v.h.entries (suc (v.held Running))))
        → entry_at v.h.entries (suc (v.held Running)) ≡ Some entry
        → NamesStay (v.roles Running) (readings_of g v Running) (reading_in g k (present_of v.r) Running)
        → AreTouchedPresent g moment opening v.h.entries v.r (v.held Running) entry (reading_in g k (present_of v.r) Running)
        → KeepsHistory g moment opening first v
        → IsApplied g moment opening v.h.entries v.r (readings_of g v) (v.held Running) (reading_in g k (present_of v.r) Running) }
{}

/// An entry passes if its reply is a refusal but `fault`, or if its call is none that may change the tree.
pub fn unchanging_entries_pass()
    ensures { (g : Geometry) (moment : ℕ) (opening : Tree) (entries : List Entry) (k : ℕ) (e : Entry) → Legal g moment opening entries
        → entry_at entries (suc k) ≡ Some e → (may_have_written e.reply ≡ false) ⊎ (may_change e.call ≡ false) → IsPassing g moment opening entries k }
{}
