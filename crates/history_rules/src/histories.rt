//! The laws of histories: what more entries change of them, and moments one after the other.
ghost use Rattle.std.specs.Prelude.{◌≡◌, ◌≤◌, ◌↔◌, ℕ, ◌+◌, ◌∷◌, ◌++◌, [], List, length, false, IfSome};
ghost use Rattle.std.specs.List.{AllByRecursion};
ghost use Rattle.lufs_base.specs.declared.geometry.Geometry.{Geometry};
ghost use Rattle.tree_types.specs.declared.history.Entry.{Entry};
ghost use Rattle.volume_model.specs.Crash.{Record};
ghost use Rattle.volume_model.specs.Sound.{Tree};
ghost use Rattle.history_model.specs.Histories.{History, replayed_on, replay_of, after_call, Legal, IsRightAfter};
ghost use Rattle.history_model.specs.Right.{IsRightWithin};
ghost use Rattle.history_model.specs.Ranges.{HasLinksInRange, HasSizesInRange, HasText};
ghost use Rattle.history_rules.specs.Used.{HasRightFiles};
ghost use Rattle.history_model.specs.Touched.{Settled};
ghost use Rattle.history_model.specs.CrashSafety.{IsCrashSafeAt, CrashSafe};

/// Entries that are added don't change the tree after the first k entries, and go on from the tree after all of them. A
/// history with one more entry is legal exactly where it is legal without it and the entry is right after it.
pub fn histories_grow()
    ensures replay { (g : Geometry) (moment : ℕ) (opening : Tree) (entries more : List Entry) (k : ℕ) → k ≤ length entries
        → replay_of g moment opening (entries ++ more) k ≡ replay_of g moment opening entries k }
    ensures whole { (g : Geometry) (moment : ℕ) (opening : Tree) (entries : List Entry)
        → replay_of g moment opening entries (length entries) ≡ replayed_on g moment opening entries }
    ensures last { (g : Geometry) (moment : ℕ) (opening : Tree) (entries : List Entry) (e : Entry)
        → replayed_on g moment opening (entries ++ e ∷ []) ≡ after_call g moment (replayed_on g moment opening entries) e e.call }
    ensures legal { (g : Geometry) (moment : ℕ) (opening : Tree) (entries : List Entry) (e : Entry)
        → Legal g moment opening (entries ++ e ∷ []) ↔ (Legal g moment opening entries × IsRightAfter g moment opening entries e) }
{}

/// What is crash safe over two stretches of moments that touch is crash safe over both together.
pub fn moments_join()
    ensures one { (g : Geometry) (moment : ℕ) (opening : Tree) (h : History) (r : Record) (n : ℕ)
        → IsCrashSafeAt g moment opening h r n ↔ CrashSafe g moment opening h r n n }
    ensures join { (g : Geometry) (moment : ℕ) (opening : Tree) (h : History) (r : Record) (first middle next last : ℕ) → next ≤ middle + 1
        → CrashSafe g moment opening h r first middle → CrashSafe g moment opening h r next last → CrashSafe g moment opening h r first last }
{}

/// In a session that has done nothing yet, the opening settles each byte.
pub fn opening_settles()
    ensures { (g : Geometry) (moment : ℕ) (opening : Tree) (n ino p : ℕ) → Settled g moment opening [] n ino p }
{}

/// Along a legal history trees and files stay right and links stay in their range. Sizes do too, if each new symbolic link
/// has a text.
pub fn histories_stay_right()
    ensures names { (g : Geometry) (moment : ℕ) (opening : Tree) (entries : List Entry) (k : ℕ) → Legal g moment opening entries
        → IsRightWithin g opening → IsRightWithin g (replay_of g moment opening entries k) }
    ensures links { (g : Geometry) (moment : ℕ) (opening : Tree) (entries : List Entry) (k : ℕ) → Legal g moment opening entries
        → IsRightWithin g opening → HasLinksInRange g opening → HasLinksInRange g (replay_of g moment opening entries k) }
    ensures files { (g : Geometry) (moment : ℕ) (opening : Tree) (entries : List Entry) (k : ℕ) → Legal g moment opening entries
        → HasRightFiles opening → HasRightFiles (replay_of g moment opening entries k) }
    ensures sizes { (g : Geometry) (moment : ℕ) (opening : Tree) (entries : List Entry) (k : ℕ) → Legal g moment opening entries
        → AllByRecursion (λ e. IfSome e.call HasText) entries → HasSizesInRange opening → HasSizesInRange (replay_of g moment opening entries k) }
{}
