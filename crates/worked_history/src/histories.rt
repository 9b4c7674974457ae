//! Histories computed: their texts, their trees, what an entry touches, and the room that a line reserves.
ghost use Rattle.std.specs.Prelude.{◌≡◌, ◌≤◌, ◌∷◌, ◌++◌, [], codes, map, replicate, Some, None, true, false};
ghost use Rattle.lufs_base.specs.Layout.{ring_of};
ghost use Rattle.tree_types.specs.declared.call.Call.TheVariants as call;
ghost use Rattle.tree_types.specs.declared.reply.Reply.TheVariants as reply;
ghost use Rattle.tree_types.specs.declared.reply.Refusal.TheVariants as refusal;
ghost use Rattle.tree_types.specs.declared.waiting.Wait.TheVariants as wait;
ghost use Rattle.tree_types.specs.declared.waiting.Cause.TheVariants as cause;
ghost use Rattle.volume_model.specs.Worked.{smallest};
ghost use Rattle.volume_model.specs.Sound.{File};
ghost use Rattle.volume_model.specs.Format.{new_directory};
ghost use Rattle.volume_model.specs.Log.{Fits, sectors_for};
ghost use Rattle.history_model.specs.HistoryText.{history_text_of, session_text_of, load_text_of, entry_line, cause_text};
ghost use Rattle.history_model.specs.Histories.{Legal, replay_of, caller_of, AreOfFirstLines};
ghost use Rattle.history_model.specs.Causes.{IsFull, IsUnreleased, AsksAt, AskApart, AreRightCommits, AreRightRolls};
ghost use Rattle.history_model.specs.Lines.{first_caller, lines_of};
ghost use Rattle.history_model.specs.Reservation.{line_need};
ghost use Rattle.history_model.specs.Touched.{touches_byte, Touches, Settled};
ghost use Rattle.history_model.specs.WorkedTrees.{new_tree, tree_with, first_chunk, slot, empty_file};
ghost use Rattle.worked_history.specs.Histories.{made, looked_at, listed, three_entries, without_commits, file_with_hole, ended_as, entry_of, synced_session, committed_as, synced, written_once, written_and_synced};

/// The text of a history, and the lines that sum a session up.
pub fn history_texts()
    ensures three_lines { history_text_of 2 1000 1 0 (without_commits three_entries)
        ≡ codes "session 2 1000 1\nentry 0 1 3 3 3 3 a ok\nentry 0 2 - 3 3 3 a ok 3 file 644 1 0 0 0 1000 0\nentry 0 3 - 3 3 3 a ok 1 end a\n" }
    // The disk had listed three calls before the command.
    ensures from_the_command { history_text_of 2 1000 1 3 (without_commits (made ∷ (looked_at ∷ [])))
        ≡ codes "session 2 1000 1\nentry 0 1 3 0 0 0 a ok\nentry 0 2 - 0 0 0 a ok 3 file 644 1 0 0 0 1000 0\n" }
    ensures not_told { entry_line 0 (record (entry_of 238 None true reply.Done (call.Fsync (codes "/"))) { stream = 7; told = None; start = 4; at = 9 }) ≡ codes "entry 7 238 - 4 9 - s ok\n" }
    ensures refused { entry_line 0 (ended_as (reply.Refused refusal.Noent) (call.Stat (codes "/z"))) ≡ codes "entry 0 1 - 3 3 3 a noent\n" }
    ensures in_order { history_text_of 7 0 8 0 (record {
      entries = [];
      commits = record { boundary = 3; cause = cause.Asked 12 } ∷ (record { boundary = 4; cause = cause.SyncWaits 4 } ∷ []);
      rolls = record { through = 2; cause = cause.Half 200 255 } ∷ [];
    }) ≡ codes "session 7 0 8\ncommit 3 asked 12\ncommit 4 sync 4\nroll 2 half 200 255\n" }
    ensures causes { map cause_text (cause.Full (wait.Full 239 0 1 8432 255) ∷ (cause.Unreleased (wait.Unreleased 0 1 2) ∷ (cause.Ending ∷ [])))
        ≡ codes "full 239 0 1 8432 255" ∷ (codes "unreleased 0 1 2" ∷ (codes "ending" ∷ [])) }
    ensures session { session_text_of 3 (without_commits three_entries) ≡ codes "answered 3 left 0 commits 0 rolls 0\n" }
    // The third line has no entry yet, and the second one's isn't told.
    ensures session_left { session_text_of 3 (record {
      entries = made ∷ (record looked_at { told = None } ∷ []);
      commits = record { boundary = 1; cause = cause.Ending } ∷ [];
      rolls = [];
    }) ≡ codes "answered 1 left 2 commits 1 rolls 0\n" }
    ensures no_lines { load_text_of 0 (without_commits []) ≡ codes "lines 0 ok 0 refused 0 left 0 commits 0 rolls 0\n" }
    ensures load { load_text_of 4 (without_commits (made ∷ (ended_as (reply.Refused refusal.Exist) (call.Create (codes "/a") 0) ∷ (record made { told = None } ∷ []))))
        ≡ codes "lines 4 ok 1 refused 1 left 2 commits 0 rolls 0\n" }
{}

/// The tree that a history leads to, and as whom a stream makes its calls.
pub fn replays_of_histories()
    ensures nothing { replay_of smallest 1000 new_tree three_entries 0 3 ≡ None }
    ensures made { replay_of smallest 1000 new_tree three_entries 1 3 ≡ Some empty_file }
    ensures all { replay_of smallest 1000 new_tree three_entries 3 3 ≡ Some empty_file }
    ensures past_the_end { replay_of smallest 1000 new_tree three_entries 9 3 ≡ Some empty_file }
    // The inode is the one that the entry names.
    ensures other_inode { replay_of smallest 1000 new_tree (record made { ino = Some 31 } ∷ []) 1 31 ≡ Some empty_file }
    // What came from outside the tree changed nothing of it, though the call would have been right.
    ensures fault { replay_of smallest 1000 new_tree (record made { reply = reply.Refused refusal.Fault } ∷ []) 1 3 ≡ None }
    ensures locked { replay_of smallest 1000 new_tree (record made { reply = reply.Refused refusal.Locked } ∷ []) 1 3 ≡ None }
    ensures nomem { replay_of smallest 1000 new_tree (record made { reply = reply.Refused refusal.Nomem } ∷ []) 1 3 ≡ None }
    ensures first_caller { caller_of 0 [] ≡ record { uid = 0; gid = 0 } }
    // The last `as` of the stream that was answered ok.
    ensures later_caller { caller_of 0 (ended_as reply.Done (call.Become 1 2) ∷ (ended_as reply.Done (call.Become 5 6)
        ∷ (ended_as (reply.Refused refusal.Locked) (call.Become 7 7) ∷ (record (ended_as reply.Done (call.Become 8 8)) { stream = 1 } ∷ []))))
        ≡ record { uid = 5; gid = 6 } }
{}

/// Which bytes an entry touches: of a file of 5,000 bytes whose first block is a hole.
pub fn bytes_touched()
    ensures given { map (touches_byte (tree_with (first_chunk 2 2 (slot 3 488 (codes "f") ∷ []) ∷ []) (File file_with_hole ∷ [])) (ended_as reply.Done (call.Write (codes "/f") 4200 (codes "ab"))) 3)
        (4199 ∷ (4200 ∷ (4201 ∷ (4202 ∷ (0 ∷ []))))) ≡ false ∷ (true ∷ (true ∷ (false ∷ (false ∷ [])))) }
    // All of a block that the write claims.
    ensures claimed { map (touches_byte (tree_with (first_chunk 2 2 (slot 3 488 (codes "f") ∷ []) ∷ []) (File file_with_hole ∷ [])) (ended_as reply.Done (call.Write (codes "/f") 100 (codes "ab"))) 3)
        (0 ∷ (100 ∷ (4095 ∷ (4096 ∷ [])))) ≡ true ∷ (true ∷ (true ∷ (false ∷ []))) }
    // What is zeroed where the size grows: the rest of the claimed block, from the old size on.
    ensures zeroed { map (touches_byte (tree_with (first_chunk 2 2 (slot 3 488 (codes "f") ∷ []) ∷ []) (File file_with_hole ∷ [])) (ended_as reply.Done (call.Write (codes "/f") 5010 (codes "a"))) 3)
        (4999 ∷ (5000 ∷ (5010 ∷ (8191 ∷ (8192 ∷ []))))) ≡ false ∷ (true ∷ (true ∷ (true ∷ (false ∷ [])))) }
    ensures cut { map (touches_byte (tree_with (first_chunk 2 2 (slot 3 488 (codes "f") ∷ []) ∷ []) (File file_with_hole ∷ [])) (ended_as reply.Done (call.Trunc (codes "/f") 4500)) 3)
        (4499 ∷ (4500 ∷ (9000 ∷ []))) ≡ false ∷ (true ∷ (true ∷ [])) }
    ensures grown { map (touches_byte (tree_with (first_chunk 2 2 (slot 3 488 (codes "f") ∷ []) ∷ []) (File file_with_hole ∷ [])) (ended_as reply.Done (call.Trunc (codes "/f") 6000)) 3)
        (4999 ∷ (5000 ∷ (5999 ∷ (6000 ∷ [])))) ≡ false ∷ (true ∷ (true ∷ (true ∷ []))) }
    // A write that ended in the middle touches what it would have touched; one that was refused, and a removal, touch nothing.
    ensures fault { touches_byte (tree_with (first_chunk 2 2 (slot 3 488 (codes "f") ∷ []) ∷ []) (File file_with_hole ∷ [])) (ended_as (reply.Refused refusal.Fault) (call.Write (codes "/f") 4200 (codes "ab"))) 3 4200 ≡ true }
    ensures refused { touches_byte (tree_with (first_chunk 2 2 (slot 3 488 (codes "f") ∷ []) ∷ []) (File file_with_hole ∷ [])) (ended_as (reply.Refused refusal.Nospace) (call.Write (codes "/f") 4200 (codes "ab"))) 3 4200 ≡ false }
    ensures removed { touches_byte (tree_with (first_chunk 2 2 (slot 3 488 (codes "f") ∷ []) ∷ []) (File file_with_hole ∷ [])) (ended_as reply.Done (call.Remove (codes "/f"))) 3 4200 ≡ false }
    ensures other_file { touches_byte (tree_with (first_chunk 2 2 (slot 3 12 (codes "f") ∷ (slot 4 476 (codes "g") ∷ [])) ∷ []) (File file_with_hole ∷ (empty_file ∷ []))) (ended_as reply.Done (call.Write (codes "/g") 4200 (codes "ab"))) 3 4200 ≡ false }
{}

/// What lines reserve in the log, and how many sectors transactions take.
pub fn reservations()
    ensures changing { map (λ c. line_need smallest (Some c)) (call.Create (codes "/a") 0 ∷ (call.Trunc (codes "/a") 0 ∷ (call.Fsync (codes "/a") ∷ (call.Df ∷ (call.Become 1 1 ∷ (call.Stat (codes "/a") ∷ []))))))
        ≡ 8432 ∷ (8432 ∷ (0 ∷ (0 ∷ (0 ∷ (0 ∷ []))))) }
    ensures no_call { line_need smallest None ≡ 0 }
    ensures sectors { map sectors_for (2080 ∷ (1248 ∷ (144 ∷ (1792 ∷ (1264 ∷ (488 ∷ (489 ∷ [])))))))
        ≡ 5 ∷ (3 ∷ (1 ∷ (4 ∷ (3 ∷ (1 ∷ (2 ∷ [])))))) }
    // Fifteen lines have room in a ring of 255 sectors, and then 2,024 bytes more, but no 2,025.
    ensures fifteen { Fits 255 0 0 118048 8432 }
    ensures sixteen { ¬ (Fits 255 0 0 126480 8432) }
    ensures exactly { Fits 255 0 0 126480 2024 }
    ensures one_more { ¬ (Fits 255 0 0 126480 2025) }
    ensures last_line { Fits 255 238 0 0 8432 }
    ensures line_after { ¬ (Fits 255 239 0 0 8432) }
{}

/// The history of three lines is legal.
pub fn legal_history()
    ensures { Legal smallest 1000 new_tree three_entries }
{}

/// The commits and rolls of a small session, and some that no session may have.
pub fn commits_and_rolls()
    ensures commits { AreRightCommits smallest None synced_session }
    ensures rolls { AreRightRolls smallest None synced_session }
    // The first entry isn't synchronous.
    ensures asynchronous { ¬ (AreRightCommits smallest None (committed_as (record { boundary = 2; cause = cause.SyncWaits 1 } ∷ []))) }
    // A commit without an entry of its own, and one of more entries than there are.
    ensures without_entry { ¬ (AreRightCommits smallest None (committed_as (record { boundary = 2; cause = cause.SyncWaits 2 } ∷ (record { boundary = 2; cause = cause.Ending } ∷ [])))) }
    ensures past_the_end { ¬ (AreRightCommits smallest None (committed_as (record { boundary = 3; cause = cause.Ending } ∷ []))) }
    // At the end of a session without a schedule everything is committed.
    ensures early_end { ¬ (AreRightCommits smallest None (committed_as (record { boundary = 1; cause = cause.Ending } ∷ []))) }
    ensures half_is_no_cause { ¬ (AreRightCommits smallest None (committed_as (record { boundary = 2; cause = cause.Half 200 255 } ∷ []))) }
    ensures full { IsFull smallest (wait.Full 239 0 0 8432 255) }
    ensures not_full { ¬ (IsFull smallest (wait.Full 238 0 0 8432 255)) }
    ensures other_need { ¬ (IsFull smallest (wait.Full 239 0 0 8431 255)) }
    ensures unreleased { IsUnreleased (wait.Unreleased 0 1 1) }
    ensures no_blocks { ¬ (IsUnreleased (wait.Unreleased 0 1 2)) }
    ensures asked { AsksAt (Some (codes "000c")) 99 3 }
    ensures not_asked { ¬ (AsksAt (Some (codes "000r")) 99 3) }
    ensures asked_twice { ¬ (AskApart (cause.Asked 3 ∷ (cause.Ending ∷ (cause.Asked 3 ∷ [])))) }
{}

/// When a byte is settled: by an fsync that was told, until it is written again.
pub fn settled_bytes()
    ensures synced { Settled smallest 1000 new_tree written_and_synced 3 3 0 }
    // The write began before the fourth call, and the fsync wasn't told by then.
    ensures not_told { ¬ (Settled smallest 1000 new_tree (written_once ++ record synced { told = Some 5 } ∷ []) 4 3 0) }
    ensures written { ¬ (Settled smallest 1000 new_tree written_once 4 3 0) }
    // At a crash before the write began, it doesn't count.
    ensures before_the_write { Settled smallest 1000 new_tree written_once 3 3 0 }
    ensures touched { Touches smallest 1000 new_tree written_once 2 3 0 }
{}

/// Which entries are those of the first lines of a script.
pub fn entries_of_lines()
    ensures all { AreOfFirstLines 0 (lines_of (codes "create /a 644\nstat /a\nlist /\n")) three_entries }
    ensures first { AreOfFirstLines 0 (lines_of (codes "create /a 644\nstat /a\nlist /\n")) (made ∷ []) }
    // A line is skipped, and one is answered twice.
    ensures skipped { ¬ (AreOfFirstLines 0 (lines_of (codes "create /a 644\nstat /a\nlist /\n")) (made ∷ (listed ∷ []))) }
    ensures too_many { ¬ (AreOfFirstLines 0 (lines_of (codes "create /a 644\n")) (made ∷ (made ∷ []))) }
    // The line is synchronous, so its entry is, too.
    ensures asynchronous { ¬ (AreOfFirstLines 0 (lines_of (codes "!create /a 644\n")) (made ∷ [])) }
{}
