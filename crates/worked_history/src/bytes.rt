//! The bytes of files computed: holes, sizes that grow and shrink, and which blocks a file has.
ghost use Rattle.std.specs.Prelude.{◌≡◌, ◌∷◌, ◌++◌, [], codes, replicate};
ghost use Rattle.tree_types.specs.declared.call.Call.TheVariants as call;
ghost use Rattle.tree_types.specs.declared.reply.Reply.TheVariants as reply;
ghost use Rattle.tree_types.specs.declared.reply.Refusal.TheVariants.{Nospace};
ghost use Rattle.volume_model.specs.Worked.{smallest};
ghost use Rattle.history_model.specs.Lines.{first_caller};
ghost use Rattle.history_model.specs.WorkedTrees.{new_tree};
ghost use Rattle.worked_history.specs.Trees.{answers_to, answers_on, with_blocks, replies_from};

/// A hole reads as zeros, and past the size there is nothing.
pub fn bytes_told()
    ensures hole { answers_to (codes "create /f 644\nwrite /f 5000 61\nread /f 4998 10\nread /f 0 3\nread /f 5001 4\nread /f 9000 4\nstat /f\n")
        ≡ codes "1 ok\n2 ok\n3 ok 000061\n4 ok 000000\n5 ok -\n6 ok -\n7 ok 3 file 644 1 0 0 5001 1000 1\n" }
    ensures two_blocks { answers_to (codes "create /f 644\nwrite /f 4095 6A4b\nread /f 4094 4096\nread /f 4096 1\nstat /f\n")
        ≡ codes "1 ok\n2 ok\n3 ok 006a4b\n4 ok 4b\n5 ok 3 file 644 1 0 0 4097 1000 2\n" }
    ensures after_a_rename { answers_to (codes "create /f 644\ncreate /h 644\nwrite /f 0 61\nwrite /h 4096 62\nrename /h /f\nwrite /f 4095 6364\nread /f 4094 3\n")
        ≡ codes "1 ok\n2 ok\n3 ok\n4 ok\n5 ok\n6 ok\n7 ok 006364\n" }
    ensures in_a_freed_block { answers_to (codes "mkdir /d 755\nrmdir /d\ncreate /f 644\nwrite /f 0 616263\nfsync /f\nread /f 0 3\n")
        ≡ codes "1 ok\n2 ok\n3 ok\n4 ok\n5 ok\n6 ok 616263\n" }
{}

/// Bytes that a size comes to cover again are zeros.
pub fn sizes_grown()
    ensures by_trunc { answers_to (codes "create /f 644\nwrite /f 0 616263\nwrite /f 1 78\nread /f 0 10\ntrunc /f 2\ntrunc /f 4\nread /f 0 10\n")
        ≡ codes "1 ok\n2 ok\n3 ok\n4 ok 617863\n5 ok\n6 ok\n7 ok 61780000\n" }
    ensures by_write { answers_to (codes "create /f 644\nwrite /f 0 616263\ntrunc /f 1\nwrite /f 3 64\nread /f 0 10\nwrite /f 1 65\nread /f 0 10\n")
        ≡ codes "1 ok\n2 ok\n3 ok\n4 ok\n5 ok 61000064\n6 ok\n7 ok 61650064\n" }
    // The write is in a later block, so all that it leaves of the last one is zeroed.
    ensures by_write_far { answers_to (codes "create /f 644\nwrite /f 0 616263\ntrunc /f 1\nwrite /f 8192 64\nread /f 0 3\nstat /f\n")
        ≡ codes "1 ok\n2 ok\n3 ok\n4 ok\n5 ok 610000\n6 ok 3 file 644 1 0 0 8193 1000 2\n" }
{}

/// The pointer block is claimed with the thirteenth block, and goes with it.
pub fn pointer_block_of_a_file()
    ensures claimed { answers_to (codes "create /f 644\nwrite /f 45056 61\nstat /f\nwrite /f 49152 61\nstat /f\ntrunc /f 49153\nstat /f\ntrunc /f 49152\nstat /f\ntrunc /f 49153\nstat /f\ndf\n")
        ≡ codes "1 ok\n2 ok\n3 ok 3 file 644 1 0 0 45057 1000 1\n4 ok\n5 ok 3 file 644 1 0 0 49153 1000 3\n6 ok\n7 ok 3 file 644 1 0 0 49153 1000 3\n8 ok\n9 ok 3 file 644 1 0 0 49152 1000 1\n10 ok\n11 ok 3 file 644 1 0 0 49153 1000 1\n12 ok 60 28\n" }
    ensures two_bytes { answers_to (codes "create /f 644\nwrite /f 49152 6162\nstat /f\nread /f 49151 3\ntrunc /f 49152\nstat /f\ndf\n")
        ≡ codes "1 ok\n2 ok\n3 ok 3 file 644 1 0 0 49154 1000 2\n4 ok 006162\n5 ok\n6 ok 3 file 644 1 0 0 49152 1000 0\n7 ok 61 28\n" }
    // With one free block the block at index 11 can be written, and that at index 12 can't.
    ensures one_block_free { answers_on (with_blocks 2) new_tree (codes "create /f 644\nwrite /f 49152 61\nwrite /f 45056 61\nwrite /f 0 61\nwrite /f 45057 62\ndf\n")
        ≡ codes "1 ok\n2 nospace\n3 ok\n4 nospace\n5 ok\n6 ok 0 28\n" }
    ensures two_blocks_free { answers_on (with_blocks 3) new_tree (codes "create /f 644\nwrite /f 49152 61\ndf\n") ≡ codes "1 ok\n2 ok\n3 ok 0 28\n" }
{}

/// The largest size of a file, and that fbig comes before nospace.
pub fn largest_file()
    ensures size { answers_to (codes "create /f 644\ntrunc /f 4243457\ntrunc /f 4243456\nwrite /f 4243455 6162\nwrite /f 4243455 61\nstat /f\nread /f 4243454 9\n")
        ≡ codes "1 ok\n2 fbig\n3 ok\n4 fbig\n5 ok\n6 ok 3 file 644 1 0 0 4243456 1000 2\n7 ok 0061\n" }
    ensures before_nospace { answers_on (with_blocks 1) new_tree (codes "create /f 644\nwrite /f 4243455 6162\nwrite /f 4243455 61\nwrite /f 18446744073709551615 61\n")
        ≡ codes "1 ok\n2 fbig\n3 nospace\n4 fbig\n" }
{}

/// A file that fills the volume: the last block can be written, and none after it.
pub fn volume_filled()
    ensures { replies_from smallest 1000 new_tree first_caller
        (call.Create (codes "/g") 0x1a4 ∷ (call.Write (codes "/g") 0 (codes "g") ∷ (call.Create (codes "/f") 0x1a4
        ∷ (call.Write (codes "/f") 0 (replicate 16384 7) ∷ (call.Write (codes "/f") 16384 (replicate 16384 7) ∷ (call.Write (codes "/f") 32768 (replicate 16384 7)
        ∷ (call.Write (codes "/f") 49152 (replicate 16384 7) ∷ (call.Write (codes "/f") 65536 (replicate 16384 7) ∷ (call.Write (codes "/f") 81920 (replicate 16384 7)
        ∷ (call.Write (codes "/f") 98304 (replicate 16384 7) ∷ (call.Write (codes "/f") 114688 (replicate 16384 7) ∷ (call.Write (codes "/f") 131072 (replicate 16384 7)
        ∷ (call.Write (codes "/f") 147456 (replicate 16384 7) ∷ (call.Write (codes "/f") 163840 (replicate 16384 7) ∷ (call.Write (codes "/f") 180224 (replicate 16384 7)
        ∷ (call.Write (codes "/f") 196608 (replicate 16384 7) ∷ (call.Write (codes "/f") 212992 (replicate 16384 7) ∷ (call.Write (codes "/f") 229376 (replicate 12288 7)
        ∷ (call.Df ∷ (call.Write (codes "/f") 241664 (codes "a") ∷ (call.Remove (codes "/g") ∷ (call.Write (codes "/f") 241664 (codes "a") ∷ (call.Df ∷ [])))))))))))))))))))))))
        ≡ replicate 18 reply.Done ++ (reply.Df 0 27 ∷ (reply.Refused Nospace ∷ (reply.Done ∷ (reply.Done ∷ (reply.Df 0 28 ∷ []))))) }
{}
