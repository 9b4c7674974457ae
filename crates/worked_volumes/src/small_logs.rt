//! The definitions computed on small logs, records and images, so that a reader sees what they say.
ghost use Rattle.std.specs.Prelude.{◌≡◌, ◌+◌, ◌∷◌, ◌++◌, [], codes, map, replicate, Some, None};
ghost use Rattle.std.specs.List.{range_with_len};
ghost use Rattle.lufs_base.specs.declared.delta.DeltaKind.TheVariants.{Chunk};
ghost use Rattle.volume_model.specs.Format.{super_of, super_bytes};
ghost use Rattle.volume_model.specs.Log.{Listed, BadRun, NoHeader, WithHeader, log_with, replayed};
ghost use Rattle.volume_model.specs.Texts.{scan_text};
ghost use Rattle.volume_model.specs.Crash.{kept_at, written_since, present_of};
ghost use Rattle.volume_model.specs.Worked.{smallest, log_sector, ring_of_sectors, empty_sector, empty_tx};
ghost use Rattle.worked_volumes.specs.Logs.{superblock, header, worked_header, root_delta, cut_chunk, commit, root_tx, log_of_sector, wrapped_ring, turned_ring, full_ring, header_with, filled, two_sectors, text_at_0, zero_block_0, cancel_0, tx_of};

/// A superblock of 99 blocks names a volume on a disk of 792 sectors, and none on a smaller one.
pub fn superblocks()
    ensures fits { super_of superblock 792 ≡ Some smallest }
    ensures one_sector_short { super_of superblock 791 ≡ None }
    ensures written { super_bytes smallest ≡ superblock }
{}

/// What the log is with this sector in the first place of the ring.
pub fn logs()
    ensures no_header { log_with smallest (replicate 512 0) (λ _. replicate 512 0) ≡ NoHeader }
    ensures empty { log_of_sector (replicate 512 0) ≡ WithHeader header (Listed []) }
    ensures committed { log_of_sector (log_sector (root_delta 2 ++ commit) 1 3) ≡ WithHeader header (Listed (root_tx ∷ [])) }
    ensures bad_type { log_of_sector (log_sector (root_delta 9 ++ commit) 1 3) ≡ WithHeader header (BadRun 1 0) }
    ensures other_epoch { log_of_sector (log_sector (root_delta 2 ++ commit) 1 2) ≡ WithHeader header (Listed []) }
    ensures no_commit { log_of_sector (log_sector cut_chunk 1 3) ≡ WithHeader header (Listed []) }
    ensures zeros_for_commit { log_of_sector (log_sector (root_delta 2) 1 3) ≡ WithHeader header (BadRun 1 0) }
{}

/// What the log is where a transaction goes on in the first place of the ring, where every place has a transaction, and what
/// ends it.
pub fn rings()
    ensures wrapped { log_with smallest (header_with 254 1) wrapped_ring ≡ WithHeader (record { epoch = 3; head = 254; tid = 1 })
        (Listed (record { tid = 1; first = 254; sectors = 2; deltas = record { kind = Chunk; home = 0x26000; len = 512; bytes = replicate 512 1 } ∷ [] } ∷ [])) }
    ensures turned { log_with smallest (header_with 254 1) turned_ring ≡ WithHeader (record { epoch = 3; head = 254; tid = 1 })
        (Listed (empty_tx 1 254 ∷ (empty_tx 2 0 ∷ []))) }
    ensures full { log_with smallest (header_with 0 1) full_ring ≡ WithHeader (record { epoch = 3; head = 0; tid = 1 })
        (Listed (map (λ place. empty_tx (place + 1) place) (range_with_len 0 255))) }
    ensures full_from_its_middle { log_with smallest (header_with 253 254) full_ring ≡ WithHeader (record { epoch = 3; head = 253; tid = 254 })
        (Listed (empty_tx 254 253 ∷ (empty_tx 255 254 ∷ []))) }
    // The sector after it is of an older epoch, or has the number 0.
    ensures stale_after { log_with smallest (header_with 0 1) (ring_of_sectors (empty_sector 1 3 ∷ (empty_sector 2 2 ∷ []))) ≡ WithHeader (record { epoch = 3; head = 0; tid = 1 })
        (Listed (empty_tx 1 0 ∷ [])) }
    ensures last_number { log_with smallest (header_with 0 0xffffffff) (ring_of_sectors (empty_sector 0xffffffff 3 ∷ (empty_sector 0 3 ∷ [])))
        ≡ WithHeader (record { epoch = 3; head = 0; tid = 0xffffffff }) (Listed (empty_tx 0xffffffff 0 ∷ [])) }
{}

/// What `scan` prints of an empty log, and of one with one transaction.
pub fn texts()
    ensures empty { scan_text smallest header [] ≡ codes "epoch 3 head 0 tid 1 ring 255\ncommitted 0 sectors 0\n" }
    ensures committed { scan_text smallest header (root_tx ∷ [])
        ≡ codes "epoch 3 head 0 tid 1 ring 255\ntx 1 sectors 1 deltas 1 bytes 144\ncommitted 1 sectors 1\n" }
{}

/// What the two sectors of a disk may hold after a crash: as kept, or as written since.
pub fn values_after_crash()
    ensures kept_at_first { kept_at two_sectors 0 ≡ filled 0 ++ filled 1 }
    ensures kept_after_write { kept_at two_sectors 1 ≡ filled 0 ++ filled 1 }
    ensures written_before_flush { written_since two_sectors 1 0 ≡ filled 7 ∷ [] }
    ensures kept_by_flush { kept_at two_sectors 2 ≡ filled 7 ++ filled 1 }
    ensures written_after_flush { written_since two_sectors 2 0 ≡ [] }
    ensures kept_still { kept_at two_sectors 4 ≡ filled 7 ++ filled 1 }
    ensures written_once { written_since two_sectors 4 0 ≡ filled 8 ∷ [] }
    ensures written_twice { written_since two_sectors 4 1 ≡ filled 9 ∷ (filled 10 ∷ []) }
    ensures present { present_of two_sectors ≡ filled 8 ++ filled 10 }
{}

/// What four bytes become by a replay.
pub fn replays_of_four_bytes()
    ensures one { replayed (1 ∷ 2 ∷ 3 ∷ 4 ∷ []) (tx_of 1 (text_at_0 (8 ∷ 9 ∷ []) ∷ []) ∷ []) ≡ 8 ∷ 9 ∷ 3 ∷ 4 ∷ [] }
    ensures later_wins { replayed (1 ∷ 2 ∷ 3 ∷ 4 ∷ []) (tx_of 1 (text_at_0 (8 ∷ 9 ∷ []) ∷ []) ∷ tx_of 2 (text_at_0 (7 ∷ []) ∷ []) ∷ []) ≡ 7 ∷ 9 ∷ 3 ∷ 4 ∷ [] }
    ensures zeros_below { replayed (1 ∷ 2 ∷ 3 ∷ 4 ∷ []) (tx_of 1 (zero_block_0 ∷ text_at_0 (8 ∷ 9 ∷ []) ∷ []) ∷ []) ≡ 8 ∷ 9 ∷ 0 ∷ 0 ∷ [] }
    ensures cancelled { replayed (1 ∷ 2 ∷ 3 ∷ 4 ∷ []) (tx_of 1 (text_at_0 (8 ∷ 9 ∷ []) ∷ []) ∷ tx_of 2 (cancel_0 ∷ []) ∷ []) ≡ 1 ∷ 2 ∷ 3 ∷ 4 ∷ [] }
    ensures written_again { replayed (1 ∷ 2 ∷ 3 ∷ 4 ∷ []) (tx_of 1 (cancel_0 ∷ []) ∷ tx_of 2 (text_at_0 (8 ∷ 9 ∷ []) ∷ []) ∷ []) ≡ 8 ∷ 9 ∷ 3 ∷ 4 ∷ [] }
{}
