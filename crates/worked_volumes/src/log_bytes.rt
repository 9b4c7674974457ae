//! What is written of the log, computed for small values, so that a reader sees what the definitions say.
ghost use Rattle.std.specs.Prelude.{◌≡◌, ◌∷◌, ◌++◌, [], replicate};
ghost use Rattle.volume_model.specs.Format.{sectors_in};
ghost use Rattle.volume_model.specs.Log.{tx_row, payload_of, header_bytes, tx_sectors, records_of, tx_bytes};
ghost use Rattle.volume_model.specs.Worked.{log_sector, head_of};
ghost use Rattle.worked_volumes.specs.Logs.{header, worked_header, root_delta, commit, root_tx, text_at_0, zero_block_0};

/// A log header, a transaction of one delta, one without deltas, and one that fills the payload of its
/// sector but for the commit record, which stands in a second one.
pub fn written()
    ensures header { header_bytes header ≡ worked_header }
    ensures one_delta { tx_bytes root_tx.deltas 1 3 ≡ log_sector (root_delta 2 ++ commit) 1 3 }
    ensures no_deltas { tx_bytes [] 5 3 ≡ log_sector (head_of 5 0 8) 5 3 }
    ensures no_bytes { records_of (zero_block_0 ∷ []) 1 ≡ head_of 0 4096 5 ++ commit }
    ensures full { tx_sectors (text_at_0 (replicate 472 7) ∷ []) ≡ 1 }
    ensures one_byte_more { tx_sectors (text_at_0 (replicate 473 7) ∷ []) ≡ 2 }
    ensures two_sectors { tx_bytes (text_at_0 (replicate 488 7) ∷ []) 1 3
        ≡ log_sector (head_of 0 488 6 ++ replicate 488 7) 1 3 ++ log_sector commit 1 3 }
    ensures one_sector { tx_row root_tx.deltas 1 3 ≡ log_sector (root_delta 2 ++ commit) 1 3 ∷ [] }
    ensures sectors_one_by_one { tx_row (text_at_0 (replicate 488 7) ∷ []) 1 3 ≡ log_sector (head_of 0 488 6 ++ replicate 488 7) 1 3 ∷ (log_sector commit 1 3 ∷ []) }
    ensures read_back { payload_of (sectors_in (log_sector commit 1 3)) ≡ commit ++ replicate 488 0 }
{}
