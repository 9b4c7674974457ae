//! The definitions computed on small journals, so that a reader sees what they say.
ghost use Rattle.std.specs.Prelude.{◌≡◌, ◌∷◌, ◌++◌, [], true, false, replicate, Some, None};
ghost use Rattle.volume_model.specs.declared.device_call.DeviceCall.TheVariants.{Write};
ghost use Rattle.volume_model.specs.Log.{Listed, WithHeader, log_with, header_bytes, sectors_for};
ghost use Rattle.volume_model.specs.Worked.{smallest, empty_tx};
ghost use Rattle.log_laws.specs.LogOnImage.{tx_write};
ghost use Rattle.journal_model.specs.Journals.{Live, Released, Freed, Home, Trimmed, Writing};
ghost use Rattle.journal_model.specs.Versions.{Published, Running, next_header, header_after, running_tx, txs_of, txs_after};
ghost use Rattle.journal_model.specs.LaidBlocks.{given_by, is_laid_by, replayed_byte};
ghost use Rattle.journal_model.specs.Batches.{is_held, is_released};
ghost use Rattle.journal_model.specs.Room.{pending_bytes};
ghost use Rattle.journal_model.specs.Changes.{owner_after};
ghost use Rattle.journal_model.specs.Steps.{published_owner};
ghost use Rattle.journal_model.specs.Worked.{mounted_at, with_file, file_sector, log_by, file_round_the_end, rolling, file_batch, directory_tx, removal, removal_tx, with_directory};

/// A new file is sealed, and its three sectors are written.
pub fn commits()
    ensures bytes { pending_bytes (with_file 0 1) ≡ 1248 }
    ensures sectors { sectors_for 1248 ≡ 3 }
    ensures place { (running_tx smallest (with_file 0 1)).first ≡ 0 }
    ensures whole { log_by (mounted_at 0 1).oldest (file_sector 1 0 ∷ file_sector 1 1 ∷ file_sector 1 2 ∷ [])
        ≡ WithHeader (mounted_at 0 1).oldest (Listed (running_tx smallest (with_file 0 1) ∷ [])) }
    // A crash leaves the first and the third sector only.
    ensures without_the_second { log_by (mounted_at 0 1).oldest (file_sector 1 0 ∷ replicate 512 0 ∷ file_sector 1 2 ∷ [])
        ≡ WithHeader (mounted_at 0 1).oldest (Listed []) }
{}

/// A transaction that goes on in the ring's first place is written by two writes.
pub fn turns()
    ensures first { (running_tx smallest (with_file 254 253)).first ≡ 254 }
    ensures to_the_end { tx_write smallest 3 (running_tx smallest (with_file 254 253)) 0 1 ≡ Write 279 (file_sector 253 0) }
    ensures from_the_front { tx_write smallest 3 (running_tx smallest (with_file 254 253)) 1 2 ≡ Write 25 (file_sector 253 1 ++ file_sector 253 2) }
    ensures listed { log_with smallest (header_bytes (mounted_at 254 253).oldest) file_round_the_end
        ≡ WithHeader (mounted_at 254 253).oldest (Listed (running_tx smallest (with_file 254 253) ∷ [])) }
{}

/// A roll of one transaction: once its blocks are home, the old header lists it and the new one doesn't.
pub fn rolls()
    ensures held { is_held (rolling (Writing (file_batch (36 ∷ 37 ∷ [])))) 35 ≡ true }
    ensures new_header { header_after smallest (rolling (Trimmed (file_batch []))) 1 ≡ record { epoch = 3; head = 3; tid = 2 } }
    ensures rest { txs_after smallest (rolling (Trimmed (file_batch []))) 1 Published ≡ [] }
    ensures by_the_old { log_by (rolling (Trimmed (file_batch []))).oldest (file_sector 1 0 ∷ file_sector 1 1 ∷ file_sector 1 2 ∷ [])
        ≡ WithHeader (mounted_at 0 1).oldest (Listed (txs_of smallest (rolling (Trimmed (file_batch []))) Published)) }
    ensures by_the_new { log_by (header_after smallest (rolling (Trimmed (file_batch []))) 1) (file_sector 1 0 ∷ file_sector 1 1 ∷ file_sector 1 2 ∷ [])
        ≡ WithHeader (record { epoch = 3; head = 3; tid = 2 }) (Listed []) }
{}

/// The block of a directory that is removed: it may be given out once the removal is committed and no batch holds it, and
/// then a replay lays nothing over the bytes of a file in it.
pub fn freed_blocks()
    ensures laid { is_laid_by (directory_tx ∷ []) 38 ≡ true }
    ensures freed { owner_after smallest with_directory removal 38 ≡ Freed 2 }
    ensures by_an_older { published_owner 1 (Freed 2) ≡ Freed 2 }
    ensures published { published_owner 2 (Freed 2) ≡ Released }
    ensures while_held { is_released (record with_directory { owners = λ b. Released; roll = Writing (record { count = 1; held = 38 ∷ []; left = [] }) }) 38 ≡ false }
    ensures given_out { is_released (record with_directory { owners = λ b. Released }) 38 ≡ true }
    ensures cancelled { is_laid_by (directory_tx ∷ removal_tx ∷ []) 38 ≡ false }
    ensures directory_bytes { replayed_byte [] (directory_tx ∷ []) 155650 ≡ 5 }
    ensures file_bytes { replayed_byte (replicate 10 7) (directory_tx ∷ removal_tx ∷ []) 155650 ≡ replayed_byte (replicate 10 7) [] 155650 }
{}
