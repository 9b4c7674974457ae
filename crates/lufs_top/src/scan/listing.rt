//! The text of a listing, which has a line for each transaction.
ghost use Rattle.std.specs.Prelude.{◌≡◌, ◌≤◌, ◌*◌, ◌^◌, ◌<◌, length, string_bytes, sum_by, IfOk, OnOk, ◌++◌};
ghost use Rattle.std.specs.Fmt.{decimal};
ghost use Rattle.volume_model.specs.Texts.{header_line};
ghost use Rattle.lufs_base.specs.Layout.{IsGeometry};
ghost use Rattle.lufs_top.specs.Listing.{summed_line, total_line, listing_text};

use itoa::Buffer;
use log_scan::{Header, TxSummaries, TxSummary};
use lufs_base::{Geometry, Mem};
use std::alloc::Global;

fn total_sectors(txs: &[TxSummary]) -> u128
    ensures { result ≡ sum_by (λ tx. tx.sectors) txs.now }
{
    let mut sectors = 0;
    for tx in txs {
        sectors += u128::from(tx.sectors);
    }
    sectors
}

// Appends words with a space at their end, and a number after them.
fn push_field(text: &mut String, words: &str, number: u32) -> Result<(), Mem>
    ensures { OnOk result (string_bytes text.new ≡ string_bytes text.old ++ (words.now ++ decimal number)) }
{
    let mut buffer = Buffer::new();
    text.push_str(words)?;
    text.push_str(buffer.format(number))?;
    Ok(())
}

fn push_tx(text: &mut String, tx: &TxSummary) -> Result<(), Mem>
    ensures { OnOk result (string_bytes text.new ≡ string_bytes text.old ++ summed_line tx.now) }
{
    push_field(text, "tx ", tx.tid)?;
    push_field(text, " sectors ", tx.sectors)?;
    push_field(text, " deltas ", tx.deltas)?;
    push_field(text, " bytes ", tx.bytes)?;
    text.push('\n')?;
    Ok(())
}

/// What `scan` prints of a log (`docs/FORMAT.md`, "What scan prints").
#[tactic(auto, unfolding(crate::specs::Listing::listing_text))]
pub(crate) fn listing_text(
    alloc: Global,
    g: &Geometry,
    header: &Header,
    txs: &TxSummaries,
) -> Result<String, Mem>
    requires { IsGeometry g.now }
    ensures { IfOk result (λ text. string_bytes text ≡ listing_text g.now header.now txs.now) }
{
    let epoch = header.epoch;
    let head = header.head;
    let tid = header.tid;
    let ring = g.ring();
    let mut text = format!(in alloc; "epoch {epoch} head {head} tid {tid} ring {ring}\n")?;
    for tx in txs.as_slice() {
        push_tx(&mut text, tx)?;
    }
    let committed = txs.len();
    let sectors = total_sectors(txs.as_slice());
    write!(text, "committed {committed} sectors {sectors}\n")?;
    Ok(text)
}
