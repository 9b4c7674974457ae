//! What a listing keeps of a transaction.
ghost use Rattle.std.specs.Prelude.{◌≡◌, ◌∷◌, ◌++◌, [], length, OnOk, OnErr};

use lufs_base::Mem;
use std::alloc::Global;
use std::marker::Model;

/// A committed transaction of the log, without its deltas.
#[derive(Clone, Copy, PartialEq, Eq)]
pub struct TxSummary {
    pub tid: u32,
    /// The ring place of its first sector.
    pub first: u32,
    /// How many ring sectors it takes.
    pub sectors: u32,
    /// How many deltas it has.
    pub deltas: u32,
    /// The bytes of their records.
    pub bytes: u32,
}

/// Summaries of transactions in the order of the log.
#[derive(Drop)]
pub struct TxSummaries {
    txs: Vec<TxSummary>,
}

impl Model for TxSummaries {
    ghost use Rattle.std.specs.Prelude.{List};
    ghost use Rattle.log_scan.specs.declared.summary.TxSummary.{TxSummary};

    ghost Value = { List TxSummary };

    ghost view = { λ l. l.txs.items };
}

impl TxSummaries {
    pub fn new(alloc: Global) -> Self
        ensures { result ≡ [] }
    {
        TxSummaries {
            txs: Vec::new(alloc),
        }
    }

    /// Adds one at the end. An `Err` leaves the list as it was.
    pub fn push(&mut self, tx: TxSummary) -> Result<(), Mem>
        ensures ok { OnOk result (self.new ≡ self.old ++ tx ∷ []) }
        ensures err { OnErr result (self.new ≡ self.old) }
    {
        self.txs.push(tx)?;
        Ok(())
    }

    pub fn as_slice(&self) -> &[TxSummary]
        ensures { result.now ≡ self.now }
    {
        self.txs.as_slice()
    }

    pub fn len(&self) -> usize
        ensures { result ≡ length self.now }
    {
        self.txs.len()
    }
}
