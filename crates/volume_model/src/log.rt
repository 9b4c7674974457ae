//! The header, the trailers and the transactions of a log as values.
ghost use Rattle.std.specs.Prelude.{◌≡◌, ◌∷◌, ◌++◌, [], length, OnOk, OnErr};

use lufs_base::{DeltaList, Mem};
use std::alloc::Global;
use std::marker::Model;

/// The header of the log, in its first sector (`docs/FORMAT.md`, "Log header").
#[derive(Clone, Copy, Debug, PartialEq, Eq)]
pub struct Header {
    pub epoch: u32,
    /// The ring place where the first transaction begins.
    pub head: u32,
    /// The number of that transaction.
    pub tid: u32,
}

/// The trailer of a log sector, in its last 8 bytes (`docs/FORMAT.md`, "Log sectors").
#[derive(Clone, Copy, Debug, PartialEq, Eq)]
pub struct Trailer {
    /// The transaction that the sector is of.
    pub tid: u32,
    /// The epoch in which it was written.
    pub ident: u32,
}

/// A committed transaction of the log.
#[derive(Debug, Drop)]
pub struct Tx {
    pub tid: u32,
    /// The ring place of its first sector.
    pub first: u32,
    /// How many ring sectors it takes.
    pub sectors: u32,
    pub deltas: DeltaList,
}

/// Transactions in the order of the log.
#[derive(Debug, Drop)]
pub struct TxList {
    txs: Vec<Tx>,
}

impl Model for TxList {
    ghost use Rattle.std.specs.Prelude.{List};
    ghost use Rattle.volume_model.specs.declared.log.Tx.{Tx};

    ghost Value = { List Tx };

    ghost view = { λ l. l.txs.items };
}

impl TxList {
    pub fn new(alloc: Global) -> Self
        ensures { result ≡ [] }
    {
        TxList {
            txs: Vec::new(alloc),
        }
    }

    /// Adds a transaction at the end. An `Err` leaves the list as it was.
    pub fn push(&mut self, tx: Tx) -> Result<(), Mem>
        ensures ok { OnOk result (self.new ≡ self.old ++ tx ∷ []) }
        ensures err { OnErr result (self.new ≡ self.old) }
    {
        self.txs.push(tx)?;
        Ok(())
    }

    pub fn as_slice(&self) -> &[Tx]
        ensures { result.now ≡ self.now }
    {
        self.txs.as_slice()
    }

    pub fn len(&self) -> usize
        ensures { result ≡ length self.now }
    {
        self.txs.len()
    }
}
