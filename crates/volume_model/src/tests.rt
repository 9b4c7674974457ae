//! Lists of transactions, of blocks, and what a hand holds.
use crate::{BlockList, Hand, Tx, TxList};
use lufs_base::{BlockNo, DeltaList};
use std::test::Fail;

#[test]
fn transactions(rt: HostRuntime) -> Result<(), Fail> {
    let alloc = rt.alloc();
    let mut txs = TxList::new(alloc);
    assert_eq!(rt; txs.len(), 0);
    for (tid, first, sectors) in [(1, 254, 3), (2, 2, 1)] {
        txs.push(Tx {
            tid,
            first,
            sectors,
            deltas: DeltaList::new(alloc),
        })?;
    }
    assert_eq!(rt; txs.len(), 2);
    for (k, want) in [(0, (1, 254, 3)), (1, (2, 2, 1))] {
        let tx = txs.as_slice().get(k).ok_or("no transaction")?;
        assert_eq!(rt; (tx.tid, tx.first, tx.sectors), want, "{k}");
    }
    Ok(())
}

#[test]
fn hands(rt: HostRuntime) -> Result<(), Fail> {
    let mut hand = Hand {
        inode: Some(3),
        blocks: BlockList::new(rt.alloc()),
    };
    assert_eq!(rt; hand.blocks.len(), 0);
    for block in [38, 41] {
        hand.blocks.push(BlockNo(block))?;
    }
    assert_eq!(rt; hand.inode, Some(3));
    assert_eq!(rt; hand.blocks.len(), 2);
    for (k, want) in [(0, 38), (1, 41)] {
        let block = hand.blocks.as_slice().get(k).ok_or("no block")?;
        assert_eq!(rt; *block, want, "{k}");
    }
    Ok(())
}
