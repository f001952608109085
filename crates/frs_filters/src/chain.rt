//! The four filters, one behind the other.
use crate::delete::DeleteFilter;
use crate::filter::Filter;
use crate::replay::ReplayFilter;
use crate::skip::SkipFilter;
use crate::transaction::TransactionFilter;
use frs_types::{Entry, NoMemory, Record};
use std::alloc::Global;

/// Leaves the survivors of a log whose records are offered to it from the newest to the oldest.
#[derive(Drop)]
pub struct Chain {
    transactions: TransactionFilter,
    skips: SkipFilter,
    deletes: DeleteFilter,
    replay: ReplayFilter,
}

impl Chain {
    ghost use Rattle.std.specs.Prelude.{◌≡◌, List, [], ◌∷◌, IsTrue, OnOk};
    ghost use Rattle.frs_types.specs.Records.{Numbered, is_allowed};
    ghost use Rattle.frs_types.specs.Survivors.{committed_records, survivors_of};
    ghost use Rattle.frs_filters.specs.Chain.{HasSeen, chain_after};

    /// A chain that was offered nothing.
    pub fn new(alloc: Global) -> Chain
        ensures { HasSeen result [] }
    {
        Chain {
            transactions: TransactionFilter::new(alloc),
            skips: SkipFilter::new(alloc),
            deletes: DeleteFilter::new(alloc),
            replay: ReplayFilter::new(alloc),
        }
    }

    /// Offers the record that stands before all those that were offered. Its condition is that the record may stand at
    /// this LSN. Where there was no memory, the chain has lost the record and is of no more use.
    pub fn offer(&mut self, lsn: u64, r: Record) -> Result<(), NoMemory>
        requires { IsTrue (is_allowed lsn r) }
        ensures { (later : List Numbered) → HasSeen self.old later
            → OnOk result (HasSeen self.new (record { lsn = lsn; what = r } ∷ later)) }
    {
        self.pass(lsn, r)
    }

    /// The survivors of the records that were offered, rising by LSN.
    pub fn entries(self) -> Vec<Entry>
        ensures { (later : List Numbered) → HasSeen self later
            → result.items ≡ survivors_of (committed_records later) }
    {
        let Chain { replay, .. } = self;
        replay.entries()
    }

    // One record through the filters.
    fn pass(&mut self, lsn: u64, r: Record) -> Result<(), NoMemory>
        ensures { OnOk result (self.new ≡ chain_after self.old lsn r) }
    {
        let Some((lsn, r)) = self.transactions.offer(lsn, r)? else {
            return Ok(());
        };
        let Some((lsn, r)) = self.skips.offer(lsn, r)? else {
            return Ok(());
        };
        let Some((lsn, r)) = self.deletes.offer(lsn, r)? else {
            return Ok(());
        };
        self.replay.offer(lsn, r)?;
        Ok(())
    }
}
