//! Drops what was not committed.
ghost use Rattle.std.specs.Prelude.{◌≡◌, [], OnOk, OnErr};
ghost use Rattle.frs_filters.specs.Filters.{given_if, is_committed, with_commit};

use crate::filter::Filter;
use frs_types::{Action, NoMemory, Record};
use std::alloc::Global;
use std::collections::BTreeSet;
use std::marker::Model;

/// Passes puts, removes and deletes whose transaction is 0 or has committed, and every compaction. It drops all other
/// records, and notes the transactions whose commit record was offered. Contracts see it as these, rising.
#[derive(Drop)]
pub struct TransactionFilter {
    commits: BTreeSet<u64>,
}

impl Model for TransactionFilter {
    ghost use Rattle.std.specs.Prelude.{List, ℕ};

    ghost Value = { List ℕ };

    ghost view = { λ a. a.commits.keys };
}

impl TransactionFilter {
    /// A filter that has noted nothing.
    pub fn new(alloc: Global) -> TransactionFilter
        ensures { result ≡ [] }
    {
        TransactionFilter {
            commits: BTreeSet::new(alloc),
        }
    }

    // Whether the record passes.
    fn passes(&self, r: &Record) -> bool
        ensures { result ≡ is_committed self.now r.now.tx r.now.action }
    {
        match &r.action {
            Action::Put { .. } | Action::Remove { .. } | Action::Delete { .. } => {
                r.tx == 0 || self.commits.contains(&r.tx)
            }
            Action::Compaction { .. } => true,
            Action::Begin | Action::Commit | Action::Mark | Action::Abandon => false,
        }
    }

    // Notes the transaction that the record commits.
    fn note(&mut self, r: &Record) -> Result<(), NoMemory>
        ensures noted { OnOk result (self.new ≡ with_commit self.old r.now.tx r.now.action) }
        ensures refused { OnErr result (self.new ≡ self.old) }
    {
        if let Action::Commit = &r.action {
            self.commits.insert(r.tx)?;
        }
        Ok(())
    }
}

impl Filter for TransactionFilter {
    ghost given = { λ commits lsn r. given_if (is_committed commits r.tx r.action) lsn r };

    ghost noted = { λ commits lsn r. with_commit commits r.tx r.action };

    fn offer(&mut self, lsn: u64, r: Record) -> Result<Option<(u64, Record)>, NoMemory> {
        let passes = self.passes(&r);
        self.note(&r)?;
        Ok(if passes { Some((lsn, r)) } else { None })
    }
}
