//! Drops what a newer record names.
ghost use Rattle.std.specs.Prelude.{◌≡◌, [], OnOk, OnErr};
ghost use Rattle.frs_filters.specs.Filters.{given_if, is_unnamed, with_named};

use crate::filter::Filter;
use frs_types::{Action, NoMemory, Record};
use std::alloc::Global;
use std::collections::BTreeSet;
use std::marker::Model;

/// Passes every delete, drops every remove, and drops each other record whose LSN is noted. It notes the LSN that each
/// record names, also a record that it drops. Contracts see it as these LSNs, rising.
#[derive(Drop)]
pub struct SkipFilter {
    named: BTreeSet<u64>,
}

impl Model for SkipFilter {
    ghost use Rattle.std.specs.Prelude.{List, ℕ};

    ghost Value = { List ℕ };

    ghost view = { λ a. a.named.keys };
}

impl SkipFilter {
    /// A filter that has noted nothing.
    pub fn new(alloc: Global) -> SkipFilter
        ensures { result ≡ [] }
    {
        SkipFilter {
            named: BTreeSet::new(alloc),
        }
    }

    // Whether a record with this LSN passes.
    fn passes(&self, lsn: u64, action: &Action) -> bool
        ensures { result ≡ is_unnamed self.now lsn action.now }
    {
        match action {
            Action::Delete { .. } => true,
            Action::Remove { .. } => false,
            _ => !self.named.contains(&lsn),
        }
    }

    // Notes an LSN.
    fn note(&mut self, named: u64) -> Result<(), NoMemory>
        ensures noted { OnOk result (self.new ≡ with_named self.old named) }
        ensures refused { OnErr result (self.new ≡ self.old) }
    {
        self.named.insert(named)?;
        Ok(())
    }
}

impl Filter for SkipFilter {
    ghost given = { λ named lsn r. given_if (is_unnamed named lsn r.action) lsn r };

    ghost noted = { λ named lsn r. with_named named r.named };

    fn offer(&mut self, lsn: u64, r: Record) -> Result<Option<(u64, Record)>, NoMemory> {
        let passes = self.passes(lsn, &r.action);
        self.note(r.named)?;
        Ok(if passes { Some((lsn, r)) } else { None })
    }
}
