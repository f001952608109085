//! Drops what a newer delete of its map takes out.
ghost use Rattle.std.specs.Prelude.{◌≡◌, [], OnOk, OnErr};
ghost use Rattle.std.specs.Ordering.{nat_cmp};
ghost use Rattle.std.specs.BTreeSet.{insert_key};
ghost use Rattle.std.specs.Cmp.Lexicographic.{slice_cmp};
ghost use Rattle.frs_filters.specs.Filters.{given_if, is_undeleted, deleted_map, with_deleted};

use crate::filter::Filter;
use frs_types::{Action, MapId, NoMemory, Record};
use std::alloc::Global;
use std::collections::BTreeSet;
use std::marker::Model;

/// Notes and drops deletes, and drops each other record whose map has a noted delete. Contracts see it as the ids of
/// the maps that were deleted, in the order of their bytes.
#[derive(Drop)]
pub struct DeleteFilter {
    deleted: BTreeSet<MapId>,
}

impl Model for DeleteFilter {
    ghost use Rattle.std.specs.Prelude.{List, ℕ};

    ghost Value = { List (List ℕ) };

    ghost view = { λ a. a.deleted.keys };
}

impl DeleteFilter {
    /// A filter that has noted nothing.
    pub fn new(alloc: Global) -> DeleteFilter
        ensures { result ≡ [] }
    {
        DeleteFilter {
            deleted: BTreeSet::new(alloc),
        }
    }

    // Whether the record passes.
    fn passes(&self, action: &Action) -> bool
        ensures { result ≡ is_undeleted self.now action.now }
    {
        match action {
            Action::Delete { .. } => false,
            Action::Put { id, .. } | Action::Remove { id, .. } | Action::Compaction { id, .. } => {
                !self.deleted.contains(id)
            }
            _ => true,
        }
    }

    // Notes that a map was deleted.
    fn note(&mut self, id: MapId) -> Result<(), NoMemory>
        ensures noted { OnOk result (self.new ≡ insert_key (slice_cmp nat_cmp) self.old id) }
        ensures refused { OnErr result (self.new ≡ self.old) }
    {
        self.deleted.insert(id)?;
        Ok(())
    }
}

impl Filter for DeleteFilter {
    ghost given = { λ deleted lsn r. given_if (is_undeleted deleted r.action) lsn r };

    ghost noted = { λ deleted lsn r. with_deleted deleted r.action };

    fn offer(&mut self, lsn: u64, r: Record) -> Result<Option<(u64, Record)>, NoMemory> {
        if self.passes(&r.action) {
            return Ok(Some((lsn, r)));
        }
        if let Some(id) = map_deleted_by(r) {
            self.note(id)?;
        }
        Ok(None)
    }
}

// The map that a delete deletes.
fn map_deleted_by(r: Record) -> Option<MapId>
    ensures { result ≡ deleted_map r.action }
{
    match r.action {
        Action::Delete { id } => Some(id),
        _ => None,
    }
}
