//! Keeps what comes through as entries.
ghost use Rattle.std.specs.Prelude.{◌≡◌, Some, None, [], OnOk, OnErr};
ghost use Rattle.frs_types.specs.Survivors.{entry_by};
ghost use Rattle.frs_filters.specs.Filters.{with_older, with_replayed};

use crate::filter::Filter;
use frs_types::{Action, Entry, Key, MapId, NoMemory, Record};
use std::alloc::Global;
use std::collections::BTreeSet;
use std::marker::Model;

/// Keeps puts and compactions as entries, but none whose id and key it has already, and gives nothing on. Contracts see
/// it as the entries that it keeps, the first one that was offered last, so that their LSNs rise.
#[derive(Drop)]
pub struct ReplayFilter {
    alloc: Global,
    kept: Vec<Entry>,
    places: BTreeSet<(MapId, Key)>,
}

impl Model for ReplayFilter {
    ghost use Rattle.std.specs.Prelude.{◌≡◌, List, reverse};
    ghost use Rattle.frs_types.specs.declared.record.Entry.{Entry};
    ghost use Rattle.frs_types.specs.Maps.{Place, place_cmp};

    ghost Value = { List Entry };

    ghost use Rattle.frs_filters.specs.Filters.{is_noted, is_placed};

    ghost view = { λ a. reverse a.kept.items };

    ghost invariant = { λ a. (p : Place)
        → is_noted place_cmp a.places.keys p ≡ is_placed (reverse a.kept.items) p };
}

impl ReplayFilter {
    /// A filter that has kept nothing.
    pub fn new(alloc: Global) -> ReplayFilter
        ensures { result ≡ [] }
    {
        ReplayFilter {
            alloc,
            kept: Vec::new(alloc),
            places: BTreeSet::new(alloc),
        }
    }

    /// What it kept, rising by LSN, since records are offered from the greatest LSN to the least.
    pub fn entries(self) -> Vec<Entry>
        ensures { result.items ≡ self }
    {
        let ReplayFilter { kept, .. } = self;
        let mut entries = kept;
        entries.reverse();
        entries
    }

    // Keeps an entry, unless its place is taken.
    fn keep(&mut self, entry: Entry) -> Result<(), NoMemory>
        ensures kept { OnOk result (self.new ≡ with_older self.old (Some entry)) }
        ensures refused { OnErr result (self.new ≡ self.old) }
    {
        let Entry {
            id,
            key,
            value,
            lsn,
        } = entry;
        let place = (id, key);
        if self.places.contains(&place) {
            return Ok(());
        }
        let entry = Entry {
            id: place.0.copy(self.alloc)?,
            key: place.1.copy(self.alloc)?,
            value,
            lsn,
        };
        self.kept.reserve(1)?;
        self.places.insert(place)?;
        self.kept.push_reserved(entry);
        Ok(())
    }
}

// The entry that a put or a compaction with this LSN makes.
fn entry_of(lsn: u64, r: Record) -> Option<Entry>
    ensures { result ≡ entry_by lsn r.action }
{
    match r.action {
        Action::Put { id, key, value } | Action::Compaction { id, key, value } => Some(Entry {
            id,
            key,
            value,
            lsn,
        }),
        _ => None,
    }
}

impl Filter for ReplayFilter {
    ghost given = { λ kept lsn r. None };

    ghost noted = { λ kept lsn r. with_replayed kept lsn r.action };

    fn offer(&mut self, lsn: u64, r: Record) -> Result<Option<(u64, Record)>, NoMemory> {
        if let Some(entry) = entry_of(lsn, r) {
            self.keep(entry)?;
        }
        Ok(None)
    }
}
