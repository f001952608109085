//! The transactions that a log leaves open.
ghost use Rattle.std.specs.Prelude.{◌≡◌, List, [], ◌∷◌, OnOk, OnErr};
ghost use Rattle.frs_types.specs.Records.{Numbered};
ghost use Rattle.frs_types.specs.Survivors.{least, open_begins};
ghost use Rattle.frs_filters.specs.Begins.{is_ended, lower_of, with_noted, HasNoted};

use frs_types::{Action, NoMemory, Record};
use std::alloc::Global;
use std::collections::BTreeSet;
use std::marker::Model;

/// Notes which begins no later commit, abandon or mark ends, of a log whose records are shown to it from the newest to
/// the oldest.
#[derive(Drop)]
pub struct OpenBegins {
    ended: BTreeSet<u64>,
    marked: bool,
    lowest: Option<u64>,
}

impl Model for OpenBegins {
    ghost use Rattle.frs_filters.specs.Begins.{Begins};

    ghost Value = { Begins };

    ghost view = { λ a. record { ended = a.ended.keys; marked = a.marked; lowest = a.lowest } };
}

impl OpenBegins {
    /// Nothing was shown.
    pub fn new(alloc: Global) -> OpenBegins
        ensures { HasNoted result [] }
    {
        OpenBegins {
            ended: BTreeSet::new(alloc),
            marked: false,
            lowest: None,
        }
    }

    /// Shows the record that stands before all those that were shown. Where there was no memory, nothing is noted.
    pub fn note(&mut self, lsn: u64, r: &Record) -> Result<(), NoMemory>
        ensures noted { (later : List Numbered) → HasNoted self.old later
            → OnOk result (HasNoted self.new (record { lsn = lsn; what = r.now } ∷ later)) }
        ensures refused { OnErr result (self.new ≡ self.old) }
    {
        self.step(lsn, r)
    }

    /// The least of the open begins and of `next`.
    pub fn lowest(&self, next: u64) -> u64
        ensures { (later : List Numbered) → HasNoted self.now later
            → result ≡ least next (open_begins later) }
    {
        self.lower(next)
    }

    // The least begin that stays open and the LSN.
    fn lower(&self, lsn: u64) -> u64
        ensures { result ≡ lower_of lsn self.now.lowest }
    {
        match self.lowest {
            Some(lowest) => lsn.min(lowest),
            None => lsn,
        }
    }

    // Whether a record that was shown ends the transaction.
    fn is_ended(&self, tx: u64) -> bool
        ensures { result ≡ is_ended self.now tx }
    {
        self.marked || self.ended.contains(&tx)
    }

    // One record.
    fn step(&mut self, lsn: u64, r: &Record) -> Result<(), NoMemory>
        ensures noted { OnOk result (self.new ≡ with_noted self.old lsn r.now.tx r.now.action) }
        ensures refused { OnErr result (self.new ≡ self.old) }
    {
        match &r.action {
            Action::Begin => {
                if !self.is_ended(lsn) {
                    let lowest = self.lower(lsn);
                    self.lowest = Some(lowest);
                }
            }
            Action::Commit | Action::Abandon => {
                self.ended.insert(r.tx)?;
            }
            Action::Mark => self.marked = true,
            _ => {}
        }
        Ok(())
    }
}
