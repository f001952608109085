// The records of a store, from the newest to the oldest, through the filters.
ghost use Rattle.std.specs.Prelude.{◌≡◌, ◌+◌, ◌<◌, ◌≤◌, ◌^◌, ◌++◌, ℕ, List, [], ◌∷◌, length, map, IsTrue, IfOk, OnOk};
ghost use Rattle.frs_types.specs.declared.record.Record.{Record};
ghost use Rattle.frs_types.specs.Records.{is_allowed, are_allowed_from, named_lowest, numbered_records};
ghost use Rattle.frs_types.specs.Survivors.{committed_records, survivors_of, open_begins, least};
ghost use Rattle.frs_recovery.specs.Answers.{lsns_of};
ghost use Rattle.frs_recovery.specs.OfferedRecords.{offered_records, lowest_named, HasRead};

use frs_filters::{Chain, OpenBegins};
use frs_types::{Entry, NUMBER_LIMIT, NoMemory, Record};
use std::alloc::Global;

// The newest records of a log, as far back as they were read. The newest one names the lowest LSN that is needed, and
// those from there on are offered to the filters.
#[derive(Drop)]
pub(crate) struct BackwardReader {
    chain: Chain,
    begins: OpenBegins,
    named: Option<u64>,
}

impl BackwardReader {
    // No record was read.
    pub(crate) fn new(alloc: Global) -> BackwardReader
        ensures { (first : ℕ) → HasRead result first [] }
    {
        BackwardReader {
            chain: Chain::new(alloc),
            begins: OpenBegins::new(alloc),
            named: None,
        }
    }

    // The lowest LSN that the newest record names, if a record was read.
    pub(crate) fn named(&self) -> Option<u64>
        ensures { result ≡ self.now.named }
    {
        self.named
    }

    // Reads the record that stands before all those that were read.
    fn read(&mut self, lsn: u64, r: Record) -> Result<(), NoMemory>
        requires { IsTrue (is_allowed lsn r) }
        ensures { (rs : List Record) → HasRead self.old (lsn + 1) rs
            → OnOk result (HasRead self.new lsn (r ∷ rs)) }
    {
        let lowest = self.named.unwrap_or(r.lowest);
        self.named = Some(lowest);
        if lsn < lowest {
            return Ok(());
        }
        self.begins.note(lsn, &r)?;
        self.chain.offer(lsn, r)
    }

    // Reads the records of a chunk, which stand before all those that were read, from the last to the first.
    pub(crate) fn read_all(&mut self, first: u64, records: Vec<Record>) -> Result<(), NoMemory>
        requires allowed { IsTrue (are_allowed_from first records.items) }
        requires within { first + length records.items ≤ NUMBER_LIMIT }
        ensures { (rs : List Record) → HasRead self.old (first + length records.items) rs
            → OnOk result (HasRead self.new first (records.items ++ rs)) }
    {
        let mut older = records;
        while let Some(r) = older.pop() {
            self.read(first + older.len() as u64, r)?;
        }
        Ok(())
    }

    // What the records that were read leave, the next of which gets this LSN: the entries, and the lowest LSN that is
    // still needed.
    pub(crate) fn into_survivors(self, next: u64) -> (Vec<Entry>, u64)
        ensures entries { (first : ℕ) (rs : List Record) → HasRead self first rs
            → result.0.items ≡ survivors_of (committed_records (offered_records first rs)) }
        ensures lowest { (first : ℕ) (rs : List Record) → HasRead self first rs
            → result.1 ≡ least next
            (lsns_of (survivors_of (committed_records (offered_records first rs)))
            ++ open_begins (offered_records first rs)) }
    {
        let BackwardReader { chain, begins, .. } = self;
        let entries = chain.entries();
        let lowest = begins.lowest(least_lsn(next, entries.as_slice()));
        (entries, lowest)
    }
}

// The least of the entries' LSNs and of the next one.
fn least_lsn(next: u64, entries: &[Entry]) -> u64
    ensures { result ≡ least next (lsns_of entries.now) }
{
    let mut lowest = next;
    for entry in entries {
        lowest = lowest.min(entry.lsn);
    }
    lowest
}
