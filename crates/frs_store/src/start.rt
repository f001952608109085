//! The start of a session: the store is recovered, the next segment made, and the opening mark written.
ghost use Rattle.std.specs.Prelude.{◌≡◌, ◌<◌, ◌≤◌, ◌∷◌, [], All, IsTrue, IfOk, IfErr};
ghost use Rattle.std.specs.List.Sorted.{IsStrictlyIncreasing};
ghost use Rattle.frs_types.specs.Lawful.{table_of};
ghost use Rattle.frs_disk.specs.Frames.{NoneRemovedAbove};
ghost use Rattle.frs_recovery.specs.Answers.{lsns_of};
ghost use Rattle.frs_slots.specs.Views.{next_drawn};
ghost use Rattle.frs_book.specs.Books.{new_book};
ghost use Rattle.frs_store.specs.Session.{IsGoing};
ghost use Rattle.frs_store.specs.Start.{IsOpened, IsUnopened, IsFoundOn, HasMark, HasOnlyMark, WritesMark, FailsAtMark};

use crate::journal::Journal;
use crate::stop::{StartFault, Unopened};
use crate::store::Store;
use frs_book::Book;
use frs_disk::Disk;
use frs_frame::encode_payload;
use frs_history::Script;
use frs_recovery::{Recovered, recover};
use frs_segment::one_log;
use frs_slots::{DrawEnd, Drawer, GhostCopy, Taker, ring};
use frs_types::{Action, Entry, NUMBER_LIMIT, NoMemory};
use frs_writer::Refused;
use std::alloc::Global;

/// The one client.
pub const CLIENT: u32 = 1;

// So many records may be drawn that aren't taken yet.
const CAPACITY: u32 = 1_024;

// Opens the store on this disk for a session of one client with this script.
pub(crate) fn open_store<D: Disk>(
    alloc: Global,
    disk: D,
    script: Script,
) -> Result<Store<D>, Unopened<D>>
    requires { IsTrue (D.tells disk) → NoneRemovedAbove D.Disk disk }
    ensures going { IfOk result (IsGoing D.Disk) }
    ensures opened { IfOk result (IsOpened D.Disk disk script) }
    ensures refused { IfErr result (IsUnopened D.Disk disk) }
{
    let begun = GhostCopy::of(&disk);
    let mut disk = disk;
    match recover(alloc, &mut disk) {
        Ok(recovered) => {
            let next = recovered.found.next;
            if next == NUMBER_LIMIT {
                return Err(Unopened {
                    disk,
                    fault: StartFault::LogFull { next },
                });
            }
            go_on(alloc, begun, disk, recovered, script)
        }
        Err(fault) => Err(Unopened {
            disk,
            fault: StartFault::from(fault),
        }),
    }
}

// Goes on with the store that was recovered: makes the next segment, and writes the opening mark.
fn go_on<D: Disk>(
    alloc: Global,
    begun: GhostCopy<D>,
    disk: D,
    recovered: Recovered,
    script: Script,
) -> Result<Store<D>, Unopened<D>>
    requires found { IsFoundOn D.Disk begun.value disk recovered }
    requires pending { IsTrue (D.tells disk) → NoneRemovedAbove D.Disk disk }
    ensures going { IfOk result (IsGoing D.Disk) }
    ensures opened { IfOk result (IsOpened D.Disk begun.value script) }
    ensures refused { IfErr result (IsUnopened D.Disk begun.value) }
{
    // The log that was recovered is the one that the files spell.
    one_log();
    let Recovered {
        entries,
        found,
        lowest,
    } = recovered;
    let Ok((drawer, taker)) = ends(alloc, found.next, lowest) else {
        return Err(Unopened {
            disk,
            fault: StartFault::Memory,
        });
    };
    let Ok(book) = new_book(alloc, script, entries.into_vec(), drawer) else {
        return Err(Unopened {
            disk,
            fault: StartFault::Memory,
        });
    };
    match Journal::open(alloc, begun, disk, taker, &found, CLIENT) {
        Ok(journal) => write_mark(alloc, Store { journal, book }),
        Err(Refused { disk, fault }) => Err(Unopened {
            disk,
            fault: StartFault::from(fault),
        }),
    }
}

// The two ends of a ring, in which the opening mark of a store whose lowest LSN is this stands.
fn ends(alloc: Global, next: u64, lowest: u64) -> Result<(Drawer, Taker), NoMemory>
    requires { (1 ≤ next) × (next < NUMBER_LIMIT) }
    ensures { IfOk result (λ ends. HasMark next lowest ends.0 ends.1) }
{
    let mut mark = encode_payload(alloc, &Action::Mark)?;
    mark.patch(0, lowest, 0);
    let (mut drawer, mut taker) = ring(alloc, CAPACITY, next)?;
    let Ok(slip) = drawer.draw(mark) else {
        // The ring is empty.
        unreachable!()
    };
    taker.learn(slip.fill());
    drawer.beside(&mut taker);
    Ok((drawer, taker))
}

// A book of this script on these entries, with this drawing end.
fn new_book(
    alloc: Global,
    script: Script,
    entries: Vec<Entry>,
    drawer: Drawer,
) -> Result<Book, NoMemory>
    requires rising { IsStrictlyIncreasing (lsns_of entries.items) }
    requires before { All (λ n. (0 < n) × (n < next_drawn drawer)) (lsns_of entries.items) }
    ensures { IfOk result (λ book. book
        ≡ new_book (script ∷ []) (table_of entries.items) 0 drawer) }
{
    let mut scripts = Vec::new(alloc);
    scripts.push(script)?;
    Book::new(alloc, scripts, entries, drawer, 0)
}

// Writes the opening mark, which stands in the ring.
fn write_mark<D: Disk>(alloc: Global, store: Store<D>) -> Result<Store<D>, Unopened<D>>
    requires going { IsGoing D.Disk store }
    requires mark { HasOnlyMark store }
    ensures going { IfOk result (IsGoing D.Disk) }
    ensures written { IfOk result (WritesMark D.Disk store) }
    ensures refused { IfErr result (FailsAtMark D.Disk store) }
{
    let mut store = store;
    let written = store.journal.write_group(alloc);
    // What was taken is a part of what was drawn.
    store.journal.meet(&mut store.book);
    match written {
        Ok(_) => Ok(store),
        Err(fault) => Err(Unopened {
            disk: store.journal.into_disk(),
            fault: StartFault::from(fault),
        }),
    }
}
