//! The store's folder as a disk: segment N is the file `seg-` and N in 20 digits. Other names are passed over.
ghost use Rattle.std.specs.Prelude.{◌≡◌, ◌≤◌, ℕ, false, All, IfOk, IfSome, Ok, length};
ghost use Rattle.std.specs.FinMap.{empty};
ghost use Rattle.std.specs.List.Sorted.{IsStrictlyIncreasing};
ghost use Rattle.frs_disk.specs.Disk.{IsNumber, HasCause};

use crate::system_fault::answer;
use frs_disk::{Disk, Fault};
use frs_types::NUMBER_LIMIT;
use std::alloc::{AllocError, Global};
use std::fs::{File, OpenOptions};
use std::io::ErrorKind;
use std::os::unix::fs::FileExt;
use std::{fs, io};

/// A folder of segment files. It doesn't tell what it holds.
///
/// A file that was created lasts through a crash only once the folder was synced, too: the first sync after it does
/// that before it answers. After a sync that failed every call fails: what the system kept is not known, so the store
/// is to be opened again. What is there at the start may be the work of a program that was killed before it synced, and
/// is read all the same; so all files are synced before the first change. Nothing is opened for writing to be read.
#[derive(Drop)]
pub struct FolderDisk {
    folder: Folder,
    faults: u64,
    // The most bytes that a read was asked for.
    widest: u64,
}

#[derive(Drop)]
struct Folder {
    rt: HostRuntime,
    alloc: Global,
    path: String,
    // The segment in use, whose file stays open.
    open: Option<OpenSegment>,
    // The files that were there at the start are synced.
    is_settled: bool,
    // A file was created since the folder was synced.
    has_new_name: bool,
    // A sync failed.
    has_failed: bool,
}

#[derive(Drop)]
struct OpenSegment {
    number: u64,
    file: File,
    // It is open for writing, too.
    writes: bool,
}

impl FolderDisk {
    /// The disk in the folder with this path, which should exist: where it doesn't, the first call fails.
    pub fn of(rt: HostRuntime, path: &str) -> Result<FolderDisk, AllocError> {
        let alloc = rt.alloc();
        let folder = Folder {
            rt,
            alloc,
            path: String::from_str(alloc, path)?,
            open: None,
            is_settled: false,
            has_new_name: false,
            has_failed: false,
        };
        Ok(FolderDisk {
            folder,
            faults: 0,
            widest: 0,
        })
    }
}

// The number of a segment file with this name.
fn number_of(name: &str) -> Option<u64>
    ensures { IfSome result IsNumber }
{
    let digits = name.strip_prefix("seg-")?;
    if digits.len() != 20 || !digits.bytes().all(|b| b.is_ascii_digit()) {
        return None;
    }
    let number = digits.parse::<u64>().ok()?;
    if number < 1 || number >= NUMBER_LIMIT {
        return None;
    }
    Some(number)
}

// The numbers of which each is above those before it.
fn rising(alloc: Global, numbers: &[u64]) -> Result<Vec<u64>, AllocError>
    requires { All IsNumber numbers.now }
    ensures rising { IfOk result (λ v. IsStrictlyIncreasing v.items) }
    ensures in_range { IfOk result (λ v. All IsNumber v.items) }
{
    let mut kept = Vec::new(alloc);
    let mut last = 0;
    for number in numbers {
        if *number > last {
            kept.push(*number)?;
            last = *number;
        }
    }
    Ok(kept)
}

impl Folder {
    fn check(&self) -> io::Result<()> {
        if self.has_failed {
            return Err(io::Error::from(ErrorKind::Other));
        }
        Ok(())
    }

    fn path_of(&self, number: u64) -> Result<String, AllocError> {
        let path = self.path.as_str();
        format!(in self.alloc; "{path}/seg-{number:020}")
    }

    // The numbers of the segment files, in the folder's order.
    fn listed(&self, alloc: Global) -> io::Result<Vec<u64>>
        ensures { IfOk result (λ v. All IsNumber v.items) }
    {
        let mut numbers = Vec::new(alloc);
        for entry in fs::read_dir(&self.rt, self.path.as_str())? {
            match entry {
                Ok(entry) => {
                    if let Some(number) = number_of(entry.file_name()) {
                        numbers.push(number)?;
                    }
                }
                // A name that is no text is no segment's.
                Err(e) if e.kind() == ErrorKind::InvalidFilename => {}
                Err(e) => return Err(e),
            }
        }
        Ok(numbers)
    }

    fn numbers(&mut self, alloc: Global) -> io::Result<Vec<u64>>
        ensures rising { IfOk result (λ v. IsStrictlyIncreasing v.items) }
        ensures in_range { IfOk result (λ v. All IsNumber v.items) }
    {
        self.check()?;
        let mut numbers = self.listed(alloc)?;
        numbers.sort_unstable();
        Ok(rising(alloc, &numbers)?)
    }

    // Syncs what is there at the start.
    fn sync_listed(&mut self) -> io::Result<()> {
        let numbers = self.listed(self.alloc)?;
        for number in &numbers {
            let path = self.path_of(*number)?;
            let synced = File::open(&self.rt, path.as_str())?.sync_data();
            if synced.is_err() {
                self.has_failed = true;
            }
            synced?;
        }
        Ok(())
    }

    // Before each change.
    fn settle(&mut self) -> io::Result<()> {
        self.check()?;
        if !self.is_settled {
            self.sync_listed()?;
            self.is_settled = true;
        }
        Ok(())
    }

    fn create(&mut self, number: u64) -> io::Result<()> {
        self.settle()?;
        let path = self.path_of(number)?;
        let file = OpenOptions::new()
            .read(true)
            .write(true)
            .create_new(true)
            .open(&self.rt, path.as_str())?;
        self.has_new_name = true;
        self.open = Some(OpenSegment {
            number,
            file,
            writes: true,
        });
        Ok(())
    }

    // The open file of the segment. It is given back by `keep`, unless a call on it failed.
    fn take(&mut self, number: u64, writes: bool) -> io::Result<OpenSegment> {
        self.check()?;
        match self.open.take() {
            Some(open) if open.number == number && (open.writes || !writes) => Ok(open),
            _ => {
                let path = self.path_of(number)?;
                let file = OpenOptions::new()
                    .read(true)
                    .write(writes)
                    .open(&self.rt, path.as_str())?;
                Ok(OpenSegment {
                    number,
                    file,
                    writes,
                })
            }
        }
    }

    fn keep(&mut self, open: OpenSegment) {
        self.open = Some(open);
    }

    fn length(&mut self, number: u64) -> io::Result<u64> {
        let open = self.take(number, false)?;
        let length = open.file.metadata()?.len();
        self.keep(open);
        Ok(length)
    }

    fn read(&mut self, alloc: Global, number: u64, at: u64, room: u64) -> io::Result<Vec<u8>>
        ensures { IfOk result (λ v. length v.items ≤ room) }
    {
        let open = self.take(number, false)?;
        let length = open.file.metadata()?.len();
        let count = room.min(length.saturating_sub(at));
        let mut bytes = vec![in alloc; 0u8; count as usize]?;
        open.file.read_exact_at(&mut bytes, at)?;
        self.keep(open);
        Ok(bytes)
    }

    fn write(&mut self, number: u64, at: u64, bytes: &[u8]) -> io::Result<()> {
        self.settle()?;
        let open = self.take(number, true)?;
        open.file.write_all_at(bytes, at)?;
        self.keep(open);
        Ok(())
    }

    // The content and the length of the file, and then the folder where it has a new name.
    fn sync_both(&mut self, number: u64) -> io::Result<()> {
        let open = self.take(number, false)?;
        open.file.sync_data()?;
        self.keep(open);
        if self.has_new_name {
            File::open(&self.rt, self.path.as_str())?.sync_all()?;
            self.has_new_name = false;
        }
        Ok(())
    }

    fn sync(&mut self, number: u64) -> io::Result<()> {
        let synced = self.sync_both(number);
        if synced.is_err() {
            self.has_failed = true;
        }
        synced
    }

    fn remove(&mut self, number: u64) -> io::Result<()> {
        self.settle()?;
        let path = self.path_of(number)?;
        if self.open.as_ref().is_some_and(|open| open.number == number) {
            self.open = None;
        }
        fs::remove_file(&self.rt, path.as_str())
    }
}

impl Disk for FolderDisk {
    ghost tells = { λ _. false };

    ghost reads = { λ _. empty };

    ghost may_leave = { λ _ _. ⊥ };

    ghost moment = { λ _. 0 };

    ghost left_since = { λ _ _ _. ⊥ };

    ghost removing = { λ _ _. ⊥ };

    ghost faults = { λ d. d.faults };

    ghost widest = { λ d. d.widest };

    ghost counts_now = { λ d t c le left. left };

    ghost only_now = { λ d c left. left };

    ghost since_earlier = { λ d s t c le left. left };

    ghost as_read = { λ d told. Prim.cc };

    ghost stays_absent = { λ d n c told none kept left. absurd left };

    ghost numbered = { λ d n told some. Prim.cc };

    fn count(&self) -> u64 {
        self.faults
    }

    fn segments(&mut self, alloc: Global) -> Result<Vec<u64>, Fault> {
        let found = self.folder.numbers(alloc);
        answer(&mut self.faults, found)
    }

    fn create(&mut self, number: u64) -> Result<(), Fault> {
        let done = self.folder.create(number);
        answer(&mut self.faults, done)
    }

    fn length(&mut self, number: u64) -> Result<u64, Fault> {
        let found = self.folder.length(number);
        answer(&mut self.faults, found)
    }

    fn read(&mut self, alloc: Global, number: u64, at: u64, room: u64) -> Result<Vec<u8>, Fault> {
        self.widest = self.widest.max(room);
        let found = self.folder.read(alloc, number, at, room);
        answer(&mut self.faults, found)
    }

    fn write(&mut self, number: u64, at: u64, bytes: &[u8]) -> Result<(), Fault> {
        let done = self.folder.write(number, at, bytes);
        answer(&mut self.faults, done)
    }

    fn sync(&mut self, number: u64) -> Result<(), Fault> {
        let done = self.folder.sync(number);
        answer(&mut self.faults, done)
    }

    fn remove(&mut self, number: u64) -> Result<(), Fault> {
        let done = self.folder.remove(number);
        answer(&mut self.faults, done)
    }
}
