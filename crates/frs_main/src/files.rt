//! The files of commands, by their paths.
ghost use Rattle.std.specs.Prelude.{◌<◌, ◌^◌, ◌↔◌, false, None, IsOk, IfOk, length};

use crate::system_fault::answer;
use frs_disk::{Fault, Files, Name};
use std::alloc::Global;
use std::fs::File;
use std::io;
use std::io::{ErrorKind, Read};

/// A file has fewer bytes than this.
const LIMIT: u64 = 1 << 32;

/// The files of the system. It doesn't tell what they hold.
#[derive(Drop)]
pub struct FolderFiles {
    rt: HostRuntime,
    faults: u64,
}

impl FolderFiles {
    /// The files that this runtime reaches.
    pub fn of(rt: HostRuntime) -> FolderFiles {
        FolderFiles { rt, faults: 0 }
    }
}

// Refuses the length of a file that is too long.
fn check_length(length: u64) -> io::Result<()>
    ensures { IsOk result ↔ length < 2 ^ 32 }
{
    if length >= LIMIT {
        return Err(io::Error::from(ErrorKind::FileTooLarge));
    }
    Ok(())
}

// All bytes of a file. A larger one is an error, before it is read where its length is known.
fn read_whole(rt: &HostRuntime, alloc: Global, path: &str) -> io::Result<Vec<u8>>
    ensures { IfOk result (λ bytes. length bytes.items < 2 ^ 32) }
{
    let file = File::open(rt, path)?;
    check_length(file.metadata()?.len())?;
    let mut bytes = Vec::new(alloc);
    file.take(LIMIT).read_to_end(&mut bytes)?;
    check_length(bytes.len() as u64)?;
    Ok(bytes)
}

impl Files for FolderFiles {
    ghost tells = { λ _. false };

    ghost file = { λ _ _. None };

    ghost faults = { λ f. f.faults };

    fn read(&mut self, alloc: Global, name: &Name) -> Result<Vec<u8>, Fault> {
        let found = read_whole(&self.rt, alloc, name.as_str());
        answer(&mut self.faults, found)
    }
}
