//! The program `frs`: a restartable store in a folder.
#![tactic(auto)]

mod files;
mod folder;
mod out_sink;
mod refusal;
mod system_fault;
#[cfg(test)]
mod tests;

ghost use Rattle.std.specs.Prelude.{◌≡◌};
ghost use Rattle.frs_engine.specs.Runs.{HasWork};

use files::FolderFiles;
use folder::FolderDisk;
use frs_disk::{Fault, MemShelf, Name, Sink};
use frs_engine::{NoTurn, Status, frs_plain, frs_run};
use frs_text::{Job, Plan, read_words};
use frs_types::NoMemory;
use out_sink::OutSink;
use refusal::{Refusal, USAGE};
use std::env;
use std::process::ExitCode;
use std::sync::Wait;
use std::thread::Threads;

/// The name and the version.
const VERSION: &[u8] = b"frs 0.1.0\n";

/// What the commands do, behind the usage line.
const COMMANDS: &[u8] = b"  STORE               the store: a folder that exists
  run FILE..          runs the script in each file as a client, and prints what was answered
  recover             prints the maps, a line ID KEY VALUE for each entry
  compact             writes old entries again and drops the segments before them (not yet)
  stat                prints the numbers of the store
  demo CLIENTS COUNT  runs scripts that it makes (not yet)
  --help              prints this
  --version           prints the name and the version
So far run takes one file, and no snapshot in it.
What can't be done yet prints later and ends with status 10.
";

fn main(rt: HostRuntime) -> ExitCode {
    ExitCode::from(status_of(&rt, rt))
}

// Carries out what the words ask for. The threads and the waiting are the first handle's, all else is the second's.
fn status_of<R: Threads + Wait + Sync>(rt: &R, host: HostRuntime) -> u8 {
    match obey(rt, host) {
        Ok(status) => status,
        Err(refusal) => refusal.tell(host),
    }
}

fn obey<R: Threads + Wait + Sync>(rt: &R, host: HostRuntime) -> Result<u8, Refusal> {
    let words = words_of(host)?;
    match words.as_slice() {
        [word] if word.as_str() == "--help" => Ok(print(host, &[USAGE, COMMANDS])),
        [word] if word.as_str() == "--version" => Ok(print(host, &[VERSION])),
        words => Ok(carry_out(rt, host, &read_words(host.alloc(), words)?)?),
    }
}

// The words behind the program's name.
fn words_of(rt: HostRuntime) -> Result<Vec<Name>, Refusal> {
    let alloc = rt.alloc();
    let mut words = Vec::new(alloc);
    for word in env::args(&rt)?.skip(1) {
        words.push(Name::new(alloc, word.as_str())?)?;
    }
    Ok(words)
}

// Does the job on the store in its folder.
fn carry_out<R: Threads + Wait + Sync>(
    rt: &R,
    host: HostRuntime,
    plan: &Plan,
) -> Result<u8, NoMemory>
    requires { (run : _) → plan.now.job ≡ Job.Run run → HasWork run }
{
    let alloc = host.alloc();
    let disk = FolderDisk::of(host, plan.store.as_str())?;
    let mut sink = OutSink::of(host.stdout());
    match &plan.job {
        Job::Run { plan } => {
            let shelf = MemShelf::of(alloc, Vec::new(alloc))?;
            let mut files = FolderFiles::of(host);
            let ended = frs_run(rt, alloc, plan, disk, &mut files, shelf, &mut sink, &NoTurn);
            Ok(ended.status)
        }
        Job::Plain { plan } => Ok(frs_plain(alloc, plan, disk, &mut sink).status),
    }
}

// Prints these texts on standard output, and gives the status.
fn print(rt: HostRuntime, texts: &[&[u8]]) -> u8 {
    let mut sink = OutSink::of(rt.stdout());
    for text in texts {
        match sink.write(text) {
            Ok(()) => {}
            Err(Fault::Failed) => return Status::SinkStop.code(),
            Err(Fault::Memory) => return Status::MemoryStop.code(),
        }
    }
    Status::Done.code()
}
