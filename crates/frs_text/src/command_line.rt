//! The words of a command line.
ghost use Rattle.std.specs.Prelude.{◌≡◌, ◌<◌, ◌^◌, ◌∷◌, IfOk};
ghost use Rattle.frs_text.specs.CommandLine.{number_up_to, demo_end, demo_with, demo_count, demo_of, run_of, plain_plan, job_named, job_of, plan_of, ReadsAs};

use crate::plan::{DEMO_LIMIT, Job, PlainPlan, Plan, RunPlan};
use crate::words_fault::WordsFault;
use frs_disk::Name;
use frs_types::{CLIENT_LIMIT, NoMemory, Sequence};
use std::alloc::Global;

// The number from 1 to `most` that is written so.
fn number_of(alloc: Global, word: &Name, most: u32) -> Result<Option<u32>, NoMemory>
    ensures { IfOk result (λ number. number ≡ number_up_to most word.now) }
{
    let Ok(number) = word.as_str().parse::<u32>() else {
        return Ok(None);
    };
    if number == 0 || number > most {
        return Ok(None);
    }
    let written = number.to_string(alloc)?;
    if written.as_str() == word.as_str() {
        Ok(Some(number))
    } else {
        Ok(None)
    }
}

fn copies(alloc: Global, names: &[Name]) -> Result<Vec<Name>, NoMemory>
    ensures { IfOk result (λ copies. copies.items ≡ names.now) }
{
    let mut copies = Vec::with_capacity(alloc, names.len())?;
    for name in names {
        copies.push(Name::new(alloc, name.as_str())?)?;
    }
    Ok(copies)
}

// `run FILE..`
fn read_run(alloc: Global, files: &[Name]) -> Result<Job, WordsFault>
    ensures { ReadsAs result (run_of files.now) }
{
    if files.is_empty() {
        return Err(WordsFault::Usage { word: 3 });
    }
    let files = Sequence::of(copies(alloc, files)?);
    Ok(Job::Run {
        plan: RunPlan::Scripts { files },
    })
}

// A job that no word follows.
fn read_plain(plan: PlainPlan, words: &[Name]) -> Result<Job, WordsFault>
    ensures { ReadsAs result (plain_plan plan words.now) }
{
    if !words.is_empty() {
        return Err(WordsFault::Usage { word: 3 });
    }
    Ok(Job::Plain { plan })
}

// `demo CLIENTS COUNT`
fn read_demo(alloc: Global, words: &[Name]) -> Result<Job, WordsFault>
    ensures { ReadsAs result (demo_of words.now) }
{
    let [clients, words @ ..] = words else {
        return Err(WordsFault::Usage { word: 3 });
    };
    let Some(clients) = number_of(alloc, clients, CLIENT_LIMIT)? else {
        return Err(WordsFault::Usage { word: 3 });
    };
    let [count, words @ ..] = words else {
        return Err(WordsFault::Usage { word: 4 });
    };
    let Some(count) = number_of(alloc, count, DEMO_LIMIT)? else {
        return Err(WordsFault::Usage { word: 4 });
    };
    if !words.is_empty() {
        return Err(WordsFault::Usage { word: 5 });
    }
    Ok(Job::Run {
        plan: RunPlan::Demo { clients, count },
    })
}

fn read_job(alloc: Global, name: &str, words: &[Name]) -> Result<Job, WordsFault>
    ensures { ReadsAs result (job_named name.now words.now) }
{
    match name {
        "run" => read_run(alloc, words),
        "recover" => read_plain(PlainPlan::Recover, words),
        "compact" => read_plain(PlainPlan::Compact, words),
        "stat" => read_plain(PlainPlan::Stat, words),
        "demo" => read_demo(alloc, words),
        _ => Err(WordsFault::Usage { word: 2 }),
    }
}

/// What the words of a command line ask for: STORE, and then `run FILE..`, `recover`, `compact`, `stat` or
/// `demo CLIENTS COUNT`, with 1 to 64 clients and a count from 1 to 3,000. The numbers are decimal, without leading
/// zeros; another word in their place has no place.
pub fn read_words(alloc: Global, words: &[Name]) -> Result<Plan, WordsFault>
    ensures { ReadsAs result (plan_of words.now) }
{
    let [store, words @ ..] = words else {
        return Err(WordsFault::Usage { word: 1 });
    };
    let [name, words @ ..] = words else {
        return Err(WordsFault::Usage { word: 2 });
    };
    let job = read_job(alloc, name.as_str(), words)?;
    let store = Name::new(alloc, store.as_str())?;
    Ok(Plan { store, job })
}
