//! Reads the script of a plan's one file.
ghost use Rattle.std.specs.Prelude.{◌≡◌, ◌⊎◌, ◌<◌, ◌^◌, ℕ, List, Some, None, Ok, Err, length, IsTrue, IfOk, IfErr, MatchResult};
ghost use Rattle.frs_engine.specs.Causes.{one_file, bytes_of_plan, ending_of_plan, is_snapshot, asks_snapshot, SpellsScript, IsUnread};
ghost use Rattle.frs_engine.specs.Endings.{script_in, ending_by};

use crate::ending::Ending;
use frs_disk::{Fault, Files, Name};
use frs_history::{Command, Line, Script};
use frs_text::{RunPlan, ScriptFault, parse_script};
use frs_types::CLIENT_LIMIT;
use std::alloc::Global;

/// The most commands of a script.
pub(crate) const COMMAND_LIMIT: u32 = 1_000_000;

/// The most snapshots of a script.
pub(crate) const SNAPSHOT_LIMIT: u32 = 64;

// The name of the one file of a plan, or how a run of the plan ends.
fn one_file(plan: &RunPlan) -> Result<&Name, Ending>
    ensures { MatchResult result (λ name. one_file plan.now ≡ Some name.now)
        (λ ending. (one_file plan.now ≡ None) × (ending ≡ ending_of_plan plan.now)) }
{
    match plan {
        RunPlan::Scripts { files } => match files.items() {
            [name] => Ok(name),
            names if names.len() > CLIENT_LIMIT as usize => Err(Ending::Crowded {
                clients: names.len() as u64,
            }),
            _ => Err(Ending::Later),
        },
        RunPlan::Demo { .. } => Err(Ending::Later),
    }
}

// The script that the bytes spell, or how a run of them ends.
fn parse(alloc: Global, bytes: &[u8]) -> Result<Script, Ending>
    requires { length bytes.now < 2 ^ 32 }
    ensures found { IfOk result (λ script. script_in bytes.now ≡ Ok script) }
    ensures refused { IfErr result (λ ending. (ending ≡ Ending.Memory)
        ⊎ ((fault : _) × (script_in bytes.now ≡ Err fault) × (ending ≡ ending_by fault))) }
{
    match parse_script(alloc, bytes, COMMAND_LIMIT, SNAPSHOT_LIMIT) {
        Ok(script) => Ok(script),
        Err(ScriptFault::BadLine { line }) => Err(Ending::Bad { line }),
        Err(ScriptFault::TooLong { line }) => Err(Ending::Long { line }),
        Err(ScriptFault::TooMany { line }) => Err(Ending::Past { line }),
        Err(ScriptFault::Memory) => Err(Ending::Memory),
    }
}

// Whether a line asks for a snapshot.
fn is_snapshot(line: &Line) -> bool
    ensures { result ≡ is_snapshot line.now }
{
    matches!(line.command, Command::Snapshot)
}

// Whether a script asks for one.
fn asks_snapshot(script: &[Line]) -> bool
    ensures { result ≡ asks_snapshot script.now }
{
    script.iter().any(|line| is_snapshot(line))
}

/// The script of the plan's one file, where it asks for no snapshot, or how a run of the plan ends.
pub(crate) fn read_script<F: Files>(
    alloc: Global,
    plan: &RunPlan,
    files: &mut F,
) -> Result<Script, Ending>
    ensures found { IfOk result (λ script. IsTrue (F.tells files.old)
        → SpellsScript (bytes_of_plan plan.now (F.file files.old)) script) }
    ensures several { one_file plan.now ≡ None → result ≡ Err (ending_of_plan plan.now) }
    ensures why { IfErr result (IsUnread F.Files plan.now files.old files.new) }
    ensures told { F.tells files.new ≡ F.tells files.old }
    ensures kept { (n : List ℕ) → F.file files.new n ≡ F.file files.old n }
    ensures untouched { one_file plan.now ≡ None → files.new ≡ files.old }
    ensures steady { (result ≡ Err Ending.Unread) ⊎ (F.faults files.new ≡ F.faults files.old) }
{
    let name = one_file(plan)?;
    let bytes = match files.read(alloc, name) {
        Ok(bytes) => bytes,
        Err(Fault::Failed) => return Err(Ending::Unread),
        Err(Fault::Memory) => return Err(Ending::Memory),
    };
    let script = parse(alloc, &bytes)?;
    if asks_snapshot(script.lines()) {
        return Err(Ending::Later);
    }
    Ok(script)
}
