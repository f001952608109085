//! A script while it is read.
ghost use Rattle.std.specs.Prelude.{◌≡◌, ◌+◌, ◌^◌, ◌<◌, ◌&&◌, [], ◌∷◌, ◌++◌, Some, None, not, IsTrue, IfErr, OnOk};
ghost use Rattle.frs_history.specs.declared.command.Line.{Line};
ghost use Rattle.frs_history.specs.Scripts.{may_stand, inside_after};
ghost use Rattle.frs_text.specs.LineReadings.{changes_after, snapshots_after};
ghost use Rattle.frs_text.specs.Scripts.{up_to, is_long, is_change, is_snapshot, is_inside, is_past, refusal, fault_of, meaning_of_line, numbered_line, MemoryOr};

use crate::line_grammar::{LineReading, read_line};
use crate::script_fault::ScriptFault;
use frs_history::{Command, Line};
use frs_types::NoMemory;
use std::alloc::Global;
use std::marker::Model;

/// A transaction has at most so many changes.
pub(crate) const MOST_CHANGES: u32 = 65_536;

/// The commands so far, and what of them decides whether another may follow. Contracts see the lines.
#[derive(Drop)]
pub(crate) struct ScriptBuilder {
    lines: Vec<Line>,
    inside: bool,
    changes: u32,
    snapshots: u32,
}

impl Model for ScriptBuilder {
    ghost use Rattle.std.specs.Prelude.{List};
    ghost use Rattle.frs_history.specs.declared.command.Line.{Line};
    ghost use Rattle.frs_text.specs.LineReadings.{Counts};

    ghost Value = { List Line };

    ghost view = { λ a. a.lines.items };

    ghost invariant = { λ a. Counts a.lines.items a.inside a.changes a.snapshots };
}

impl ScriptBuilder {
    /// No command so far.
    pub(crate) fn new(alloc: Global) -> ScriptBuilder
        ensures { result ≡ [] }
    {
        ScriptBuilder {
            lines: Vec::new(alloc),
            inside: false,
            changes: 0,
            snapshots: 0,
        }
    }

    /// The lines.
    pub(crate) fn into_lines(self) -> Vec<Line>
        ensures { result.items ≡ self }
    {
        let ScriptBuilder {
            lines,
            inside: _,
            changes: _,
            snapshots: _,
        } = self;
        lines
    }

    // `begin` stands outside a transaction, and `commit` inside.
    fn may_follow(&self, command: &Command) -> bool
        ensures { result ≡ may_stand (is_inside self.now) command.now }
    {
        match command {
            Command::Begin { .. } => !self.inside,
            Command::Commit => self.inside,
            _ => true,
        }
    }

    // The command is one too many.
    fn is_full(&self, lines: u32, snapshots: u32, command: &Command) -> bool
        ensures { result ≡ is_past (up_to lines snapshots) self.now command.now }
    {
        if self.lines.len() >= lines as usize {
            return true;
        }
        match command {
            Command::Snapshot => self.snapshots >= snapshots,
            Command::Put { .. } | Command::Remove { .. } | Command::Delete { .. } => {
                self.inside && self.changes >= MOST_CHANGES
            }
            _ => false,
        }
    }

    // Adds a command that may follow. Where there is no memory, nothing is added.
    fn add(
        &mut self,
        lines: u32,
        snapshots: u32,
        number: u32,
        command: Command,
    ) -> Result<(), NoMemory>
        requires { IsTrue (not (is_past (up_to lines snapshots) self.old command)) }
        ensures { OnOk result (self.new
            ≡ self.old ++ (record { number = number; command = command }) ∷ []) }
    {
        let inside = inside_with(self.inside, &command);
        let changes = changes_with(self.inside, self.changes, &command);
        let snapshots = snapshots_with(self.snapshots, &command);
        self.lines.push(Line { number, command })?;
        self.inside = inside;
        self.changes = changes;
        self.snapshots = snapshots;
        Ok(())
    }

    // Adds the command of a line, where it may follow.
    fn take(
        &mut self,
        lines: u32,
        snapshots: u32,
        number: u32,
        command: Command,
    ) -> Result<(), ScriptFault>
        requires { IsTrue (not (is_long command)) }
        ensures none { OnOk result
            (refusal (up_to lines snapshots) self.old number command ≡ None) }
        ensures added { OnOk result (self.new
            ≡ self.old ++ (record { number = number; command = command }) ∷ []) }
        ensures refused { IfErr result (λ fault. MemoryOr fault
            (refusal (up_to lines snapshots) self.old number command ≡ Some fault)) }
    {
        if !self.may_follow(&command) {
            return Err(ScriptFault::BadLine { line: number });
        }
        if self.is_full(lines, snapshots, &command) {
            return Err(ScriptFault::TooMany { line: number });
        }
        self.add(lines, snapshots, number, command)?;
        Ok(())
    }

    /// Reads one more line.
    pub(crate) fn read(
        &mut self,
        alloc: Global,
        lines: u32,
        snapshots: u32,
        number: u32,
        line: &[u8],
    ) -> Result<(), ScriptFault>
        ensures none { OnOk result
            (fault_of (up_to lines snapshots) self.old number (meaning_of_line line.now) ≡ None) }
        ensures added { OnOk result (self.new
            ≡ self.old ++ numbered_line number (meaning_of_line line.now)) }
        ensures refused { IfErr result (λ fault. MemoryOr fault
            (fault_of (up_to lines snapshots) self.old number (meaning_of_line line.now)
            ≡ Some fault)) }
    {
        match read_line(alloc, line)? {
            LineReading::Nothing => Ok(()),
            LineReading::Wrong => Err(ScriptFault::BadLine { line: number }),
            LineReading::Long => Err(ScriptFault::TooLong { line: number }),
            LineReading::Found { command } => self.take(lines, snapshots, number, command),
        }
    }
}

fn inside_with(inside: bool, command: &Command) -> bool
    ensures { result ≡ inside_after inside command.now }
{
    match command {
        Command::Begin { .. } => true,
        Command::Commit => false,
        _ => inside,
    }
}

fn changes_with(inside: bool, changes: u32, command: &Command) -> u32
    requires { IsTrue (is_change command.now && inside) → changes < MOST_CHANGES }
    ensures { result ≡ changes_after inside changes command.now }
{
    match command {
        Command::Begin { .. } => 0,
        Command::Put { .. } | Command::Remove { .. } | Command::Delete { .. } if inside => changes
            + 1,
        _ => changes,
    }
}

fn snapshots_with(snapshots: u32, command: &Command) -> u32
    requires { IsTrue (is_snapshot command.now) → snapshots + 1 < 2 ^ 32 }
    ensures { result ≡ snapshots_after snapshots command.now }
{
    match command {
        Command::Snapshot => snapshots + 1,
        _ => snapshots,
    }
}
