//! The script of a client, seen as the list of its lines.
ghost use Rattle.std.specs.Prelude.{◌≡◌, IsTrue};

use crate::command::Line;
use std::marker::Model;

/// The commands of one client, in the order of their lines.
#[derive(Debug, Drop)]
pub struct Script {
    lines: Vec<Line>,
}

impl Model for Script {
    ghost use Rattle.std.specs.Prelude.{List, IsTrue};
    ghost use Rattle.frs_history.specs.declared.command.Line.{Line};
    ghost use Rattle.frs_history.specs.Scripts.{is_script};

    ghost Value = { List Line };

    ghost view = { λ a. a.lines.items };

    ghost invariant = { λ a. IsTrue (is_script a.lines.items) };
}

impl Script {
    ghost use Rattle.frs_history.specs.Scripts.{is_script};

    /// The script of these lines. Their numbers are above 0 and rise, after a `Begin` no other `Begin` comes before a
    /// `Commit`, and no `Commit` stands outside a transaction.
    pub fn of(lines: Vec<Line>) -> Script
        requires { IsTrue (is_script lines.items) }
        ensures { result ≡ lines.items }
    {
        Script { lines }
    }

    /// Its lines.
    pub fn lines(&self) -> &[Line]
        ensures lines { result.now ≡ self.now }
        ensures script { IsTrue (is_script self.now) }
    {
        self.lines.as_slice()
    }
}
