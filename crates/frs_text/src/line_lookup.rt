//! The line of a script that has a number.
ghost use Rattle.std.specs.Prelude.{◌≡◌, ◌==◌, [], ◌∷◌, IsTrue, find, slice_index_or};
ghost use Rattle.std.specs.Option.{option_copied};
ghost use Rattle.frs_history.specs.Scripts.{rises_from};
ghost use Rattle.frs_history.specs.declared.command.Line.{Line};

use frs_history::{Line, Script};

// The numbers of the lines rise, so half of them are left after each comparison.
fn find_line(lines: &[Line], number: u32) -> Option<&Line>
    requires { IsTrue (rises_from 0 lines.now) }
    ensures { option_copied result ≡ find (λ (l : Line). l.number == number) lines.now }
{
    let mut low = 0;
    let mut high = lines.len();
    while low < high {
        let middle = low + (high - low) / 2;
        let line = &lines[middle];
        if line.number == number {
            return Some(line);
        }
        if line.number < number {
            low = middle + 1;
        } else {
            high = middle;
        }
    }
    None
}

/// The line of the client's script that has the number. Clients are numbered from 1.
pub(crate) fn line_of(scripts: &[Script], client: u32, number: u32) -> Option<&Line>
    ensures { option_copied result
        ≡ find (λ (l : Line). l.number == number) (slice_index_or ([] ∷ scripts.now) client []) }
{
    if client == 0 {
        return None;
    }
    let script = scripts.get(client as usize - 1)?;
    find_line(script.lines(), number)
}
