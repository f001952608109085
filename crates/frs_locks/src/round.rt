//! Who is reached by waiting, one step more at a time.
ghost use Rattle.std.specs.Prelude.{◌≡◌, ℕ, false, length, map, slice_index_or, IfOk};
ghost use Rattle.std.specs.List.{range_with_len};
ghost use Rattle.frs_types.specs.Locks.{Holders, waits_for, is_reached};
ghost use Rattle.frs_locks.specs.Rounds.{does_lead};

use frs_types::{NoMemory, Sequence};
use std::alloc::Global;

// Whether one of the clients is the goal or was found to lead there.
fn leads(clients: &[u32], goal: u32, leading: &[bool]) -> bool
    ensures { result ≡ does_lead goal leading.now clients.now }
{
    for client in clients {
        if *client == goal || leads_at(leading, *client) {
            return true;
        }
    }
    false
}

/// Whether the client was found to lead there.
pub fn leads_at(leading: &[bool], client: u32) -> bool
    ensures { result ≡ slice_index_or leading.now client false }
{
    let client = client as usize;
    if client < leading.len() {
        leading[client]
    } else {
        false
    }
}

// Which clients lead to the goal by one step more than those that were found.
fn round(
    alloc: Global,
    steps: &[Sequence<u32>],
    goal: u32,
    leading: &[bool],
) -> Result<Vec<bool>, NoMemory>
    ensures { IfOk result (λ more. more.items ≡ map (does_lead goal leading.now) steps.now) }
{
    let mut more = Vec::new(alloc);
    for clients in steps {
        more.push(leads(clients.items(), goal, leading))?;
    }
    Ok(more)
}

/// Which clients lead to the goal by as many steps as there are clients, where each client waits for those of its
/// place in the list.
pub fn leading(alloc: Global, steps: &[Sequence<u32>], goal: u32) -> Result<Vec<bool>, NoMemory>
    ensures { (hs : Holders) → steps.now ≡ map (waits_for hs) (range_with_len 0 (length hs))
        → IfOk result (λ leading. leading.items
        ≡ map (λ d. is_reached hs (length hs) d goal) (range_with_len 0 (length hs))) }
{
    let mut leading = none_leading(alloc, steps.len())?;
    for _ in 0..steps.len() {
        leading = round(alloc, steps, goal, leading.as_slice())?;
    }
    Ok(leading)
}

// As many answers of no.
fn none_leading(alloc: Global, count: usize) -> Result<Vec<bool>, NoMemory>
    ensures { IfOk result (λ none. none.items ≡ map (λ (d : ℕ). false) (range_with_len 0 count)) }
{
    let mut none = Vec::new(alloc);
    for _ in 0..count {
        none.push(false)?;
    }
    Ok(none)
}
