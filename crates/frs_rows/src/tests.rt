//! Rows by hand: what a keeper and two holds have after some calls; and numbers behind a lock, with two threads.
ghost use Rattle.std.specs.Prelude.{◌≡◌, [], ◌∷◌, IfOk};
ghost use Rattle.frs_rows.specs.Rows.{hold_view};

use super::*;
use frs_types::NoMemory;
use std::alloc::Global;
use std::test::Fail;

mod board;

// A keeper of two rows and both holds, once the second client's row is 7 and 9.
fn two_rows(alloc: Global) -> Result<(Keeper, Hold, Hold), NoMemory>
    ensures keeper { IfOk result (λ r. r.0.rows ≡ (0 ∷ []) ∷ (7 ∷ 9 ∷ []) ∷ []) }
    ensures first { IfOk result (λ r. r.1 ≡ hold_view r.0.name 1 (0 ∷ [])) }
    ensures second { IfOk result (λ r. r.2 ≡ hold_view r.0.name 2 (7 ∷ 9 ∷ [])) }
{
    let (mut keeper, mut holds) = rows(alloc, 2, 1)?;
    let Some(mut second) = holds.pop() else {
        unreachable!();
    };
    let Some(mut first) = holds.pop() else {
        unreachable!();
    };
    keeper.set(&mut second, 0, 7);
    keeper.add(&mut second, 9);
    keeper.same(&mut first);
    keeper.same(&mut second);
    Ok((keeper, first, second))
}

// The same, once the second client's row was written whole: first longer, and then shorter.
fn two_written(alloc: Global) -> Result<(Keeper, Hold, Hold), NoMemory>
    ensures keeper { IfOk result (λ r. r.0.rows ≡ (0 ∷ []) ∷ [] ∷ []) }
    ensures second { IfOk result (λ r. r.2 ≡ hold_view r.0.name 2 []) }
{
    let (mut keeper, first, mut second) = two_rows(alloc)?;
    keeper.write(&mut second, &[1, 2, 3]);
    keeper.write(&mut second, &[]);
    Ok((keeper, first, second))
}

#[test]
fn two_clients(rt: HostRuntime) -> Result<(), Fail> {
    two_rows(rt.alloc())?;
    two_written(rt.alloc())?;
    Ok(())
}
