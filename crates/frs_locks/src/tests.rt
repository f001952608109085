//! The locks by their cases: a held key, two that wait for one another, rings of three, maps and two hinderers.
ghost use Rattle.std.specs.Prelude.{◌≡◌, ◌≤◌, ◌<◌, length};

use super::*;
use frs_types::{Key, Lock, MapId};
use std::alloc::Global;
use std::process::Abort;
use std::test::Fail;

// The lock of a key of the map m, or, where a star stands behind the name, of the whole map of this name.
fn named(alloc: Global, name: &str) -> Result<Lock, Fail> {
    match name.strip_suffix('*') {
        Some(id) => Ok(Lock::OnMap {
            id: MapId::new(alloc, id.as_bytes())?,
        }),
        None => Ok(Lock::OnKey {
            id: MapId::new(alloc, "m".as_bytes())?,
            key: Key::new(alloc, name.as_bytes())?,
        }),
    }
}

// The client wants the lock, and is answered so.
fn wants(
    rt: &impl Abort,
    locks: &mut Locks,
    alloc: Global,
    client: u32,
    name: &str,
    answer: Want,
) -> Result<(), Fail>
    requires some { 1 ≤ client }
    requires client { client < length locks.old }
    ensures { length locks.new ≡ length locks.old }
{
    let lock = named(alloc, name)?;
    assert_eq!(rt; locks.want(client, &lock)?, answer, "{client} {name}");
    Ok(())
}

// The least other client that hinders this one at the lock.
fn hinderer(alloc: Global, locks: &Locks, besides: u32, name: &str) -> Result<Option<u32>, Fail> {
    let lock = named(alloc, name)?;
    Ok(locks.holder(&lock, besides))
}

// Whether the client holds the lock.
fn holds(alloc: Global, locks: &Locks, client: u32, name: &str) -> Result<bool, Fail> {
    let lock = named(alloc, name)?;
    Ok(locks.holds(client, &lock))
}

#[test]
fn two_clients(rt: HostRuntime) -> Result<(), Fail> {
    let alloc = rt.alloc();
    let mut locks = Locks::new(alloc, 2)?;
    wants(&rt, &mut locks, alloc, 1, "a", Want::Held)?;
    wants(&rt, &mut locks, alloc, 2, "b", Want::Held)?;
    wants(&rt, &mut locks, alloc, 1, "b", Want::Waits { holder: 2 })?;
    assert!(rt; locks.waiting(1).is_some());
    wants(&rt, &mut locks, alloc, 2, "a", Want::Ring { via: 1 })?;
    assert!(rt; locks.waiting(2).is_none());
    assert!(rt; holds(alloc, &locks, 2, "b")?);
    assert!(rt; !holds(alloc, &locks, 2, "a")?);
    assert_eq!(rt; hinderer(alloc, &locks, 2, "a")?, Some(1));
    assert_eq!(rt; hinderer(alloc, &locks, 1, "a")?, None);
    locks.release_all(2);
    assert_eq!(rt; hinderer(alloc, &locks, 0, "b")?, None);
    wants(&rt, &mut locks, alloc, 1, "b", Want::Held)?;
    wants(&rt, &mut locks, alloc, 1, "b", Want::Held)?;
    assert!(rt; locks.waiting(1).is_none());
    Ok(())
}

#[test]
fn three_clients(rt: HostRuntime) -> Result<(), Fail> {
    let alloc = rt.alloc();
    let mut locks = Locks::new(alloc, 3)?;
    wants(&rt, &mut locks, alloc, 1, "a", Want::Held)?;
    wants(&rt, &mut locks, alloc, 2, "b", Want::Held)?;
    wants(&rt, &mut locks, alloc, 3, "c", Want::Held)?;
    wants(&rt, &mut locks, alloc, 1, "b", Want::Waits { holder: 2 })?;
    wants(&rt, &mut locks, alloc, 2, "c", Want::Waits { holder: 3 })?;
    wants(&rt, &mut locks, alloc, 3, "a", Want::Ring { via: 1 })?;
    locks.release_all(3);
    wants(&rt, &mut locks, alloc, 2, "c", Want::Held)?;
    assert_eq!(rt; hinderer(alloc, &locks, 1, "b")?, Some(2));
    Ok(())
}

#[test]
fn two_hinderers(rt: HostRuntime) -> Result<(), Fail> {
    let alloc = rt.alloc();
    let mut locks = Locks::new(alloc, 3)?;
    wants(&rt, &mut locks, alloc, 1, "n*", Want::Held)?;
    wants(&rt, &mut locks, alloc, 2, "a", Want::Held)?;
    wants(&rt, &mut locks, alloc, 3, "b", Want::Held)?;
    wants(&rt, &mut locks, alloc, 3, "n*", Want::Waits { holder: 1 })?;
    assert_eq!(rt; hinderer(alloc, &locks, 2, "m*")?, Some(3));
    wants(&rt, &mut locks, alloc, 1, "m*", Want::Ring { via: 3 })?;
    locks.release_all(3);
    wants(&rt, &mut locks, alloc, 1, "m*", Want::Waits { holder: 2 })?;
    Ok(())
}
