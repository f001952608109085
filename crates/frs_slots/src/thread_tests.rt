//! The two ends of a ring in threads that run at the same time.
ghost use Rattle.std.specs.Prelude.{◌≡◌, ◌<◌, ◌≤◌, ◌++◌, [], ◌∷◌, IfOk};
ghost use mathlib.Core.List.{IsPrefix};
ghost use Rattle.frs_slots.specs.Views.{next_drawn, AreOfOneRing};

use super::*;
use frs_frame::{Framed, encode_payload};
use frs_types::Action;
use std::sync::{Mutex, Wait};
use std::test::Fail;
use std::thread;
use std::thread::Threads;

// So many records go through the ring.
const RECORDS: u64 = 10_000;

// A record whose transaction is this number.
fn record(alloc: Global, number: u64) -> Result<Framed, NoMemory> {
    let mut framed = encode_payload(alloc, &Action::Begin)?;
    framed.patch(number, 0, 0);
    Ok(framed)
}

// The records of these numbers, the last one in front.
fn records(alloc: Global, first: u64, count: u64) -> Result<Vec<Framed>, NoMemory> {
    let mut records = Vec::new(alloc);
    for place in 0..count {
        let number = first.saturating_add(count - 1 - place);
        let framed = record(alloc, number)?;
        records.push(framed)?;
    }
    Ok(records)
}

// Whether it is the record of this number.
fn has_number(framed: &Framed, number: u64) -> bool {
    framed.bytes()[1..9] == number.to_be_bytes()[..]
}

// Draws one record, and waits while the ring is full.
fn draw_one(rt: &impl Wait, drawer: &mut Drawer, framed: Framed)
    requires { next_drawn drawer.old < NUMBER_LIMIT }
    ensures ring { (drawer.new.ring ≡ drawer.old.ring) × (drawer.new.first ≡ drawer.old.first) }
    ensures drawn { drawer.new.drawn ≡ drawer.old.drawn ++ framed ∷ [] }
{
    let mut waiting = framed;
    for _ in rt.forever() {
        match drawer.draw(waiting) {
            Ok(slip) => {
                slip.fill();
                return;
            }
            Err(full) => waiting = full.framed,
        }
        thread::yield_now();
    }
    unreachable!()
}

// Takes one record, and waits while it isn't there.
fn take_one(rt: &impl Wait, taker: &mut Taker) -> Framed
    ensures ring { (taker.new.ring ≡ taker.old.ring) × (taker.new.first ≡ taker.old.first) }
    ensures taken { taker.new.taken ≡ taker.old.taken ++ result ∷ [] }
{
    for _ in rt.forever() {
        if let Ok(framed) = taker.take() {
            return framed;
        }
        thread::yield_now();
    }
    unreachable!()
}

// Draws the records, the last one first.
fn draw_all(rt: &impl Wait, drawer: Drawer, records: Vec<Framed>) -> Drawer
    requires { (drawer.first ≡ 1) × (drawer.drawn ≡ []) }
    ensures { (result.ring ≡ drawer.ring) × (result.first ≡ 1) }
{
    let mut drawer = drawer;
    let mut records = records;
    for _ in 0..RECORDS {
        let Some(framed) = records.pop() else {
            return drawer;
        };
        draw_one(rt, &mut drawer, framed);
    }
    drawer
}

// Takes the records, and answers how many have the numbers from 0 on.
fn take_all(rt: &impl Wait, taker: Taker) -> (Taker, u64)
    requires { taker.first ≡ 1 }
    ensures { (result.0.ring ≡ taker.ring) × (result.0.first ≡ 1) }
{
    let mut taker = taker;
    let mut in_order = 0u64;
    for number in 0..RECORDS {
        let framed = take_one(rt, &mut taker);
        if has_number(&framed, number) {
            in_order = in_order.saturating_add(1);
        }
    }
    (taker, in_order)
}

// What comes back of a ring whose ends were in two threads: both ends, and how many records were taken in order.
#[derive(Drop)]
struct Joined {
    drawer: Drawer,
    taker: Taker,
    in_order: u64,
}

// Draws in one thread and takes in another. Then the ends are brought together.
fn through_two_threads<R: Threads + Wait + Sync>(
    rt: &R,
    alloc: Global,
    capacity: u32,
) -> Result<Joined, NoMemory>
    requires { (1 ≤ capacity) × (capacity ≤ CAPACITY_LIMIT) }
    ensures { IfOk result (λ both. IsPrefix both.taker.taken both.drawer.drawn
        × AreOfOneRing both.drawer both.taker) }
{
    let records = records(alloc, 0, RECORDS)?;
    let (drawer, taker) = ring(alloc, capacity, 1)?;
    let (mut drawer, (mut taker, in_order)) = thread::join(
        rt,
        move || -> Drawer
            requires { (drawer.first ≡ 1) × (drawer.drawn ≡ []) }
            ensures { (result.ring ≡ drawer.ring) × (result.first ≡ 1) }
        { draw_all(rt, drawer, records) },
        move || -> (Taker, u64)
            requires { taker.first ≡ 1 }
            ensures { (result.0.ring ≡ taker.ring) × (result.0.first ≡ 1) }
        { take_all(rt, taker) },
    );
    drawer.beside(&mut taker);
    Ok(Joined {
        drawer,
        taker,
        in_order,
    })
}

#[test]
fn records_cross_threads_in_order(rt: HostRuntime) -> Result<(), Fail> {
    let joined = through_two_threads(&rt, rt.alloc(), 64)?;
    assert_eq!(rt; joined.in_order, RECORDS);
    assert_eq!(rt; joined.drawer.next(), 1 + RECORDS);
    assert_eq!(rt; joined.taker.next(), 1 + RECORDS);
    Ok(())
}

// Draws the records from a drawer that other threads use too, the last one first.
fn draw_shared(rt: &impl Wait, shared: &Mutex<Drawer>, records: Vec<Framed>) {
    let mut records = records;
    for _ in 0..records.len() {
        let Some(framed) = records.pop() else {
            return;
        };
        let mut drawer = shared.lock(rt);
        if drawer.next() < NUMBER_LIMIT {
            draw_one(rt, &mut drawer, framed);
        }
    }
}

// Draws 500 records in each of two threads, which share the drawer, and gives the taker back. No number of the one
// thread is next to one of the other.
fn from_two_threads<R: Threads + Wait + Sync>(rt: &R, alloc: Global) -> Result<Taker, NoMemory> {
    let low = records(alloc, 0, 500)?;
    let high = records(alloc, 1_000, 500)?;
    let (drawer, taker) = ring(alloc, 1_024, 1)?;
    let shared = Mutex::new(drawer);
    let lock = &shared;
    thread::join(
        rt,
        move || draw_shared(rt, lock, low),
        move || draw_shared(rt, lock, high),
    );
    Ok(taker)
}

#[test]
fn threads_share_a_drawer_under_a_lock(rt: HostRuntime) -> Result<(), Fail> {
    let mut taker = from_two_threads(&rt, rt.alloc())?;
    let mut low = 0u64;
    let mut high = 1_000u64;
    for _ in 0..1_000 {
        let framed = taker.take()?;
        if has_number(&framed, low) {
            low = low.saturating_add(1);
        } else if has_number(&framed, high) {
            high = high.saturating_add(1);
        }
    }
    assert_eq!(rt; (low, high), (500, 1_500));
    assert_eq!(rt; taker.take().err(), Some(NotYet { known: 1_000 }));
    Ok(())
}
