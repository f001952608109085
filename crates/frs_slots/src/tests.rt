//! Records that go through a ring.
ghost use Rattle.std.specs.Prelude.{◌≡◌, IfOk};

use super::*;
use frs_frame::{Framed, encode_payload};
use frs_types::Action;
use std::process::Abort;
use std::test::Fail;

// Compiles only where a value may move to another thread.
fn moves<T: Send>() {}

#[test]
fn everything_may_go_to_another_thread() {
    moves::<Drawer>();
    moves::<Taker>();
    moves::<Slip>();
    moves::<Filled>();
    moves::<NoRoom>();
}

// Draws the next LSN for the record, where there is room.
fn slip_for(rt: &impl Abort, drawer: &mut Drawer, framed: Framed) -> Slip
    ensures ring { (drawer.new.ring ≡ drawer.old.ring) × (drawer.new.first ≡ drawer.old.first) }
    ensures slip { result.ring ≡ drawer.old.ring }
{
    assert!(rt; drawer.next() < NUMBER_LIMIT);
    drawer.draw(framed).expect(rt, "room")
}

// Draws the next LSN for a record of this action, where there is room, and fills it.
fn fill(
    rt: &impl Abort,
    alloc: Global,
    drawer: &mut Drawer,
    action: &Action,
) -> Result<(), NoMemory>
    ensures { (drawer.new.ring ≡ drawer.old.ring) × (drawer.new.first ≡ drawer.old.first) }
{
    let framed = encode_payload(alloc, action)?;
    slip_for(rt, drawer, framed).fill();
    Ok(())
}

// The refusal of a record of this action, where there is no room.
fn refused(
    rt: &impl Abort,
    alloc: Global,
    drawer: &mut Drawer,
    action: &Action,
) -> Result<NoRoom, NoMemory> {
    let framed = encode_payload(alloc, action)?;
    assert!(rt; drawer.next() < NUMBER_LIMIT);
    match drawer.draw(framed) {
        Ok(slip) => {
            slip.fill();
            panic!(rt; "a third record has room for two")
        }
        Err(refused) => Ok(refused),
    }
}

// Takes the next record, which is to be of this kind.
fn takes(rt: &impl Abort, taker: &mut Taker, kind: u8) -> Result<(), Fail>
    ensures { (taker.new.ring ≡ taker.old.ring) × (taker.new.first ≡ taker.old.first) }
{
    let framed = taker.take()?;
    assert_eq!(rt; framed.bytes()[0], kind);
    Ok(())
}

#[test]
fn a_full_ring_refuses_a_record_until_one_is_taken(rt: HostRuntime) -> Result<(), Fail> {
    let alloc = rt.alloc();
    let (mut drawer, mut taker) = ring(alloc, 2, 1)?;
    assert_eq!(rt; drawer.next(), 1);
    fill(&rt, alloc, &mut drawer, &Action::Begin)?;
    assert_eq!(rt; drawer.next(), 2);
    fill(&rt, alloc, &mut drawer, &Action::Commit)?;
    let refused = refused(&rt, alloc, &mut drawer, &Action::Mark)?;
    assert_eq!(rt; (refused.drawn, refused.known_taken), (2, 0));
    takes(&rt, &mut taker, 4)?;
    assert_eq!(rt; drawer.next(), 3);
    slip_for(&rt, &mut drawer, refused.framed).fill();
    takes(&rt, &mut taker, 5)?;
    takes(&rt, &mut taker, 7)?;
    assert_eq!(rt; taker.take().err(), Some(NotYet { known: 3 }));
    assert_eq!(rt; taker.next(), drawer.next());
    Ok(())
}

#[test]
fn an_emptied_ring_is_renewed(rt: HostRuntime) -> Result<(), Fail> {
    let alloc = rt.alloc();
    let (mut drawer, mut taker) = ring(alloc, 2, 3)?;
    fill(&rt, alloc, &mut drawer, &Action::Begin)?;
    takes(&rt, &mut taker, 4)?;
    assert!(rt; drawer.next() == taker.next());
    drawer.renew(alloc, &mut taker)?;
    assert_eq!(rt; drawer.next(), 4);
    fill(&rt, alloc, &mut drawer, &Action::Begin)?;
    assert_eq!(rt; drawer.next(), 5);
    fill(&rt, alloc, &mut drawer, &Action::Abandon)?;
    Ok(())
}

#[test]
fn records_are_taken_in_the_order_of_their_numbers(rt: HostRuntime) -> Result<(), Fail> {
    let alloc = rt.alloc();
    let begin = encode_payload(alloc, &Action::Begin)?;
    let commit = encode_payload(alloc, &Action::Commit)?;
    let (mut drawer, mut taker) = ring(alloc, 4, 7)?;
    let first = slip_for(&rt, &mut drawer, begin);
    let second = slip_for(&rt, &mut drawer, commit);
    let of_second = second.fill();
    taker.learn(first.fill());
    taker.learn(of_second);
    drawer.beside(&mut taker);
    assert_eq!(rt; drawer.room(), None);
    assert_eq!(rt; taker.next(), 7);
    takes(&rt, &mut taker, 4)?;
    takes(&rt, &mut taker, 5)?;
    assert_eq!(rt; taker.next(), 9);
    Ok(())
}
