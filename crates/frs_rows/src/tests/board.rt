//! A number of each client behind a lock. Each of two threads finds its own again, whatever the other has changed.
ghost use Rattle.std.specs.Prelude.{◌≡◌, ◌+◌, [], ◌∷◌, IsTrue, IfOk, replicate, Some, slice_get, slice_set};
ghost use Rattle.frs_rows.specs.Rows.{hold_view};

use crate::*;
use frs_types::NoMemory;
use std::alloc::Global;
use std::marker::{Brand, Model, PhantomData};
use std::sync::{Mutex, Wait};
use std::test::Fail;
use std::thread;
use std::thread::Threads;

// Whose rows they are, for contracts alone.
trait Name {
    ghost use Rattle.atomic_table.specs.Seated.{TableId};

    ghost name: { TableId };
}

impl Name for Brand {
    ghost use Rattle.std.specs.Prelude.{[]};

    ghost name = { record {
      words = 0;
      slots = 0;
      views_name = 0;
      atom = 0;
      block = 0;
      offset = 0;
      slot_names = [];
    } };
}

// A number of each client, and the keeper that goes with them.
#[derive(Drop)]
struct Board<N: Name> {
    numbers: Vec<u64>,
    keeper: Keeper,
    of: PhantomData<N>,
}

impl<N: Name> Model for Board<N> {
    ghost use Rattle.std.specs.Prelude.{◌≡◌, ℕ, List};
    ghost use Rattle.frs_rows.specs.RowsFit.{RowsFit};
    ghost use Rattle.frs_rows.specs.Board.{HasNumber};

    ghost Value = { List ℕ };

    ghost view = { λ b. b.numbers.items };

    ghost invariant = { λ b. (b.keeper.name ≡ N.name)
        × RowsFit HasNumber b.numbers.items b.keeper };
}

// A client, and the number that it left on the board. Contracts see it as its place there, from 0 on, and that number.
#[derive(Drop)]
struct Visitor<N: Name> {
    hold: Hold,
    place: usize,
    number: u64,
    of: PhantomData<N>,
}

impl<N: Name> Model for Visitor<N> {
    ghost use Rattle.std.specs.Prelude.{◌≡◌, ℕ, suc, [], ◌∷◌};
    ghost use Rattle.frs_rows.specs.Rows.{hold_view};

    ghost Value = { ℕ × ℕ };

    ghost view = { λ v. (v.place, v.number) };

    ghost invariant = { λ v. v.hold ≡ hold_view N.name (suc v.place) (v.number ∷ []) };
}

impl<N: Name> Visitor<N> {
    // The number that it left.
    fn number(&self) -> u64
        ensures { result ≡ self.now.1 }
    {
        self.number
    }
}

impl<N: Name> Board<N> {
    // The number that the client finds on the board. It leaves another there.
    fn exchange(&mut self, visitor: &mut Visitor<N>, number: u64) -> u64
        ensures found { slice_get self.old visitor.old.0 ≡ Some result }
        ensures own { result ≡ visitor.old.1 }
        ensures board { self.new ≡ slice_set self.old visitor.old.0 number }
        ensures visitor { visitor.new ≡ (visitor.old.0, number) }
    {
        self.keeper.same(&mut visitor.hold);
        let place = visitor.place;
        let found = self.numbers[place];
        self.numbers[place] = number;
        self.keeper.set(&mut visitor.hold, 0, number);
        visitor.number = number;
        found
    }
}

// Goes to the board so many times. Whether it found its own number each time.
fn visit<N: Name, R: Wait>(
    rt: &R,
    board: &Mutex<Board<N>>,
    mut visitor: Visitor<N>,
    times: u64,
) -> bool
    ensures { IsTrue result }
{
    for number in 0..times {
        let left = visitor.number();
        let found = board.lock(rt).exchange(&mut visitor, number);
        if found != left {
            return false;
        }
    }
    true
}

impl<N: Name> Board<N> {
    // A board of two clients that left 0.
    fn new(numbers: Vec<u64>, keeper: Keeper) -> Board<N>
        requires name { keeper.name ≡ N.name }
        requires rows { keeper.rows ≡ replicate 2 (replicate 1 0) }
        requires numbers { numbers.items ≡ 0 ∷ 0 ∷ [] }
    {
        Board {
            numbers,
            keeper,
            of: PhantomData,
        }
    }
}

impl<N: Name> Visitor<N> {
    // A client that left 0.
    fn new(hold: Hold, place: usize) -> Visitor<N>
        requires { hold ≡ hold_view N.name (place + 1) (0 ∷ []) }
    {
        Visitor {
            hold,
            place,
            number: 0,
            of: PhantomData,
        }
    }
}

// Two clients, each in a thread of its own, go to the board so many times. Whether each found its own number each time.
fn visit_in_threads<N: Name + Send + Sync, R: Threads + Wait + Sync>(
    rt: &R,
    board: Board<N>,
    first: Visitor<N>,
    second: Visitor<N>,
    times: u64,
) -> (bool, bool)
    ensures { IsTrue result.0 × IsTrue result.1 }
{
    let shared = Mutex::new(board);
    let board = &shared;
    thread::join(
        rt,
        move || visit(rt, board, first, times),
        move || visit(rt, board, second, times),
    )
}

fn meet<R: Threads + Wait + Sync>(
    rt: &R,
    alloc: Global,
    times: u64,
) -> Result<(bool, bool), NoMemory>
    ensures { IfOk result (λ r. IsTrue r.0 × IsTrue r.1) }
{
    let (keeper, mut holds) = rows(alloc, 2, 1)?;
    let numbers = vec![in alloc; 0, 0]?;
    let Some(second) = holds.pop() else {
        unreachable!();
    };
    let Some(first) = holds.pop() else {
        unreachable!();
    };
    Ok(meet_named::<Brand, R>(rt, numbers, keeper, first, second, times))
}

// The same, of these names.
fn meet_named<N: Name + Send + Sync, R: Threads + Wait + Sync>(
    rt: &R,
    numbers: Vec<u64>,
    keeper: Keeper,
    first: Hold,
    second: Hold,
    times: u64,
) -> (bool, bool)
    requires name { keeper.name ≡ N.name }
    requires rows { keeper.rows ≡ replicate 2 (replicate 1 0) }
    requires numbers { numbers.items ≡ 0 ∷ 0 ∷ [] }
    requires first { first ≡ hold_view N.name 1 (0 ∷ []) }
    requires second { second ≡ hold_view N.name 2 (0 ∷ []) }
    ensures { IsTrue result.0 × IsTrue result.1 }
{
    let board = Board::new(numbers, keeper);
    visit_in_threads::<N, R>(
        rt,
        board,
        Visitor::new(first, 0),
        Visitor::new(second, 1),
        times,
    )
}

#[test]
fn each_finds_its_own(rt: HostRuntime) -> Result<(), Fail> {
    let found = meet(&rt, rt.alloc(), 1000)?;
    assert_eq!(rt; found, (true, true));
    Ok(())
}
