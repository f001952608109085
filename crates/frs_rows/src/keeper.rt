//! A keeper of rows, and what it does with a client's hold.
ghost use Rattle.std.specs.Prelude.{◌≡◌, ◌≤◌, ◌<◌, ◌++◌, ◌∷◌, [], length, replicate, slice_set, IfOk};
ghost use Rattle.frs_rows.specs.Rows.{HasRowOf, HaveRow, first_holds};
ghost use Rattle.frs_rows.specs.Edits.{row_after};

use crate::hold::Hold;
use crate::steps::{Blank, Edit, Lend, RowRule, SeatView, revised_hold};
use atomic_table::{Seat, Table};
use frs_types::{CLIENT_LIMIT, NoMemory};
use std::alloc::Global;
use std::marker::{Brand, Model};
use std::mem;

/// A row of numbers for each client. It is to stand with a value behind a lock: whoever takes the lock with a client's
/// hold knows the client's row again. Contracts see it as a name and the rows, which exist in proofs alone.
#[derive(Drop)]
pub struct Keeper {
    table: Table<u8, SeatView, (u32, u32), RowRule, Global>,
    seat: Seat<u8, SeatView>,
}

impl Model for Keeper {
    ghost use Rattle.std.specs.Prelude.{◌≡◌, ◌<◌, map};
    ghost use Rattle.frs_rows.specs.Rows.{KeeperView, keeper_view};
    ghost use Rattle.frs_rows.specs.Seats.{row_in, lent_row, IsKeeperSeat};

    ghost Value = { KeeperView };

    ghost view = { λ k. keeper_view k.seat.table_id (map row_in k.seat.me.0.rows) };

    // Between two calls every row is lent.
    ghost invariant = { λ k. (k.seat.table_id ≡ k.table.shared.table_id)
        × (0 < k.table.shared.table_id.words) × IsKeeperSeat k.seat.me.0
        × (k.seat.me.0.rows ≡ map lent_row (map row_in k.seat.me.0.rows)) };
}

/// A keeper of a new name, and a hold of it for each of 1 to 64 clients, in rising order from client 1 on. Each row is
/// `width` zeros. It fails only for want of memory.
pub fn rows(alloc: Global, clients: u32, width: u32) -> Result<(Keeper, Vec<Hold>), NoMemory>
    requires some { 1 ≤ clients }
    requires most { clients ≤ CLIENT_LIMIT }
    ensures keeper { IfOk result (λ r. r.0.rows ≡ replicate clients (replicate width 0)) }
    ensures holds { IfOk result (λ r. r.1.items
        ≡ first_holds r.0.name (replicate width 0) clients) }
{
    let (table, mut seat) = Table::<u8, SeatView, (u32, u32), RowRule, Global>::of_words(
        alloc,
        &[0],
        &(clients, width),
    )?;
    let mut holds = Vec::new(alloc);
    let mut count = 0;
    while count < clients {
        let lent = table.shared.split_seat::<Lend>(&mut seat);
        holds.push(Hold { seat: lent })?;
        count += 1;
    }
    Ok((Keeper { table, seat }, holds))
}

impl Keeper {
    // Tells that the keeper's row is the hold's, and edits both.
    fn revise(&mut self, hold: &mut Hold, edit: Edit<'_>)
        requires { hold.old.name ≡ self.old.name }
        ensures { HaveRow self.old hold.old (row_after edit.entry hold.old.row) self.new hold.new }
    {
        let table = &self.table;
        let keeper = &mut self.seat;
        let blank = table.shared.split_seat::<Blank>(keeper);
        let seat = mem::replace(&mut hold.seat, blank);
        hold.seat = revised_hold::<Brand>(&table.shared, keeper, seat, edit);
    }

    /// Tells that the keeper's row of the hold's client is the hold's row. Nothing changes. It takes no memory and
    /// waits for nobody, as the calls below.
    pub fn same(&mut self, hold: &mut Hold)
        requires { hold.old.name ≡ self.old.name }
        ensures told { HasRowOf self.old hold.old }
        ensures keeper { self.new ≡ self.old }
        ensures hold { hold.new ≡ hold.old }
    {
        self.revise(hold, Edit::Keep);
    }

    /// Tells that the keeper's row was the hold's row, and puts the number at the place `at` of both, from 0 on. Every
    /// other client's row stays.
    pub fn set(&mut self, hold: &mut Hold, at: u32, number: u64)
        requires name { hold.old.name ≡ self.old.name }
        requires place { at < length hold.old.row }
        ensures { HaveRow self.old hold.old (slice_set hold.old.row at number) self.new hold.new }
    {
        self.revise(hold, Edit::Set(at, number));
    }

    /// Tells that the keeper's row was the hold's row, and appends the number to both. Every other client's row stays.
    pub fn add(&mut self, hold: &mut Hold, number: u64)
        requires { hold.old.name ≡ self.old.name }
        ensures { HaveRow self.old hold.old (hold.old.row ++ number ∷ []) self.new hold.new }
    {
        self.revise(hold, Edit::Append(number));
    }

    /// Tells that the keeper's row was the hold's row, and puts these numbers in place of both, all at once. Every
    /// other client's row stays.
    pub fn write(&mut self, hold: &mut Hold, numbers: &[u64])
        requires { hold.old.name ≡ self.old.name }
        ensures { HaveRow self.old hold.old numbers.now self.new hold.new }
    {
        self.revise(hold, Edit::Replace(numbers));
    }
}
