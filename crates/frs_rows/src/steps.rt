//! The views of the seats, the rule that ties them, and the steps that a seat makes. Each is a load of the table's one
//! word, which stays 0.
ghost use Rattle.std.specs.Prelude.{◌≡◌, ◌<◌, ℕ, List, [], true, map, slice_set};
ghost use mathlib.Core.Option.{some};
ghost use lib.ListN.{get_elem?};
ghost use Rattle.frs_rows.specs.Seats.{row_in, lent_row, hold_seat, IsKeeperSeat, IsHoldSeat};

use atomic_table::{Join, Play, Seat, Shared, Split, TableRule};
use std::collections::LinkedList;
use std::marker::{Brand, PhantomData};

/// What a seat knows. The keeper's has each row with whether it is lent; a hold's has its place, from 0 on, and its
/// row. No value of it is ever made.
pub struct SeatView {
    /// Whether it is the keeper's.
    pub keeps: bool,
    /// All rows, at the keeper.
    pub rows: LinkedList<(bool, LinkedList<u64>)>,
    /// Whether it says what the row of its place is: a hold does, and the keeper while it has a note.
    pub claims: bool,
    /// The place at which it stands.
    pub place: u64,
    /// The row that it says, where it claims one.
    pub row: LinkedList<u64>,
}

/// All seats of one table agree. Its key is the number of rows, and their length at first.
pub struct RowRule;

impl TableRule<u8, SeatView, (u32, u32)> for RowRule {
    ghost use Rattle.frs_rows.specs.Seats.{SeatsAgree, first_seat};

    ghost holds = { λ _ s. SeatsAgree s.views };

    ghost first = { λ k. first_seat k.0 k.1 };
}

/// Splits off an empty seat, which stands where a hold's was while that one is with the keeper.
pub struct Blank;

impl Split<SeatView> for Blank {
    ghost use Rattle.frs_rows.specs.Seats.{empty_seat};

    ghost left = { λ v. v };

    ghost right = { λ _. empty_seat };
}

/// The keeper lends a row that is at home, to a new seat.
pub struct Lend;

impl Split<SeatView> for Lend {
    ghost use Rattle.frs_rows.specs.Seats.{keeper_after_lend, hold_after_lend};

    ghost left = { keeper_after_lend };

    ghost right = { hold_after_lend };
}

/// A hold comes back to the keeper, which notes its row.
pub struct Back;

impl Join<SeatView> for Back {
    ghost use Rattle.frs_rows.specs.Seats.{keeper_after_back, empty_seat};

    ghost both = { keeper_after_back };

    ghost spent = { empty_seat };
}

/// The keeper learns that the row in its note is its own.
pub struct Look;

impl Play<u8, SeatView> for Look {
    ghost use Rattle.frs_rows.specs.Seats.{IsLook};

    ghost then = { λ _ m _ w. IsLook m.0 w.0 × (w.1 ≡ m.1) };
}

/// What is to become of a row.
#[derive(Clone, Copy)]
pub enum Edit<'a> {
    /// It stays.
    Keep,
    /// This place has this number.
    Set(u32, u64),
    /// This number comes behind it.
    Append(u64),
    /// These numbers are in its place.
    Replace(&'a [u64]),
}

/// The row that a change puts in place of one. Each call picks it.
pub trait NewRow {
    ghost new_row: { List ℕ };
}

impl NewRow for Brand {
    ghost new_row = { [] };
}

/// The keeper changes a row that is at home.
pub struct Change<C> {
    of: PhantomData<C>,
}

impl<C: NewRow> Play<u8, SeatView> for Change<C> {
    ghost use Rattle.frs_rows.specs.Seats.{IsChangeTo};

    ghost then = { λ _ m _ w. IsChangeTo C.new_row m.0 w.0 × (w.1 ≡ m.1) };
}

/// The shared part of a table of rows.
pub type SharedRows = Shared<u8, SeatView, (u32, u32), RowRule>;

/// The hold comes back and is looked at, its row is changed, and it goes out again as another seat. The edit is an
/// argument only because the new row is picked from it.
pub fn revised_hold<C: NewRow>(
    shared: &SharedRows,
    keeper: &mut Seat<u8, SeatView>,
    held: Seat<u8, SeatView>,
    _edit: Edit<'_>,
) -> Seat<u8, SeatView>
    requires table { (0 < shared.now.table_id.words)
        × (keeper.old.table_id ≡ shared.now.table_id)
        × (held.table_id ≡ shared.now.table_id) × (held.me.1 ≡ []) }
    requires views { IsKeeperSeat keeper.old.me.0 × IsHoldSeat held.me.0 }
    ensures table { (keeper.new.table_id ≡ shared.now.table_id)
        × (result.table_id ≡ shared.now.table_id) × (result.me.1 ≡ []) }
    ensures told { get_elem? (map row_in keeper.old.me.0.rows) held.me.0.place
        ≡ some held.me.0.row }
    ensures keeper { IsKeeperSeat keeper.new.me.0
        × (keeper.new.me.0.rows ≡ slice_set keeper.old.me.0.rows held.me.0.place
        (lent_row C.new_row)) }
    ensures hold { result.me.0 ≡ hold_seat held.me.0.place C.new_row }
{
    shared.join_seat::<Back>(keeper, held);
    shared.load::<Look>(keeper, 0);
    shared.load::<Change<C>>(keeper, 0);
    shared.split_seat::<Lend>(keeper)
}
