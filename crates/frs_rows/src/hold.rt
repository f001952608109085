//! What a client holds of its keeper.
use crate::steps::SeatView;
use atomic_table::Seat;
use std::marker::Model;

/// A client's row, as its keeper has it: none of them changes without the other. Contracts see it as the name of its
/// keeper, the client and the row. It has no bytes.
#[derive(Drop)]
pub struct Hold {
    pub(crate) seat: Seat<u8, SeatView>,
}

impl Model for Hold {
    ghost use Rattle.std.specs.Prelude.{◌≡◌, suc, []};
    ghost use Rattle.frs_rows.specs.Rows.{HoldView, hold_view};
    ghost use Rattle.frs_rows.specs.Seats.{IsHoldSeat};

    ghost Value = { HoldView };

    ghost view = { λ h. hold_view h.seat.table_id (suc h.seat.me.0.place) h.seat.me.0.row };

    ghost invariant = { λ h. (h.seat.me.1 ≡ []) × IsHoldSeat h.seat.me.0 };
}
