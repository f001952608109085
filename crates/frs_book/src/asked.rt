//! What the events of a book ask for, and what a client meets that is alone.
ghost use Rattle.std.specs.Prelude.{◌≡◌, ◌++◌, ◌∷◌, [], false, None, Some, Option, length};
ghost use Rattle.frs_types.specs.declared.lock.Lock.{Lock};
ghost use Rattle.frs_types.specs.Locks.{hinderers_at};
ghost use Rattle.frs_slots.specs.Views.{next_drawn};
ghost use Rattle.frs_history.specs.declared.event.Ack.{Ack};
ghost use Rattle.frs_history.specs.declared.event.Event.{Event};
ghost use Rattle.frs_book.specs.Drawn.{SessionHistory, drawing_of, ack_at, acks_owed};
ghost use Rattle.frs_book.specs.Books.{BookView, IsBook, GoesOnWith, IsDue, closed_session, event_lsn, is_wait, moment_of};

/// An event that was answered adds to what is owed what it asks for, and that is due then; the closing mark asks for
/// nothing. The next LSN of the log is that of the drawing end.
pub fn asked_by_events()
    ensures next { (b : BookView) → IsBook b → (drawing_of b.session).log.next ≡ next_drawn b.drawer }
    ensures owed { (old new : BookView) (e : Event) → IsBook old → GoesOnWith old e new
        → acks_owed new.session ≡ acks_owed old.session
        ++ ack_at (event_lsn old e) (Some (moment_of old e)) }
    ensures due { (old new : BookView) (e : Event) (a : Ack) → IsBook old → GoesOnWith old e new
        → is_wait e.what ≡ false → ack_at (event_lsn old e) (Some (moment_of old e)) ≡ a ∷ []
        → IsDue new e.client a }
    ensures closed { (h : SessionHistory) → h.closing ≡ None
        → acks_owed (closed_session h) ≡ acks_owed h }
{}

/// Nobody hinders the only client of a book.
pub fn alone_is_free()
    ensures { (b : BookView) → IsBook b → length b.session.scripts ≡ 1
        → (lock : Option Lock) → hinderers_at b.state.holders 1 lock ≡ [] }
{}
