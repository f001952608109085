//! What the records of a session have to do with its history.
ghost use Rattle.std.specs.Prelude.{◌≡◌, true, None, Some, IsTrue};
ghost use Rattle.frs_history.specs.declared.event.Event.{Event};
ghost use Rattle.frs_history.specs.Machine.{Scripts, State};
ghost use Rattle.frs_history.specs.Histories.{moment, next};
ghost use Rattle.frs_book.specs.Drawn.{SessionHistory, Drawing, opened, action_at};
ghost use Rattle.frs_book.specs.Agreement.{Agreement, is_quiet, begun, has_words_if, IsSession, Keeps, IsShown};

/// The machine of transactional maps and the log agree from the start of a session on: each event of the machine draws
/// a record that lawfully follows, where it draws one, and keeps the agreement. So does the closing mark.
pub fn agreement_kept()
    ensures start { (h : SessionHistory) → IsSession h → Agreement h.scripts (begun h) (opened h) }
    ensures event { (scripts : Scripts) (s t : State) (d : Drawing) (e : Event)
        → Agreement scripts s d → next scripts s e ≡ Some t
        → IsTrue (has_words_if (action_at (moment scripts s e)))
        → Keeps scripts d (Some (moment scripts s e)) t }
    ensures mark { (scripts : Scripts) (s : State) (d : Drawing)
        → Agreement scripts s d → is_quiet (Some s) ≡ true → Keeps scripts d None s }
{}

/// What a session draws is lawful, and its records up to an LSN show the commits up to that LSN, in their order: so a
/// front of the log shows a front of the commits.
pub fn shown_commits()
    ensures { (h : SessionHistory) → IsSession h → IsShown h }
{}
