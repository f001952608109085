//! What a transcript tells of the history that it was printed of.
ghost use Rattle.std.specs.Prelude.{◌≡◌, ℕ, List, map, IsTrue};
ghost use Rattle.std.specs.List.{list_all};
ghost use Rattle.frs_types.specs.Maps.{Maps};
ghost use Rattle.frs_history.specs.declared.event.Ack.{Ack};
ghost use Rattle.frs_history.specs.declared.event.Event.{Event};
ghost use Rattle.frs_history.specs.Machine.{Scripts};
ghost use Rattle.frs_history.specs.Scripts.{is_script};
ghost use Rattle.frs_text.specs.Transcripts.{IsHistory, IsEnd, ack_numbers};
ghost use Rattle.frs_text.specs.Text.{Text, line, transcript};

/// A text is the transcript of one history at most. Where two legal histories of the same scripts have the same
/// transcript, from whatever maps each of them begins, they have the same events, acknowledgements of the same
/// clients and lines, and the same end.
pub fn one_history()
    ensures { (scripts : Scripts) (maps other_maps : Maps) (last other_last : ℕ)
        (events other_events : List Event) (acks other_acks : List Ack)
        (words other_words : List Text)
        → IsTrue (list_all is_script scripts) → IsHistory scripts maps last events acks
        → IsHistory scripts other_maps other_last other_events other_acks
        → IsEnd words → IsEnd other_words
        → transcript scripts events acks (line words)
        ≡ transcript scripts other_events other_acks (line other_words)
        → (events ≡ other_events) × (map ack_numbers acks ≡ map ack_numbers other_acks)
        × (words ≡ other_words) }
{}
