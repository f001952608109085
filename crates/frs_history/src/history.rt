//! The history of a session: a list that only grows, with room that is made before.
ghost use Rattle.std.specs.Prelude.{◌≡◌, ◌<◌, ◌+◌, ◌≤◌, [], ◌∷◌, ◌++◌, OnOk};

use crate::event::Event;
use frs_types::NoMemory;
use std::alloc::Global;
use std::marker::Model;

/// The events of a session, oldest first.
#[derive(Debug, Drop)]
pub struct History {
    events: Vec<Event>,
}

impl Model for History {
    ghost use Rattle.std.specs.Prelude.{vec_capacity, vec_len, ◌-◌};
    ghost use Rattle.frs_history.specs.HistoryView.{HistoryView};

    ghost Value = { HistoryView };

    ghost view = { λ a. record { events = a.events.items; room = vec_capacity a.events - vec_len a.events } };
}

impl History {
    /// A history without events.
    pub fn new(alloc: Global) -> History
        ensures { result.events ≡ [] }
    {
        History {
            events: Vec::new(alloc),
        }
    }

    /// Makes room for one event. Whatever it answers, the events stay.
    pub fn reserve(&mut self) -> Result<(), NoMemory>
        ensures events { self.new.events ≡ self.old.events }
        ensures room { OnOk result (1 ≤ self.new.room) }
        ensures kept { self.old.room ≤ self.new.room }
    {
        self.events.reserve(1)?;
        Ok(())
    }

    /// Adds an event, for which there is room.
    pub fn push(&mut self, event: Event)
        requires { 1 ≤ self.old.room }
        ensures events { self.new.events ≡ self.old.events ++ event ∷ [] }
        ensures room { self.new.room + 1 ≡ self.old.room }
    {
        self.events.push_reserved(event);
    }

    /// The events, oldest first.
    pub fn events(&self) -> &[Event]
        ensures { result.now ≡ self.now.events }
    {
        self.events.as_slice()
    }
}
