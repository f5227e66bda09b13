//! What becomes of the events that an audit finds: they are kept, or counted.

ghost use Rattle.std.specs.Prelude.{◌≡◌, ◌∷◌, ◌++◌, [], List, OnOk, length};
ghost use Rattle.exchange_model.specs.declared.event.Event.{Event as EventValue};

use as4_values::NoMemory;
use exchange_model::Event;

/// Takes the events that an audit finds, in order.
pub trait Collects {
    /// These events were added.
    ghost holds: { Self → List EventValue → Type 0 };

    /// Adds the next event.
    fn add(&mut self, event: Event) -> Result<(), NoMemory>
        ensures { OnOk result ((events : List EventValue) → holds self.old events → holds self.new (events ++ event ∷ [])) };
}

/// Keeps the events.
#[derive(Drop)]
pub struct KeptEvents {
    pub list: Vec<Event>,
}

impl Collects for KeptEvents {
    ghost holds = { λ kept events. kept.list.items ≡ events };

    fn add(&mut self, event: Event) -> Result<(), NoMemory> {
        self.list.push(event)?;
        Ok(())
    }
}

/// Counts the events, and drops each.
#[derive(Drop)]
pub struct EventCount {
    pub count: u64,
}

impl Collects for EventCount {
    ghost holds = { λ counted events. counted.count ≡ length events };

    // There is no memory for a journal with more events than a u64 counts.
    fn add(&mut self, event: Event) -> Result<(), NoMemory> {
        drop(event);
        self.count = self.count.checked_add(1).ok_or(NoMemory)?;
        Ok(())
    }
}
