//! Laws: what is given to an event, and the steps of the machine's table.

ghost use Rattle.std.specs.Prelude.{◌≡◌, ℕ, ◌≤◌, List, Some, slice_get};
ghost use Rattle.as4_values.specs.declared.payload.Payload.{Payload as PayloadValue};
ghost use Rattle.exchange_model.specs.End.{End};
ghost use Rattle.exchange_model.specs.Table.{Step};
ghost use Rattle.exchange_model.specs.declared.event.Event.{Event as EventValue};
ghost use Rattle.exchange_model.specs.declared.inbox_entry.InboxEntry.{InboxEntry as EntryValue};
ghost use Rattle.exchange_model.specs.declared.outcome.Outcome.{Outcome as OutcomeValue};
ghost use Rattle.mode_values.specs.declared.mode.Mode.{Mode as ModeValue};
ghost use Rattle.msh_core.specs.Machine.{IsGiven, filled};

use exchange_model::What;

/// A law: an outcome that is given to `Read`, with the payloads of the open entry of this number, is a step of the table.
pub fn a_filled_read_is_a_step()
    ensures { (modes : List ModeValue) (end : End) (event : EventValue) (outcome : OutcomeValue) (n : ℕ) (payloads : List PayloadValue)
        → event.what ≡ What.Read n → IsGiven modes end event outcome
        → ((entry : EntryValue) → end.confirmed ≤ n → slice_get end.inbox n ≡ Some entry → payloads ≡ entry.payloads)
        → Step modes end event (filled payloads outcome) }
{}

/// A law: an outcome that is given to any other event is a step of the table.
pub fn any_other_outcome_is_a_step()
    ensures { (modes : List ModeValue) (end : End) (event : EventValue) (outcome : OutcomeValue)
        → ((n : ℕ) → event.what ≡ What.Read n → ⊥) → IsGiven modes end event outcome → Step modes end event outcome }
{}
