//! Laws about the records that have the payloads of received messages. Each law is the contract of a function that does
//! nothing. In each, `gate_of` gives the gate of the record that follows some records.
ghost use Rattle.std.specs.Prelude.{◌≡◌, ℕ, ◌≤◌, List, [], ◌∷◌, ◌++◌, None, Some, length, slice_get, true};
ghost use Rattle.as4_effects.specs.declared.effect.Effect.{Effect};
ghost use Rattle.exchange_model.specs.Apply.{after, applied, emptied, first_unfit, is_fit};
ghost use Rattle.exchange_model.specs.End.{End};
ghost use Rattle.exchange_model.specs.Fold.{IsFolded};
ghost use Rattle.exchange_model.specs.declared.inbox_entry.InboxEntry.{InboxEntry};
ghost use Rattle.inbox.specs.Spots.{Spot};
ghost use Rattle.msh_state.specs.Places.{EachOpen, places_after, places_after_all};
ghost use Rattle.payload_gates.specs.Bodies.{lifted};
ghost use Rattle.payload_gates.specs.Gates.{AreGates, Bring, BringsNothing, IsHeldIn, moved, one_by_one};

/// The records hold each open entry. One more record whose effects fit holds what it delivers, and the records hold each
/// open entry again.
pub fn a_record_brings_what_comes()
    ensures { (gate_of : List (List Effect) → ℕ) (records : List (List Effect)) (effects : List Effect)
        (places : List Spot) (end : End) → first_unfit effects end ≡ None
        → EachOpen (IsHeldIn gate_of records) end.confirmed places end.inbox
        → EachOpen (IsHeldIn gate_of (records ++ effects ∷ [])) (applied effects end).confirmed
        (places_after_all effects (gate_of records) places) (applied effects end).inbox }
{}

/// A compaction has each of its effects in a record of its own. With the gates of its deliveries as places from the first
/// open entry on, its records hold each open entry.
pub fn a_fold_moves_what_waits()
    ensures { (gate_of : List (List Effect) → ℕ) (end : End) (effects : List Effect) (gates : List ℕ)
        (places : List Spot) → IsFolded end effects → AreGates gate_of [] effects gates
        → length places ≡ length end.inbox
        → EachOpen (IsHeldIn gate_of (one_by_one effects)) end.confirmed (moved end.confirmed gates places) end.inbox }
{}

/// Where records hold each open entry, they hold the one with this number, at its place.
pub fn what_stands_is_brought()
    ensures { (gate_of : List (List Effect) → ℕ) (records : List (List Effect)) (confirmed n : ℕ)
        (places : List Spot) (inbox : List InboxEntry) (spot : Spot) (entry : InboxEntry)
        → EachOpen (IsHeldIn gate_of records) confirmed places inbox → confirmed ≤ n
        → slice_get places n ≡ Some spot → slice_get inbox n ≡ Some entry → IsHeldIn gate_of records spot entry }
{}

/// Where the effects that are found at each open entry's gate bring it, the payloads that are found there are those of the
/// inbox.
pub fn bodies_at_gates_give_the_messages()
    ensures { (found : ℕ → List Effect) (confirmed : ℕ) (places : List Spot) (inbox : List InboxEntry)
        → EachOpen (λ (spot : Spot) (entry : InboxEntry). Bring (found spot.gate) entry) confirmed places inbox
        → lifted found confirmed places inbox ≡ inbox }
{}

/// A confirmation only makes fewer entries open: the records hold those that are open after it, at the places that they
/// had.
pub fn a_confirmation_opens_no_entry()
    ensures { (gate_of : List (List Effect) → ℕ) (records : List (List Effect)) (confirmed count : ℕ)
        (places : List Spot) (inbox : List InboxEntry) → confirmed ≤ count
        → EachOpen (IsHeldIn gate_of records) confirmed places inbox
        → EachOpen (IsHeldIn gate_of records) count places (emptied count inbox) }
{}

/// An effect that is neither a delivery nor a kept header leaves the places as they are. Where it fits, the records hold
/// each entry that is open after it.
pub fn other_effects_leave_the_places()
    ensures places { (effect : Effect) (gate : ℕ) (places : List Spot) → BringsNothing effect
        → places_after effect gate places ≡ places }
    ensures held { (gate_of : List (List Effect) → ℕ) (records : List (List Effect)) (effect : Effect)
        (places : List Spot) (end : End) → BringsNothing effect → is_fit effect end ≡ true
        → EachOpen (IsHeldIn gate_of records) end.confirmed places end.inbox
        → EachOpen (IsHeldIn gate_of records) (after effect end).confirmed places (after effect end).inbox }
{}
