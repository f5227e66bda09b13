//! The guarantees of a chain, as laws over all runs. Each law is the contract of a function that does nothing.
//!
//!     three endpoints, from the start     chains_deliver_once, some_chain_delivers,
//!                                         an_end_of_a_chain_is_an_end_alone
//!     the hub alone                       what_is_read_may_be_relayed, a_chain_goes_on
ghost use Rattle.std.specs.Prelude.{◌≡◌, ℕ, List, Option, length};
ghost use Rattle.as4_values.specs.declared.header.UserHeader.{UserHeader};
ghost use Rattle.as4_values.specs.declared.payload.Load.{Load};
ghost use Rattle.as4_values.specs.declared.payload.Payload.{Payload};
ghost use Rattle.mode_values.specs.declared.mode.Mode.{Mode};
ghost use Rattle.exchange_model.specs.Alone.{MayHappenTo, end_after};
ghost use Rattle.exchange_model.specs.Apply.{applied};
ghost use Rattle.exchange_model.specs.End.{End};
ghost use Rattle.exchange_model.specs.Fold.{IsFoldedSize, resized};
ghost use Rattle.exchange_model.specs.Table.{Step};
ghost use Rattle.exchange_model.specs.declared.event.Event.{Event};
ghost use Rattle.exchange_model.specs.declared.outcome.Outcome.{Outcome};
ghost use Rattle.exchange_model.specs.declared.reply.Reply.TheVariants as reply;
ghost use Rattle.exchange_model.specs.declared.what.What.TheVariants as what;
ghost use Rattle.hub_laws.specs.Chain.{IsOwn, MayAllPass, MeetsRear, Passing, Relays, chain_after, loads_of, new_chain};
ghost use Rattle.hub_laws.specs.DeliveredThrough.{GoesOn, IsDelivered};
ghost use Rattle.hub_laws.specs.Seats.{Seat, end_at, happenings_at};
ghost use Rattle.hub_laws.specs.SomeChain.{ComesThrough};

/// The delivery law of three endpoints. It holds for every order of acts and compactions at the three endpoints, whatever
/// messages the two networks lose, repeat or reorder, and wherever a crash loses a reply. Each entry of the last
/// endpoint's inbox came from a submission of the first, with its conversation, and with its payloads until the entry is
/// confirmed. No two entries came from one submission. A message that the first endpoint holds a receipt for is in the
/// hub's inbox. Where the hub holds the receipt for its submission of that place, exactly one entry came from it.
pub fn chains_deliver_once()
    ensures { (all : List Passing) → MayAllPass all new_chain → IsDelivered (chain_after all new_chain) }
{}

/// The delivery law isn't empty: in some chain a message comes through, and both receipts come back. So by the delivery
/// law exactly one entry of the last endpoint came from it.
pub fn some_chain_delivers()
    ensures { (all : List Passing) × MayAllPass all new_chain × ComesThrough (chain_after all new_chain) }
{}

/// What a hub reads at the place that is its number of submissions, it may relay: with the entry's conversation and
/// payloads.
pub fn what_is_read_may_be_relayed()
    ensures { (modes : List Mode) (hub : End) (event : Event) (outcome : Outcome) (header : UserHeader) (payloads : List Payload)
        → Step modes hub event outcome → event.what ≡ what.Read (length hub.sent) → outcome.reply ≡ reply.Entry header payloads
        → Relays hub header.conversation (loads_of payloads) }
{}

/// Each chain goes on by an act of its hub alone, and each message is delivered once there, whatever the reply is: where the
/// hub relays, sends, sets its clock, reads, confirms or reports a status, where its journal is compacted, and where nothing
/// happens.
pub fn a_chain_goes_on()
    ensures rests { (hub : End) → GoesOn hub hub }
    ensures relays { (modes : List Mode) (hub : End) (event : Event) (outcome : Outcome) (name : List ℕ) (conversation : Option (List ℕ)) (loads : List Load)
        → Step modes hub event outcome → event.what ≡ what.Submit name conversation loads → Relays hub conversation loads
        → GoesOn hub (applied outcome.effects hub) }
    ensures acts { (modes : List Mode) (hub : End) (event : Event) (outcome : Outcome) → Step modes hub event outcome
        → IsOwn event.what → MeetsRear hub event.what → GoesOn hub (applied outcome.effects hub) }
    ensures folds { (hub : End) (size : ℕ) → IsFoldedSize hub size → GoesOn hub (resized size hub) }
    ensures joins { (a b c : End) → GoesOn a b → GoesOn b c → GoesOn a c }
{}

/// Each endpoint of a chain is an endpoint alone: what happens at it, on either link, may happen to it, and leads to the
/// same state. So each law of one endpoint holds of all three.
pub fn an_end_of_a_chain_is_an_end_alone()
    ensures may { (seat : Seat) (all : List Passing) → MayAllPass all new_chain → MayHappenTo (happenings_at seat all) (end_at seat new_chain) }
    ensures leads { (seat : Seat) (all : List Passing) → MayAllPass all new_chain
        → end_after (happenings_at seat all) (end_at seat new_chain) ≡ end_at seat (chain_after all new_chain) }
{}
