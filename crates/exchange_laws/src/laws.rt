//! The guarantees of an exchange, as laws over all runs. Each law is the contract of a function that does nothing.
//!
//!     two endpoints, with loss, repetition and reordering     messages_are_delivered_once, a_round_settles
//!     one endpoint, whatever it receives                      an_end_is_safe, what_came_stays, what_is_settled_stays,
//!                                                             a_receipt_settles
//!     one step                                                what_is_handed_in_is_taken, what_is_told_is_so,
//!                                                             what_is_handed_out_was_asked_for,
//!                                                             an_ask_sends_a_pull_request,
//!                                                             an_ask_with_a_receipt_sends_both,
//!                                                             what_is_sent_may_come
ghost use Rattle.std.specs.Prelude.{◌≡◌, ◌<◌, ◌≤◌, ◌⊎◌, ℕ, List, [], ◌∷◌, ◌++◌, Option, Some, IsSome, IsTrue, length, slice_get, true, false};
ghost use Rattle.std.specs.List.{Contains};
ghost use Rattle.mode_values.specs.ModeMatch.{mode_named};
ghost use Rattle.as4_values.specs.declared.header.UserHeader.{UserHeader};
ghost use Rattle.as4_values.specs.declared.message.Message.{Message};
ghost use Rattle.as4_values.specs.declared.message.Message.TheVariants as message;
ghost use Rattle.as4_values.specs.declared.message.Pair.{Pair};
ghost use Rattle.mode_values.specs.declared.mode.Mode.{Mode};
ghost use Rattle.as4_values.specs.declared.payload.Load.{Load};
ghost use Rattle.as4_values.specs.declared.payload.Payload.{Payload};
ghost use Rattle.as4_values.specs.declared.route.Route.TheVariants as route;
ghost use Rattle.as4_values.specs.declared.signal.Signal.{Signal};
ghost use Rattle.as4_values.specs.declared.signal_body.SignalBody.TheVariants as body;
ghost use Rattle.exchange_model.specs.Alone.{MayHappenTo, IsSafe, end_after};
ghost use Rattle.exchange_model.specs.Apply.{marked};
ghost use Rattle.exchange_model.specs.Causes.{BringsSignal};
ghost use Rattle.exchange_model.specs.Coming.{may_come};
ghost use Rattle.exchange_model.specs.DeliveredOnce.{BothDeliverOnce};
ghost use Rattle.exchange_model.specs.End.{End, empty_end};
ghost use Rattle.exchange_model.specs.LosslessRound.{ARoundSettles, IsAskedFor, IsFull};
ghost use Rattle.exchange_model.specs.Questions.{is_pending};
ghost use Rattle.exchange_model.specs.Room.{HasRoomForOne};
ghost use Rattle.exchange_model.specs.Staying.{Keeps};
ghost use Rattle.exchange_model.specs.Submitting.{address_of, are_too_large};
ghost use Rattle.exchange_model.specs.Table.{IsOther, Step, message_of};
ghost use Rattle.exchange_model.specs.Telling.{Tells};
ghost use Rattle.exchange_model.specs.World.{Act, Happening, Does, Site, MayHappen, new_world, sends, world_after};
ghost use Rattle.exchange_model.specs.declared.event.Event.{Event};
ghost use Rattle.exchange_model.specs.declared.inbox_entry.InboxEntry.{InboxEntry};
ghost use Rattle.exchange_model.specs.declared.outcome.Outcome.{Outcome};
ghost use Rattle.exchange_model.specs.declared.reply.Reply.TheVariants as reply;
ghost use Rattle.as4_effects.specs.declared.mark.Mark.TheVariants.{Receipted};
ghost use Rattle.exchange_model.specs.declared.sent.Sent.{Sent};
ghost use Rattle.exchange_model.specs.declared.what.What.TheVariants as what;

/// The delivery law. It holds for every order of acts at the two endpoints, whatever messages the network loses,
/// repeats or reorders, and wherever a crash loses a reply. No two submissions have the same identifier. Each entry of
/// an inbox is a submission of the sender, with its payloads until it is confirmed, and no identifier is there twice. A
/// message that its sender holds a receipt for is there exactly once. An expired submission was sent as often as its
/// mode says.
pub fn messages_are_delivered_once()
    ensures { (all : List Happening) → MayHappen all new_world → BothDeliverOnce all (world_after all new_world) }
{}

/// A round without loss settles a submission. An act that asks for a due submission sends its message. An endpoint that
/// has a mode for the message and receives it, for the first time or again, answers with one message. When the sender
/// receives the answer, it holds the receipt, and the other inbox holds the message.
pub fn a_round_settles()
    ensures { (all : List Happening) (site : Site) (s : Sent) → MayHappen all new_world → ARoundSettles site s (world_after all new_world) }
{}

/// The acts at an endpoint account for its state, whatever it receives, forged messages too. Each submission was
/// submitted, its tries count how often it was sent, which is at most as often as its mode says, and it is receipted,
/// refused or expired only for cause. The inbox has each identifier at most once, and each confirmed message was
/// confirmed by an act.
pub fn an_end_is_safe()
    ensures { (all : List Happening) → MayHappenTo all empty_end → IsSafe all (end_after all empty_end) }
{}

/// Entries and submissions stay: whatever an endpoint receives later, forged messages too, each entry of its inbox
/// keeps its place, with its payloads until it is confirmed, and each submission keeps its place.
pub fn what_came_stays()
    ensures { (all more : List Happening) → MayHappenTo (all ++ more) empty_end
        → Keeps (end_after all empty_end) (end_after (all ++ more) empty_end) }
{}

/// A settled submission stays settled: whatever an endpoint receives after a submission was receipted, refused or
/// expired, forged messages and errors too, the submission doesn't change.
pub fn what_is_settled_stays()
    ensures { (all more : List Happening) → MayHappenTo (all ++ more) empty_end
        → (s : Sent) → Contains (end_after all empty_end).sent s → is_pending s ≡ false
        → Contains (end_after (all ++ more) empty_end).sent s }
{}

/// A receipt for a pending submission settles it, alone or in a pair for a channel of the modes, unless it has a copy
/// of another header or the journal is full.
pub fn a_receipt_settles()
    ensures { (all : List Happening) (act : Act) (s : Sent) (signal : Signal) (copy : Option UserHeader)
        → MayHappenTo (all ++ Does act ∷ []) empty_end → Contains (end_after all empty_end).sent s → is_pending s ≡ true
        → BringsSignal act.modes act.event.what signal → signal.body ≡ body.Receipt copy
        → signal.ref_to ≡ Some s.submission.header.id → ¬ IsOther copy s.submission.header
        → (¬ IsFull act.outcome.reply) ⊎ HasRoomForOne (end_after all empty_end)
        → Contains (end_after (all ++ Does act ∷ []) empty_end).sent (marked Receipted s) }
{}

/// An endpoint accepts a submission by one of its modes that isn't too large, as long as the outbox and the journal
/// have room.
pub fn what_is_handed_in_is_taken()
    ensures { (modes : List Mode) (end : End) (event : Event) (outcome : Outcome) (name : List ℕ) (conversation : Option (List ℕ)) (loads : List Load)
        → Step modes end event outcome → event.what ≡ what.Submit name conversation loads → IsSome (mode_named modes name)
        → length end.sent < 1048576 → are_too_large loads ≡ false → HasRoomForOne end
        → (number : ℕ) × (id : List ℕ) × (outcome.reply ≡ reply.Submitted number id) }
{}

/// An endpoint sends a user message only when asked for it: the message is the head of the push queue, sent to its
/// address, or the head of a channel that a pull request names. The pull request comes alone, or in a pair after its
/// receipt.
pub fn what_is_handed_out_was_asked_for()
    ensures { (act : Act) (end : End) (header : UserHeader) (payloads : List Payload) → Step act.modes end act.event act.outcome
        → Contains (sends act.outcome.reply) (message.User header payloads)
        → (s : Sent) × IsAskedFor s act end × (message.User header payloads ≡ message_of s.submission)
        × ((address : List ℕ) (m : Message) → act.outcome.reply ≡ reply.Push address m → address ≡ address_of s.submission.route) }
{}

/// An endpoint that is asked, by a pull mode, for a pull request sends one for the mode's channel to the mode's
/// address.
pub fn an_ask_sends_a_pull_request()
    ensures { (modes : List Mode) (end : End) (event : Event) (outcome : Outcome) (name mpc address : List ℕ) (mode : Mode)
        → Step modes end event outcome → event.what ≡ what.Ask name → mode_named modes name ≡ Some mode
        → mode.route ≡ route.Pull mpc address
        → (signal : Signal) × (outcome.reply ≡ reply.Request address (message.Signal signal)) × (signal.body ≡ body.Pull mpc) }
{}

/// An endpoint that is asked the same with an entry that isn't confirmed sends the entry's receipt, bundled with the
/// pull request.
pub fn an_ask_with_a_receipt_sends_both()
    ensures { (modes : List Mode) (end : End) (event : Event) (outcome : Outcome) (name : List ℕ) (n : ℕ) (mpc address : List ℕ) (mode : Mode)
        (entry : InboxEntry)
        → Step modes end event outcome → event.what ≡ what.AskWith name n → mode_named modes name ≡ Some mode
        → mode.route ≡ route.Pull mpc address → end.confirmed ≤ n → slice_get end.inbox n ≡ Some entry
        → (pair : Pair) × (outcome.reply ≡ reply.Request address (message.Pair pair)) × (pair.pull.body ≡ body.Pull mpc)
        × (pair.receipt.ref_to ≡ Some entry.header.id) × (pair.receipt.body ≡ body.Receipt (Some entry.header)) }
{}

/// What the replies to producers and consumers say is true: an entry is read as it was received, and a query returns
/// the state of a submission.
pub fn what_is_told_is_so()
    ensures { (modes : List Mode) (end : End) (event : Event) (outcome : Outcome) → Step modes end event outcome
        → Tells end event.what outcome.reply }
{}

/// The other endpoint can take each message that an endpoint sends: a user message that it sends is deliverable.
pub fn what_is_sent_may_come()
    ensures { (modes : List Mode) (end : End) (event : Event) (outcome : Outcome) → Step modes end event outcome
        → (message : Message) → Contains (sends outcome.reply) message → IsTrue (may_come (what.Came message)) }
{}
