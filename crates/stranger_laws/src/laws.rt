//! Laws that refuse machines that are safe and useless: idle and forgetful ones, and ones that ignore what they receive.
//! Each law is the contract of a function that does nothing.
//!
//!     one endpoint, from the empty one     an_end_is_timely, what_came_was_brought, a_receipt_names_what_came,
//!                                          what_is_confirmed_is_kept, a_failure_refuses
//!     one endpoint, from any one           what_came_stays_from, what_is_settled_stays_from
//!     one step, at any endpoint            what_comes_is_taken, what_no_mode_takes_is_refused,
//!                                          full_is_told_for_cause, full_needs_its_record, a_head_is_handed_out,
//!                                          what_is_sent_belongs_to_its_event,
//!                                          a_confirmation_is_kept, an_unknown_identifier_is_told, a_tick_sets_the_clock,
//!                                          a_step_uses_the_clock
//!     two endpoints                        a_site_is_an_end_alone, an_end_alone_is_part_of_a_world,
//!                                          a_push_mode_delivers, some_run_delivers
ghost use Rattle.std.specs.Prelude.{◌≡◌, ◌+◌, ◌<◌, ◌≤◌, ◌⊎◌, ℕ, List, [], ◌∷◌, ◌++◌, Option, Some, None, IsSome, length, true, false};
ghost use Rattle.std.specs.List.{Contains};
ghost use Rattle.std.specs.Option.{option_or};
ghost use Rattle.mode_values.specs.ModeMatch.{mode_of};
ghost use Rattle.as4_values.specs.declared.header.UserHeader.{UserHeader};
ghost use Rattle.as4_values.specs.declared.message.Message.TheVariants as message;
ghost use Rattle.mode_values.specs.declared.mode.Mode.{Mode};
ghost use Rattle.as4_values.specs.declared.payload.Load.{Load};
ghost use Rattle.as4_values.specs.declared.payload.Payload.{Payload};
ghost use Rattle.as4_values.specs.declared.route.Route.TheVariants as route;
ghost use Rattle.as4_values.specs.declared.signal.Signal.{Signal};
ghost use Rattle.as4_values.specs.declared.signal_body.ErrorItem.{ErrorItem};
ghost use Rattle.as4_values.specs.declared.signal_body.Severity.TheVariants.{Failure};
ghost use Rattle.as4_values.specs.declared.signal_body.SignalBody.TheVariants as body;
ghost use Rattle.as4_effects.specs.declared.mark.Mark.TheVariants.{Refused};
ghost use Rattle.as4_effects.specs.declared.queue.Queue.{Queue};
ghost use Rattle.exchange_model.specs.Alone.{MayHappenTo, end_after};
ghost use Rattle.exchange_model.specs.Apply.{applied, marked};
ghost use Rattle.exchange_model.specs.Causes.{BringsFailureOf};
ghost use Rattle.exchange_model.specs.End.{End, empty_end};
ghost use Rattle.exchange_model.specs.LosslessRound.{IsFull};
ghost use Rattle.exchange_model.specs.Numbered.{AreNumberedFrom};
ghost use Rattle.exchange_model.specs.Questions.{is_pending, sent_of};
ghost use Rattle.exchange_model.specs.Staying.{Keeps};
ghost use Rattle.exchange_model.specs.Submitting.{are_too_large};
ghost use Rattle.exchange_model.specs.Table.{Step};
ghost use Rattle.exchange_model.specs.Typed.{HasTexts};
ghost use Rattle.exchange_model.specs.World.{Act, Happening, Does, Site, MayHappen, World, across, acts_of, new_world, speaker_at, world_after};
ghost use Rattle.exchange_model.specs.declared.event.Event.{Event};
ghost use Rattle.exchange_model.specs.declared.outcome.Outcome.{Outcome};
ghost use Rattle.exchange_model.specs.declared.reply.Reply.TheVariants as reply;
ghost use Rattle.exchange_model.specs.declared.sent.Sent.{Sent};
ghost use Rattle.exchange_model.specs.declared.what.What.TheVariants as what;
ghost use Rattle.stranger_laws.specs.AtSite.{AreHeardAt, happenings_at};
ghost use Rattle.stranger_laws.specs.Belonging.{BelongsTo};
ghost use Rattle.stranger_laws.specs.Brought.{IsInboxBrought};
ghost use Rattle.stranger_laws.specs.Delivery.{Delivers};
ghost use Rattle.stranger_laws.specs.Heads.{AsksForHead, AnswersWithHead};
ghost use Rattle.stranger_laws.specs.NoRoom.{HasCodes, IsOutOfRoom, NeedsRecord};
ghost use Rattle.stranger_laws.specs.Receipting.{SendsReceipt, NamesKnown};
ghost use Rattle.stranger_laws.specs.Taken.{IsRefusedFor, IsTaken};
ghost use Rattle.stranger_laws.specs.Timely.{IsTimely, UsesClock};

/// The clock shows the stamp of a tick. A pending submission is due at most one period after the clock's moment, so an
/// endpoint whose clock goes on sends it again or lets it expire. It expires only once its last try is overdue.
pub fn an_end_is_timely()
    ensures { (all : List Happening) → MayHappenTo all empty_end → IsTimely (acts_of all) (end_after all empty_end) }
{}

/// Each entry of the inbox was received in an act, by a mode of the endpoint, with this header. Until it is confirmed,
/// it has the payloads that were received.
pub fn what_came_was_brought()
    ensures { (all : List Happening) → MayHappenTo all empty_end → IsInboxBrought (acts_of all) (end_after all empty_end) }
{}

/// Each receipt that an endpoint sends refers to a message in its inbox.
pub fn a_receipt_names_what_came()
    ensures { (all : List Happening) (act : Act) (receipt : Signal) → MayHappenTo all empty_end → Contains (acts_of all) act
        → SendsReceipt act.outcome.reply receipt → NamesKnown receipt (end_after all empty_end) }
{}

/// An entry that an endpoint reported as confirmed counts as confirmed from then on.
pub fn what_is_confirmed_is_kept()
    ensures { (all : List Happening) (act : Act) (upto : ℕ) → MayHappenTo all empty_end → Contains (acts_of all) act
        → act.outcome.reply ≡ reply.Confirmed upto → upto < (end_after all empty_end).confirmed }
{}

/// An endpoint with a mode for a user message takes it: the message is in the inbox afterwards, as it was received,
/// and the reply is its receipt.
pub fn what_comes_is_taken()
    ensures { (modes : List Mode) (end : End) (event : Event) (outcome : Outcome) (header : UserHeader) (payloads : List Payload)
        → Step modes end event outcome → event.what ≡ what.Came (message.User header payloads) → IsSome (mode_of modes header)
        → ¬ IsFull outcome.reply → IsTaken header payloads outcome.reply end (applied outcome.effects end) }
{}

/// An endpoint without a mode for a user message refuses it: the reply is the error signal EBMS:0010, which refers to the
/// message, and nothing changes.
pub fn what_no_mode_takes_is_refused()
    ensures { (modes : List Mode) (end : End) (event : Event) (outcome : Outcome) (header : UserHeader) (payloads : List Payload)
        → Step modes end event outcome → event.what ≡ what.Came (message.User header payloads) → mode_of modes header ≡ None
        → IsRefusedFor header event outcome }
{}

/// An endpoint says that its journal is full only where it is: it reports the journal's size and a record that the
/// limit has no room for, and there isn't room for a record of the largest effect. Nothing changes.
pub fn full_is_told_for_cause()
    ensures { (modes : List Mode) (end : End) (event : Event) (outcome : Outcome) (size need : ℕ) → Step modes end event outcome
        → outcome.reply ≡ reply.Full size need → IsOutOfRoom end event.what outcome size need }
{}

/// And the bytes that "full" reports as needed are those of the event's own record: with a journal of any size that has room
/// for them, an empty one among them, the same endpoint takes the event, and writes a record of that length. The codes of an error signal are error codes.
pub fn full_needs_its_record()
    ensures { (modes : List Mode) (end : End) (event : Event) (outcome : Outcome) (size need : ℕ) → Step modes end event outcome
        → outcome.reply ≡ reply.Full size need → HasCodes event.what → NeedsRecord modes end event need }
{}

/// An endpoint that is asked for the head of a queue sends its message. Without a head it sends no user message.
pub fn a_head_is_handed_out()
    ensures { (modes : List Mode) (end : End) (event : Event) (outcome : Outcome) (q : Queue) → Step modes end event outcome
        → AsksForHead q modes event.what → AnswersWithHead q end outcome.reply }
{}

/// What is sent belongs to its event: a message is pushed only where one was asked for, a pull request goes out only where one
/// was asked for, and an answer goes back only to the sender of a message.
pub fn what_is_sent_belongs_to_its_event()
    ensures { (modes : List Mode) (end : End) (event : Event) (outcome : Outcome) → Step modes end event outcome
        → BelongsTo event.what outcome.reply }
{}

/// A confirmation of an entry that isn't confirmed yet confirms the entry and those before it.
pub fn a_confirmation_is_kept()
    ensures { (modes : List Mode) (end : End) (event : Event) (outcome : Outcome) (upto : ℕ) → Step modes end event outcome
        → event.what ≡ what.Confirm upto → end.confirmed ≤ upto → upto < length end.inbox → ¬ IsFull outcome.reply
        → (outcome.reply ≡ reply.Confirmed upto) × ((applied outcome.effects end).confirmed ≡ upto + 1) }
{}

/// The state of an identifier that no submission has is unknown.
pub fn an_unknown_identifier_is_told()
    ensures { (modes : List Mode) (end : End) (event : Event) (outcome : Outcome) (id : List ℕ) → Step modes end event outcome
        → event.what ≡ what.Status id → sent_of id end.sent ≡ None → outcome.reply ≡ reply.Unknown }
{}

/// An error signal with a failure about a pending submission refuses it, with the code of such a failure.
pub fn a_failure_refuses()
    ensures { (all : List Happening) (act : Act) (s : Sent) (signal : Signal) (items : List ErrorItem) (item : ErrorItem)
        → MayHappenTo (all ++ Does act ∷ []) empty_end → Contains (end_after all empty_end).sent s → is_pending s ≡ true
        → act.event.what ≡ what.Came (message.Signal signal) → signal.body ≡ body.Errors items → Contains items item
        → item.severity ≡ Failure → option_or item.about signal.ref_to ≡ Some s.submission.header.id
        → ¬ IsFull act.outcome.reply
        → (code : List ℕ) × Contains (end_after (all ++ Does act ∷ []) empty_end).sent (marked (Refused code) s)
        × BringsFailureOf s code act }
{}

/// A tick sets the clock to its stamp, unless the clock is there or later. No other event sets it.
pub fn a_tick_sets_the_clock()
    ensures shown { (modes : List Mode) (end : End) (event : Event) (outcome : Outcome) → Step modes end event outcome
        → event.what ≡ what.Tick → ¬ IsFull outcome.reply → event.stamp ≤ (applied outcome.effects end).moment }
    ensures only { (modes : List Mode) (end : End) (event : Event) (outcome : Outcome) → Step modes end event outcome
        → ((applied outcome.effects end).moment ≡ end.moment)
        ⊎ ((event.what ≡ what.Tick) × ((applied outcome.effects end).moment ≡ event.stamp)) }
{}

/// A step uses the clock: a try has the clock's moment as its time, and no other step changes that time. A submission
/// has the clock's moment as its own.
pub fn a_step_uses_the_clock()
    ensures { (modes : List Mode) (end : End) (event : Event) (outcome : Outcome) → Step modes end event outcome
        → UsesClock end (applied outcome.effects end) outcome.effects }
{}

/// From any endpoint whose submissions are at the places of their numbers, as from a recovered one, entries and
/// submissions stay.
pub fn what_came_stays_from()
    ensures { (all : List Happening) (end : End) → AreNumberedFrom 0 end.sent → MayHappenTo all end
        → Keeps end (end_after all end) }
{}

/// And a settled submission doesn't change.
pub fn what_is_settled_stays_from()
    ensures { (all : List Happening) (end : End) (s : Sent) → AreNumberedFrom 0 end.sent → MayHappenTo all end
        → Contains end.sent s → is_pending s ≡ false → Contains (end_after all end).sent s }
{}

/// A run of two endpoints is at each of them a run of an endpoint alone, and leads to the same state.
pub fn a_site_is_an_end_alone()
    ensures { (site : Site) (all : List Happening) → MayHappen all new_world
        → MayHappenTo (happenings_at site all) empty_end
        × (end_after (happenings_at site all) empty_end ≡ (speaker_at site (world_after all new_world)).end) }
{}

/// And back: a run of one endpoint of a world, in which it receives only what the other endpoint sent, is a run of the
/// world.
pub fn an_end_alone_is_part_of_a_world()
    ensures { (site : Site) (all : List Happening) (world : World) → MayHappenTo all (speaker_at site world).end
        → AreHeardAt site (speaker_at (across site) world).said all → MayHappen all world }
{}

/// Some run delivers: for each push mode and all loads that aren't too large, a submission by the mode is sent,
/// received and receipted.
pub fn a_push_mode_delivers()
    ensures { (mode : Mode) (address : List ℕ) (conversation : Option (List ℕ)) (loads : List Load) → mode.route ≡ route.Push address
        → HasTexts (what.Submit mode.name conversation loads) → are_too_large loads ≡ false
        → (all : List Happening) × (s : Sent) × Delivers mode loads all s }
{}

/// And there is such a mode: some run delivers a message.
pub fn some_run_delivers()
    ensures { (mode : Mode) × (all : List Happening) × (s : Sent) × Delivers mode [] all s }
{}
