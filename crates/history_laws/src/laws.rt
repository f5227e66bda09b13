//! Laws of the histories of an office. Each law is the contract of a function that does nothing, or only calls other laws.
//!
//!     disks whose content isn't observable   an_unseen_history_may_happen
//!     calls after calls                      calls_split, calls_join, after_a_stop_only_refusals_follow,
//!                                            one_end_by_calls, what_is_asked_decides_the_history
//!     from any end on                        what_came_stays_from_any_start, what_came_is_shown, sizes_rise
//!     power failures at any moment           a_cut_off_call_leaves_the_same, what_is_left_reads_as_one_end,
//!                                            an_end_is_safe_over_openings, a_receipted_message_is_held_over_openings
//!     two offices                            two_offices_deliver_once, a_history_is_turns, a_history_goes_on_with_a_run,
//!                                            what_may_happen_is_a_turn
ghost use Rattle.std.specs.Prelude.{◌≡◌, ◌≢◌, ◌<◌, ◌≤◌, ◌↔◌, ◌++◌, ◌∷◌, [], ℕ, List, Option, None, Bool, false, true, length, map};
ghost use Rattle.std.specs.List.{AllByRecursion, AllPairs};
ghost use Rattle.std.specs.Option.{option_or};
ghost use Rattle.as4_disk.specs.Image.{Image};
ghost use Rattle.as4_disk.specs.declared.fault_counts.FaultCounts.{FaultCounts};
ghost use Rattle.as4_values.specs.declared.header.UserHeader.{UserHeader};
ghost use Rattle.as4_values.specs.declared.message.Message.{Message};
ghost use Rattle.as4_values.specs.declared.payload.Payload.{Payload};
ghost use Rattle.mode_values.specs.declared.mode.Mode.{Mode};
ghost use Rattle.msh_recovery.specs.Opens.{ReadsAs};
ghost use Rattle.exchange_model.specs.Alone.{IsSafe, MayHappenTo, end_after, size_after};
ghost use Rattle.exchange_model.specs.DeliveredOnce.{HasDeliveredOnce};
ghost use Rattle.exchange_model.specs.End.{End, empty_end};
ghost use Rattle.exchange_model.specs.Fold.{IsFoldedSize};
ghost use Rattle.exchange_model.specs.Questions.{is_known};
ghost use Rattle.exchange_model.specs.Staying.{Keeps};
ghost use Rattle.exchange_model.specs.Table.{Step};
ghost use Rattle.exchange_model.specs.World.{Act, Happening, IsHeard, Site, acted, folded};
ghost use Rattle.exchange_model.specs.declared.event.Event.{Event};
ghost use Rattle.exchange_model.specs.declared.inbox_entry.InboxEntry.{InboxEntry};
ghost use Rattle.exchange_model.specs.declared.reply.Reply.{Reply};
ghost use Rattle.exchange_model.specs.declared.reply.Reply.TheVariants.{Entry};
ghost use Rattle.exchange_model.specs.declared.what.What.TheVariants.{Read};
ghost use Rattle.office.specs.Calls.{IsRefusedAt, Leads, LeadsWhere, stop_of};
ghost use Rattle.office.specs.Happened.{Happened, MayLead};
ghost use Rattle.office.specs.Left.{IsLeft};
ghost use Rattle.office.specs.Openings.{HappenedOver, LeadsOver, Opening};
ghost use Rattle.office.specs.declared.call.Call.{Call};
ghost use Rattle.office.specs.declared.call.Call.TheVariants.{Done, Stop};
ghost use Rattle.history_laws.specs.Agreeing.{AgreesButForReads, AgreesWhere, HasNoRead};
ghost use Rattle.history_laws.specs.Asking.{asked_of};
ghost use Rattle.history_laws.specs.Following.{GoesOn};
ghost use Rattle.history_laws.specs.Holding.{IsHeldAt, IsReceipted, size_left};
ghost use Rattle.history_laws.specs.Inside.{LeavesInside, ReadsAsOne, cut_off};
ghost use Rattle.history_laws.specs.TwoOffices.{EntersAll, IsHeardBy, Offices, Runs, Side, TakesTurn, new_offices, speaker_of, world_of};

use exchange_laws::{an_end_is_safe, messages_are_delivered_once};
use fold_laws::an_end_has_one_fold;
use msh_recovery::an_image_opens_to_one_end;
use office::{a_history_may_happen, a_stop_leaves_what_may_happen, openings_may_happen};
use outcome_laws::an_event_has_one_outcome;

/// Over a disk whose content isn't observable, the payloads in the replies to `Read` aren't known. Nothing else is unknown
/// there: the calls agree with calls that the table gives, and lead to the same end. So each law of `Leads` holds there,
/// except for what a `Read` shows. Calls that agree with the table's calls lead where those lead, so no more is unknown.
pub fn an_unseen_history_may_happen()
    ensures happens { (modes : List Mode) (calls : List Call) (start end : End) → LeadsWhere false modes start calls end
        → (known : List Call) × AgreesButForReads calls known × Leads modes start known end }
    ensures unread { (modes : List Mode) (calls : List Call) (start end : End) → HasNoRead calls
        → LeadsWhere false modes start calls end → Leads modes start calls end }
    ensures agrees { (modes : List Mode) (calls known : List Call) (start end : End) → AgreesButForReads calls known
        → Leads modes start known end → LeadsWhere false modes start calls end }
{}

/// Calls split: a prefix of the calls leads to some end, and the rest goes on from there. If the prefix has a fault, the rest
/// is refused.
pub fn calls_split()
    ensures stop { (calls more : List Call) → stop_of (calls ++ more) ≡ option_or (stop_of calls) (stop_of more) }
    ensures split { (observable : Bool) (modes : List Mode) (calls more : List Call) (start end : End)
        → LeadsWhere observable modes start (calls ++ more) end
        → (here : End) × LeadsWhere observable modes start calls here × GoesOn observable modes (stop_of calls) here more end }
{}

/// And calls join: calls that go on from where others led lead on after them.
pub fn calls_join()
    ensures { (observable : Bool) (modes : List Mode) (calls more : List Call) (start here end : End)
        → LeadsWhere observable modes start calls here → GoesOn observable modes (stop_of calls) here more end
        → LeadsWhere observable modes start (calls ++ more) end }
{}

/// After a `Stop` each call is refused with its counts. No fault was before it, and the end is the one before it.
pub fn after_a_stop_only_refusals_follow()
    ensures { (observable : Bool) (modes : List Mode) (calls more : List Call) (event : Option Event) (halt : FaultCounts) (start end : End)
        → LeadsWhere observable modes start (calls ++ Stop event halt ∷ more) end
        → (stop_of calls ≡ None) × AllByRecursion (IsRefusedAt halt) more × LeadsWhere observable modes start calls end }
{}

/// The same calls lead to one end, whether the disk is observable or not. Calls that agree but for reads lead to the same
/// end too.
pub fn one_end_by_calls()
    ensures same { (observable : Bool) (modes : List Mode) (calls : List Call) (start a b : End)
        → LeadsWhere observable modes start calls a → LeadsWhere observable modes start calls b → a ≡ b }
    ensures agreeing { (modes : List Mode) (calls known : List Call) (start a b : End) → AgreesButForReads calls known
        → LeadsWhere false modes start calls a → Leads modes start known b → a ≡ b }
{
    an_event_has_one_outcome();
}

/// What an office is asked decides what it replies and the end that it leads to: it has no other input than its events, and
/// no choice. Over a disk whose content isn't observable the replies to `Read` may differ, as over two disks.
pub fn what_is_asked_decides_the_history()
    ensures known { (modes : List Mode) (calls others : List Call) (start a b : End) → asked_of calls ≡ asked_of others
        → Leads modes start calls a → Leads modes start others b → (calls ≡ others) × (a ≡ b) }
    ensures unseen { (modes : List Mode) (calls others : List Call) (start a b : End) → asked_of calls ≡ asked_of others
        → LeadsWhere false modes start calls a → LeadsWhere false modes start others b
        → (known : List Call) × AgreesButForReads calls known × AgreesButForReads others known × (a ≡ b) }
{
    an_event_has_one_outcome();
    an_end_has_one_fold();
}

/// From any end on, whatever led to it: entries, confirmations and submissions stay. A user message that was answered with a
/// receipt is in the inbox from then on. If its identifier was new, it is the next entry, with its payloads until it is
/// confirmed.
pub fn what_came_stays_from_any_start()
    ensures kept { (observable : Bool) (modes : List Mode) (calls : List Call) (start end : End)
        → LeadsWhere observable modes start calls end → Keeps start end }
    ensures receipted { (observable : Bool) (modes : List Mode) (calls more : List Call) (event : Event) (reply : Reply)
        (header : UserHeader) (payloads : List Payload) (start end : End) → IsReceipted header payloads event reply
        → LeadsWhere observable modes start (calls ++ Done event reply ∷ more) end → is_known header.id end.inbox ≡ true }
    ensures delivered { (observable : Bool) (modes : List Mode) (more : List Call) (event : Event) (reply : Reply)
        (header : UserHeader) (payloads : List Payload) (start end : End) → IsReceipted header payloads event reply
        → is_known header.id start.inbox ≡ false → LeadsWhere observable modes start (Done event reply ∷ more) end
        → IsHeldAt (length start.inbox) header payloads end }
{}

/// What came is shown from then on: a `Read` of a message that was received for the first time replies with its header and its
/// payloads, until it is confirmed. So does a `Read` in a later opening, whatever interrupted the openings before it. Where the
/// disk isn't observable, the payloads of the reply aren't known, or the message counts as gone.
pub fn what_came_is_shown()
    ensures shown { (observable : Bool) (modes : List Mode) (more : List Call) (event asked : Event) (reply shown : Reply)
        (header : UserHeader) (payloads : List Payload) (start end : End) → IsReceipted header payloads event reply
        → is_known header.id start.inbox ≡ false → asked.what ≡ Read (length start.inbox) → stop_of more ≡ None
        → LeadsWhere observable modes start (Done event reply ∷ more ++ Done asked shown ∷ []) end
        → end.confirmed ≤ length start.inbox → AgreesWhere observable asked.what shown (Entry header payloads) }
    ensures over_openings { (observable : Bool) (opening : Opening) (later : List Opening) (modes : List Mode)
        (before more calls : List Call) (event asked : Event) (reply shown : Reply) (header : UserHeader) (payloads : List Payload)
        (start here next end : End) → opening.calls ≡ before ++ Done event reply ∷ more → Leads opening.modes start before here
        → IsReceipted header payloads event reply → is_known header.id here.inbox ≡ false
        → LeadsOver (opening ∷ later) start next → asked.what ≡ Read (length here.inbox) → stop_of calls ≡ None
        → LeadsWhere observable modes next (calls ++ Done asked shown ∷ []) end → end.confirmed ≤ length here.inbox
        → AgreesWhere observable asked.what shown (Entry header payloads) }
{
    an_event_has_one_outcome();
    openings_may_happen();
}

/// The journal never gets shorter, except by a compaction: it has at least the size that the last compaction left. Its size
/// is what the records of the steps since then add up to.
pub fn sizes_rise()
    ensures least { (observable : Bool) (modes : List Mode) (calls : List Call) (start end : End)
        → LeadsWhere observable modes start calls end → size_left start.size calls ≤ end.size }
    ensures exact { (site : Site) (modes : List Mode) (calls : List Call) (start end : End) → Leads modes start calls end
        → (all : List Happening) × Happened site modes calls all × MayLead all start end × (end.size ≡ size_after all start.size) }
{
    a_history_may_happen();
}

/// A power failure inside a call leaves what an entered `Stop` of that call would have left, whatever its counts are. So the
/// opening after it is one of the openings of the laws over openings.
pub fn a_cut_off_call_leaves_the_same()
    ensures same { (modes : List Mode) (calls : List Call) (end : End) (event : Option Event) (halt : FaultCounts) (image : Image)
        → stop_of calls ≡ None → LeavesInside modes end event image ↔ IsLeft modes end (calls ++ Stop event halt ∷ []) image }
    ensures joins { (openings : List Opening) (modes : List Mode) (calls : List Call) (start here end next : End)
        (event : Option Event) (image : Image) → LeadsOver openings start here → Leads modes here calls end
        → stop_of calls ≡ None → LeavesInside modes end event image → ReadsAs image next
        → (halt : FaultCounts) × LeadsOver (openings ++ cut_off modes calls event halt image ∷ []) start next }
{}

/// Whatever a power failure leaves, after these calls or inside the next one, the next opening reads one end from it.
pub fn what_is_left_reads_as_one_end()
    ensures after { (modes : List Mode) (calls : List Call) (end : End) (image : Image) → IsLeft modes end calls image
        → ReadsAsOne image }
    ensures inside { (modes : List Mode) (event : Option Event) (end : End) (image : Image)
        → LeavesInside modes end event image → ReadsAsOne image }
{
    an_image_opens_to_one_end();
}

/// Never twice, over restarts. An endpoint that began empty is safe after all openings and the calls after the last, whatever
/// interrupted each of them. In particular its inbox has each identifier at most once.
pub fn an_end_is_safe_over_openings()
    ensures safe { (site : Site) (before : List Happening) (openings : List Opening) (modes : List Mode) (calls : List Call) (next end : End)
        → MayHappenTo before empty_end → LeadsOver openings (end_after before empty_end) next → Leads modes next calls end
        → (all : List Happening) × HappenedOver site openings modes calls all × IsSafe (before ++ all) end }
    ensures once { (observable : Bool) (before : List Happening) (openings : List Opening) (modes : List Mode) (calls : List Call) (next end : End)
        → MayHappenTo before empty_end → LeadsOver openings (end_after before empty_end) next
        → LeadsWhere observable modes next calls end
        → AllPairs (λ a b. a ≢ b) (map (λ (entry : InboxEntry). entry.header.id) end.inbox) }
{
    openings_may_happen();
    an_end_is_safe();
}

/// Never lost, over restarts: a user message that was answered with a receipt in one opening is in the inbox after all later
/// openings, whatever interrupted each of them. From any end on, entries, confirmations and submissions stay over openings.
pub fn a_receipted_message_is_held_over_openings()
    ensures kept { (observable : Bool) (openings : List Opening) (modes : List Mode) (calls : List Call) (start next end : End)
        → LeadsOver openings start next → LeadsWhere observable modes next calls end → Keeps start end }
    ensures receipted { (observable : Bool) (opening : Opening) (later : List Opening) (modes : List Mode) (calls more others : List Call)
        (event : Event) (reply : Reply) (header : UserHeader) (payloads : List Payload) (start next end : End)
        → opening.calls ≡ calls ++ Done event reply ∷ more → IsReceipted header payloads event reply
        → LeadsOver (opening ∷ later) start next → LeadsWhere observable modes next others end
        → is_known header.id end.inbox ≡ true }
{
    openings_may_happen();
}

/// Two offices deliver each message once, whatever messages the network between them loses, repeats or reorders, and wherever
/// the power of either fails. No inbox has an identifier twice, each entry is a submission of the other office, and a message
/// that its sender holds a receipt for is in the other inbox.
pub fn two_offices_deliver_once()
    ensures { (run : List Offices) (left right : List Mode) (last : Offices) → Runs run (new_offices left right) last
        → HasDeliveredOnce (world_of last) }
{
    a_stop_leaves_what_may_happen();
    messages_are_delivered_once();
}

/// The calls that the contracts of an office lead through are turns of that office, if it received only what the other office
/// sent. So what a caller has seen of an office's history is part of such a run.
pub fn a_history_is_turns()
    ensures { (calls : List Call) (heard : List Message) (side : Side) (end : End)
        → GoesOn true side.modes (stop_of side.calls) side.end calls end → AllByRecursion (IsHeardBy heard) calls
        → (last : Side) × EntersAll calls heard side last × (last.end ≡ end) × (last.calls ≡ side.calls ++ calls) }
{}

/// So whatever two offices did before, the calls of one of them that its contracts lead through, and in which it received only
/// what the other sent, go on with that run. After them each message was delivered once.
pub fn a_history_goes_on_with_a_run()
    ensures left { (run : List Offices) (l r : List Mode) (at : Offices) (calls : List Call) (end : End) → Runs run (new_offices l r) at
        → GoesOn true at.left.modes (stop_of at.left.calls) at.left.end calls end → AllByRecursion (IsHeardBy at.right.said) calls
        → (more : List Offices) × (last : Side) × Runs (run ++ more) (new_offices l r) (record at { left = last })
        × (last.end ≡ end) × (last.calls ≡ at.left.calls ++ calls) × HasDeliveredOnce (world_of (record at { left = last })) }
    ensures right { (run : List Offices) (l r : List Mode) (at : Offices) (calls : List Call) (end : End) → Runs run (new_offices l r) at
        → GoesOn true at.right.modes (stop_of at.right.calls) at.right.end calls end → AllByRecursion (IsHeardBy at.left.said) calls
        → (more : List Offices) × (last : Side) × Runs (run ++ more) (new_offices l r) (record at { right = last })
        × (last.end ≡ end) × (last.calls ≡ at.right.calls ++ calls) × HasDeliveredOnce (world_of (record at { right = last })) }
{
    two_offices_deliver_once();
}

/// No such run is missed: each act of a world whose reply is sent, under the modes of its office, and each compaction that
/// makes a journal shorter, is a turn of an office without a fault.
pub fn what_may_happen_is_a_turn()
    ensures act { (act : Act) (heard : List Message) (side : Side) → IsHeard heard act.event.what
        → Step act.modes side.end act.event act.outcome → act.modes ≡ side.modes → act.lost ≡ false → stop_of side.calls ≡ None
        → (next : Side) × TakesTurn heard side next × (speaker_of next ≡ acted act (speaker_of side)) }
    ensures compaction { (size : ℕ) (heard : List Message) (side : Side) → IsFoldedSize side.end size → size < side.end.size
        → stop_of side.calls ≡ None
        → (next : Side) × TakesTurn heard side next × (speaker_of next ≡ folded size (speaker_of side)) }
{}
