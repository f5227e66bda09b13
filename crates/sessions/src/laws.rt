//! What holds of every session, over the definitions alone.
ghost use Rattle.std.specs.Prelude.{◌≡◌, ◌<◌, ◌++◌, ◌^◌, ℕ, [], Bool, List, None, Some, is_some, length, true};
ghost use Rattle.std.specs.List.{AllByRecursion};
ghost use Rattle.as4_doors.specs.Asking.{AsksFor};
ghost use Rattle.as4_doors.specs.declared.door.DoorKind.{DoorKind as DoorValue};
ghost use Rattle.as4_flow.specs.Flow.{Streams};
ghost use Rattle.as4_http.specs.Requests.{BeginsRequest};
ghost use Rattle.as4_http.specs.declared.message.Request.{Request as RequestValue};
ghost use Rattle.exchange_model.specs.DeliveredOnce.{HasDeliveredOnce};
ghost use Rattle.exchange_model.specs.declared.event.Event.{Event as EventValue};
ghost use Rattle.exchange_model.specs.declared.what.What.{What as WhatValue};
ghost use Rattle.history_laws.specs.TwoOffices.{IsHeardBy, Offices, Runs, Side, new_offices, world_of};
ghost use Rattle.mode_values.specs.declared.mode.Mode.{Mode as ModeValue};
ghost use Rattle.office.specs.Calls.{stop_of};
ghost use Rattle.office.specs.State.{OfficeState};
ghost use Rattle.office.specs.declared.call.Call.{Call as CallValue};
ghost use Rattle.pass_book.specs.States.{PassState};
ghost use Rattle.sessions.specs.Answering.{Answers};
ghost use Rattle.sessions.specs.Sessions.{DrawsBoth, Ends, IsHandled, IsReplied};
ghost use Rattle.sessions.specs.Shared.{AnswersUnder, IsLegal};
ghost use Rattle.sessions.specs.declared.ended.Ended.{Ended as EndedValue};

use crate::naming::Opening;
use as4_disk::Disk;
use as4_doors::{refused_or_asked, strangers_ask_nothing};
use as4_flow::{Clock, Nonces};
use as4_http::one_request;
use history_laws::{a_history_goes_on_with_a_run, calls_split};

/// Where the stream begins with a request that asks for an event at this door, the session handles that event, with the
/// moment and the nonce that it drew; unless memory runs out or the source fails.
pub fn a_request_is_handled<D: Disk, J: Opening, C: Clock, N: Nonces>()
    ensures lent { (old new : OfficeState D) (pass_old pass_new : PassState CallValue) (clock clock_later : C) (nonces nonces_later : N)
        (door : DoorValue) (streams : Streams) (end : EndedValue) (stream rest : List ℕ) (request : RequestValue) (what : WhatValue)
        → Ends (Answers D.Disk old new pass_old pass_new) ((new ≡ old) × (pass_new ≡ pass_old))
        (DrawsBoth C.Clock N.Nonces clock clock_later nonces nonces_later)
        ((clock_later ≡ clock) × (nonces_later ≡ nonces)) door streams end
        → is_some streams.rest ≡ is_some streams.left → streams.left ≡ Some stream
        → BeginsRequest stream request rest → AsksFor door request what
        → IsHandled (Answers D.Disk old new pass_old pass_new)
        (DrawsBoth C.Clock N.Nonces clock clock_later nonces nonces_later)
        door request streams end }
    ensures shared { (pass_old pass_new : PassState CallValue) (clock clock_later : C) (nonces nonces_later : N)
        (door : DoorValue) (streams : Streams) (end : EndedValue) (stream rest : List ℕ) (request : RequestValue) (what : WhatValue)
        → Ends (AnswersUnder D.Disk J.Opening pass_old pass_new) (pass_new ≡ pass_old)
        (DrawsBoth C.Clock N.Nonces clock clock_later nonces nonces_later)
        ((clock_later ≡ clock) × (nonces_later ≡ nonces)) door streams end
        → is_some streams.rest ≡ is_some streams.left → streams.left ≡ Some stream
        → BeginsRequest stream request rest → AsksFor door request what
        → IsHandled (AnswersUnder D.Disk J.Opening pass_old pass_new)
        (DrawsBoth C.Clock N.Nonces clock clock_later nonces nonces_later)
        door request streams end }
{
    one_request();
    strangers_ask_nothing();
    refused_or_asked();
}

/// A session that handled its event is replied to, unless memory runs out: if the calls that the pass has then seen have no
/// fault of the disk, and are fewer than 2^63.
pub fn an_event_is_replied_to<D: Disk, J: Opening>()
    ensures lent { (old new : OfficeState D) (pass_old pass_new : PassState CallValue) (kept : Bool) (event : EventValue) (end : EndedValue) (bytes : List ℕ)
        → Answers D.Disk old new pass_old pass_new kept event end bytes
        → stop_of pass_new.list ≡ None → length pass_new.list < 2 ^ 63 → IsReplied end }
    ensures shared { (pass_old pass_new : PassState CallValue) (kept : Bool) (event : EventValue) (end : EndedValue) (bytes : List ℕ)
        → AnswersUnder D.Disk J.Opening pass_old pass_new kept event end bytes
        → stop_of pass_new.list ≡ None → length pass_new.list < 2 ^ 63 → IsReplied end }
{
    calls_split();
}

/// Two offices ran, and one of them is opened with this name. The calls that a pass of it has seen go on with their run, if
/// it received only what the other office sent: after them each message was delivered once. Sessions keep what this asks of
/// a pass (`legal`), and the run before may have had restarts and power failures of both.
pub fn sessions_deliver_once<J: Opening>()
    ensures left { (run : List Offices) (l r : List ModeValue) (at : Offices) (calls : List CallValue) → Runs run (new_offices l r) at
        → J.observable ≡ true → at.left.end ≡ J.start → at.left.modes ≡ J.modes → at.left.calls ≡ []
        → IsLegal J.Opening calls → AllByRecursion (IsHeardBy at.right.said) calls
        → (more : List Offices) × (last : Side) × Runs (run ++ more) (new_offices l r) (record at { left = last })
        × (last.calls ≡ calls) × HasDeliveredOnce (world_of (record at { left = last })) }
    ensures right { (run : List Offices) (l r : List ModeValue) (at : Offices) (calls : List CallValue) → Runs run (new_offices l r) at
        → J.observable ≡ true → at.right.end ≡ J.start → at.right.modes ≡ J.modes → at.right.calls ≡ []
        → IsLegal J.Opening calls → AllByRecursion (IsHeardBy at.left.said) calls
        → (more : List Offices) × (last : Side) × Runs (run ++ more) (new_offices l r) (record at { right = last })
        × (last.calls ≡ calls) × HasDeliveredOnce (world_of (record at { right = last })) }
{
    a_history_goes_on_with_a_run();
}
