//! What the requests of a connection add up to.
ghost use Rattle.std.specs.Prelude.{◌≡◌, ◌++◌, ◌∷◌, ◌+◌, ◌≤◌, ℕ, Bool, [], List, None, Some, false, length};
ghost use Rattle.std.specs.List.{AllByRecursion};
ghost use Rattle.as4_doors.specs.declared.door.DoorKind.{DoorKind as DoorValue};
ghost use mathlib.Core.List.{IsPrefix};
ghost use Rattle.sessions.specs.declared.ended.Ended.{Ended as EndedValue};
ghost use Rattle.workers.specs.Bounds.{Took, door_of};
ghost use Rattle.workers.specs.Turns.{Worked};
ghost use Rattle.workers.specs.declared.job.Worker.{Worker as WorkerValue};
ghost use Rattle.as4_keep.specs.Connections.{Breaks, EndsByLast, Keeps, Moment, ServesRequests, ahead, begun_of};
ghost use Rattle.as4_keep.specs.InOrder.{Answer, AnswersInOrder, IsKept};
ghost use Rattle.as4_keep.specs.KeptBounds.{GrowsKept};
ghost use Rattle.as4_keep.specs.KeptTurns.{KeptWorked};
ghost use Rattle.as4_keep.specs.declared.keep_end.KeepEnd.{KeepEnd as KeepEndValue};

use as4_disk::Disk;
use as4_doors::{refused_or_asked, strangers_ask_nothing};
use as4_flow::{Clock, Nonces};
use as4_host::{Door, Link};
use as4_http::one_request;
use sessions::Opening;
use workers::workers_make_their_turns;

/// The stream of a connection begins with the requests that were answered in full. Each that asks for an event made one
/// call of the office, in the order of the stream, and no other call counts for the pass; the responses were written in
/// that order; and request number k has the answers number k that clock and nonces had to come. The response after which
/// the connection is closed says so, and each other one that the connection is kept.
pub fn requests_are_answered_in_order<D: Disk, J: Opening, C: Clock, N: Nonces>()
    ensures requests { (door : DoorValue) (limit n : ℕ) (old new : Moment C N) → ServesRequests D.Disk J.Opening C.Clock N.Nonces door limit n old new
        → (answers : List Answer) × (length answers ≡ n) × AllByRecursion IsKept answers × AnswersInOrder C.Clock N.Nonces door answers old new }
    ensures last { (door : DoorValue) (limit served : ℕ) (old new : Moment C N) → EndsByLast D.Disk J.Opening C.Clock N.Nonces door limit served old new
        → (others : List Answer) × (last : Answer) × (held : List ℕ) × (length (others ++ last ∷ []) ≡ served)
        × AllByRecursion IsKept others × (last.kept ≡ false) × AnswersInOrder C.Clock N.Nonces door (others ++ last ∷ []) old (ahead held new) }
    // No more requests are served than the limit, and fewer where one more broke the connection, which makes at most one call.
    ensures within { (door : DoorValue) (limit : ℕ) (old new : Moment C N) (end : KeepEndValue) → 1 ≤ limit
        → Keeps D.Disk J.Opening C.Clock N.Nonces door limit old new end → begun_of end ≤ limit }
    ensures breaks { (door : DoorValue) (is_last : Bool) (old new : Moment C N) (end : EndedValue)
        → Breaks D.Disk J.Opening C.Clock N.Nonces door is_last old new end
        → IsPrefix old.caller.pass.list new.caller.pass.list × (old.caller.pass.share ≤ new.caller.pass.share)
        × (new.caller.pass.share ≤ old.caller.pass.share + 1) }
{}

/// What a worker has made after its turns: away from a door what `workers::serve` makes, and at a door it has served the
/// first guests. Each turn at a door makes at most `limit` calls. If a guest's first request asks for something, the worker
/// has made a call with its event, as long as the history isn't full and memory doesn't run out.
pub fn kept_workers_make_their_turns<D: Disk, J: Opening, W: Door, L: Link, C: Clock, N: Nonces>()
    ensures grows { (limit : ℕ) (old new : WorkerValue W L C N) → 1 ≤ limit → KeptWorked D.Disk J.Opening W.Door L.Link C.Clock N.Nonces limit old new
        → GrowsKept limit old.turns old new }
    ensures away { (limit : ℕ) (old new : WorkerValue W L C N) → KeptWorked D.Disk J.Opening W.Door L.Link C.Clock N.Nonces limit old new
        → door_of old.job ≡ None → Worked D.Disk J.Opening W.Door L.Link C.Clock N.Nonces old new }
    ensures serves { (limit : ℕ) (old new : WorkerValue W L C N) (kind : DoorValue) (door : W) (all : List (List ℕ)) → 1 ≤ limit
        → KeptWorked D.Disk J.Opening W.Door L.Link C.Clock N.Nonces limit old new
        → door_of old.job ≡ Some kind → old.door ≡ Some door → W.guests door ≡ Some all
        → (later : W) × (new.door ≡ Some later) × Took W.Door kind old.turns all door later old new }
{
    workers_make_their_turns::<D, J, W, L, C, N>();
    one_request();
    strangers_ask_nothing();
    refused_or_asked();
}
