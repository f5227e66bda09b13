//! What the turns of a worker add up to.
ghost use Rattle.std.specs.Prelude.{◌≡◌, ◌+◌, ◌≤◌, ◌<◌, ◌^◌, List, None, Some, length, ℕ};
ghost use Rattle.as4_doors.specs.declared.door.DoorKind.{DoorKind as DoorValue};
ghost use Rattle.workers.specs.Bounds.{Grows, IsKept, Took, door_of};
ghost use Rattle.workers.specs.Turns.{Worked};
ghost use Rattle.workers.specs.declared.job.Worker.{Worker as WorkerValue};

use crate::job::Job;
use as4_disk::Disk;
use as4_flow::{Clock, Nonces};
use as4_host::{Door, Link};
use sessions::{Opening, a_request_is_handled};

/// What a worker has made after its turns: one that sets the clock as many calls of the office as turns; one that pushes
/// or pulls at least one in each turn, but for those that are counted as starved; one at a door has served the first
/// guests. The history must not be full. Whatever a worker does, it keeps its job.
pub fn workers_make_their_turns<D: Disk, J: Opening, W: Door, L: Link, C: Clock, N: Nonces>()
    ensures grows { (old new : WorkerValue W L C N) → Worked D.Disk J.Opening W.Door L.Link C.Clock N.Nonces old new
        → Grows old.turns old new }
    ensures keeps { (old new : WorkerValue W L C N) → Worked D.Disk J.Opening W.Door L.Link C.Clock N.Nonces old new
        → IsKept old new }
    ensures makes { (old new : WorkerValue W L C N) → Worked D.Disk J.Opening W.Door L.Link C.Clock N.Nonces old new
        → door_of old.job ≡ None → length new.pass.list < 2 ^ 63
        → old.turns + old.pass.share + old.starved ≤ new.pass.share + new.starved }
    ensures ticks { (old new : WorkerValue W L C N) → Worked D.Disk J.Opening W.Door L.Link C.Clock N.Nonces old new
        → old.job ≡ Job.Tick → length new.pass.list < 2 ^ 63 → new.pass.share ≡ old.pass.share + old.turns }
    ensures serves { (old new : WorkerValue W L C N) (kind : DoorValue) (door : W) (all : List (List ℕ))
        → Worked D.Disk J.Opening W.Door L.Link C.Clock N.Nonces old new
        → door_of old.job ≡ Some kind → old.door ≡ Some door → W.guests door ≡ Some all
        → (later : W) × (new.door ≡ Some later) × Took W.Door kind old.turns all door later old new }
{
    a_request_is_handled::<D, J, C, N>();
}
