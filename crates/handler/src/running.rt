//! How the workers run over the office that was opened.
ghost use Rattle.std.specs.Prelude.{◌≡◌, ◌≢◌, ◌≤◌, ◌<◌, ℕ, [], All, length, true, slice_index_or};
ghost use Rattle.as4_keep.specs.KeptTurns.{KeptWorked};
ghost use Rattle.handler.specs.Announcing.{Announces};
ghost use Rattle.handler.specs.Crews.{AllMadeTurns, AllTookTurns, WorkedOver};
ghost use Rattle.handler.specs.Working.{RunsOver, ran_by};
ghost use Rattle.sessions.specs.Shared.{IsOpened};
ghost use Rattle.workers.specs.Turns.{IsReady, Worked};

use crate::announcing::announce;
use as4_disk::Disk;
use as4_flow::{Clock, Nonces, Sink};
use as4_host::{Door, Link};
use as4_keep::{kept_workers_make_their_turns, serve_kept};
use office::{Call, Office, OfficeFault};
use pass_book::Pass;
use sessions::{Opening, SharedOffice};
use std::alloc::Global;
use std::marker::Brand;
use std::sync::{Mutex, Wait};
use std::thread::Threads;
use workers::{Worker, serve, workers_make_their_turns};

/// How far a handler came with the office that it opened.
#[derive(Clone, Copy, Debug, PartialEq, Eq)]
pub(crate) enum Ran {
    /// The workers made their turns.
    Served,
    /// Memory ran out before the workers began: for a door that is shared, or for the compaction.
    NoMemory,
    /// The journal wasn't compacted, for another cause: the disk failed.
    DiskFault,
}

/// Runs the workers over an office that was just opened, if all of them were hired. At most `keep` requests of one
/// connection are answered. `Brand` is a type of its own for this opening, by which the shared office and the workers'
/// contracts name it.
pub(crate) fn run_if<
    'a,
    R: Threads + Wait + Sync,
    D: Disk + Send,
    W: Door + Drop + Send,
    L: Link + Drop + Send,
    C: Clock + Drop + Send,
    N: Nonces + Drop + Send,
    E: Sink,
>(
    rt: &R,
    alloc: Global,
    office: Office<'a, D>,
    pass: &mut Pass<'a, Call>,
    crew: &mut Vec<Worker<'a, W, L, C, N>>,
    errors: &mut E,
    head: Vec<u8>,
    is_whole: bool,
    keep: u64,
) -> (Office<'a, D>, Ran)
where
    W::In: Send,
    W::Out: Send,
    L::In: Send,
    L::Out: Send,
    requires list { office.list ≡ [] }
    requires fresh { D.fault_count office.disk ≡ 0 }
    requires pass { (pass.old.book ≡ office.book) × (pass.old.share ≡ 0) × (pass.old.list ≡ []) }
    requires ready { All (IsReady office.book) crew.old.items }
    requires keep { (1 ≤ keep) × (keep ≤ 1000) }
    ensures runs { RunsOver D.Disk W.Door keep office.entry result.0 pass.old pass.new crew.old.items crew.new.items result.1 }
    ensures worked { result.1 ≡ Ran.Served → WorkedOver D.Disk W.Door L.Link C.Clock N.Nonces keep office.entry crew.old.items crew.new.items }
    ensures whole { result.1 ≡ Ran.Served → is_whole ≡ true }
    ensures line { result.1 ≡ Ran.Served → Announces D.Disk office.entry pass.new.list head.items (E.taken errors.old) (E.taken errors.new) }
    ensures silent { result.1 ≢ Ran.Served → E.taken errors.new ≡ E.taken errors.old }
    ensures counted { E.faults errors.old ≤ E.faults errors.new }
{
    if is_whole {
        return run_office::<R, D, Brand, W, L, C, N, E>(
            rt, alloc, office, pass, crew, errors, head, keep,
        );
    }
    drop(head);
    (office, Ran::NoMemory)
}

// Compacts the journal of an office that was just opened, writes the line, and then runs the workers.
fn run_office<
    'a,
    R: Threads + Wait + Sync,
    D: Disk + Send,
    J: Opening + Send + Sync,
    W: Door + Drop + Send,
    L: Link + Drop + Send,
    C: Clock + Drop + Send,
    N: Nonces + Drop + Send,
    E: Sink,
>(
    rt: &R,
    alloc: Global,
    office: Office<'a, D>,
    pass: &mut Pass<'a, Call>,
    crew: &mut Vec<Worker<'a, W, L, C, N>>,
    errors: &mut E,
    head: Vec<u8>,
    keep: u64,
) -> (Office<'a, D>, Ran)
where
    W::In: Send,
    W::Out: Send,
    L::In: Send,
    L::Out: Send,
    requires opened { IsOpened D.Disk J.Opening office }
    requires start { (office.list ≡ []) × (office.end ≡ J.start) }
    requires fresh { D.fault_count office.disk ≡ 0 }
    requires pass { (pass.old.book ≡ office.book) × (pass.old.share ≡ 0) × (pass.old.list ≡ []) }
    requires ready { All (IsReady J.book) crew.old.items }
    requires keep { (1 ≤ keep) × (keep ≤ 1000) }
    ensures runs { RunsOver D.Disk W.Door keep office.entry result.0 pass.old pass.new crew.old.items crew.new.items result.1 }
    ensures took { result.1 ≡ Ran.Served → AllTookTurns D.Disk W.Door L.Link C.Clock N.Nonces keep J.Opening crew.old.items crew.new.items }
    ensures line { result.1 ≡ Ran.Served → Announces D.Disk office.entry pass.new.list head.items (E.taken errors.old) (E.taken errors.new) }
    ensures silent { result.1 ≢ Ran.Served → E.taken errors.new ≡ E.taken errors.old }
    ensures counted { E.faults errors.old ≤ E.faults errors.new }
{
    let mut office = office;
    match office.checkpoint(pass) {
        Ok(size) => {
            announce(errors, head, size, office.totals());
            (
                run_crew::<R, D, J, W, L, C, N>(rt, alloc, office, crew, keep),
                Ran::Served,
            )
        }
        Err(fault) => {
            drop(head);
            (office, ran_by(fault))
        }
    }
}

// How far a handler came whose journal wasn't compacted for this fault.
fn ran_by(fault: OfficeFault) -> Ran
    ensures { result ≡ ran_by fault }
{
    match fault {
        OfficeFault::NoMemory => Ran::NoMemory,
        _ => Ran::DiskFault,
    }
}

// Runs the workers over the office under a lock, and takes it out of the lock afterwards.
fn run_crew<
    'a,
    R: Threads + Wait + Sync,
    D: Disk + Send,
    J: Opening + Send + Sync,
    W: Door + Drop + Send,
    L: Link + Drop + Send,
    C: Clock + Drop + Send,
    N: Nonces + Drop + Send,
>(
    rt: &R,
    alloc: Global,
    office: Office<'a, D>,
    crew: &mut Vec<Worker<'a, W, L, C, N>>,
    keep: u64,
) -> Office<'a, D>
where
    W::In: Send,
    W::Out: Send,
    L::In: Send,
    L::Out: Send,
    requires opened { IsOpened D.Disk J.Opening office }
    requires ready { All (IsReady J.book) crew.old.items }
    requires keep { (1 ≤ keep) × (keep ≤ 1000) }
    ensures opened { IsOpened D.Disk J.Opening result }
    ensures made { AllMadeTurns W.Door keep crew.old.items crew.new.items }
    ensures took { AllTookTurns D.Disk W.Door L.Link C.Clock N.Nonces keep J.Opening crew.old.items crew.new.items }
{
    workers_make_their_turns::<D, J, W, L, C, N>();
    kept_workers_make_their_turns::<D, J, W, L, C, N>();
    let office = Mutex::new(SharedOffice::<D, J>::new(office));
    serve_all(rt, alloc, &office, crew, keep);
    office.into_inner().into_office()
}

// Runs the workers of a list side by side. With `keep` 1, each connection is closed after one answer.
fn serve_all<
    'a,
    R: Threads + Wait + Sync,
    D: Disk + Send,
    J: Opening + Send + Sync,
    W: Door + Drop + Send,
    L: Link + Drop + Send,
    C: Clock + Drop + Send,
    N: Nonces + Drop + Send,
>(
    rt: &R,
    alloc: Global,
    office: &Mutex<SharedOffice<'_, D, J>>,
    crew: &mut Vec<Worker<'a, W, L, C, N>>,
    keep: u64,
)
where
    W::In: Send,
    W::Out: Send,
    L::In: Send,
    L::Out: Send,
    requires ready { All (IsReady J.book) crew.old.items }
    requires keep { (1 ≤ keep) × (keep ≤ 1000) }
    ensures count { length crew.new.items ≡ length crew.old.items }
    ensures once { keep ≡ 1 → (i : ℕ) (w : _) → i < length crew.old.items
        → Worked D.Disk J.Opening W.Door L.Link C.Clock N.Nonces (slice_index_or crew.old.items i w) (slice_index_or crew.new.items i w) }
    ensures kept { keep ≢ 1 → (i : ℕ) (w : _) → i < length crew.old.items
        → KeptWorked D.Disk J.Opening W.Door L.Link C.Clock N.Nonces keep (slice_index_or crew.old.items i w) (slice_index_or crew.new.items i w) }
{
    if keep == 1 {
        serve(rt, alloc, office, crew);
    } else {
        serve_kept(rt, alloc, office, crew, keep);
    }
}
