//! A session over memory: one request in, and the bytes of its response.
ghost use Rattle.std.specs.Prelude.{◌≡◌, ◌≤◌, ◌∷◌, [], IfOk};
ghost use Rattle.as4_flow.specs.ClocksInMemory.{new_clock};
ghost use Rattle.carrier.specs.Carrying.{IsServed};
ghost use Rattle.sessions.specs.Answering.{Answers, IsSamePass};

use as4_disk::Disk;
use as4_flow::{CountNonces, ListClock, MemorySink, MemorySource};
use as4_values::{MAX_MOMENT, NoMemory, Octets};
use office::{Call, Office};
use pass_book::Pass;
use sessions::{DoorKind, Ended, session_on};
use std::alloc::Global;

/// Serves the request at this moment, with this nonce: how the session ends, and what it wrote.
pub(crate) fn serve<D: Disk>(
    alloc: Global,
    office: &mut Office<'_, D>,
    pass: &mut Pass<'_, Call>,
    request: Octets,
    stamp: u64,
    nonce: u128,
) -> (Ended, Octets)
    requires book { pass.old.book ≡ office.old.book }
    requires dated { stamp ≤ MAX_MOMENT }
    ensures serves { IsServed (Answers D.Disk office.old office.new pass.old pass.new) request stamp nonce result.0 result.1 }
    ensures modes { office.new.modes ≡ office.old.modes }
    ensures book { office.new.book ≡ office.old.book }
    ensures pass { IsSamePass pass.old pass.new }
{
    let Ok(mut clock) = clock_at(alloc, stamp) else {
        drop(request);
        return (Ended::NoMemory, Octets::of(Vec::new(alloc)));
    };
    let mut nonces = CountNonces::of(nonce);
    let mut source = MemorySource::of(request.into_vec(), Vec::new(alloc), Vec::new(alloc));
    let mut sink = MemorySink::of(alloc, Vec::new(alloc), Vec::new(alloc));
    let ended = session_on(
        alloc,
        office,
        pass,
        DoorKind::Peer,
        &mut source,
        &mut sink,
        &mut clock,
        &mut nonces,
    );
    drop(source);
    drop(clock);
    drop(nonces);
    (ended, Octets::of(sink.into_bytes()))
}

/// A clock that stands at this moment.
fn clock_at(alloc: Global, stamp: u64) -> Result<ListClock, NoMemory>
    ensures { IfOk result (λ clock. clock ≡ new_clock (stamp ∷ [])) }
{
    Ok(ListClock::of(vec![in alloc; stamp]?))
}
