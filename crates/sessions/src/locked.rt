//! A session over an office under a lock. The lock is held neither while the request is read nor while the response is
//! written.
ghost use Rattle.std.specs.Prelude.{◌≡◌, ◌≤◌, [], false, is_some};
ghost use Rattle.as4_flow.specs.Draws.{Draws};
ghost use Rattle.as4_flow.specs.Flow.{between, flow};
ghost use Rattle.as4_http.specs.Asked.{AsksOnlyAsNeeded};
ghost use Rattle.as4_http.specs.Requests.{HasNoRequest};
ghost use Rattle.as4_doors.specs.WrittenText.{written_text};
ghost use Rattle.sessions.specs.Answering.{IsSamePass};
ghost use Rattle.sessions.specs.Sessions.{DrawsBoth, Ends, Replies};
ghost use Rattle.sessions.specs.Shared.{AnswersUnder, IsLegal};

use crate::ended::Ended;
use crate::naming::Opening;
use crate::requests::drawn_event;
use crate::shared_office::SharedOffice;
use crate::streams::{read_one, write_out};
use as4_disk::Disk;
use as4_doors::{DoorKind, Written};
use as4_flow::{Clock, Nonces, Sink, Source};
use as4_http::Request;
use office::Call;
use pass_book::Pass;
use std::alloc::Global;
use std::sync::{Mutex, Wait};

/// Answers a request that was read: how the session ends, and the response that is to be written. One moment and one nonce
/// are drawn. `kept` says whether a response that is made offers to keep the connection; a fixed one closes it. The request is dropped before the lock is taken.
pub fn reply_to<R: Wait, D: Disk, J: Opening, C: Clock, N: Nonces>(
    rt: &R,
    alloc: Global,
    office: &Mutex<SharedOffice<'_, D, J>>,
    pass: &mut Pass<'_, Call>,
    door: DoorKind,
    request: Request,
    kept: bool,
    clock: &mut C,
    nonces: &mut N,
) -> (Ended, Written)
    requires book { pass.old.book ≡ J.book }
    ensures replies { Replies (AnswersUnder D.Disk J.Opening pass.old pass.new) (pass.new ≡ pass.old)
        door request kept (C.last clock.new) (N.last nonces.new) result.0 (written_text result.1) }
    ensures moment { Draws (C.last clock.new) (C.to_come clock.old) (C.to_come clock.new) }
    ensures nonce { Draws (N.last nonces.new) (N.to_come nonces.old) (N.to_come nonces.new) }
    ensures legal { IsLegal J.Opening pass.old.list → IsLegal J.Opening pass.new.list }
    ensures pass { IsSamePass pass.old pass.new }
{
    match drawn_event(alloc, door, request, kept, clock, nonces) {
        Ok(event) => office.lock(rt).answer(alloc, pass, event, kept),
        Err(turned_away) => turned_away,
    }
}

/// Serves one connection: reads one request, answers it, and writes the response, after which the connection closes.
pub fn session<R: Wait, D: Disk, J: Opening, S: Source, K: Sink, C: Clock, N: Nonces>(
    rt: &R,
    alloc: Global,
    office: &Mutex<SharedOffice<'_, D, J>>,
    pass: &mut Pass<'_, Call>,
    door: DoorKind,
    source: &mut S,
    sink: &mut K,
    clock: &mut C,
    nonces: &mut N,
) -> Ended
    requires book { pass.old.book ≡ J.book }
    ensures ends { Ends (AnswersUnder D.Disk J.Opening pass.old pass.new) (pass.new ≡ pass.old)
        (DrawsBoth C.Clock N.Nonces clock.old clock.new nonces.old nonces.new)
        ((clock.new ≡ clock.old) × (nonces.new ≡ nonces.old))
        door (between (flow (S.left source.old) (K.taken sink.old) (S.faults source.old) (K.faults sink.old))
        (flow (S.left source.new) (K.taken sink.new) (S.faults source.new) (K.faults sink.new))) result }
    // The source is read no further than the piece that completes or dooms the request.
    ensures asks { AsksOnlyAsNeeded HasNoRequest [] (S.left source.old) (S.left source.new) }
    ensures tells { is_some (S.left source.new) ≡ is_some (S.left source.old) }
    // The calls that the pass has seen may have been made, one after another, since the office was opened.
    ensures legal { IsLegal J.Opening pass.old.list → IsLegal J.Opening pass.new.list }
    ensures pass { IsSamePass pass.old pass.new }
    ensures reads { S.faults source.old ≤ S.faults source.new }
    ensures writes { K.faults sink.old ≤ K.faults sink.new }
{
    match read_one(alloc, source) {
        Ok(request) => {
            let (ended, written) = reply_to(
                rt, alloc, office, pass, door, request, false, clock, nonces,
            );
            let ended = write_out(sink, ended, written.bytes());
            drop(written);
            ended
        }
        Err((ended, bytes)) => write_out(sink, ended, bytes),
    }
}
