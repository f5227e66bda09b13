//! Sessions over an office under a lock.
ghost use Rattle.std.specs.Prelude.{◌≡◌, ◌<◌, ◌-◌, ◌^◌};
ghost use Rattle.as4_disk.specs.MemoryMeaning.{memory_meaning};
ghost use Rattle.sessions.specs.Shared.{IsOpened};

use crate::desk::{Connection, Desk, streams, whole};
use crate::samples::{COUNTED, ERROR_7, NO_MESSAGE, RECEIPT};
use crate::shown::{EndKind, Served, kind_of};
use as4_disk::MemoryDisk;
use as4_flow::{CountNonces, ListClock};
use as4_values::{Octets, Seq, Text};
use exchange_model::{Event, What};
use office::{Call, Office, OfficeFault};
use pass_book::Pass;
use sessions::{DoorKind, Opening, RoundEnd, Sending, SharedOffice, session, tick_round};
use std::alloc::{AllocError, Global};
use std::marker::{Brand, PhantomData};
use std::sync::{Mutex, Wait};
use std::test::Fail;
use std::thread;
use std::thread::Threads;

type Shared<'a, J> = Mutex<SharedOffice<'a, MemoryDisk, J>>;

/// A pass of the opening that is named J.
#[derive(Drop)]
struct Caller<'a, J: Opening> {
    pass: Pass<'a, Call>,
    // Whether each session was answered with the receipt.
    is_right: bool,
    of: PhantomData<J>,
    ghost here: { pass.book ≡ J.book },
}

/// Serves a connection at the moment 0, with the nonce 1.
fn serves<R: Wait, J: Opening>(
    rt: &R,
    alloc: Global,
    office: &Shared<'_, J>,
    pass: &mut Pass<'_, Call>,
    connection: Connection<'_>,
) -> Result<Served, AllocError>
    requires book { pass.old.book ≡ J.book }
    ensures book { pass.new.book ≡ J.book }
    ensures stake { pass.new.stake ≡ pass.old.stake }
{
    let (mut source, mut sink) = streams(alloc, connection)?;
    let mut clock = ListClock::of(Vec::new(alloc));
    let mut nonces = CountNonces::of(1);
    let ended = session(
        rt,
        alloc,
        office,
        pass,
        connection.door,
        &mut source,
        &mut sink,
        &mut clock,
        &mut nonces,
    );
    let left = source.rest().len();
    drop(source);
    drop(clock);
    Ok(Served {
        ended: kind_of(ended),
        written: Octets::of(sink.into_bytes()),
        left,
    })
}

/// Whether what comes at the peer's door is served so.
fn answers<R: Wait, J: Opening>(
    rt: &R,
    alloc: Global,
    office: &Shared<'_, J>,
    pass: &mut Pass<'_, Call>,
    bytes: &[u8],
    ended: EndKind,
    written: &[u8],
) -> bool
    requires book { pass.old.book ≡ J.book }
    ensures book { pass.new.book ≡ J.book }
    ensures stake { pass.new.stake ≡ pass.old.stake }
{
    match serves(rt, alloc, office, pass, whole(DoorKind::Peer, bytes)) {
        Ok(served) => served.is(ended, written),
        Err(_) => false,
    }
}

/// Whether the clock is set to 1,000.
fn ticks<R: Wait, J: Opening>(
    rt: &R,
    alloc: Global,
    office: &Shared<'_, J>,
    pass: &mut Pass<'_, Call>,
) -> bool
    requires book { pass.old.book ≡ J.book }
    ensures book { pass.new.book ≡ J.book }
{
    let Ok(moments) = Vec::from_slice(alloc, &[1000]) else {
        return false;
    };
    let mut clock = ListClock::of(moments);
    let round = tick_round(rt, office, pass, &mut clock);
    drop(clock);
    let is_done = matches!(round, RoundEnd::Done);
    drop(round);
    is_done
}

/// Whether a submission is replied to without a request, and the message that is taken then comes with its request.
#[tactic(auto, unfolding(exchange_model::specs::Coming::may_come))]
fn sends<R: Wait, J: Opening>(
    rt: &R,
    alloc: Global,
    office: &Shared<'_, J>,
    pass: &mut Pass<'_, Call>,
) -> bool
    requires book { pass.old.book ≡ J.book }
    ensures book { pass.new.book ≡ J.book }
{
    let Ok(mode) = Text::read(alloc, b"invoice") else {
        return false;
    };
    let what = What::Submit {
        mode,
        conversation: None,
        loads: Seq::of(Vec::new(alloc)),
    };
    let submitted = Event {
        stamp: 0,
        nonce: 1,
        what,
    };
    let has_none = request_of(office.lock(rt).send(alloc, pass, submitted, None), b"");
    let taken = Event {
        stamp: 0,
        nonce: 2,
        what: What::Take,
    };
    let sent = office.lock(rt).send(alloc, pass, taken, None);
    has_none && request_of(sent, b"POST /as4 HTTP/1.1\r\nHost: 127.0.0.1:9080\r\n")
}

/// Whether the request begins with this text, or there is none where the text is empty.
fn request_of(sent: Result<Sending, OfficeFault>, text: &[u8]) -> bool {
    match sent {
        Ok(Sending { reply, request }) => {
            drop(reply);
            match request {
                Some(request) => {
                    let is_so = !text.is_empty() && request.bytes().starts_with(text);
                    drop(request);
                    is_so
                }
                None => text.is_empty(),
            }
        }
        Err(_) => false,
    }
}

/// Three sessions, a round, and two steps that send, with the shares after each.
fn one_after_another<R: Wait, J: Opening>(
    rt: &R,
    alloc: Global,
    office: Office<'_, MemoryDisk>,
    mut pass: Pass<'_, Call>,
) -> [(bool, u64); 5]
    requires opened { IsOpened memory_meaning J.Opening office }
    requires book { pass.book ≡ J.book }
{
    let shared: Shared<'_, J> = Mutex::new(SharedOffice::new(office));
    let came = answers(
        rt,
        alloc,
        &shared,
        &mut pass,
        COUNTED,
        EndKind::Answered,
        RECEIPT,
    );
    let first = (came, pass.share());
    let is_refused = answers(
        rt,
        alloc,
        &shared,
        &mut pass,
        NO_MESSAGE,
        EndKind::Refused(7),
        ERROR_7,
    );
    let second = (is_refused, pass.share());
    let is_cut = answers(rt, alloc, &shared, &mut pass, b"", EndKind::Cut, b"");
    let third = (is_cut, pass.share());
    let is_done = ticks(rt, alloc, &shared, &mut pass);
    let fourth = (is_done, pass.share());
    let is_sent = sends(rt, alloc, &shared, &mut pass);
    let fifth = (is_sent, pass.share());
    drop(shared.into_inner().into_office());
    drop(pass);
    [first, second, third, fourth, fifth]
}

#[test]
fn sessions_and_a_round(rt: HostRuntime) -> Result<(), Fail> {
    let Desk {
        alloc,
        office,
        pass,
    } = Desk::new(rt.alloc(), &[])?;
    let done = one_after_another::<_, Brand>(&rt, alloc, office, pass);
    assert_eq!(rt;
        done,
        [(true, 1), (true, 1), (true, 1), (true, 2), (true, 4)]
    );
    Ok(())
}

/// Four sessions of one message.
fn call<R: Wait, J: Opening>(
    rt: &R,
    alloc: Global,
    office: &Shared<'_, J>,
    caller: &mut Caller<'_, J>,
) {
    for _ in 0..4_u64 {
        let Caller {
            pass,
            is_right,
            of: _,
        } = caller;
        if !answers(rt, alloc, office, pass, COUNTED, EndKind::Answered, RECEIPT) {
            *is_right = false;
        }
    }
}

fn hired<'a, J: Opening>(pass: &mut Pass<'a, Call>) -> Caller<'a, J>
    requires stake { 1 < pass.old.stake }
    requires book { pass.old.book ≡ J.book }
    ensures { pass.new ≡ record pass.old { stake = pass.old.stake - 1 } }
{
    Caller {
        pass: pass.split(1),
        is_right: true,
        of: PhantomData,
    }
}

/// Three callers, each in its own thread, serve one message four times each. Returns whether each session was answered,
/// the share of the pass into which theirs are joined, and the number of received messages.
fn in_threads<J: Opening + Send + Sync, R: Threads + Wait + Sync>(
    rt: &R,
    alloc: Global,
    office: Office<'_, MemoryDisk>,
    mut pass: Pass<'_, Call>,
) -> (bool, u64, u64)
    requires opened { IsOpened memory_meaning J.Opening office }
    requires pass { (pass.book ≡ J.book) × (pass.stake ≡ 2 ^ 63) }
{
    let mut callers: [Caller<'_, J>; 3] = [hired(&mut pass), hired(&mut pass), hired(&mut pass)];
    let shared: Shared<'_, J> = Mutex::new(SharedOffice::new(office));
    thread::for_each_mut(
        rt,
        &mut callers,
        3,
        &|_, caller: &mut Caller<'_, J>| { call(rt, alloc, &shared, caller) },
    );
    let mut all_right = true;
    for caller in callers {
        let Caller {
            pass: other,
            is_right,
            of: _,
        } = caller;
        pass.join(other);
        all_right = all_right && is_right;
    }
    let office = shared.into_inner().into_office();
    let inbox = office.totals().inbox;
    drop(office);
    let share = pass.share();
    drop(pass);
    (all_right, share, inbox)
}

#[test]
fn three_threads_serve_twelve_connections(rt: HostRuntime) -> Result<(), Fail> {
    let Desk {
        alloc,
        office,
        pass,
    } = Desk::new(rt.alloc(), &[])?;
    assert_eq!(rt;
        in_threads::<Brand, _>(&rt, alloc, office, pass),
        (true, 12, 1)
    );
    Ok(())
}
