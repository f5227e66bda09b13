//! A hub over a disk in memory, with a pass of its history.
ghost use Rattle.std.specs.Prelude.{◌≡◌, IfOk};

use crate::events::{CONTENT, coming, taking};
use crate::steps::{Said, Step, Steps};
use as4_disk::{MemoryDisk, Pick};
use as4_hub::{RelayEnd, relay};
use as4_values::{Message, Payload, Seq, Text};
use exchange_model::{Event, Reply};
use journal::JournalFault;
use office::{Call, Office, OfficeFault};
use pass_book::Pass;
use pmodes::Modes;
use std::alloc::Global;

/// The mode `m`, by which the messages are received, and the mode `n`, by which they are relayed.
const MODES: &[u8] = b"[[mode]]
name = \"m\"
from = { role = \"r\", party = [ { id = \"a\" } ] }
to = { role = \"r\", party = [ { id = \"b\" } ] }
service = \"s\"
action = \"act\"
push = \"http://h/\"
retries = 3
period = 60000

[[mode]]
name = \"n\"
from = { role = \"r\", party = [ { id = \"b\" } ] }
to = { role = \"r\", party = [ { id = \"c\" } ] }
service = \"s\"
action = \"act\"
push = \"http://l/\"
retries = 3
period = 60000
";

/// An office and the pass that has all stakes.
type Opened<'a> = (Office<'a, MemoryDisk>, Pass<'a, Call>);

/// The office on this disk, which comes back where it can't be opened.
fn opened<'a>(alloc: Global, disk: MemoryDisk) -> Result<Opened<'a>, (JournalFault, MemoryDisk)>
    ensures book { IfOk result (λ o. o.1.book ≡ o.0.book) }
{
    match Modes::read(alloc, MODES) {
        Ok(modes) => Office::open(alloc, disk, modes),
        Err(_) => Err((JournalFault::NoMemory, disk)),
    }
}

/// No test makes so many device calls.
const NEVER: u64 = 1 << 40;

/// Opens a hub on the disk, which stops at that device call from then on, and takes the steps. Returns the disk, and whether
/// each step was answered so.
fn after_steps(alloc: Global, disk: MemoryDisk, call: u64, steps: Steps) -> (MemoryDisk, bool) {
    match opened(alloc, disk) {
        Ok((mut office, mut pass)) => {
            office.stop_at(call);
            let is_so = says(alloc, &mut office, &mut pass, steps);
            drop(pass);
            (office.into_disk(), is_so)
        }
        Err((_, disk)) => (disk, false),
    }
}

/// The disk after the steps, if each was answered so.
pub(crate) fn after(alloc: Global, disk: MemoryDisk, steps: Steps) -> Option<MemoryDisk> {
    let (mut disk, is_so) = after_steps(alloc, disk, NEVER, steps);
    if !is_so {
        drop(disk);
        return None;
    }
    disk.stop_at(NEVER);
    Some(disk)
}

/// What a crash leaves by the pick after steps on a disk that stops at that device call, if each was answered so.
pub(crate) fn left_after_stop(
    alloc: Global,
    disk: MemoryDisk,
    call: u64,
    steps: Steps,
    pick: Pick,
) -> Option<MemoryDisk> {
    let (disk, is_so) = after_steps(alloc, disk, call, steps);
    if !is_so {
        drop(disk);
        return None;
    }
    disk.crash(pick).ok()
}

/// Whether each step is answered so.
fn says(
    alloc: Global,
    office: &mut Office<'_, MemoryDisk>,
    pass: &mut Pass<'_, Call>,
    steps: Steps,
) -> bool
    requires book { pass.old.book ≡ office.old.book }
{
    for (step, said) in steps {
        if does(alloc, office, pass, *step) != *said {
            return false;
        }
    }
    true
}

/// Does a step, and returns what is said.
fn does(
    alloc: Global,
    office: &mut Office<'_, MemoryDisk>,
    pass: &mut Pass<'_, Call>,
    step: Step,
) -> Said
    requires book { pass.old.book ≡ office.old.book }
    ensures office { office.new.book ≡ office.old.book }
    ensures pass { pass.new.book ≡ pass.old.book }
{
    match step {
        Step::Came(id) => handles(office, pass, coming(alloc, id)),
        Step::Confirm(upto) => told(office.confirm(pass, upto)),
        Step::Relay(mode) => relays(alloc, office, pass, mode),
        Step::Take => told(office.step(pass, taking())),
        Step::Submissions => Said::Count(office.totals().submitted),
    }
}

fn handles(
    office: &mut Office<'_, MemoryDisk>,
    pass: &mut Pass<'_, Call>,
    event: Option<Event>,
) -> Said
    requires book { pass.old.book ≡ office.old.book }
    ensures office { office.new.book ≡ office.old.book }
    ensures pass { pass.new.book ≡ pass.old.book }
{
    match event {
        Some(event) => told(office.step(pass, event)),
        None => Said::Other,
    }
}

fn relays(
    alloc: Global,
    office: &mut Office<'_, MemoryDisk>,
    pass: &mut Pass<'_, Call>,
    mode: &[u8],
) -> Said
    requires book { pass.old.book ≡ office.old.book }
    ensures office { office.new.book ≡ office.old.book }
    ensures pass { pass.new.book ≡ pass.old.book }
{
    match Text::read(alloc, mode) {
        Ok(mode) => {
            let said = ended(relay(alloc, office, pass, &mode, 1000, 9));
            drop(mode);
            said
        }
        Err(_) => Said::Other,
    }
}

/// How a relaying ended.
fn ended(end: RelayEnd) -> Said {
    let said = match &end {
        RelayEnd::Relayed { number, .. } => Said::Relayed(*number),
        RelayEnd::Nothing => Said::Nothing,
        RelayEnd::Gone => Said::Gone,
        RelayEnd::NoMode => Said::NoMode,
        RelayEnd::DiskFault {
            before: 0,
            after: 1,
        } => Said::DiskFault,
        RelayEnd::Stopped {
            before: 0,
            after: 1,
        } => Said::Stopped,
        _ => Said::Other,
    };
    drop(end);
    said
}

/// What the office answered.
fn told(answer: Result<Reply, OfficeFault>) -> Said {
    match answer {
        Ok(reply) => {
            let said = summary(&reply);
            drop(reply);
            said
        }
        Err(_) => Said::Other,
    }
}

fn summary(reply: &Reply) -> Said {
    match reply {
        Reply::Answer(Message::Signal(_)) => Said::Receipt,
        Reply::Confirmed { upto } => Said::Confirmed(*upto),
        Reply::Push { message, .. } => pushed(message),
        Reply::Nothing => Said::Nothing,
        _ => Said::Other,
    }
}

fn pushed(message: &Message) -> Said {
    match message {
        Message::User { payloads, .. } if is_parcel(payloads) => Said::Pushed,
        _ => Said::Other,
    }
}

/// Whether the one payload is that of the received messages.
fn is_parcel(payloads: &Seq<Payload>) -> bool {
    match payloads.items() {
        [payload] => payload.media.bytes() == b"text/plain".as_slice()
            && payload.content.bytes() == CONTENT,
        _ => false,
    }
}
