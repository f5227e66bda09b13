//! An office over a disk in memory, with a pass of its history.
ghost use Rattle.std.specs.Prelude.{◌≡◌, ◌^◌, IfOk};

use crate::events::{arrival, coming, pulling, reading, submitting};
use crate::parcels::made;
use crate::said::{summary, told, unpacked};
use crate::steps::{FAILED, Parcel, Said, Step, Steps};
use as4_disk::{MemoryDisk, Pick};
use journal::JournalFault;
use office::{Call, Office};
use pass_book::Pass;
use pmodes::Modes;
use std::alloc::Global;

/// The mode of the one message, and one by which the channel `c` is pulled.
const MODES: &[u8] = b"[[mode]]
name = \"m\"
from = { role = \"r\", party = [ { id = \"a\" } ] }
to = { role = \"r\", party = [ { id = \"b\" } ] }
service = \"s\"
action = \"act\"
push = \"http://h/\"
retries = 3
period = 60000

[[mode]]
name = \"p\"
from = { role = \"r\", party = [ { id = \"a\" } ] }
to = { role = \"r\", party = [ { id = \"b\" } ] }
service = \"s\"
action = \"pulled\"
pull = \"c\"
address = \"http://h/\"
retries = 3
period = 60000
";

/// An office and the pass that has all stakes.
pub(crate) type Opened<'a> = (Office<'a, MemoryDisk>, Pass<'a, Call>);

/// The office on this disk, which comes back where it can't be opened.
pub(crate) fn opened<'a>(
    alloc: Global,
    disk: MemoryDisk,
) -> Result<Opened<'a>, (JournalFault, MemoryDisk)>
    ensures book { IfOk result (λ o. o.1.book ≡ o.0.book) }
    ensures stake { IfOk result (λ o. o.1.stake ≡ 2 ^ 63) }
{
    match Modes::read(alloc, MODES) {
        Ok(modes) => Office::open(alloc, disk, modes),
        Err(_) => Err((JournalFault::NoMemory, disk)),
    }
}

/// The same, to do steps with.
#[derive(Drop)]
pub(crate) struct Desk<'a> {
    alloc: Global,
    office: Office<'a, MemoryDisk>,
    pass: Pass<'a, Call>,
    ghost one_book: { pass.book ≡ office.book },
}

impl<'a> Desk<'a> {
    /// Opens the office on this disk, which comes back where that fails.
    pub(crate) fn open(
        alloc: Global,
        disk: MemoryDisk,
    ) -> Result<Desk<'a>, (JournalFault, MemoryDisk)> {
        let (office, pass) = opened(alloc, disk)?;
        Ok(Desk {
            alloc,
            office,
            pass,
        })
    }

    /// Whether each step is answered so.
    pub(crate) fn says(&mut self, steps: Steps) -> bool {
        for (step, said) in steps {
            if does(self.alloc, &mut self.office, &mut self.pass, *step) != *said {
                return false;
            }
        }
        true
    }

    /// Whether the disk fails in this step, where it stops at that device call.
    pub(crate) fn fails_in(&mut self, step: Step, call: u64) -> bool {
        self.office.stop_at(call);
        does(self.alloc, &mut self.office, &mut self.pass, step) == FAILED
    }

    /// Prepares a `Read` of the first message, and enacts or abandons it. Returns the reply that it showed and the
    /// answer.
    pub(crate) fn reads_in_two(&mut self, is_abandoned: bool) -> Option<[Said; 2]> {
        reads_in_two(&mut self.office, &mut self.pass, is_abandoned)
    }

    pub(crate) fn into_disk(self) -> MemoryDisk {
        let Desk {
            alloc: _,
            office,
            pass,
        } = self;
        drop(pass);
        office.into_disk()
    }
}

/// No test makes so many device calls.
pub(crate) const NEVER: u64 = 1 << 40;

/// Opens an office on the disk, and gives the disk back where each step is answered so. It stops no more.
pub(crate) fn after(alloc: Global, disk: MemoryDisk, steps: Steps) -> Option<MemoryDisk> {
    match Desk::open(alloc, disk) {
        Ok(mut desk) => {
            let is_so = desk.says(steps);
            let mut disk = desk.into_disk();
            if is_so {
                disk.stop_at(NEVER);
                Some(disk)
            } else {
                drop(disk);
                None
            }
        }
        Err((_, disk)) => {
            drop(disk);
            None
        }
    }
}

/// Opens an office on the disk, takes steps and then one in which the disk stops at that call, and gives what a crash
/// leaves by the pick, where each step is answered so and the last by the fault.
pub(crate) fn after_a_stop(
    alloc: Global,
    disk: MemoryDisk,
    steps: Steps,
    last: Step,
    call: u64,
    pick: Pick,
) -> Option<MemoryDisk> {
    match Desk::open(alloc, disk) {
        Ok(mut desk) => {
            let is_so = desk.says(steps) && desk.fails_in(last, call);
            let disk = desk.into_disk();
            if is_so {
                disk.crash(pick).ok()
            } else {
                drop(disk);
                None
            }
        }
        Err((_, disk)) => {
            drop(disk);
            None
        }
    }
}

/// Opens an office on a disk that stops at that call, and gives what a crash then leaves by the pick.
pub(crate) fn after_opening(
    alloc: Global,
    disk: MemoryDisk,
    call: u64,
    pick: Pick,
) -> Option<MemoryDisk> {
    let mut disk = disk;
    disk.stop_at(call);
    let disk = match Desk::open(alloc, disk) {
        Ok(desk) => desk.into_disk(),
        Err((_, disk)) => disk,
    };
    disk.crash(pick).ok()
}

/// Does a step with an office and a pass, and gives what is said.
pub(crate) fn does(
    alloc: Global,
    office: &mut Office<'_, MemoryDisk>,
    pass: &mut Pass<'_, Call>,
    step: Step,
) -> Said
    requires book { pass.old.book ≡ office.old.book }
    ensures office { office.new.book ≡ office.old.book }
    ensures pass { pass.new.book ≡ pass.old.book }
{
    match step {
        Step::Tick(moment) => ticks(office, pass, moment),
        Step::Came => comes(alloc, office, pass),
        Step::CameInTwo => comes_in_two(alloc, office, pass),
        Step::Pulled(channel) => is_pulled(alloc, office, pass, channel),
        Step::Brings(parcel) => brings(alloc, office, pass, parcel),
        Step::Submits(length) => submits(alloc, office, pass, length),
        Step::Read(n) => told(office.step(pass, reading(n))),
        Step::Unpack(n) => unpacked(alloc, office.step(pass, reading(n))),
        Step::Confirm(upto) => told(office.confirm(pass, upto)),
        Step::Checkpoint => match office.checkpoint(pass) {
            Ok(size) => Said::Count(size),
            Err(fault) => Said::Fault(fault),
        },
        Step::Stop(call) => {
            office.stop_at(call);
            Said::Done
        }
        Step::Show => {
            office.show(pass);
            Said::Done
        }
        Step::Inbox => Said::Count(office.totals().inbox),
        Step::Seen => Said::Count(pass.seen()),
        Step::Share => Said::Count(pass.share()),
    }
}

fn ticks(office: &mut Office<'_, MemoryDisk>, pass: &mut Pass<'_, Call>, moment: u64) -> Said
    requires book { pass.old.book ≡ office.old.book }
    ensures office { office.new.book ≡ office.old.book }
    ensures pass { pass.new.book ≡ pass.old.book }
{
    if moment > 1_000_000 {
        return Said::Other;
    }
    told(office.tick(pass, moment))
}

fn comes(alloc: Global, office: &mut Office<'_, MemoryDisk>, pass: &mut Pass<'_, Call>) -> Said
    requires book { pass.old.book ≡ office.old.book }
    ensures office { office.new.book ≡ office.old.book }
    ensures pass { pass.new.book ≡ pass.old.book }
{
    match coming(alloc) {
        Some(event) => told(office.step(pass, event)),
        None => Said::Other,
    }
}

fn brings(
    alloc: Global,
    office: &mut Office<'_, MemoryDisk>,
    pass: &mut Pass<'_, Call>,
    parcel: Parcel,
) -> Said
    requires book { pass.old.book ≡ office.old.book }
    ensures office { office.new.book ≡ office.old.book }
    ensures pass { pass.new.book ≡ pass.old.book }
{
    match made(alloc, parcel) {
        Some(delivery) => told(office.step(pass, arrival(delivery))),
        None => Said::Other,
    }
}

fn submits(
    alloc: Global,
    office: &mut Office<'_, MemoryDisk>,
    pass: &mut Pass<'_, Call>,
    length: usize,
) -> Said
    requires book { pass.old.book ≡ office.old.book }
    ensures office { office.new.book ≡ office.old.book }
    ensures pass { pass.new.book ≡ pass.old.book }
{
    match submitting(alloc, length) {
        Some(event) => told(office.step(pass, event)),
        None => Said::Other,
    }
}

fn is_pulled(
    alloc: Global,
    office: &mut Office<'_, MemoryDisk>,
    pass: &mut Pass<'_, Call>,
    channel: &[u8],
) -> Said
    requires book { pass.old.book ≡ office.old.book }
    ensures office { office.new.book ≡ office.old.book }
    ensures pass { pass.new.book ≡ pass.old.book }
{
    match pulling(alloc, channel) {
        Some(event) => told(office.step(pass, event)),
        None => Said::Other,
    }
}

/// The step is prepared and then made. Where another reply is made than was prepared, it says neither.
fn comes_in_two(
    alloc: Global,
    office: &mut Office<'_, MemoryDisk>,
    pass: &mut Pass<'_, Call>,
) -> Said
    requires book { pass.old.book ≡ office.old.book }
    ensures office { office.new.book ≡ office.old.book }
    ensures pass { pass.new.book ≡ pass.old.book }
{
    let Some(event) = coming(alloc) else {
        return Said::Other;
    };
    match office.prepare(event) {
        Ok(ready) => {
            let prepared = summary(ready.reply());
            match told(office.enact(pass, ready)) {
                Said::Fault(fault) => Said::Fault(fault),
                made if made == prepared => made,
                _ => Said::Other,
            }
        }
        Err(_) => Said::Other,
    }
}

fn reads_in_two(
    office: &mut Office<'_, MemoryDisk>,
    pass: &mut Pass<'_, Call>,
    is_abandoned: bool,
) -> Option<[Said; 2]>
    requires book { pass.old.book ≡ office.old.book }
    ensures office { office.new.book ≡ office.old.book }
    ensures pass { pass.new.book ≡ pass.old.book }
{
    match office.prepare(reading(0)) {
        Ok(ready) => {
            let shown = summary(ready.reply());
            let answered = if is_abandoned {
                Said::Fault(office.abandon(pass, ready))
            } else {
                told(office.enact(pass, ready))
            };
            Some([shown, answered])
        }
        Err(_) => None,
    }
}
