//! The disk of an end, and the office on it.
ghost use Rattle.std.specs.Prelude.{◌≡◌, ◌≤◌, [], IfOk};
ghost use Rattle.as4_disk.specs.Memory.{picked, reads};
ghost use Rattle.drill_world.specs.Disks.{IsOf, IsStoppedDisk};
ghost use Rattle.exchange_model.specs.End.{End, empty_end};
ghost use Rattle.exchange_model.specs.Table.{Step};
ghost use Rattle.exchange_model.specs.declared.outcome.Outcome.{Outcome};

use crate::handling::handle;
use as4_disk::{Files, MemoryDisk, Pick, leaves_all_that_may_be};
use as4_values::{NoMemory, Octets, Seq};
use exchange_model::Event;
use msh_recovery::{a_stopped_record_stands_or_not, an_image_opens_to_one_end};
use office::{Call, Office, OfficeFault};
use pass_book::Pass;
use pmodes::Modes;
use std::alloc::Global;

/// An office, and the pass of all its calls.
pub(crate) type Opened = (Office<'static, MemoryDisk>, Pass<'static, Call>);

/// The office of an end to which nothing happened yet.
pub(crate) fn open_new(alloc: Global, modes: Modes) -> Result<Opened, NoMemory>
    ensures first { IfOk result (λ o. (o.0.modes ≡ modes) × (o.1.book ≡ o.0.book)) }
    ensures end { IfOk result (λ o. o.0.end ≡ empty_end) }
{
    open_on(alloc, empty_disk(alloc), modes)
}

/// The office on the image of a disk that is picked.
pub(crate) fn reopen(
    alloc: Global,
    disk: MemoryDisk,
    pick: Pick,
    modes: Modes,
) -> Result<Opened, NoMemory>
    ensures first { IfOk result (λ o. (o.0.modes ≡ modes) × (o.1.book ≡ o.0.book)) }
    ensures end { IfOk result (λ o. (end : End) → IsOf end (picked pick disk) → o.0.end ≡ end) }
{
    match disk.crash(pick) {
        Ok(disk) => open_on(alloc, disk, modes),
        Err(error) => {
            drop(modes);
            Err(error)
        }
    }
}

/// The disk of an end to which nothing happened. It takes no memory.
fn empty_disk(alloc: Global) -> MemoryDisk
    ensures { (part : _) → reads result part ≡ [] }
{
    MemoryDisk::of(
        Files {
            selector: Octets::of(Vec::new(alloc)),
            leaf0: Octets::of(Vec::new(alloc)),
            leaf1: Octets::of(Vec::new(alloc)),
        },
        Seq::of(Vec::new(alloc)),
    )
}

/// The office on this disk.
fn open_on(alloc: Global, disk: MemoryDisk, modes: Modes) -> Result<Opened, NoMemory>
    ensures first { IfOk result (λ o. (o.0.modes ≡ modes) × (o.1.book ≡ o.0.book)) }
    ensures end { IfOk result (λ o. (end : End) → IsOf end (reads disk) → o.0.end ≡ end) }
{
    an_image_opens_to_one_end();
    match Office::open(alloc, disk, modes) {
        Ok(opened) => Ok(opened),
        Err((_, disk)) => {
            drop(disk);
            Err(NoMemory)
        }
    }
}

/// The disk of an office whose power fails.
pub(crate) fn disk_of(office: Office<'static, MemoryDisk>) -> Result<MemoryDisk, NoMemory>
    ensures { IfOk result (λ disk. (pick : _) → IsOf office.entry.end (picked pick disk)) }
{
    an_image_opens_to_one_end();
    leaves_all_that_may_be();
    if office.halt().is_some() {
        drop(office);
        return Err(NoMemory);
    }
    Ok(office.into_disk())
}

/// The disk of an office whose device call of this number is the last to act in the step of an event.
pub(crate) fn stopped_disk(
    alloc: Global,
    mut office: Office<'static, MemoryDisk>,
    mut pass: Pass<'static, Call>,
    event: Event,
    call: u8,
) -> Result<MemoryDisk, NoMemory>
    requires book { pass.book ≡ office.book }
    requires call { (1 ≤ call) × (call ≤ 4) }
    ensures { IfOk result (λ disk. (outcome : Outcome) × Step office.entry.modes office.entry.end event outcome
        × IsStoppedDisk call office.entry.end outcome disk) }
{
    an_image_opens_to_one_end();
    leaves_all_that_may_be();
    a_stopped_record_stands_or_not();
    office.stop_at(u64::from(call));
    match handle(alloc, &mut office, &mut pass, event) {
        // Nothing is to be written.
        Ok(reply) => {
            drop(reply);
            drop(pass);
            Ok(office.into_disk())
        }
        Err(OfficeFault::Disk { .. }) => {
            drop(pass);
            let disk = office.into_disk();
            if disk.ran_out() {
                drop(disk);
                return Err(NoMemory);
            }
            Ok(disk)
        }
        Err(_) => {
            drop(pass);
            drop(office);
            Err(NoMemory)
        }
    }
}
