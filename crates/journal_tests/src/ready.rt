//! A journal whose records have all been read.
ghost use Rattle.std.specs.Prelude.{◌≡◌, List, ℕ, IfOk, IsNone};
ghost use Rattle.as4_flow.specs.Flow.{Told};
ghost use Rattle.journal.specs.State.{HasRecords};

use as4_disk::{Disk, MemoryDisk};
use journal::{Frame, Journal};
use std::alloc::Global;

/// Opens a journal, reads it to its end, and puts each body and a `|` after the bytes that are there. The disk comes
/// back where that fails.
pub fn open_all<D: Disk + Drop>(
    alloc: Global,
    disk: D,
    bodies: &mut Vec<u8>,
) -> Result<Journal<D>, D>
    ensures records { IfOk result (λ j. Told (D.seen disk) (λ _. (all : List (List ℕ))
        × HasRecords D.Disk j all)) }
    ensures no_fold { IfOk result (λ j. IsNone j.fold) }
{
    let mut journal = match Journal::open(alloc, disk) {
        Ok(journal) => journal,
        Err((_, disk)) => return Err(disk),
    };
    loop {
        match journal.next_record(alloc) {
            Ok(Some((_, body))) => {
                let _ = bodies.extend_from_slice(body.bytes());
                let _ = bodies.push(b'|');
                drop(body);
            }
            Ok(None) => return Ok(journal),
            Err(_) => return Err(journal.into_disk()),
        }
    }
}

/// Opens a journal and folds it to this one record of three bytes, as far as the disk goes, and gives the disk back.
pub fn fold_to_one(alloc: Global, disk: MemoryDisk, frame: &Frame) -> MemoryDisk {
    let mut found = Vec::new(alloc);
    let opened = open_all(alloc, disk, &mut found);
    drop(found);
    let mut journal = match opened {
        Ok(journal) => journal,
        Err(disk) => return disk,
    };
    if frame.body_len() != 3 {
        return journal.into_disk();
    }
    match journal.fold_start() {
        Ok(()) => {}
        Err(_) => return journal.into_disk(),
    }
    match journal.fold_add(frame) {
        Ok(_) => {}
        Err(_) => return journal.into_disk(),
    }
    let _ = journal.fold_finish();
    journal.into_disk()
}
