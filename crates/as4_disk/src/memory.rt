//! A disk in memory. All of it is observable, and it fails and stops at the calls that a test names.
//!
//! It keeps what it had at first and each change since, so that all its images can be named; of what it reads it has
//! one copy, which is written in place.
ghost use Rattle.std.specs.Prelude.{◌≡◌, ℕ, Bool, false, Some, None, ◌+◌, ◌≤◌, ◌++◌, [], List, length, take, drop, is_ok, is_some, IsSome, unwrap_or, IfOk, OnOk, OnErr, IsOk};
ghost use Rattle.as4_flow.specs.Flow.{Told};
ghost use Rattle.as4_disk.specs.Bytes.{IsOverwritten, Torn, IsCut, TornCut};
ghost use Rattle.as4_disk.specs.Faults.{HasCause};
ghost use Rattle.as4_disk.specs.Runs.{Goes, Follows, Within, Elapses, MakesAll};
ghost use Rattle.as4_disk.specs.Image.{Image, On, IsOnly, KeepsOthers};
ghost use Rattle.as4_disk.specs.Files.{image_of};
ghost use Rattle.as4_disk.specs.Changes.{LeftSince};
ghost use Rattle.as4_disk.specs.Memory.{DiskState, new_disk, reads, MayLeave, picked, turn_of, called, changed, failed, starved, Answers, MakesChange, stopped_at};
ghost use Rattle.as4_disk.specs.declared.change.Change.{Change as ChangeValue};
ghost use Rattle.as4_disk.specs.declared.change.Pick.{Pick};
ghost use Rattle.as4_disk.specs.declared.change.Change.TheVariants.{Wrote, WasCut, Synced};

use crate::bytes::{apply, copy_out};
use crate::change::{Change, Pick, Turn};
use crate::crash::picked_files;
use crate::{Disk, DiskFailed, Files, Part};
use as4_values::{NoMemory, Octets, PlainData, Seq};
use std::alloc::Global;
use std::marker::Model;

/// A disk in memory.
#[derive(Drop)]
pub struct MemoryDisk {
    alloc: Global,
    // What it had at first, where that isn't what it has now.
    first: Option<Files>,
    files: Files,
    changes: Vec<Change>,
    failing: Vec<u64>,
    calls: u64,
    stop: Option<u64>,
    faults: u64,
    ran_out: bool,
}

impl Model for MemoryDisk {
    ghost use Rattle.std.specs.Prelude.{◌≡◌, [], IsNone, unwrap_or};
    ghost use Rattle.as4_disk.specs.Files.{image_of};
    ghost use Rattle.as4_disk.specs.declared.part.Part.{Part};
    ghost use Rattle.as4_disk.specs.Changes.{bytes_by};
    ghost use Rattle.as4_disk.specs.Memory.{DiskState};

    ghost Value = { DiskState };

    ghost view = { λ d. record {
      first = unwrap_or d.first d.files;
      changes = d.changes.items;
      failing = d.failing.items;
      calls = d.calls;
      stop = d.stop;
      faults = d.faults;
      ran_out = d.ran_out;
    } };

    ghost invariant = { λ d. ((q : Part) → image_of d.files q ≡ bytes_by q d.changes.items (image_of (unwrap_or d.first d.files) q))
        × (IsNone d.first → d.changes.items ≡ []) };
}

impl MemoryDisk {
    /// A disk with these bytes, all of them synced. `failing` are the numbers of the device calls that fail, the first
    /// call being 1. Each of `len`, `read_at`, `write_at`, `cut` and `sync` is a device call; the other methods aren't.
    pub fn of(files: Files, failing: Seq<u64>) -> MemoryDisk
        ensures state { result ≡ new_disk files failing }
        ensures read { (q : _) → reads result q ≡ image_of files q }
        ensures only { (c : _) → MayLeave result c → c ≡ image_of files }
    {
        let failing = failing.into_vec();
        let alloc = *failing.allocator();
        MemoryDisk {
            alloc,
            first: None,
            files,
            changes: Vec::new(alloc),
            failing,
            calls: 0,
            stop: None,
            faults: 0,
            ran_out: false,
        }
    }

    /// The device call of this number, the next being 1, acts and then fails, and each later one fails without acting.
    /// With 0 all of them do. A sync that fails settles nothing. No call fails by its number from here on.
    pub fn stop_at(&mut self, call: u64)
        ensures { self.new ≡ record self.old { failing = []; stop = Some call } }
    {
        self.failing.clear();
        self.stop = Some(call);
    }

    /// Whether a device call has failed because memory ran out.
    pub fn ran_out(&self) -> bool
        ensures { result ≡ self.now.ran_out }
    {
        self.ran_out
    }

    /// The bytes of a part, as a read gives them. This is no device call.
    pub fn bytes(&self, part: Part) -> &[u8]
        ensures { result.now ≡ reads self.now part }
    {
        self.files.bytes(part)
    }

    /// The three parts, as a read gives them.
    pub fn into_files(self) -> Files
        ensures { (q : _) → image_of result q ≡ reads self q }
    {
        let MemoryDisk {
            alloc: _,
            first: _,
            files,
            changes: _,
            failing: _,
            calls: _,
            stop: _,
            faults: _,
            ran_out: _,
        } = self;
        files
    }

    /// The disk after a crash that left this one of its images: all of it synced, and no call of it fails.
    /// `Pick::New` takes no memory.
    pub fn crash(self, pick: Pick) -> Result<MemoryDisk, NoMemory>
        ensures image { IfOk result (λ disk. (q : _) → reads disk q ≡ picked pick self q) }
        ensures left { IfOk result (λ disk. MayLeave self (reads disk)) }
        ensures only { IfOk result (λ disk. (c : _) → MayLeave disk c → c ≡ reads disk) }
        ensures fresh { IfOk result (λ disk. disk ≡ new_disk disk.first []) }
        ensures ok { pick ≡ Pick.New → IsOk result }
    {
        let MemoryDisk {
            alloc,
            first,
            files,
            changes,
            failing: _,
            calls: _,
            stop: _,
            faults: _,
            ran_out: _,
        } = self;
        let none_fails = Seq::of(Vec::new(alloc));
        let Some(first) = first else {
            return Ok(MemoryDisk::of(files, none_fails));
        };
        if let Pick::New = pick {
            drop(first);
            drop(changes);
            return Ok(MemoryDisk::of(files, none_fails));
        }
        drop(files);
        let files = picked_files(alloc, pick, &changes, first)?;
        Ok(MemoryDisk::of(files, none_fails))
    }

    // Counts a device call, and says how it goes.
    fn turn(&mut self) -> Turn
        ensures turn { result ≡ turn_of self.old }
        ensures counted { self.new ≡ called self.old }
    {
        self.calls = self.calls.saturating_add(1);
        let stop = self.stop;
        self.stop = match stop {
            Some(call) => Some(call.saturating_sub(1)),
            None => None,
        };
        if self.failing.contains(&self.calls) {
            return Turn::Fails;
        }
        match stop {
            None => Turn::Acts,
            Some(0) => Turn::Fails,
            Some(1) => Turn::Stops,
            Some(_) => Turn::Acts,
        }
    }

    fn fail(&mut self) -> DiskFailed
        ensures state { self.new ≡ failed self.old }
        ensures counted { self.old.faults ≤ self.new.faults }
    {
        self.faults = self.faults.saturating_add(1);
        DiskFailed
    }

    fn starve(&mut self) -> DiskFailed
        ensures state { self.new ≡ starved self.old }
        ensures counted { self.old.faults ≤ self.new.faults }
    {
        self.ran_out = true;
        self.fail()
    }

    // A device call that changes nothing.
    fn call(&mut self) -> Result<(), DiskFailed>
        ensures answers { Answers (λ disk. disk) (λ disk. disk) self.old self.new result }
        ensures counted { self.old.faults ≤ self.new.faults }
    {
        match self.turn() {
            Turn::Acts => Ok(()),
            Turn::Fails | Turn::Stops => Err(self.fail()),
        }
    }

    // A device call that makes this change.
    fn change(&mut self, change: Change) -> Result<(), DiskFailed>
        ensures makes { MakesChange change self.old self.new (is_ok result) }
        ensures counted { self.old.faults ≤ self.new.faults }
    {
        let turn = self.turn();
        let acts = match turn {
            Turn::Acts => true,
            Turn::Stops => !change.is_sync(),
            Turn::Fails => false,
        };
        if !acts {
            drop(change);
            return Err(self.fail());
        }
        if self.make(change).is_err() {
            return Err(self.starve());
        }
        if let Turn::Stops = turn {
            return Err(self.fail());
        }
        Ok(())
    }

    // Makes a change, and keeps it. Where there is no memory it does nothing.
    fn make(&mut self, change: Change) -> Result<(), NoMemory>
        ensures ok { OnOk result (self.new ≡ changed change self.old) }
        ensures err { OnErr result (self.new ≡ self.old) }
    {
        keep(self.alloc, &mut self.first, &self.files)?;
        self.changes.reserve(1)?;
        apply(self.alloc, &mut self.files, &change)?;
        self.changes.push(change).unwrap();
        Ok(())
    }
}

// Keeps a copy of the first files, where there is none yet.
fn keep(alloc: Global, first: &mut Option<Files>, files: &Files) -> Result<(), NoMemory>
    ensures kept { OnOk result (IsSome first.new) }
    ensures same { unwrap_or first.new files.now ≡ unwrap_or first.old files.now }
    ensures err { OnErr result (first.new ≡ first.old) }
{
    if first.is_none() {
        *first = Some(files.try_clone(alloc)?);
    }
    Ok(())
}

/// A disk in memory leaves all that a disk may: whatever becomes of a write or a cut that is cut short, whatever a sync
/// allows, and each part by a pick of its own.
pub fn leaves_all_that_may_be()
    ensures writes { (disk : DiskState) (part : _) (at : ℕ) (bytes : List ℕ) (before after : Image) → MayLeave disk before
        → On part (Torn at (length bytes)) before after → MayLeave (changed (Wrote part at bytes) disk) after }
    ensures cuts { (disk : DiskState) (part : _) (len : ℕ) (before after : Image) → MayLeave disk before
        → On part (TornCut len) before after → MayLeave (changed (WasCut part len) disk) after }
    ensures syncs { (disk : DiskState) (part : _) (after : Image) → MayLeave disk after
        → after part ≡ reads disk part → MayLeave (changed (Synced part) disk) after }
    ensures picks { (disk : DiskState) (choice : _ → Pick) → MayLeave disk (λ q. picked (choice q) disk q) }
{}

/// Where a disk in memory stops at one of some calls, this is what they have done, unless memory ran out.
pub fn a_stopped_run_is_known()
    ensures { (changes : List ChangeValue) (old new : DiskState) (ok : Bool) (call : ℕ) → MakesAll MakesChange changes old new ok
        → old.failing ≡ [] → old.stop ≡ Some call → 1 ≤ call → call ≤ length changes
        → (ok ≡ false) × (new.ran_out ≡ false
        → (new.first ≡ old.first) × (new.changes ≡ old.changes ++ stopped_at call changes)) }
{}

impl Disk for MemoryDisk {
    ghost use Rattle.as4_disk.specs.MemoryLaws.{reads_now_of, counts_now_of, only_now_of};

    ghost seen = { λ disk. Some (reads disk) };

    ghost may_leave = { λ disk c. MayLeave disk c };

    ghost moment = { λ disk. length disk.changes };

    ghost left_since = { λ disk t c. LeftSince disk.first disk.changes t c };

    ghost fault_count = { λ disk. disk.faults };

    ghost makes = { λ change old new ok. MakesChange change old new ok };

    ghost reads_now = { reads_now_of };

    ghost counts_now = { counts_now_of };

    ghost only_now = { only_now_of };

    fn len(&mut self, part: Part) -> Result<u64, DiskFailed>
        ensures value { IfOk result (λ len. Told (Some (reads self.old)) (λ b. len ≡ length (b part))) }
        ensures seen { Some (reads self.new) ≡ Some (reads self.old) }
        ensures crash { Within (MayLeave self.old) (MayLeave self.new) }
        ensures time { Elapses (length self.old.changes) (length self.new.changes)
            (LeftSince self.old.first self.old.changes) (LeftSince self.new.first self.new.changes)
            (MayLeave self.new) }
        ensures cause { HasCause self.old.faults self.new.faults result }

        ensures answers { Answers (λ disk. disk) (λ disk. disk) self.old self.new result }
    {
        self.call()?;
        Ok(self.bytes(part).len() as u64)
    }

    fn read_at(&mut self, part: Part, at: u64, room: &mut [u8]) -> Result<(), DiskFailed>
        requires { Told (Some (reads self.old)) (λ b. at + length room.old ≤ length (b part)) }
        ensures bytes { OnOk result
            (Told (Some (reads self.old)) (λ b. room.new ≡ take (length room.old) (drop at (b part)))) }
        ensures seen { Some (reads self.new) ≡ Some (reads self.old) }
        ensures crash { Within (MayLeave self.old) (MayLeave self.new) }
        ensures time { Elapses (length self.old.changes) (length self.new.changes)
            (LeftSince self.old.first self.old.changes) (LeftSince self.new.first self.new.changes)
            (MayLeave self.new) }
        ensures cause { HasCause self.old.faults self.new.faults result }

        ensures answers { Answers (λ disk. disk) (λ disk. disk) self.old self.new result }
    {
        self.call()?;
        copy_out(self.bytes(part), at as usize, room);
        Ok(())
    }

    fn write_at(&mut self, part: Part, at: u64, bytes: &[u8]) -> Result<(), DiskFailed>
        requires { Told (Some (reads self.old)) (λ b. at ≤ length (b part)) }
        ensures written { OnOk result
            (Goes (On part (IsOverwritten at bytes.now)) (Some (reads self.old)) (Some (reads self.new))) }
        ensures tells { is_some (Some (reads self.new)) ≡ is_some (Some (reads self.old)) }
        ensures crash { Follows (On part (Torn at (length bytes.now))) (MayLeave self.old) (MayLeave self.new) }
        ensures time { Elapses (length self.old.changes) (length self.new.changes)
            (LeftSince self.old.first self.old.changes) (LeftSince self.new.first self.new.changes)
            (MayLeave self.new) }
        ensures cause { HasCause self.old.faults self.new.faults result }

        ensures makes { MakesChange (Wrote part at bytes.now) self.old self.new (is_ok result) }
    {
        let Ok(copy) = Vec::from_slice(self.alloc, bytes) else {
            let _ = self.turn();
            return Err(self.starve());
        };
        let bytes = Octets::of(copy);
        self.change(Change::Wrote { part, at, bytes })
    }

    fn cut(&mut self, part: Part, len: u64) -> Result<(), DiskFailed>
        requires { Told (Some (reads self.old)) (λ b. len ≤ length (b part)) }
        ensures written { OnOk result (Goes (On part (IsCut len)) (Some (reads self.old)) (Some (reads self.new))) }
        ensures tells { is_some (Some (reads self.new)) ≡ is_some (Some (reads self.old)) }
        ensures crash { Follows (On part (TornCut len)) (MayLeave self.old) (MayLeave self.new) }
        ensures time { Elapses (length self.old.changes) (length self.new.changes)
            (LeftSince self.old.first self.old.changes) (LeftSince self.new.first self.new.changes)
            (MayLeave self.new) }
        ensures cause { HasCause self.old.faults self.new.faults result }

        ensures makes { MakesChange (WasCut part len) self.old self.new (is_ok result) }
    {
        self.change(Change::WasCut { part, len })
    }

    fn sync(&mut self, part: Part) -> Result<(), DiskFailed>
        ensures durable { OnOk result (Told (Some (reads self.old)) (λ b. IsOnly part b (MayLeave self.new))) }
        ensures seen { Some (reads self.new) ≡ Some (reads self.old) }
        ensures crash { Within (MayLeave self.old) (MayLeave self.new) }
        ensures others { KeepsOthers part (MayLeave self.old) (MayLeave self.new) }
        ensures time { Elapses (length self.old.changes) (length self.new.changes)
            (LeftSince self.old.first self.old.changes) (LeftSince self.new.first self.new.changes)
            (MayLeave self.new) }
        ensures cause { HasCause self.old.faults self.new.faults result }

        ensures makes { MakesChange (Synced part) self.old self.new (is_ok result) }
    {
        self.change(Change::Synced { part })
    }

    fn faults(&self) -> u64
        ensures { result ≡ self.now.faults }
    {
        self.faults
    }
}
