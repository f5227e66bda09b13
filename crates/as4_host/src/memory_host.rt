//! A host in memory, which is observable.
ghost use Rattle.std.specs.Prelude.{◌≡◌, ◌≢◌, ◌⊎◌, ℕ, List, [], ◌∷◌, ◌++◌, ◌≤◌, map, reverse, Option, None, Some, is_some, option_copied, unwrap_or, if◌then◌else◌, IsSome, IsOk, IfOk, OnOk, OnErr, IsErrOf, All};
ghost use Rattle.as4_flow.specs.Flow.{one_more};
ghost use Rattle.as4_disk.specs.Files.{image_of};
ghost use Rattle.as4_host.specs.Counts.{raised};
ghost use Rattle.as4_host.specs.Rows.{value_at, GetsRow};
ghost use Rattle.as4_host.specs.Files.{IsRead, path_of};
ghost use Rattle.as4_host.specs.Calls.{asked, HasHostCause};
ghost use Rattle.as4_host.specs.HostInMemory.{new_host, file_at, guests_at, AreKnown};

use crate::counts::raised;
use crate::memory_files::{
    add_guests, copies, know, make_files, set_file, settle_files, take_guests,
};
use crate::stack::Stack;
use crate::table::{Row, add, replace, value_of};
use crate::{FileGot, Host, HostRefusal, MemoryDoor, MemoryLink, StreamPlan};
use as4_disk::{Disk, Files, MemoryDisk, Paths};
use as4_flow::{CountNonces, ListClock};
use as4_values::{NoMemory, Octets, PlainData, Seq};
use std::alloc::Global;
use std::marker::Model;
use std::mem;
use std::time::Duration;

/// How far the first numbers of two sources of nonces are apart.
const NONCES: u128 = 1 << 64;

const _: () = prove!(NONCES == 18446744073709551616);

/// Files by path, guests by address, and answers for its dialers.
#[derive(Drop)]
pub struct MemoryHost {
    alloc: Global,
    files: Vec<Row<Option<Octets>>>,
    doors: Vec<Row<Stack>>,
    names: Vec<Octets>,
    answers: Stack,
    addresses: Vec<Octets>,
    // The last settled sink's on top.
    sent: Stack,
    failing: Vec<u64>,
    calls: u64,
    failing_disk: Vec<u64>,
    moments: Vec<u64>,
    nonce: u128,
    faults: u64,
    reads: u64,
    writes: u64,
}

impl Model for MemoryHost {
    ghost use Rattle.std.specs.Prelude.{reverse};
    ghost use Rattle.as4_host.specs.HostInMemory.{HostState, AreKnown};

    ghost Value = { HostState };

    ghost view = { λ h. record {
      files = h.files.items;
      doors = h.doors.items;
      names = h.names.items;
      answers = h.answers;
      addresses = h.addresses.items;
      sent = reverse h.sent;
      failing = h.failing.items;
      calls = h.calls;
      faults = h.faults;
      reads = h.reads;
      writes = h.writes;
    } };

    ghost invariant = { λ h. AreKnown h.names.items h.files.items h.doors.items };
}

impl MemoryHost {
    /// A host without files and guests. Its first clock gives the moments, a later one gives 0. Its first source of
    /// nonces counts from 0, and each later one from 2^64 after the one before it.
    pub fn of(alloc: Global, answers: Stack, moments: Vec<u64>) -> MemoryHost
        ensures { result ≡ new_host answers }
    {
        MemoryHost {
            alloc,
            files: Vec::new(alloc),
            doors: Vec::new(alloc),
            names: Vec::new(alloc),
            answers,
            addresses: Vec::new(alloc),
            sent: Stack::new(),
            failing: Vec::new(alloc),
            calls: 0,
            failing_disk: Vec::new(alloc),
            moments,
            nonce: 0,
            faults: 0,
            reads: 0,
            writes: 0,
        }
    }

    /// The numbers of the calls that fail, of those that read or write a file or open a store or a door, the first being
    /// 1. A call that finds no memory isn't counted.
    pub fn fail_at(&mut self, failing: Vec<u64>)
        ensures { self.new ≡ record self.old { failing = failing.items } }
    {
        self.failing = failing;
    }

    /// The numbers of the calls that fail of each store that is opened, the first being 1.
    pub fn fail_stores_at(&mut self, failing: Vec<u64>)
        ensures { self.new ≡ self.old }
    {
        self.failing_disk = failing;
    }

    /// The first number of the next source of nonces.
    pub fn count_from(&mut self, nonce: u128)
        ensures { self.new ≡ self.old }
    {
        self.nonce = nonce;
    }

    /// Gives a file these bytes, which isn't counted as a call.
    pub fn put_file(&mut self, path: &str, bytes: Octets) -> Result<(), NoMemory>
        ensures ok { OnOk result (file_at self.new.files path.now ≡ Some bytes) }
        ensures err { OnErr result (file_at self.new.files path.now ≡ file_at self.old.files path.now) }
        ensures files { (p : List ℕ) → p ≢ path.now → file_at self.new.files p ≡ file_at self.old.files p }
        ensures others { self.new ≡ record self.old { files = self.new.files } }
    {
        if add(self.alloc, &mut self.files, path.as_bytes(), None).is_err() {
            drop(bytes);
            return Err(NoMemory);
        }
        let replaced = replace(&mut self.files, path.as_bytes(), Some(bytes));
        drop(replaced);
        Ok(())
    }

    /// Gives an address these guests, in the place of those that it has.
    pub fn put_guests(&mut self, address: &str, guests: Stack) -> Result<(), NoMemory>
        ensures ok { OnOk result (guests_at self.new.doors address.now ≡ guests) }
        ensures err { OnErr result (guests_at self.new.doors address.now ≡ guests_at self.old.doors address.now) }
        ensures guests { (a : List ℕ) → a ≢ address.now → guests_at self.new.doors a ≡ guests_at self.old.doors a }
        ensures others { self.new ≡ record self.old { doors = self.new.doors } }
    {
        if add(
            self.alloc,
            &mut self.doors,
            address.as_bytes(),
            Stack::new(),
        )
        .is_err()
        {
            drop(guests);
            return Err(NoMemory);
        }
        let replaced = replace(&mut self.doors, address.as_bytes(), guests);
        drop(replaced);
        Ok(())
    }

    /// The bytes of a file, or none where there is no such file.
    pub fn file(&self, path: &str) -> Option<&Octets>
        ensures { option_copied result ≡ file_at self.now.files path.now }
    {
        match value_of(&self.files, path.as_bytes()) {
            Some(file) => file.as_ref(),
            None => None,
        }
    }

    /// The paths and addresses that it was asked for.
    pub fn names(&self) -> &[Octets]
        ensures { result.now ≡ self.now.names }
    {
        &self.names
    }

    /// The addresses that the dialer settled last was asked for.
    pub fn addresses(&self) -> &[Octets]
        ensures { result.now ≡ self.now.addresses }
    {
        &self.addresses
    }

    /// The counts of faults, of reads and of writes.
    pub fn counts(&self) -> (u64, u64, u64)
        ensures { result ≡ (self.now.faults, self.now.reads, self.now.writes) }
    {
        (self.faults, self.reads, self.writes)
    }

    /// The bytes that each sink of the dialer settled last took, the last one's on top.
    pub fn into_sent(self) -> Stack
        ensures { reverse result ≡ self.sent }
    {
        let MemoryHost {
            alloc: _,
            files: _,
            doors: _,
            names: _,
            answers: _,
            addresses: _,
            sent,
            failing: _,
            calls: _,
            failing_disk: _,
            moments: _,
            nonce: _,
            faults: _,
            reads: _,
            writes: _,
        } = self;
        sent
    }

    // Gives each name its rows, and adds the names to those asked for.
    fn ask(&mut self, names: Vec<Octets>) -> Result<(), NoMemory>
        ensures ok { OnOk result (self.new.names ≡ self.old.names ++ names.items) }
        ensures known { OnOk result (AreKnown names.items self.new.files self.new.doors) }
        ensures err { OnErr result (self.new.names ≡ self.old.names) }
        ensures files { GetsRow None (value_at self.old.files) (value_at self.new.files) }
        ensures doors { GetsRow [] (value_at self.old.doors) (value_at self.new.doors) }
        ensures others { self.new ≡ record self.old { files = self.new.files; doors = self.new.doors; names = self.new.names } }
    {
        let mut names = names;
        if know(self.alloc, &mut self.files, &mut self.doors, &names).is_err() {
            drop(names);
            return Err(NoMemory);
        }
        let added = self.names.append(&mut names);
        drop(names);
        match added {
            Ok(()) => Ok(()),
            Err(_) => Err(NoMemory),
        }
    }

    // Adds what failed of a settled door or dialer to the counts.
    fn count(&mut self, counts: (u64, u64, u64))
        ensures state { self.new ≡ record self.old { faults = raised counts.0 self.old.faults; reads = raised counts.1 self.old.reads; writes = raised counts.2 self.old.writes } }
        ensures counted { (self.old.faults ≤ self.new.faults) × (self.old.reads ≤ self.new.reads) × (self.old.writes ≤ self.new.writes) }
    {
        self.faults = raised(counts.0, self.faults);
        self.reads = raised(counts.1, self.reads);
        self.writes = raised(counts.2, self.writes);
    }

    // The bytes of a store's files, none of one that isn't there.
    fn files_of(&self, paths: Paths<'_>) -> Result<Files, NoMemory>
        ensures { IfOk result (λ files. (q : _) → image_of files q ≡ unwrap_or (file_at self.now.files (path_of paths.entry q)) []) }
    {
        match (
            self.copy(paths.selector),
            self.copy(paths.leaf0),
            self.copy(paths.leaf1),
        ) {
            (Ok(selector), Ok(leaf0), Ok(leaf1)) => Ok(Files {
                selector,
                leaf0,
                leaf1,
            }),
            (selector, leaf0, leaf1) => {
                drop(selector);
                drop(leaf0);
                drop(leaf1);
                Err(NoMemory)
            }
        }
    }

    // The bytes of a file, none where there is no such file.
    fn copy(&self, path: &str) -> Result<Octets, NoMemory>
        ensures { IfOk result (λ bytes. bytes ≡ unwrap_or (file_at self.now.files path.now) []) }
    {
        match self.file(path) {
            Some(file) => file.try_clone(self.alloc),
            None => Ok(Octets::of(Vec::new(self.alloc))),
        }
    }

    // Counts a call, and whether it fails.
    fn is_failing(&mut self) -> bool
        ensures faults { self.new.faults ≡ (if result then one_more self.old.faults else self.old.faults) }
        ensures others { self.new ≡ record self.old { calls = one_more self.old.calls; faults = self.new.faults } }
    {
        self.calls = self.calls.saturating_add(1);
        let fails = self.failing.contains(&self.calls);
        if fails {
            self.faults = self.faults.saturating_add(1);
        }
        fails
    }

    // Asks for these names, counts the call, and says whether it fails.
    fn call(&mut self, names: &[&str]) -> Result<(), HostRefusal>
        ensures asked { Some self.new.names ≡ asked result (map (λ n. n.now) names.now) (Some self.old.names) }
        ensures cause { HasHostCause self.old.faults self.new.faults result }
        ensures files { GetsRow None (value_at self.old.files) (value_at self.new.files) }
        ensures doors { GetsRow [] (value_at self.old.doors) (value_at self.new.doors) }
        ensures known { OnOk result (AreKnown (map (λ n. n.now) names.now) self.new.files self.new.doors) }
        ensures others { self.new ≡ record self.old { files = self.new.files; doors = self.new.doors; names = self.new.names; calls = self.new.calls; faults = self.new.faults } }
    {
        let Ok(names) = copies(self.alloc, names) else {
            return Err(HostRefusal::NoMemory);
        };
        if self.ask(names).is_err() {
            return Err(HostRefusal::NoMemory);
        }
        if self.is_failing() {
            return Err(HostRefusal::HostFailed);
        }
        Ok(())
    }

    // What a read of a file gives, if the host doesn't fail.
    fn look(&self, path: &str, limit: u64) -> FileGot
        ensures file { IsRead limit (Some (file_at self.now.files path.now)) result }
        ensures works { result ≢ FileGot.Failed }
    {
        let Some(Some(bytes)) = value_of(&self.files, path.as_bytes()) else {
            return FileGot::Missing;
        };
        if bytes.bytes().len() as u64 > limit {
            return FileGot::TooLong;
        }
        match bytes.try_clone(self.alloc) {
            Ok(bytes) => FileGot::Bytes(bytes),
            Err(_) => FileGot::NoMemory,
        }
    }
}

impl Host for MemoryHost {
    type Store = MemoryDisk;

    type Entrance = MemoryDoor;

    type Dialer = MemoryLink;

    type Time = ListClock;

    type Dice = CountNonces;

    ghost file = { λ h p. Some (file_at h.files p) };

    ghost guests = { λ h a. Some (guests_at h.doors a) };

    ghost answers = { λ h. Some h.answers };

    ghost names = { λ h. Some h.names };

    ghost addresses = { λ h. Some h.addresses };

    ghost sent = { λ h. Some h.sent };

    ghost fault_count = { λ h. h.faults };

    ghost reads = { λ h. h.reads };

    ghost writes = { λ h. h.writes };

    fn read_file(&mut self, path: &str, limit: u64) -> FileGot {
        let found = self.look(path, limit);
        if let FileGot::NoMemory = &found {
            return found;
        }
        match self.call(&[path]) {
            Ok(()) => found,
            Err(refusal) => {
                drop(found);
                match refusal {
                    HostRefusal::HostFailed => FileGot::Failed,
                    HostRefusal::NoMemory => FileGot::NoMemory,
                }
            }
        }
    }

    fn write_file(&mut self, path: &str, bytes: &[u8]) -> Result<(), HostRefusal> {
        let Ok(bytes) = Vec::from_slice(self.alloc, bytes) else {
            return Err(HostRefusal::NoMemory);
        };
        if let Err(refusal) = self.call(&[path]) {
            drop(bytes);
            return Err(refusal);
        }
        set_file(&mut self.files, path, Octets::of(bytes));
        Ok(())
    }

    fn open_disk(&mut self, paths: Paths<'_>) -> Result<MemoryDisk, HostRefusal> {
        let (files, failing) = match (self.files_of(paths), self.failing_disk.to_vec(self.alloc)) {
            (Ok(files), Ok(failing)) => (files, failing),
            (files, failing) => {
                drop(files);
                drop(failing);
                return Err(HostRefusal::NoMemory);
            }
        };
        if let Err(refusal) = self.call(&[paths.leaf0, paths.leaf1, paths.selector]) {
            drop(files);
            drop(failing);
            return Err(refusal);
        }
        make_files(self.alloc, &mut self.files, paths);
        Ok(MemoryDisk::of(files, Seq::of(failing)))
    }

    fn open_door(&mut self, address: &str) -> Result<MemoryDoor, HostRefusal> {
        self.call(&[address])?;
        let guests = take_guests(&mut self.doors, address);
        Ok(MemoryDoor::of(
            self.alloc,
            guests,
            Vec::new(self.alloc),
            StreamPlan::plain(self.alloc),
        ))
    }

    fn settle_disk(&mut self, paths: Paths<'_>, disk: MemoryDisk) {
        self.faults = raised(disk.faults(), self.faults);
        settle_files(&mut self.files, paths, disk.into_files());
    }

    fn settle_door(&mut self, address: &str, door: MemoryDoor) {
        let counts = door.counts();
        self.count(counts);
        add_guests(&mut self.doors, address, door.into_guests());
    }

    fn dialer(&mut self) -> MemoryLink {
        let answers = mem::replace(&mut self.answers, Stack::new());
        MemoryLink::of(
            self.alloc,
            answers,
            Vec::new(self.alloc),
            StreamPlan::plain(self.alloc),
        )
    }

    fn settle_dialer(&mut self, dialer: MemoryLink) {
        let counts = dialer.counts();
        self.count(counts);
        let (addresses, sent) = dialer.into_parts();
        self.addresses = addresses;
        self.sent = sent;
    }

    fn time(&mut self, _rest: Duration) -> ListClock {
        let moments = mem::replace(&mut self.moments, Vec::new(self.alloc));
        ListClock::of(moments)
    }

    fn dice(&mut self) -> CountNonces {
        let first = self.nonce;
        self.nonce = first.wrapping_add(NONCES);
        CountNonces::of(first)
    }

    fn faults(&self) -> u64 {
        self.faults
    }
}
