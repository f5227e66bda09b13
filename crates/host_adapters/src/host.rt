//! The machine. Its content isn't observable.
ghost use Rattle.std.specs.Prelude.{◌≡◌, None};

use crate::counts::HostCounts;
use crate::entrance::{Entrance, Guests};
use crate::place::place_of;
use crate::shared::Shared;
use crate::{SystemClock, SystemNonces, TcpDoor, TcpLink, files};
use as4_disk::{Disk, FileDisk, Paths};
use as4_flow::Nonces;
use as4_host::{FileGot, Host, HostRefusal};
use std::alloc::Global;
use std::fs::{File, Files};
use std::io;
use std::io::ErrorKind;
use std::net::{Net, TcpListener, TcpStream};
use std::random::RandomSource;
use std::sync::Wait;
use std::time::{Clock, Duration};

/// The machine that the program runs on.
#[derive(Drop)]
pub struct SystemHost<
    R: Files<File = File>
        + Net<Listener = TcpListener, Stream = TcpStream>
        + Clock
        + RandomSource
        + Wait
        + Copy
        + Drop,
> {
    alloc: Global,
    system: R,
    counts: HostCounts,
}

impl<
    R: Files<File = File>
        + Net<Listener = TcpListener, Stream = TcpStream>
        + Clock
        + RandomSource
        + Wait
        + Copy
        + Drop,
> SystemHost<R> {
    ghost use Rattle.host_adapters.specs.Adapters.{host_counts, no_faults};

    pub fn of(alloc: Global, system: R) -> SystemHost<R>
        ensures { host_counts result ≡ no_faults }
    {
        SystemHost {
            alloc,
            system,
            counts: HostCounts::none(),
        }
    }

    /// The counts of faults, of reads and of writes.
    pub fn counts(&self) -> HostCounts
        ensures { result ≡ host_counts self.now }
    {
        self.counts
    }
}

impl<
    R: Files<File = File>
        + Net<Listener = TcpListener, Stream = TcpStream>
        + Clock
        + RandomSource
        + Wait
        + Copy
        + Drop,
> Host for SystemHost<R> {
    type Store = FileDisk<File>;

    type Entrance = TcpDoor<R>;

    type Dialer = TcpLink<R>;

    type Time = SystemClock<R>;

    type Dice = SystemNonces<R>;

    ghost file = { λ _ _. None };

    ghost guests = { λ _ _. None };

    ghost answers = { λ _. None };

    ghost names = { λ _. None };

    ghost addresses = { λ _. None };

    ghost sent = { λ _. None };

    ghost fault_count = { λ h. h.counts.faults };

    ghost reads = { λ h. h.counts.reads };

    ghost writes = { λ h. h.counts.writes };

    fn read_file(&mut self, path: &str, limit: u64) -> FileGot {
        let got = files::read(self.alloc, &self.system, path, limit);
        if let FileGot::Failed = &got {
            self.counts.fail();
        }
        got
    }

    fn write_file(&mut self, path: &str, bytes: &[u8]) -> Result<(), HostRefusal> {
        let number = self.dice().next();
        let put = files::write(self.alloc, &self.system, path, bytes, number);
        if put == Err(HostRefusal::HostFailed) {
            self.counts.fail();
        }
        put
    }

    fn open_disk(&mut self, paths: Paths<'_>) -> Result<FileDisk<File>, HostRefusal> {
        match FileDisk::open(&self.system, paths) {
            Ok(disk) => Ok(disk),
            Err(_) => {
                self.counts.fail();
                Err(HostRefusal::HostFailed)
            }
        }
    }

    fn open_door(&mut self, address: &str) -> Result<TcpDoor<R>, HostRefusal> {
        let Ok(entrance) = Shared::room(self.alloc) else {
            return Err(HostRefusal::NoMemory);
        };
        let Ok(guests) = Guests::room(self.alloc) else {
            drop(entrance);
            return Err(HostRefusal::NoMemory);
        };
        match listen(&self.system, address, guests) {
            Ok(made) => {
                entrance.put(made);
                Ok(TcpDoor::of(self.alloc, self.system, entrance))
            }
            Err(_) => {
                drop(entrance);
                self.counts.fail();
                Err(HostRefusal::HostFailed)
            }
        }
    }

    fn settle_disk(&mut self, _: Paths<'_>, disk: FileDisk<File>) {
        self.counts.settle(HostCounts {
            faults: disk.faults(),
            reads: 0,
            writes: 0,
        });
        drop(disk);
    }

    fn settle_door(&mut self, _: &str, door: TcpDoor<R>) {
        self.counts.settle(door.counts());
        drop(door);
    }

    fn dialer(&mut self) -> TcpLink<R> {
        TcpLink::of(self.alloc, self.system)
    }

    fn settle_dialer(&mut self, dialer: TcpLink<R>) {
        self.counts.settle(dialer.counts());
        drop(dialer);
    }

    fn time(&mut self, rest: Duration) -> SystemClock<R> {
        SystemClock::of(self.system, rest)
    }

    fn dice(&mut self) -> SystemNonces<R> {
        SystemNonces::of(self.system)
    }

    fn faults(&self) -> u64 {
        self.counts.faults
    }
}

// Listens at the host and the port of an address: at the first address of a name that the system gives away. The kit asks
// for `SO_REUSEADDR`, so an address that was left a moment ago is free.
fn listen<R: Net<Listener = TcpListener, Stream = TcpStream>>(
    net: &R,
    address: &str,
    guests: Guests,
) -> io::Result<Entrance> {
    let Some(place) = place_of(address) else {
        return Err(ErrorKind::InvalidInput.into());
    };
    Entrance::of(TcpListener::bind(net, place)?, guests)
}
