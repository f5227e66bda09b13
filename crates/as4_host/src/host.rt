//! What a program asks of its machine: files, a store, a door, a link, a clock and numbers.
//!
//! The program gives back each store, door and link by `settle_disk`, `settle_door` and `settle_dialer`: where it has
//! failed, the host's counts rise. So a program that has given all of them back knows from these counts whether
//! anything failed.
ghost use Rattle.std.specs.Prelude.{◌≡◌, ◌≢◌, ℕ, Option, List, [], ◌∷◌, ◌≤◌, Some, option_map, Contains, IfOk, OnOk, OnErr};
ghost use Rattle.as4_flow.specs.Flow.{Told};
ghost use Rattle.as4_host.specs.Lists.{none_of, and_all};
ghost use Rattle.as4_host.specs.Counts.{raised};

use crate::{Door, Link};
use as4_disk::{Disk, Paths};
use as4_flow::{Clock, Nonces};
use as4_values::Octets;
use std::time::Duration;

/// Why a host didn't do what it was asked for.
#[derive(Clone, Copy, Debug, PartialEq, Eq)]
pub enum HostRefusal {
    /// The machine failed.
    HostFailed,
    /// There was no memory, and the machine wasn't asked.
    NoMemory,
}

/// What a read of a file gives.
#[derive(Drop)]
pub enum FileGot {
    /// All bytes of the file.
    Bytes(Octets),
    /// There is no such file.
    Missing,
    /// The file has more bytes than the limit.
    TooLong,
    /// The machine failed.
    Failed,
    /// There was no memory for the bytes.
    NoMemory,
}

pub trait Host {
    ghost use Rattle.as4_host.specs.Files.{IsRead, IsWritten, IsMade, bytes_in, part_of, path_of};
    ghost use Rattle.as4_host.specs.Calls.{asked, outcome, names_of, HasHostCause};
    ghost use Rattle.as4_disk.specs.Image.{Image};

    type Store: Disk + Drop;

    type Entrance: Door + Drop;

    type Dialer: Link + Drop;

    type Time: Clock + Drop;

    type Dice: Nonces + Drop;

    /// The file of each path, where the host is observable: its bytes, or none where there is no such file.
    ghost file: { Self → List ℕ → Option (Option (List ℕ)) };

    /// The guests of the door at each address, where the host is observable.
    ghost guests: { Self → List ℕ → Option (List (List ℕ)) };

    /// The bytes that each next source of its dialers will give, where the host is observable.
    ghost answers: { Self → Option (List (List ℕ)) };

    /// The paths and addresses that it was asked for, where it is observable.
    ghost names: { Self → Option (List (List ℕ)) };

    /// The addresses that the dialer settled last was asked for, where the host is observable.
    ghost addresses: { Self → Option (List (List ℕ)) };

    /// The bytes that each sink of that dialer took, where the host is observable.
    ghost sent: { Self → Option (List (List ℕ)) };

    /// How many calls failed, and how many settled disks, doors and dialers had, up to the last value of a `u64`.
    ghost fault_count: { Self → ℕ };

    /// How many settled doors and dialers had failing sources, up to the last value of a `u64`.
    ghost reads: { Self → ℕ };

    /// How many settled doors and dialers had failing sinks, up to the last value of a `u64`.
    ghost writes: { Self → ℕ };

    /// Reads a file of at most this many bytes.
    fn read_file(&mut self, path: &str, limit: u64) -> FileGot
        ensures file { IsRead limit (file self.old path.now) result }
        ensures names { names self.new ≡ asked (outcome result) (path.now ∷ []) (names self.old) }
        ensures cause { HasHostCause (fault_count self.old) (fault_count self.new) (outcome result) }
        ensures files { (p : List ℕ) → file self.new p ≡ file self.old p }
        ensures guests { (a : List ℕ) → guests self.new a ≡ guests self.old a }
        ensures others { (answers self.new ≡ answers self.old) × (addresses self.new ≡ addresses self.old)
            × (sent self.new ≡ sent self.old) × (reads self.new ≡ reads self.old) × (writes self.new ≡ writes self.old) };

    /// Gives a file these bytes.
    fn write_file(&mut self, path: &str, bytes: &[u8]) -> Result<(), HostRefusal>
        ensures file { IsWritten bytes.now (file self.old path.now) (file self.new path.now) result }
        ensures names { names self.new ≡ asked result (path.now ∷ []) (names self.old) }
        ensures cause { HasHostCause (fault_count self.old) (fault_count self.new) result }
        ensures files { (p : List ℕ) → p ≢ path.now → file self.new p ≡ file self.old p }
        ensures guests { (a : List ℕ) → guests self.new a ≡ guests self.old a }
        ensures others { (answers self.new ≡ answers self.old) × (addresses self.new ≡ addresses self.old)
            × (sent self.new ≡ sent self.old) × (reads self.new ≡ reads self.old) × (writes self.new ≡ writes self.old) };

    /// Opens the store of these three files, and makes those that aren't there.
    fn open_disk(&mut self, paths: Paths<'_>) -> Result<Self::Store, HostRefusal>
        ensures fresh { IfOk result (λ disk. Self.Store.fault_count disk ≡ 0) }
        ensures seen { IfOk result (λ disk. (q : _)
            → part_of q (Self.Store.seen disk) ≡ bytes_in (file self.old (path_of paths.entry q))) }
        ensures only { IfOk result (λ disk. Told (Self.Store.seen disk)
            (λ image. (c : Image) → Self.Store.may_leave disk c → (q : _) → c q ≡ image q)) }
        ensures made { (q : _) → IsMade (file self.old (path_of paths.entry q)) (file self.new (path_of paths.entry q)) result }
        ensures names { names self.new ≡ asked result (names_of paths.entry) (names self.old) }
        ensures cause { HasHostCause (fault_count self.old) (fault_count self.new) result }
        ensures files { (p : List ℕ) → ((q : _) → p ≢ path_of paths.entry q) → file self.new p ≡ file self.old p }
        ensures guests { (a : List ℕ) → guests self.new a ≡ guests self.old a }
        ensures others { (answers self.new ≡ answers self.old) × (addresses self.new ≡ addresses self.old)
            × (sent self.new ≡ sent self.old) × (reads self.new ≡ reads self.old) × (writes self.new ≡ writes self.old) };

    /// Opens the door at an address, which gets the guests of that address.
    fn open_door(&mut self, address: &str) -> Result<Self::Entrance, HostRefusal>
        ensures counts { IfOk result (λ door. (Self.Entrance.faults door ≡ 0) × (Self.Entrance.reads door ≡ 0)
            × (Self.Entrance.writes door ≡ 0)) }
        ensures opens { IfOk result (λ door. Self.Entrance.guests door ≡ guests self.old address.now) }
        ensures taken { OnOk result (guests self.new address.now ≡ none_of (guests self.old address.now)) }
        ensures refused { OnErr result (guests self.new address.now ≡ guests self.old address.now) }
        ensures names { names self.new ≡ asked result (address.now ∷ []) (names self.old) }
        ensures cause { HasHostCause (fault_count self.old) (fault_count self.new) result }
        ensures files { (p : List ℕ) → file self.new p ≡ file self.old p }
        ensures guests { (a : List ℕ) → a ≢ address.now → guests self.new a ≡ guests self.old a }
        ensures others { (answers self.new ≡ answers self.old) × (addresses self.new ≡ addresses self.old)
            × (sent self.new ≡ sent self.old) × (reads self.new ≡ reads self.old) × (writes self.new ≡ writes self.old) };

    /// Takes a store back: each file gets the bytes that the disk reads, where no other part has its path. It takes no
    /// memory.
    fn settle_disk(&mut self, paths: Paths<'_>, disk: Self::Store)
        requires { Told (names self.old) (λ all. (q : _) → Contains all (path_of paths q)) }
        ensures kept { (q : _) → ((r : _) → path_of paths.entry r ≡ path_of paths.entry q → r ≡ q)
            → file self.new (path_of paths.entry q) ≡ option_map Some (part_of q (Self.Store.seen disk)) }
        ensures faults { fault_count self.new ≡ raised (Self.Store.fault_count disk) (fault_count self.old) }
        ensures counted { fault_count self.old ≤ fault_count self.new }
        ensures files { (p : List ℕ) → ((q : _) → p ≢ path_of paths.entry q) → file self.new p ≡ file self.old p }
        ensures guests { (a : List ℕ) → guests self.new a ≡ guests self.old a }
        ensures others { (names self.new ≡ names self.old) × (answers self.new ≡ answers self.old)
            × (addresses self.new ≡ addresses self.old) × (sent self.new ≡ sent self.old)
            × (reads self.new ≡ reads self.old) × (writes self.new ≡ writes self.old) };

    /// Takes a door back: the guests that it has left are added to those of the address. It takes no memory.
    fn settle_door(&mut self, address: &str, door: Self::Entrance)
        requires { Told (names self.old) (λ all. Contains all address.now) }
        ensures left { guests self.new address.now ≡ and_all (guests self.old address.now) (Self.Entrance.guests door) }
        ensures faults { fault_count self.new ≡ raised (Self.Entrance.faults door) (fault_count self.old) }
        ensures reads { reads self.new ≡ raised (Self.Entrance.reads door) (reads self.old) }
        ensures writes { writes self.new ≡ raised (Self.Entrance.writes door) (writes self.old) }
        ensures counted { (fault_count self.old ≤ fault_count self.new) × (reads self.old ≤ reads self.new)
            × (writes self.old ≤ writes self.new) }
        ensures files { (p : List ℕ) → file self.new p ≡ file self.old p }
        ensures guests { (a : List ℕ) → a ≢ address.now → guests self.new a ≡ guests self.old a }
        ensures others { (names self.new ≡ names self.old) × (answers self.new ≡ answers self.old)
            × (addresses self.new ≡ addresses self.old) × (sent self.new ≡ sent self.old) };

    /// A new link, which gets the host's answers. It takes no memory.
    fn dialer(&mut self) -> Self::Dialer
        ensures counts { (Self.Dialer.faults result ≡ 0) × (Self.Dialer.reads result ≡ 0)
            × (Self.Dialer.writes result ≡ 0) }
        ensures opens { Self.Dialer.answers result ≡ answers self.old }
        ensures fresh { (Self.Dialer.addresses result ≡ none_of (answers self.old))
            × (Self.Dialer.sent result ≡ none_of (answers self.old)) }
        ensures taken { answers self.new ≡ none_of (answers self.old) }
        ensures files { (p : List ℕ) → file self.new p ≡ file self.old p }
        ensures guests { (a : List ℕ) → guests self.new a ≡ guests self.old a }
        ensures others { (names self.new ≡ names self.old) × (addresses self.new ≡ addresses self.old)
            × (sent self.new ≡ sent self.old) × (fault_count self.new ≡ fault_count self.old)
            × (reads self.new ≡ reads self.old) × (writes self.new ≡ writes self.old) };

    /// Takes a link back. It takes no memory.
    fn settle_dialer(&mut self, dialer: Self::Dialer)
        ensures last { (addresses self.new ≡ Self.Dialer.addresses dialer) × (sent self.new ≡ Self.Dialer.sent dialer) }
        ensures faults { fault_count self.new ≡ raised (Self.Dialer.faults dialer) (fault_count self.old) }
        ensures reads { reads self.new ≡ raised (Self.Dialer.reads dialer) (reads self.old) }
        ensures writes { writes self.new ≡ raised (Self.Dialer.writes dialer) (writes self.old) }
        ensures counted { (fault_count self.old ≤ fault_count self.new) × (reads self.old ≤ reads self.new)
            × (writes self.old ≤ writes self.new) }
        ensures files { (p : List ℕ) → file self.new p ≡ file self.old p }
        ensures guests { (a : List ℕ) → guests self.new a ≡ guests self.old a }
        ensures others { (names self.new ≡ names self.old) × (answers self.new ≡ answers self.old) };

    /// A new clock, each rest of which lasts so long. No clause speaks of that length. It takes no memory.
    fn time(&mut self, rest: Duration) -> Self::Time
        ensures last { Self.Time.last result ≡ 0 }
        ensures files { (p : List ℕ) → file self.new p ≡ file self.old p }
        ensures guests { (a : List ℕ) → guests self.new a ≡ guests self.old a }
        ensures others { (names self.new ≡ names self.old) × (answers self.new ≡ answers self.old)
            × (addresses self.new ≡ addresses self.old) × (sent self.new ≡ sent self.old)
            × (fault_count self.new ≡ fault_count self.old) × (reads self.new ≡ reads self.old)
            × (writes self.new ≡ writes self.old) };

    /// A new source of nonces. It takes no memory.
    fn dice(&mut self) -> Self::Dice
        ensures last { Self.Dice.last result ≡ 0 }
        ensures files { (p : List ℕ) → file self.new p ≡ file self.old p }
        ensures guests { (a : List ℕ) → guests self.new a ≡ guests self.old a }
        ensures others { (names self.new ≡ names self.old) × (answers self.new ≡ answers self.old)
            × (addresses self.new ≡ addresses self.old) × (sent self.new ≡ sent self.old)
            × (fault_count self.new ≡ fault_count self.old) × (reads self.new ≡ reads self.old)
            × (writes self.new ≡ writes self.old) };

    /// The host's count of faults, up to the last value of a `u64`.
    fn faults(&self) -> u64
        ensures { result ≡ fault_count self.now };
}
