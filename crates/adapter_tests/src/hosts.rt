//! The machine's files, stores and doors.
use crate::clocks::sent;
use crate::connections::{Machine, host};
use as4_disk::{Disk, Part, Paths};
use as4_flow::{Clock, Nonces};
use as4_host::{FileGot, Host, HostRefusal, Link};
use host_adapters::SystemHost;
use std::alloc::Global;
use std::fs;
use std::test::Fail;
use std::time::Duration;

const FOLDER: &str = "adapter_tests_files";

const FILE: &str = "adapter_tests_files/f";

const BELOW_A_FILE: &str = "adapter_tests_files/f/below";

const STORE: &str = "adapter_tests_store";

const PATHS: Paths<'static> = Paths {
    selector: "adapter_tests_store/p.s",
    leaf0: "adapter_tests_store/p",
    leaf1: "adapter_tests_store/p.1",
};

#[derive(Clone, Copy, Debug, PartialEq, Eq)]
enum Read {
    These,
    Others,
    Missing,
    TooLong,
    Failed,
    NoMemory,
}

/// How often the host has failed.
fn faults_of<H: Host>(host: &H) -> u64 {
    host.faults()
}

/// What a read of the file gives, compared with these bytes.
fn look<H: Host>(host: &mut H, path: &str, limit: u64, bytes: &[u8]) -> Read {
    match host.read_file(path, limit) {
        FileGot::Bytes(read) => {
            let is_so = read.bytes() == bytes;
            drop(read);
            if is_so { Read::These } else { Read::Others }
        }
        FileGot::Missing => Read::Missing,
        FileGot::TooLong => Read::TooLong,
        FileGot::Failed => Read::Failed,
        FileGot::NoMemory => Read::NoMemory,
    }
}

/// Which of these calls answer as told.
fn files<H: Host>(host: &mut H) -> ([bool; 9], u64) {
    let answers = [
        look(host, FILE, 9, b"") == Read::Missing,
        host.write_file(FILE, b"first").is_ok(),
        look(host, FILE, 5, b"first") == Read::These,
        host.write_file(FILE, b"second").is_ok(),
        look(host, FILE, 6, b"second") == Read::These,
        look(host, FILE, 5, b"second") == Read::TooLong,
        look(host, FOLDER, 9, b"") == Read::Failed,
        look(host, BELOW_A_FILE, 9, b"") == Read::Failed,
        host.write_file(FOLDER, b"x") == Err(HostRefusal::HostFailed),
    ];
    (answers, host.faults())
}

/// How many entries the folder has.
fn entries<R: Machine>(rt: &R) -> Option<usize> {
    Some(fs::read_dir(rt, FOLDER).ok()?.count())
}

#[test]
fn a_file_is_written_whole_and_read_within_its_limit(rt: HostRuntime) -> Result<(), Fail> {
    let _ = fs::remove_dir_all(&rt, FOLDER);
    fs::create_dir(&rt, FOLDER)?;
    let mut host = host(&rt);
    let answers = files(&mut host);
    drop(host);
    let entries = entries(&rt);
    fs::remove_dir_all(&rt, FOLDER)?;
    assert_eq!(rt; (answers, entries), (([true; 9], 3), Some(1)));
    Ok(())
}

/// The store opened, written, held against a second open, settled, and opened again. Which calls answer as told.
fn stores<R: Machine>(host: &mut SystemHost<R>) -> Option<[bool; 6]> {
    let mut disk = sent(host.open_disk(PATHS).ok()?);
    let mut room = [0; 3];
    let first = [
        disk.write_at(Part::Leaf0, 0, b"abc").is_ok(),
        disk.sync(Part::Leaf0).is_ok(),
        refuses(host),
    ];
    host.settle_disk(PATHS, disk);
    let mut disk = host.open_disk(PATHS).ok()?;
    let second = [
        disk.read_at(Part::Leaf0, 0, &mut room).is_ok(),
        room == *b"abc",
        disk.read_at(Part::Leaf0, 1, &mut room).is_err(),
    ];
    host.settle_disk(PATHS, disk);
    let [a, b, c] = first;
    let [d, e, f] = second;
    Some([a, b, c, d, e, f])
}

/// Whether the store is refused.
fn refuses<R: Machine>(host: &mut SystemHost<R>) -> bool {
    match host.open_disk(PATHS) {
        Ok(disk) => {
            host.settle_disk(PATHS, disk);
            false
        }
        Err(refusal) => refusal == HostRefusal::HostFailed,
    }
}

#[test]
fn a_store_is_locked_and_keeps_its_bytes(rt: HostRuntime) -> Result<(), Fail> {
    let _ = fs::remove_dir_all(&rt, STORE);
    fs::create_dir(&rt, STORE)?;
    let mut host = host(&rt);
    let answers = stores(&mut host);
    let faults = faults_of(&host);
    drop(host);
    fs::remove_dir_all(&rt, STORE)?;
    assert_eq!(rt; (answers, faults), (Some([true; 6]), 2));
    Ok(())
}

/// An address that is in use, and then not. Which doors were opened.
fn doors<R: Machine>(host: &mut SystemHost<R>, alloc: Global) -> Option<(bool, bool)> {
    let door = host.open_door("http://127.0.0.1:0/").ok()?;
    let port = door.local_addr().ok()?.port();
    let address = format!(in alloc; "http://127.0.0.1:{port}/").ok()?;
    let beside = opens(host, &address);
    host.settle_door(&address, door);
    let after = opens(host, &address);
    drop(address);
    Some((beside, after))
}

/// Whether a door can be opened at the address.
fn opens<H: Host>(host: &mut H, address: &str) -> bool {
    match host.open_door(address) {
        Ok(door) => {
            host.settle_door(address, door);
            true
        }
        Err(_) => false,
    }
}

#[test]
fn an_address_in_use_is_a_fault(rt: HostRuntime) {
    let mut host = host(&rt);
    let opened = doors(&mut host, rt.alloc());
    let faults = faults_of(&host);
    drop(host);
    assert_eq!(rt; (opened, faults), (Some((false, true)), 1));
}

/// A dialer whose open failed, a clock and nonces. The host's faults before and after the dialer is settled.
fn made<H: Host>(host: &mut H) -> (u64, u64, bool) {
    let mut dialer = host.dialer();
    if let Ok((source, sink)) = dialer.open("nowhere:x") {
        dialer.settle(source, sink);
    }
    let before = host.faults();
    host.settle_dialer(dialer);
    let mut time = host.time(Duration::from_millis(1));
    let mut dice = host.dice();
    time.rest();
    let is_so = time.now() > 0 && dice.next() != dice.next();
    drop(time);
    drop(dice);
    (before, host.faults(), is_so)
}

#[test]
fn a_settled_dialer_leaves_its_faults(rt: HostRuntime) {
    let mut host = host(&rt);
    let answers = made(&mut host);
    drop(host);
    assert_eq!(rt; answers, (0, 1, true));
}
