//! A disk on the system's files, once from end to end.
use as4_disk::{Disk, FileDisk, Part, Paths};
use std::fs::File;
use std::io::ErrorKind;
use std::test::Fail;
use std::{fs, io};

const FOLDER: &str = "disk_tests_files";

const PATHS: Paths<'static> = Paths {
    selector: "disk_tests_files/p.s",
    leaf0: "disk_tests_files/p",
    leaf1: "disk_tests_files/p.1",
};

/// How many of these calls answer as told.
fn told_calls(disk: &mut FileDisk<File>) -> usize {
    let mut room = [0; 4];
    let answers = [
        disk.len(Part::Leaf0) == Ok(0),
        disk.write_at(Part::Leaf0, 0, b"abcdef").is_ok(),
        disk.sync(Part::Leaf0).is_ok(),
        disk.write_at(Part::Leaf0, 4, b"EFGH").is_ok(),
        disk.sync(Part::Leaf0).is_ok(),
        disk.len(Part::Leaf0) == Ok(8),
        disk.read_at(Part::Leaf0, 3, &mut room).is_ok(),
        room == *b"dEFG",
        disk.cut(Part::Leaf0, 5).is_ok(),
        disk.sync(Part::Leaf0).is_ok(),
        disk.write_at(Part::Leaf1, 0, b"x").is_ok(),
        disk.len(Part::Selector) == Ok(0),
        disk.faults() == 0,
        // What the file doesn't have.
        disk.read_at(Part::Leaf0, 2, &mut room).is_err(),
        disk.write_at(Part::Leaf0, 6, b"z").is_err(),
        disk.cut(Part::Leaf0, 6).is_err(),
        disk.faults() == 3,
    ];
    answers.iter().filter(|is_so| **is_so).count()
}

/// Why the disk can't be opened.
fn refusal(rt: &HostRuntime) -> Option<ErrorKind> {
    match FileDisk::open(rt, PATHS) {
        Ok(disk) => {
            drop(disk);
            None
        }
        Err(error) => Some(error.kind()),
    }
}

/// How many calls answer as told, and why a second disk can't be opened beside the first, and after it.
fn opened(rt: &HostRuntime) -> io::Result<(usize, Option<ErrorKind>, Option<ErrorKind>)> {
    let mut disk = FileDisk::open(rt, PATHS)?;
    let told = told_calls(&mut disk);
    let beside = refusal(rt);
    drop(disk);
    Ok((told, beside, refusal(rt)))
}

/// Whether the file of leaf 0 has these bytes.
fn holds(rt: &HostRuntime, bytes: &[u8]) -> bool {
    match fs::read(rt, PATHS.leaf0) {
        Ok(read) => {
            let is_so = read.as_slice() == bytes;
            drop(read);
            is_so
        }
        Err(_) => false,
    }
}

#[test]
fn a_disk_on_files(rt: HostRuntime) -> Result<(), Fail> {
    let _ = fs::remove_dir_all(&rt, FOLDER);
    fs::create_dir(&rt, FOLDER)?;
    let is_so = opened(&rt)? == (17, Some(ErrorKind::WouldBlock), None) && holds(&rt, b"abcdE");
    fs::remove_dir_all(&rt, FOLDER)?;
    assert!(rt; is_so);
    Ok(())
}
