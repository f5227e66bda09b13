//! The system's files: read within a limit, and written whole.
ghost use Rattle.host_adapters.specs.Adapters.{IsWithin};

use as4_disk::{OpenFiles, SystemFile};
use as4_flow::{ReadRefusal, ReaderSource, read_all};
use as4_host::{FileGot, HostRefusal};
use as4_values::Octets;
use std::alloc::Global;
use std::fs::{File, Files};
use std::io::{ErrorKind, Write};
use std::{fs, io};

pub(crate) fn read<R: Files<File = File>>(
    alloc: Global,
    system: &R,
    path: &str,
    limit: u64,
) -> FileGot
    ensures { IsWithin limit result }
{
    let file = match File::open(system, path) {
        Ok(file) => file,
        Err(error) if error.kind() == ErrorKind::NotFound => return FileGot::Missing,
        Err(_) => return FileGot::Failed,
    };
    let Ok(mut source) = ReaderSource::of(alloc, file) else {
        return FileGot::NoMemory;
    };
    let got = read_all(alloc, &mut source, limit as usize);
    drop(source);
    match got {
        Ok(bytes) => FileGot::Bytes(Octets::of(bytes)),
        Err(ReadRefusal::TooLong) => FileGot::TooLong,
        Err(ReadRefusal::Failed) => FileGot::Failed,
        Err(ReadRefusal::NoMemory) => FileGot::NoMemory,
    }
}

/// Gives the file these bytes, all or none: they are written to a new file in the same folder, which is synced and then gets
/// the path, and the folder is synced. `number` makes the new file's name one that no other has.
pub(crate) fn write<R: Files<File = File>>(
    alloc: Global,
    system: &R,
    path: &str,
    bytes: &[u8],
    number: u128,
) -> Result<(), HostRefusal> {
    let Ok(fresh) = format!(in alloc; "{path}.{number:032x}") else {
        return Err(HostRefusal::NoMemory);
    };
    let put = put(system, path, fresh.as_str(), bytes);
    drop(fresh);
    match put {
        Ok(()) => Ok(()),
        Err(_) => Err(HostRefusal::HostFailed),
    }
}

fn put<R: Files<File = File>>(system: &R, path: &str, fresh: &str, bytes: &[u8]) -> io::Result<()> {
    let mut file = File::create_new(system, fresh)?;
    let filled = fill(system, path, &mut file, bytes);
    drop(file);
    let moved = filled.and_then(|()| fs::rename(system, fresh, path));
    if let Err(error) = moved {
        let _ = fs::remove_file(system, fresh);
        return Err(error);
    }
    sync_folder(system, path)
}

// Writes and syncs the new file, with the permissions of the one that it replaces. What isn't a regular file isn't replaced.
fn fill<R: Files<File = File>>(
    system: &R,
    path: &str,
    file: &mut File,
    bytes: &[u8],
) -> io::Result<()> {
    if let Ok(old) = fs::metadata(system, path) {
        if !old.is_file() {
            return Err(ErrorKind::InvalidInput.into());
        }
        file.set_permissions(old.permissions())?;
    }
    file.write_all(bytes)?;
    file.sync_all()
}

// A system that doesn't sync folders answers `InvalidInput`, and is trusted to keep their entries.
fn sync_folder<R: Files<File = File>>(system: &R, path: &str) -> io::Result<()> {
    match system.open_folder_of(path)?.sync() {
        Err(error) if error.kind() != ErrorKind::InvalidInput => Err(error),
        _ => Ok(()),
    }
}
