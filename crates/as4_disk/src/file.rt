//! A disk on three files of the system. Its content isn't observable. It keeps a count of the faults, whether a sync
//! failed, and of each file whether its folder is still to be synced.
ghost use Rattle.std.specs.Prelude.{◌≡◌, ◌≢◌, None, true, false, if◌then◌else◌, is_ok, is_some, IfOk, IsErr, OnErr, OnOk};
ghost use Rattle.as4_flow.specs.Flow.{one_more};
ghost use Rattle.as4_disk.specs.Faults.{HasCause};

use crate::system::{OpenFiles, SystemFile};
use crate::{Disk, DiskFailed, Part};
use std::io;
use std::io::ErrorKind;

/// The names of the files of a disk.
#[derive(Clone, Copy)]
pub struct Paths<'a> {
    pub selector: &'a str,
    pub leaf0: &'a str,
    pub leaf1: &'a str,
}

/// A disk on three files, each locked while it is open.
#[derive(Drop)]
pub struct FileDisk<F> {
    selector: PartFile<F>,
    leaf0: PartFile<F>,
    leaf1: PartFile<F>,
    // A sync has failed: what the system still keeps of the writes before it isn't known.
    is_lost: bool,
    faults: u64,
}

impl<F: SystemFile + Drop> FileDisk<F> {
    ghost use Rattle.as4_disk.specs.FileState.{file_faults, is_lost, owes_folder};

    /// Opens the three files, and makes those that aren't there. A file that another open holds locked is refused with
    /// `ErrorKind::WouldBlock`.
    pub fn open<S: OpenFiles<F>>(system: &S, paths: Paths<'_>) -> io::Result<FileDisk<F>>
        ensures faults { IfOk result (λ disk. file_faults disk ≡ 0) }
        ensures found { IfOk result (λ disk. is_lost disk ≡ false) }
        ensures folders { IfOk result (λ disk. (q : _) → owes_folder disk q ≡ true) }
    {
        let leaf0 = PartFile::open(system, paths.leaf0)?;
        let leaf1 = PartFile::open(system, paths.leaf1)?;
        let selector = PartFile::open(system, paths.selector)?;
        Ok(FileDisk {
            selector,
            leaf0,
            leaf1,
            is_lost: false,
            faults: 0,
        })
    }

    fn part(&self, part: Part) -> io::Result<&PartFile<F>>
        ensures { is_lost self.now ≡ true → IsErr result }
    {
        if self.is_lost {
            return Err(ErrorKind::Other.into());
        }
        match part {
            Part::Selector => Ok(&self.selector),
            Part::Leaf0 => Ok(&self.leaf0),
            Part::Leaf1 => Ok(&self.leaf1),
        }
    }

    fn len_of(&self, part: Part) -> io::Result<u64>
        ensures { is_lost self.now ≡ true → IsErr result }
    {
        self.part(part)?.file.length()
    }

    fn read_of(&self, part: Part, at: u64, room: &mut [u8]) -> io::Result<()>
        ensures { is_lost self.now ≡ true → IsErr result }
    {
        self.part(part)?.file.read_from(at, room)
    }

    fn write_of(&self, part: Part, at: u64, bytes: &[u8]) -> io::Result<()>
        ensures { is_lost self.now ≡ true → IsErr result }
    {
        self.part(part)?.write_at(at, bytes)
    }

    fn cut_of(&self, part: Part, len: u64) -> io::Result<()>
        ensures { is_lost self.now ≡ true → IsErr result }
    {
        self.part(part)?.cut(len)
    }

    fn sync_of(&mut self, part: Part) -> io::Result<()>
        ensures faults { file_faults self.new ≡ file_faults self.old }
        ensures folder { OnOk result (owes_folder self.new part ≡ false) }
        ensures others { (q : _) → q ≢ part → owes_folder self.new q ≡ owes_folder self.old q }
        ensures lost { is_lost self.old ≡ true → IsErr result }
        ensures loses { OnErr result (is_lost self.new ≡ true) }
        ensures kept { OnOk result (is_lost self.new ≡ is_lost self.old) }
    {
        if self.is_lost {
            return Err(ErrorKind::Other.into());
        }
        let synced = match part {
            Part::Selector => self.selector.sync(),
            Part::Leaf0 => self.leaf0.sync(),
            Part::Leaf1 => self.leaf1.sync(),
        };
        self.is_lost = synced.is_err();
        synced
    }

    // Counts the call, where it failed.
    fn counted<T>(&mut self, answer: io::Result<T>) -> Result<T, DiskFailed>
        ensures count { file_faults self.new ≡
            (if is_ok result then file_faults self.old else one_more (file_faults self.old)) }
        ensures cause { HasCause (file_faults self.old) (file_faults self.new) result }
        ensures lost { is_lost self.new ≡ is_lost self.old }
        ensures folders { (q : _) → owes_folder self.new q ≡ owes_folder self.old q }
        ensures variant { is_ok result ≡ is_ok answer }
    {
        match answer {
            Ok(value) => Ok(value),
            Err(_) => {
                self.faults = self.faults.saturating_add(1);
                Err(DiskFailed)
            }
        }
    }
}

// One file.
#[derive(Drop)]
struct PartFile<F> {
    file: F,
    // The folder that it is in, until that was synced too.
    folder: Option<F>,
}

impl<F: SystemFile + Drop> PartFile<F> {
    fn open<S: OpenFiles<F>>(system: &S, path: &str) -> io::Result<PartFile<F>>
        ensures { IfOk result (λ file. is_some file.folder ≡ true) }
    {
        let file = system.open_file(path)?;
        let folder = system.open_folder_of(path)?;
        Ok(PartFile {
            file,
            folder: Some(folder),
        })
    }

    fn write_at(&self, at: u64, bytes: &[u8]) -> io::Result<()> {
        if self.file.length()? < at {
            return Err(ErrorKind::InvalidInput.into());
        }
        self.file.write_to(at, bytes)
    }

    fn cut(&self, len: u64) -> io::Result<()> {
        if self.file.length()? < len {
            return Err(ErrorKind::InvalidInput.into());
        }
        self.file.cut_to(len)
    }

    // The first sync includes the entry in the folder, where the system syncs folders.
    fn sync(&mut self) -> io::Result<()>
        ensures { OnOk result (is_some self.new.folder ≡ false) }
    {
        self.file.sync()?;
        if let Some(folder) = &self.folder {
            sync_folder(folder)?;
            self.folder = None;
        }
        Ok(())
    }
}

fn sync_folder<F: SystemFile>(folder: &F) -> io::Result<()> {
    match folder.sync() {
        Err(error) if error.kind() != ErrorKind::InvalidInput => Err(error),
        _ => Ok(()),
    }
}

impl<F: SystemFile + Drop> Disk for FileDisk<F> {
    ghost use Rattle.as4_disk.specs.FileState.{file_faults, is_lost, owes_folder};

    ghost seen = { λ _. None };

    ghost may_leave = { λ _ _. ⊥ };

    ghost moment = { λ _. 0 };

    ghost left_since = { λ _ _ _. ⊥ };

    ghost fault_count = { file_faults };

    ghost makes = { λ _ _ _ _. Unit {0} };

    ghost reads_now = { λ disk image told. Prim.cc };

    ghost counts_now = { λ disk t c le left. left };

    ghost only_now = { λ disk c left. left };

    fn len(&mut self, part: Part) -> Result<u64, DiskFailed>
        ensures count { file_faults self.new ≡
            (if is_ok result then file_faults self.old else one_more (file_faults self.old)) }
        ensures cause { HasCause (file_faults self.old) (file_faults self.new) result }
        ensures lost { is_lost self.old ≡ true → IsErr result }
        ensures kept { is_lost self.new ≡ is_lost self.old }
    {
        let answer = self.len_of(part);
        self.counted(answer)
    }

    fn read_at(&mut self, part: Part, at: u64, room: &mut [u8]) -> Result<(), DiskFailed>
        ensures count { file_faults self.new ≡
            (if is_ok result then file_faults self.old else one_more (file_faults self.old)) }
        ensures cause { HasCause (file_faults self.old) (file_faults self.new) result }
        ensures lost { is_lost self.old ≡ true → IsErr result }
        ensures kept { is_lost self.new ≡ is_lost self.old }
    {
        let answer = self.read_of(part, at, room);
        self.counted(answer)
    }

    fn write_at(&mut self, part: Part, at: u64, bytes: &[u8]) -> Result<(), DiskFailed>
        ensures count { file_faults self.new ≡
            (if is_ok result then file_faults self.old else one_more (file_faults self.old)) }
        ensures cause { HasCause (file_faults self.old) (file_faults self.new) result }
        ensures lost { is_lost self.old ≡ true → IsErr result }
        ensures kept { is_lost self.new ≡ is_lost self.old }
    {
        let answer = self.write_of(part, at, bytes);
        self.counted(answer)
    }

    fn cut(&mut self, part: Part, len: u64) -> Result<(), DiskFailed>
        ensures count { file_faults self.new ≡
            (if is_ok result then file_faults self.old else one_more (file_faults self.old)) }
        ensures cause { HasCause (file_faults self.old) (file_faults self.new) result }
        ensures lost { is_lost self.old ≡ true → IsErr result }
        ensures kept { is_lost self.new ≡ is_lost self.old }
    {
        let answer = self.cut_of(part, len);
        self.counted(answer)
    }

    fn sync(&mut self, part: Part) -> Result<(), DiskFailed>
        ensures count { file_faults self.new ≡
            (if is_ok result then file_faults self.old else one_more (file_faults self.old)) }
        ensures cause { HasCause (file_faults self.old) (file_faults self.new) result }
        ensures lost { is_lost self.old ≡ true → IsErr result }
        ensures loses { OnErr result (is_lost self.new ≡ true) }
        ensures kept { OnOk result (is_lost self.new ≡ is_lost self.old) }
        ensures folder { OnOk result (owes_folder self.new part ≡ false) }
        ensures others { (q : _) → q ≢ part → owes_folder self.new q ≡ owes_folder self.old q }
    {
        let answer = self.sync_of(part);
        self.counted(answer)
    }

    fn faults(&self) -> u64
        ensures { result ≡ file_faults self.now }
    {
        self.faults
    }
}
