//! Files that note which of the system's calls reach them, in order: what a disk on files promises, it asks the system for.
use as4_disk::{Disk, FileDisk, OpenFiles, Part, Paths, SystemFile};
use std::alloc::Global;
use std::cell::RefCell;
use std::io;
use std::io::ErrorKind;

#[derive(Clone, Copy, Debug, PartialEq, Eq)]
enum Call {
    Open,
    Length,
    Read,
    Write,
    Cut,
    Sync,
}

/// Each file and each folder, by the last letter of its path.
#[derive(Clone, Copy, Debug, PartialEq, Eq)]
enum Name {
    Selector,
    Leaf0,
    Leaf1,
    FolderOfSelector,
    FolderOfLeaf0,
    FolderOfLeaf1,
}

/// A call, and the file that it reached.
type Note = (Call, Name);

const PATHS: Paths<'static> = Paths {
    selector: "a/selector",
    leaf0: "b/leaf0",
    leaf1: "c/leaf1",
};

/// The calls so far.
#[derive(Drop)]
struct Notes {
    notes: RefCell<Vec<Note>>,
}

impl Notes {
    fn add(&self, note: Note) -> io::Result<()> {
        match self.notes.try_borrow_mut() {
            Ok(mut notes) => match notes.push(note) {
                Ok(()) => Ok(()),
                Err(_) => Err(ErrorKind::OutOfMemory.into()),
            },
            Err(_) => Err(ErrorKind::Other.into()),
        }
    }

    /// Whether these are the calls since the last time that it was asked.
    fn were(&self, expected: &[Note]) -> bool {
        match self.notes.try_borrow_mut() {
            Ok(mut notes) => {
                let are_so = notes.as_slice() == expected;
                notes.clear();
                are_so
            }
            Err(_) => false,
        }
    }
}

/// A file of 8 bytes, or a folder.
#[derive(Clone, Copy)]
struct NotedFile<'a> {
    name: Name,
    notes: &'a Notes,
}

impl<'a> SystemFile for NotedFile<'a> {
    fn length(&self) -> io::Result<u64> {
        self.notes.add((Call::Length, self.name))?;
        Ok(8)
    }

    fn read_from(&self, _: u64, _: &mut [u8]) -> io::Result<()> {
        self.notes.add((Call::Read, self.name))
    }

    fn write_to(&self, _: u64, _: &[u8]) -> io::Result<()> {
        self.notes.add((Call::Write, self.name))
    }

    fn cut_to(&self, _: u64) -> io::Result<()> {
        self.notes.add((Call::Cut, self.name))
    }

    fn sync(&self) -> io::Result<()> {
        self.notes.add((Call::Sync, self.name))
    }
}

/// The system of these files.
#[derive(Clone, Copy)]
struct NotedFiles<'a> {
    notes: &'a Notes,
}

impl<'a> NotedFiles<'a> {
    fn open(&self, name: Name) -> io::Result<NotedFile<'a>> {
        self.notes.add((Call::Open, name))?;
        Ok(NotedFile {
            name,
            notes: self.notes,
        })
    }
}

impl<'a> OpenFiles<NotedFile<'a>> for NotedFiles<'a> {
    fn open_file(&self, path: &str) -> io::Result<NotedFile<'a>> {
        if path == PATHS.selector {
            self.open(Name::Selector)
        } else if path == PATHS.leaf0 {
            self.open(Name::Leaf0)
        } else {
            self.open(Name::Leaf1)
        }
    }

    fn open_folder_of(&self, path: &str) -> io::Result<NotedFile<'a>> {
        if path == PATHS.selector {
            self.open(Name::FolderOfSelector)
        } else if path == PATHS.leaf0 {
            self.open(Name::FolderOfLeaf0)
        } else {
            self.open(Name::FolderOfLeaf1)
        }
    }
}

const OPENED: [Note; 6] = [
    (Call::Open, Name::Leaf0),
    (Call::Open, Name::FolderOfLeaf0),
    (Call::Open, Name::Leaf1),
    (Call::Open, Name::FolderOfLeaf1),
    (Call::Open, Name::Selector),
    (Call::Open, Name::FolderOfSelector),
];

/// A part, its file and the file's folder.
const PARTS: [(Part, Name, Name); 3] = [
    (Part::Leaf1, Name::Leaf1, Name::FolderOfLeaf1),
    (Part::Selector, Name::Selector, Name::FolderOfSelector),
    (Part::Leaf0, Name::Leaf0, Name::FolderOfLeaf0),
];

/// A write, then syncs: the first sync of a part includes its folder, a later one doesn't, and no sync reaches the file
/// of another part.
fn syncs_its_files<'a>(
    disk: &mut FileDisk<NotedFile<'a>>,
    notes: &Notes,
    row: (Part, Name, Name),
) -> bool {
    let (part, file, folder) = row;
    let answers = [
        disk.write_at(part, 8, b"abc").is_ok(),
        notes.were(&[(Call::Length, file), (Call::Write, file)]),
        disk.sync(part).is_ok(),
        notes.were(&[(Call::Sync, file), (Call::Sync, folder)]),
        disk.sync(part).is_ok(),
        notes.were(&[(Call::Sync, file)]),
    ];
    answers == [true; 6]
}

/// The other calls reach the file of their part alone.
fn calls_its_file<'a>(
    disk: &mut FileDisk<NotedFile<'a>>,
    notes: &Notes,
    row: (Part, Name, Name),
) -> bool {
    let (part, file, _) = row;
    let mut room = [0; 4];
    let answers = [
        disk.len(part) == Ok(8),
        notes.were(&[(Call::Length, file)]),
        disk.read_at(part, 0, &mut room).is_ok(),
        notes.were(&[(Call::Read, file)]),
        disk.cut(part, 5).is_ok(),
        notes.were(&[(Call::Length, file), (Call::Cut, file)]),
    ];
    answers == [true; 6]
}

/// Whether each call on each part reaches the files that it promises, of a disk that was opened on noted files.
fn is_as_promised(alloc: Global) -> io::Result<bool> {
    let notes = Notes {
        notes: RefCell::new(Vec::new(alloc)),
    };
    let system = NotedFiles { notes: &notes };
    let mut disk = FileDisk::open(&system, PATHS)?;
    let [leaf1, selector, leaf0] = PARTS;
    let are_so = [
        notes.were(&OPENED),
        syncs_its_files(&mut disk, &notes, leaf1),
        syncs_its_files(&mut disk, &notes, selector),
        syncs_its_files(&mut disk, &notes, leaf0),
        calls_its_file(&mut disk, &notes, leaf1),
        calls_its_file(&mut disk, &notes, selector),
        calls_its_file(&mut disk, &notes, leaf0),
    ];
    drop(disk);
    drop(notes);
    Ok(are_so == [true; 7])
}

#[test]
fn a_sync_reaches_the_file_of_its_part_and_the_folder(rt: HostRuntime) {
    assert_eq!(rt; is_as_promised(rt.alloc()).ok(), Some(true));
}
