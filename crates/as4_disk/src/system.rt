//! The system's calls that a disk on files makes, so that a test can note them.
use std::fs::{File, OpenOptions};
use std::os::unix::fs::FileExt;
use std::path::Path;
use std::{fs, io};

/// The calls on one open file. A folder is open as a file too, and of it `sync` alone is called.
pub trait SystemFile {
    /// How many bytes it has.
    fn length(&self) -> io::Result<u64>;

    /// Fills the room with its bytes from `at` on.
    fn read_from(&self, at: u64, room: &mut [u8]) -> io::Result<()>;

    /// Writes all of the bytes from `at` on.
    fn write_to(&self, at: u64, bytes: &[u8]) -> io::Result<()>;

    /// Cuts it to this length.
    fn cut_to(&self, len: u64) -> io::Result<()>;

    /// Puts its bytes and its length, and a folder's entries, where a loss of power leaves them.
    fn sync(&self) -> io::Result<()>;
}

/// How files are opened.
pub trait OpenFiles<F> {
    /// Opens a file, makes it where there is none, and locks it. A file that another open holds locked is refused with
    /// `ErrorKind::WouldBlock`.
    fn open_file(&self, path: &str) -> io::Result<F>;

    /// Opens the folder that the path is in.
    fn open_folder_of(&self, path: &str) -> io::Result<F>;
}

impl SystemFile for File {
    fn length(&self) -> io::Result<u64> {
        Ok(self.metadata()?.len())
    }

    fn read_from(&self, at: u64, room: &mut [u8]) -> io::Result<()> {
        self.read_exact_at(room, at)
    }

    fn write_to(&self, at: u64, bytes: &[u8]) -> io::Result<()> {
        self.write_all_at(bytes, at)
    }

    fn cut_to(&self, len: u64) -> io::Result<()> {
        self.set_len(len)
    }

    fn sync(&self) -> io::Result<()> {
        self.sync_all()
    }
}

impl<R: fs::Files<File = File>> OpenFiles<File> for R {
    fn open_file(&self, path: &str) -> io::Result<File> {
        let file = OpenOptions::new()
            .read(true)
            .write(true)
            .create(true)
            .open(self, path)?;
        file.try_lock()?;
        Ok(file)
    }

    fn open_folder_of(&self, path: &str) -> io::Result<File> {
        match Path::new(path).parent() {
            Some(folder) if !folder.as_str().is_empty() => File::open(self, folder),
            _ => File::open(self, "."),
        }
    }
}
