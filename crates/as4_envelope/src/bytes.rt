//! Bytes of a tree: a name, a namespace, a value or a text.
//!
//!     fixed    a constant of the program, such as a namespace
//!     short    at most 16 bytes, in the value itself
//!     long     in a separate buffer

ghost use Rattle.std.specs.Prelude.{◌≡◌, ◌+◌, ◌≤◌, ◌++◌, ℕ, List, [], length, take, IfOk, OnOk};

use as4_values::{NoMemory, PlainData};
use std::alloc::Global;
use std::marker::Model;

/// The maximum number of bytes that need no buffer.
const ROOM: usize = 16;

/// Bytes. Constants and short copies need no memory of their own.
#[derive(Drop)]
pub struct TreeBytes {
    kept: Kept,
}

impl Model for TreeBytes {
    ghost use Rattle.std.specs.Prelude.{ℕ, List};
    ghost use Rattle.as4_envelope.specs.Kept.{kept_bytes};

    ghost Value = { List ℕ };

    ghost view = { λ bytes. kept_bytes bytes.kept };
}

#[derive(Drop)]
enum Kept {
    Fixed(&'static [u8]),
    Short(ShortBytes),
    Long(Box<Vec<u8>>),
}

impl TreeBytes {
    /// No bytes, with room for a few.
    pub fn new() -> TreeBytes
        ensures { result ≡ [] }
    {
        TreeBytes {
            kept: Kept::Short(ShortBytes::new()),
        }
    }

    /// A constant.
    pub fn fixed(bytes: &'static [u8]) -> TreeBytes
        ensures { result ≡ bytes.now }
    {
        TreeBytes {
            kept: Kept::Fixed(bytes),
        }
    }

    /// Takes ownership of the bytes, without a copy.
    pub fn of(alloc: Global, bytes: Vec<u8>) -> Result<TreeBytes, NoMemory>
        ensures { IfOk result (λ taken. taken ≡ bytes.items) }
    {
        Ok(TreeBytes {
            kept: Kept::Long(Box::new(alloc, bytes)?),
        })
    }

    pub fn copied(alloc: Global, bytes: &[u8]) -> Result<TreeBytes, NoMemory>
        ensures { IfOk result (λ copy. copy ≡ bytes.now) }
    {
        if bytes.len() > ROOM {
            return TreeBytes::of(alloc, Vec::from_slice(alloc, bytes)?);
        }
        let mut short = ShortBytes::new();
        short.append(bytes);
        Ok(TreeBytes {
            kept: Kept::Short(short),
        })
    }

    pub fn bytes(&self) -> &[u8]
        ensures { result.now ≡ self.now }
    {
        match &self.kept {
            Kept::Fixed(bytes) => bytes,
            Kept::Short(short) => short.bytes(),
            Kept::Long(bytes) => bytes.as_slice(),
        }
    }

    /// Adds bytes at the end.
    pub fn append(&mut self, alloc: Global, more: &[u8]) -> Result<(), NoMemory>
        ensures { OnOk result (self.new ≡ self.old ++ more.now) }
    {
        match &mut self.kept {
            Kept::Fixed(_) => {}
            Kept::Short(short) => {
                if more.len() <= ROOM && short.bytes().len() + more.len() <= ROOM {
                    short.append(more);
                    return Ok(());
                }
            }
            Kept::Long(bytes) => {
                bytes.extend_from_slice(more)?;
                return Ok(());
            }
        }
        let mut bytes = Vec::from_slice(alloc, self.bytes())?;
        bytes.extend_from_slice(more)?;
        self.kept = Kept::Long(Box::new(alloc, bytes)?);
        Ok(())
    }
}

impl PlainData for TreeBytes {
    fn try_clone(&self, alloc: Global) -> Result<TreeBytes, NoMemory> {
        match &self.kept {
            Kept::Fixed(bytes) => Ok(TreeBytes::fixed(bytes)),
            Kept::Short(short) => TreeBytes::copied(alloc, short.bytes()),
            Kept::Long(bytes) => TreeBytes::copied(alloc, bytes.as_slice()),
        }
    }

    fn same(&self, other: &TreeBytes) -> bool {
        self.bytes() == other.bytes()
    }
}

/// Up to `ROOM` bytes, in the value itself.
#[derive(Drop)]
struct ShortBytes {
    /// Four bytes long, so that the content after the tag of a `Kept` moves in whole words.
    len: u32,
    room: [u8; 16],
}

impl Model for ShortBytes {
    ghost Value = { List ℕ };

    ghost view = { λ short. take short.len short.room };

    ghost invariant = { λ short. short.len ≤ 16 };
}

impl ShortBytes {
    fn new() -> ShortBytes
        ensures { result ≡ [] }
    {
        ShortBytes {
            len: 0,
            room: [0; 16],
        }
    }

    fn bytes(&self) -> &[u8]
        ensures value { result.now ≡ self.now }
        ensures few { length result.now ≤ 16 }
    {
        &self.room[..self.len as usize]
    }

    fn append(&mut self, more: &[u8])
        requires { length self.old + length more.now ≤ 16 }
        ensures { self.new ≡ self.old ++ more.now }
    {
        let end = self.len as usize + more.len();
        let all = &mut self.room[..];
        all[self.len as usize..end].copy_from_slice(more);
        self.len = end as u32;
    }
}
