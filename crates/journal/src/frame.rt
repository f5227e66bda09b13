//! A record of the journal, as it is written.
//!
//!     gate    1 byte: 1, written last
//!     length  8 bytes, big endian: how long the body is
//!     body    that many bytes
//!     gate    1 byte: 0, closed until the next record is on the disk
ghost use Rattle.std.specs.Prelude.{◌≡◌, ℕ, ◌+◌, ◌≤◌, ◌^◌, List, ◌++◌, length, take, drop, IfOk, vec_capacity};
ghost use Rattle.journal.specs.Leaf.{frame_of, record_of};

use crate::version::Version;
use as4_values::NoMemory;
use std::alloc::Global;
use std::marker::Model;

/// A record as bytes. Contracts see its body.
#[derive(Drop)]
pub struct Frame {
    bytes: Vec<u8>,
}

impl Model for Frame {
    ghost use Rattle.std.specs.Prelude.{◌≡◌, ℕ, ◌+◌, ◌-◌, ◌≤◌, ◌^◌, List, length, take, drop};
    ghost use Rattle.journal.specs.Leaf.{frame_of};

    ghost Value = { List ℕ };

    ghost view = { λ f. take (length f.bytes.items - 10) (drop 9 f.bytes.items) };

    ghost invariant = { λ f. (f.bytes.items ≡ frame_of (take (length f.bytes.items - 10) (drop 9 f.bytes.items)))
        × (length f.bytes.items ≤ 2 ^ 30 + 10) };
}

impl Frame {
    /// A record with this body, which has at most 1,073,741,824 bytes.
    pub fn of(alloc: Global, body: &[u8]) -> Result<Frame, NoMemory>
        requires { length body.now ≤ 2 ^ 30 }
        ensures { IfOk result (λ frame. frame ≡ body.now) }
    {
        let mut bytes = Frame::begin(alloc, body.len())?;
        bytes.extend_from_slice(body)?;
        Frame::end(bytes)
    }

    /// What stands before a body of this length, at most 1,073,741,824 bytes, with room for the whole record: so a body
    /// can be written where it is to stand.
    pub fn begin(alloc: Global, len: usize) -> Result<Vec<u8>, NoMemory>
        requires { len ≤ 2 ^ 30 }
        ensures front { IfOk result (λ bytes. (body : List ℕ) → length body ≡ len
            → bytes.items ++ body ≡ record_of Version.Two body) }
        ensures room { IfOk result (λ bytes. len + 10 ≤ vec_capacity bytes) }
    {
        let mut bytes = Vec::with_capacity(alloc, len + 10)?;
        bytes.push(1)?;
        bytes.extend_from_slice(&(len as u64).to_be_bytes())?;
        Ok(bytes)
    }

    /// The record of the body that was written behind what `begin` gave; its closed gate is put behind it.
    pub fn end(mut bytes: Vec<u8>) -> Result<Frame, NoMemory>
        requires { (body : List ℕ) × (length body ≤ 2 ^ 30) × (bytes.items ≡ record_of Version.Two body) }
        ensures { IfOk result (λ frame. (body : List ℕ) → bytes.items ≡ record_of Version.Two body → frame ≡ body) }
    {
        bytes.push(0)?;
        Ok(Frame { bytes })
    }

    /// Puts another body of the same length in the place of this one.
    pub fn fill(&mut self, body: &[u8])
        requires { length body.now ≡ length self.old }
        ensures { self.new ≡ body.now }
    {
        put_body(&mut self.bytes, body);
    }

    /// How many bytes the body has.
    pub fn body_len(&self) -> u64
        ensures len { result ≡ length self.now }
        ensures small { length self.now ≤ 2 ^ 30 }
    {
        self.bytes.len() as u64 - 10
    }

    /// All of the record but the gate behind it.
    pub(crate) fn head(&self) -> &[u8]
        ensures { result.now ≡ record_of Version.Two self.now }
    {
        &self.bytes[..self.bytes.len() - 1]
    }

    /// All of the record but its own gate.
    pub(crate) fn tail(&self) -> &[u8]
        ensures { result.now ≡ drop 1 (frame_of self.now) }
    {
        &self.bytes[1..]
    }
}

// Puts a body behind the length.
fn put_body(bytes: &mut [u8], body: &[u8])
    requires { length bytes.old ≡ length body.now + 10 }
    ensures { bytes.new ≡ take 9 bytes.old ++ body.now ++ drop (9 + length body.now) bytes.old }
{
    bytes[9..9 + body.len()].copy_from_slice(body);
}
