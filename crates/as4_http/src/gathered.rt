//! Bytes that were gathered from a source, in one buffer, with room for more after them.
//!
//!     bytes | room for more
//!     0     len             room.len()
//!
//! The buffer grows by half of the bytes that it holds. The room is filled with zeros a piece at a time, and each
//! place once: a piece of one byte costs no more than a byte of a large piece.
ghost use Rattle.std.specs.Prelude.{◌≡◌, [], ◌+◌, ◌*◌, ◌/◌, ◌++◌, ◌<◌, ◌≤◌, max, length, take, drop, vec_len, vec_capacity, IfOk, OnOk, IfErr, OnErr, IsErrOf};
ghost use Rattle.as4_flow.specs.Flow.{Rose, Told};
ghost use Rattle.as4_flow.specs.Got.{IfGave, OnNothing, UnlessFailed};
ghost use Rattle.as4_http.specs.Came.{Came};
ghost use Rattle.as4_http.specs.Refused.{IsStop};

use crate::HttpRefusal;
use as4_flow::{Got, Source};
use as4_values::Octets;
use std::alloc::{AllocError, Global};
use std::marker::Model;

/// The most that one read is sure to have room for, where that much is wanted, in bytes.
const PIECE: usize = 1 << 16;

const _: () = prove!(PIECE == 65536);

// The room is filled with copies of these, many bytes at a time: `resize` writes one byte after another.
static ZEROS: [u8; PIECE] = [0; PIECE];

/// Contracts see it as the bytes.
#[derive(Drop)]
pub(crate) struct Gathered {
    room: Vec<u8>,
    len: usize,
}

impl Model for Gathered {
    ghost use Rattle.std.specs.Prelude.{ℕ, List, ◌≤◌, take, length};

    ghost Value = { List ℕ };

    ghost view = { λ gathered. take gathered.len gathered.room.items };

    ghost invariant = { λ gathered. gathered.len ≤ length gathered.room.items };
}

impl Gathered {
    pub(crate) fn new(alloc: Global) -> Gathered
        ensures { result ≡ [] }
    {
        Gathered {
            room: Vec::new(alloc),
            len: 0,
        }
    }

    pub(crate) fn bytes(&self) -> &[u8]
        ensures { result.now ≡ self.now }
    {
        &self.room[..self.len]
    }

    pub(crate) fn len(&self) -> usize
        ensures { result ≡ length self.now }
    {
        self.len
    }

    pub(crate) fn into_octets(self) -> Octets
        ensures { result ≡ self }
    {
        let Gathered { mut room, len } = self;
        room.truncate(len);
        Octets::of(room)
    }

    /// Appends these bytes.
    pub(crate) fn append(&mut self, bytes: &[u8]) -> Result<(), AllocError>
        ensures ok { OnOk result (self.new ≡ self.old ++ bytes.now) }
        ensures err { OnErr result (self.new ≡ self.old) }
    {
        self.room.truncate(self.len);
        self.room.extend_from_slice(bytes)?;
        self.len = self.room.len();
        Ok(())
    }

    /// Drops the first n bytes.
    pub(crate) fn drop_front(&mut self, n: usize)
        requires { n ≤ length self.old }
        ensures { self.new ≡ drop n self.old }
    {
        if n == 0 {
            return;
        }
        self.room.copy_within(n..self.len, 0);
        self.len -= n;
    }

    /// Appends a piece of the source, of this many bytes at most, and returns how many came.
    pub(crate) fn fill<S: Source>(
        &mut self,
        source: &mut S,
        most: usize,
    ) -> Result<usize, HttpRefusal>
        requires { 0 < most }
        ensures some { IfOk result (λ n. (1 ≤ n) × (n ≤ most)) }
        ensures came { IfOk result (λ n. Came n self.old self.new (S.left source.old) (S.left source.new)) }
        ensures same { OnErr result ((self.new ≡ self.old) × (S.left source.new ≡ S.left source.old)) }
        ensures stop { IfErr result IsStop }
        ensures cut { IsErrOf result HttpRefusal.Cut → Told (S.left source.old) (λ bytes. bytes ≡ []) }
        ensures fault { IsErrOf result HttpRefusal.ReadFault → Rose (S.faults source.old) (S.faults source.new) }
        ensures quiet { ¬ IsErrOf result HttpRefusal.ReadFault → S.faults source.new ≡ S.faults source.old }
        ensures counted { S.faults source.old ≤ S.faults source.new }
    {
        make_room(&mut self.room, self.len, most)?;
        match read_behind(&mut self.room, self.len, most, source) {
            Got::Gave(n) => {
                self.len += n;
                Ok(n)
            }
            Got::End => Err(HttpRefusal::Cut),
            Got::Failed => Err(HttpRefusal::ReadFault),
        }
    }
}

// Makes room after the first `len` bytes: for a piece, or for this many where that is less.
fn make_room(room: &mut Vec<u8>, len: usize, most: usize) -> Result<(), AllocError>
    requires wanted { 0 < most }
    requires within { len ≤ length room.old.items }
    ensures same { take len room.new.items ≡ take len room.old.items }
    ensures within { len ≤ length room.new.items }
    ensures ok { OnOk result (len < length room.new.items) }
{
    let piece = most.min(PIECE);
    if room.capacity() - len < piece {
        room.truncate(len);
        reserve(room, most)?;
    }
    let held = room.len() - len;
    if held < piece {
        room.extend_from_slice(&ZEROS[..piece - held])?;
    }
    Ok(())
}

// Reserves memory for this many bytes, and for no more than half of those that came, or two pieces.
fn reserve(room: &mut Vec<u8>, most: usize) -> Result<(), AllocError>
    ensures same { room.new.items ≡ room.old.items }
    ensures memory { vec_capacity room.new ≤ max (vec_capacity room.old) (vec_len room.old + max (vec_len room.old / 2) (2 * PIECE)) }
{
    room.reserve_exact((room.len() / 2).max(2 * PIECE).min(most))
}

// Reads a piece into the room after its first `len` bytes.
fn read_behind<S: Source>(room: &mut [u8], len: usize, most: usize, source: &mut S) -> Got
    requires wanted { 0 < most }
    requires some { len < length room.old }
    ensures some { IfGave result (λ n. (1 ≤ n) × (n ≤ most) × (len + n ≤ length room.new)) }
    ensures came { IfGave result (λ n.
        Came n (take len room.old) (take (len + n) room.new) (S.left source.old) (S.left source.new)) }
    ensures nothing { OnNothing result ((room.new ≡ room.old) × (S.left source.new ≡ S.left source.old)) }
    ensures end { result ≡ Got.End → Told (S.left source.old) (λ bytes. bytes ≡ []) }
    ensures failed { result ≡ Got.Failed → Rose (S.faults source.old) (S.faults source.new) }
    ensures quiet { UnlessFailed result (S.faults source.new ≡ S.faults source.old) }
    ensures counted { S.faults source.old ≤ S.faults source.new }
{
    let stop = len.saturating_add(most).min(room.len());
    source.read(&mut room[len..stop])
}
