//! What is at a gate of a leaf: a record, a closed gate, or neither.
ghost use Rattle.std.specs.Prelude.{◌≡◌, ℕ, ◌+◌, ◌<◌, ◌≤◌, ◌^◌, List, length, take, drop, IfOk, IfSome, IfNone, OnOk};
ghost use Rattle.as4_flow.specs.Flow.{Told};
ghost use Rattle.as4_disk.specs.Faults.{HasCause, HasReadCause};
ghost use Rattle.as4_disk.specs.Leaving.{Quiet};
ghost use Rattle.journal.specs.Leaf.{width_of, limit_of};
ghost use Rattle.journal.specs.Reading.{IsNext, IsThere, IsWithin, IsAhead, IsLength, IsHead, HasNoBody, IsBodyAt};

use crate::version::Version;
use as4_disk::{Disk, DiskFailed, Part, ReadFault};
use as4_values::Octets;
use std::alloc::Global;

/// What is at a gate.
#[derive(Drop)]
pub enum Next {
    /// An open gate, a record with this body, and another gate; and, where the leaf has both, that gate and the length
    /// after it.
    Record(Octets, Option<[u8; 9]>),
    /// A gate that is closed, as this byte.
    Closed(u8),
    /// An open gate that no whole record follows.
    Broken,
}

/// Reads what is at a gate: one device call for the part's length, one for the gate and the length after it unless they
/// were read ahead, and one for the body and what follows it.
pub(crate) fn read_next<D: Disk>(
    alloc: Global,
    disk: &mut D,
    part: Part,
    version: Version,
    gate: u64,
    ahead: Option<[u8; 9]>,
) -> Result<Next, ReadFault>
    requires { gate < 2 ^ 32 }
    ensures next { IfOk result (λ next. Told (D.seen disk.old) (λ b.
        IsAhead version (drop gate (b part)) ahead → IsNext version gate (b part) next)) }
    ensures there { IfOk result (λ next. Told (D.seen disk.old) (λ b. IsThere gate (b part) next)) }
    ensures within { IfOk result (λ next. IsWithin version gate next) }

    ensures quiet { Quiet D.Disk disk.old disk.new }
    ensures cause { HasReadCause (D.fault_count disk.old) (D.fault_count disk.new) result }
{
    let size = disk.len(part)?;
    if size <= gate {
        return Ok(Next::Broken);
    }
    let most = 1 + version.width();
    let mut room = [0; 9];
    let head = &mut room[..(size - gate).min(most) as usize];
    read_head(disk, part, gate, ahead, head)?;
    let byte = head[0];
    if byte != 1 {
        return Ok(Next::Closed(byte));
    }
    let Some(len) = body_len(version, gate, size - gate - 1, &head[1..]) else {
        return Ok(Next::Broken);
    };
    let at = gate + most;
    let bytes = read_there(alloc, disk, part, at, (len + most).min(size - at))?;
    let (body, ahead) = split_body(version, bytes, len as usize);
    Ok(Next::Record(body, ahead))
}

/// Reads the gate and the bytes after it, as many as there is room for, unless they were read ahead.
fn read_head<D: Disk>(
    disk: &mut D,
    part: Part,
    gate: u64,
    ahead: Option<[u8; 9]>,
    head: &mut [u8],
) -> Result<(), DiskFailed>
    requires there { Told (D.seen disk.old) (λ b. gate + length head.old ≤ length (b part)) }
    requires room { length head.old ≤ 9 }
    ensures head { OnOk result (Told (D.seen disk.old) (λ b. (version : Version)
        → length head.old ≤ 1 + width_of version → IsAhead version (drop gate (b part)) ahead
        → head.new ≡ take (length head.old) (drop gate (b part)))) }

    ensures quiet { Quiet D.Disk disk.old disk.new }
    ensures cause { HasCause (D.fault_count disk.old) (D.fault_count disk.new) result }
{
    match ahead {
        Some(ahead) => {
            head.copy_from_slice(&ahead[..head.len()]);
            Ok(())
        }
        None => disk.read_at(part, gate, head),
    }
}

/// Reads bytes that the part has, where the disk is observable.
fn read_there<D: Disk>(
    alloc: Global,
    disk: &mut D,
    part: Part,
    at: u64,
    count: u64,
) -> Result<Vec<u8>, ReadFault>
    requires there { Told (D.seen disk.old) (λ b. at + count ≤ length (b part)) }
    ensures bytes { IfOk result (λ bytes. Told (D.seen disk.old) (λ b. bytes.items ≡ take count (drop at (b part)))) }
    ensures len { IfOk result (λ bytes. length bytes.items ≡ count) }

    ensures quiet { Quiet D.Disk disk.old disk.new }
    ensures cause { HasReadCause (D.fault_count disk.old) (D.fault_count disk.new) result }
{
    let mut bytes = vec![in alloc; 0; count as usize]?;
    disk.read_at(part, at, &mut bytes)?;
    Ok(bytes)
}

/// The body of this length, and what was read after it, where that is a gate and a length.
fn split_body(version: Version, bytes: Vec<u8>, len: usize) -> (Octets, Option<[u8; 9]>)
    requires { len ≤ length bytes.items }
    ensures body { result.0 ≡ take len bytes.items }
    ensures ahead { IfSome result.1 (λ head. (length bytes.items ≡ len + (1 + width_of version))
        × (drop len bytes.items ≡ take (1 + width_of version) head)) }
{
    let ahead = head_of(version, &bytes[len..]);
    let mut bytes = bytes;
    bytes.truncate(len);
    (Octets::of(bytes), ahead)
}

/// These bytes, where they are a gate and a length, at the beginning of 9.
fn head_of(version: Version, bytes: &[u8]) -> Option<[u8; 9]>
    ensures { IfSome result (λ head. (length bytes.now ≡ 1 + width_of version)
        × (bytes.now ≡ take (1 + width_of version) head)) }
{
    if bytes.len() as u64 != 1 + version.width() {
        return None;
    }
    let mut head = [0; 9];
    head[..bytes.len()].copy_from_slice(bytes);
    Some(head)
}

/// How long the body after an open gate is, where a whole record is there: of the bytes after the gate, `head` is
/// the front that a length takes, and there are `count` of them.
pub(crate) fn body_len(version: Version, gate: u64, count: u64, head: &[u8]) -> Option<u64>
    requires { gate < 2 ^ 32 }
    ensures body { IfSome result (λ len. (behind : List ℕ) → IsHead version count head.now behind
        → IsBodyAt version gate behind (take len (drop (width_of version) behind))) }
    ensures within { IfSome result (λ len. gate + 1 + width_of version + len < limit_of version) }
    ensures there { IfSome result (λ len. width_of version + len < count) }
    ensures none { IfNone result ((behind : List ℕ) → IsHead version count head.now behind
        → HasNoBody version gate behind) }
{
    let width = version.width();
    if head.len() as u64 != width {
        return None;
    }
    let len = length_in(version, head);
    if version.limit().saturating_sub(gate + 1 + width) <= len {
        return None;
    }
    if count.saturating_sub(width) <= len {
        return None;
    }
    Some(len)
}

// A length of this version.
fn length_in(version: Version, bytes: &[u8]) -> u64
    requires { length bytes.now ≡ width_of version }
    ensures { IsLength version result bytes.now }
{
    match version {
        Version::One => short_length(bytes),
        Version::Two => long_length(bytes),
    }
}

fn short_length(bytes: &[u8]) -> u64
    requires { length bytes.now ≡ 4 }
    ensures { IsLength Version.One result bytes.now }
{
    u64::from(u32::from_be_bytes([bytes[0], bytes[1], bytes[2], bytes[3]]))
}

fn long_length(bytes: &[u8]) -> u64
    requires { length bytes.now ≡ 8 }
    ensures { IsLength Version.Two result bytes.now }
{
    u64::from_be_bytes([
        bytes[0], bytes[1], bytes[2], bytes[3], bytes[4], bytes[5], bytes[6], bytes[7],
    ])
}
