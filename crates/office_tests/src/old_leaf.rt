//! Leaves of version 1, made from leaves of version 2.
use crate::disks::TWO_TICKS;
use std::alloc::Global;

/// The leaf of version 1 with the same bodies. `None` if this leaf has bytes after its last gate.
pub(crate) fn old_leaf(alloc: Global, leaf: &[u8]) -> Option<Vec<u8>> {
    let mut rest = leaf.strip_prefix(b"AS4JNL2\n")?;
    let mut old = Vec::from_slice(alloc, b"AS4JNL1\n").ok()?;
    'records: while let [1, 0, 0, 0, 0, a, b, c, d, tail @ ..] = rest {
        let length = u32::from_be_bytes([*a, *b, *c, *d]) as usize;
        if length > tail.len() {
            return None;
        }
        old.extend_from_slice(&[1, *a, *b, *c, *d]).ok()?;
        old.extend_from_slice(&tail[..length]).ok()?;
        rest = &tail[length..];
    }
    if rest != b"\0".as_slice() {
        return None;
    }
    old.push(0).ok()?;
    Some(old)
}

/// A tick to 1,000 and one to 2,000, in version 1.
const OLD_TICKS: &[u8] =
    b"AS4JNL1\n\x01\0\0\0\x0b\0\x01\x02\0\0\0\0\0\0\x03\xe8\x01\0\0\0\x0b\0\x01\x02\0\0\0\0\0\0\x07\xd0\0";

fn is_made(alloc: Global) -> Option<bool> {
    let old = old_leaf(alloc, &TWO_TICKS)?;
    let is_so = old.as_slice() == OLD_TICKS;
    drop(old);
    Some(is_so)
}

#[test]
fn a_leaf_of_version_1_is_made(rt: HostRuntime) {
    assert_eq!(rt; is_made(rt.alloc()), Some(true));
}
