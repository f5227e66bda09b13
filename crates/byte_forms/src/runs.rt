//! Runs of bytes of one class.
ghost use Rattle.std.specs.Prelude.{◌≡◌, ◌≤◌, length, not, option_map, position};
ghost use Rattle.std.specs.List.{prefix_len};
ghost use Rattle.byte_forms.specs.Cuts.{run_at, skip};

use crate::ByteClass;

/// The bytes after the longest run of this class that they begin with, which may be empty.
pub fn skip<C: ByteClass>(class: C, bytes: &[u8]) -> &[u8]
    ensures { result.now ≡ skip (C.contains class) bytes.now }
{
    let (_, rest) = bytes.split_at(run_len(class, bytes));
    rest
}

/// The longest run of this class that the bytes begin with, of at least one byte, and the bytes after it.
#[tactic(auto, unfolding(crate::specs::Cuts::run_at))]
pub fn run_at<C: ByteClass>(class: C, bytes: &[u8]) -> Option<(&[u8], &[u8])>
    ensures { option_map (λ x. (x.0.now, x.1.now)) result ≡ run_at (C.contains class) bytes.now }
{
    let len = run_len(class, bytes);
    if len == 0 {
        return None;
    }
    Some(bytes.split_at(len))
}

/// The length of the longest run of this class that the bytes begin with.
pub fn run_len<C: ByteClass>(class: C, bytes: &[u8]) -> usize
    ensures value { result ≡ prefix_len (C.contains class) bytes.now }
    ensures within { result ≤ length bytes.now }
{
    run_end(class, bytes).unwrap_or(bytes.len())
}

fn run_end<C: ByteClass>(class: C, bytes: &[u8]) -> Option<usize>
    ensures { result ≡ position (λ b. not (C.contains class b)) bytes.now }
{
    bytes.iter().position(|byte| !class.has(*byte))
}
