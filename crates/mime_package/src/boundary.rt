//! Boundaries (RFC 2046, section 5.1.1).

ghost use Rattle.std.specs.Prelude.{◌≡◌, codes, nat_eq};
ghost use Rattle.std.specs.List.{list_all, ends_with};
ghost use Rattle.mime_package.specs.Reading.{is_boundary, is_boundary_byte};

/// Whether the bytes may be a boundary: 1 to 70 of its characters, the last of which is no space.
#[tactic(auto, unfolding(crate::specs::Reading::is_boundary))]
pub fn is_boundary(bytes: &[u8]) -> bool
    ensures { result ≡ is_boundary bytes.now }
{
    !bytes.is_empty() && bytes.len() <= 70 && are_boundary_bytes(bytes) && !ends_with_space(bytes)
}

fn are_boundary_bytes(bytes: &[u8]) -> bool
    ensures { result ≡ list_all is_boundary_byte bytes.now }
{
    bytes.iter().all(|byte| is_boundary_byte(*byte))
}

fn ends_with_space(bytes: &[u8]) -> bool
    ensures { result ≡ ends_with nat_eq bytes.now (codes " ") }
{
    bytes.ends_with(b" ")
}

fn is_boundary_byte(byte: u8) -> bool
    ensures { result ≡ is_boundary_byte byte }
{
    byte.is_ascii_alphanumeric()
        || matches!(
            byte,
            b' ' | b'\''
                | b'('
                | b')'
                | b'+'
                | b'_'
                | b','
                | b'-'
                | b'.'
                | b'/'
                | b':'
                | b'='
                | b'?'
        )
}
