//! Bytes cut after a prefix, or at the first place of a byte.
ghost use Rattle.std.specs.Prelude.{◌≡◌, List, ℕ, IfSome};
ghost use Rattle.std.specs.Option.{IfNone, IsSomeAnd, option_map};
ghost use Rattle.byte_forms.specs.Cuts.{strip_prefix};
ghost use Rattle.byte_forms.specs.Parted.{Lacks, parted};

use memchr::memchr;

/// The bytes after a prefix, where they begin with it.
#[tactic(auto, unfolding(crate::specs::Cuts::strip_prefix))]
pub fn strip_prefix<'a>(prefix: &[u8], bytes: &'a [u8]) -> Option<&'a [u8]>
    ensures { option_map (λ rest. rest.now) result ≡ strip_prefix prefix.now bytes.now }
{
    if !bytes.starts_with(prefix) {
        return None;
    }
    let (_, rest) = bytes.split_at(prefix.len());
    Some(rest)
}

/// The bytes before the first place of a byte, and those after it.
pub fn cut_at(byte: u8, bytes: &[u8]) -> Option<(&[u8], &[u8])>
    ensures found { IfSome result (λ parts. bytes.now ≡ parted byte parts.0.now parts.1.now) }
    ensures first { IfSome result (λ parts. Lacks byte parts.0.now) }
    ensures none { IfNone result (Lacks byte bytes.now) }
    ensures only { (front rest : List ℕ) → Lacks byte front → bytes.now ≡ parted byte front rest
        → IsSomeAnd result (λ parts. (parts.0.now ≡ front) × (parts.1.now ≡ rest)) }
{
    let at = memchr(byte, bytes)?;
    Some((&bytes[..at], &bytes[at + 1..]))
}
