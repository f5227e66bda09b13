//! Media texts: the Content-Type of a payload.

ghost use Rattle.std.specs.Prelude.{◌≡◌, ◌-◌, ◌&&◌, ◌||◌, ◌==◌, nat_lt, not, length, slice_index};
ghost use Rattle.std.specs.List.{list_all};
ghost use Rattle.as4_values.specs.Payload.{is_media_text};
ghost use Rattle.byte_forms.specs.Classes.{is_space};

use byte_forms::is_space;

/// The most bytes of a media text.
const MAX_MEDIA: usize = 1024;

/// Whether the bytes are a media text (RFC 2045, section 5.1): empty, or one line of at most 1,024 bytes without a
/// space or tab at either end.
#[tactic(auto, unfolding(crate::specs::Payload::is_media_text))]
pub fn is_media_text(bytes: &[u8]) -> bool
    ensures { result ≡ is_media_text bytes.now }
{
    bytes.len() <= MAX_MEDIA && is_one_line(bytes) && !has_space_at_end(bytes)
}

fn is_one_line(bytes: &[u8]) -> bool
    ensures { result ≡ list_all (λ b. not ((b == 10) || (b == 13))) bytes.now }
{
    bytes.iter().all(|byte| !matches!(*byte, b'\n' | b'\r'))
}

/// Whether the first byte or the last one is a space or a tab.
fn has_space_at_end(bytes: &[u8]) -> bool
    ensures { result ≡ (nat_lt 0 (length bytes.now)
        && (is_space (slice_index bytes.now 0) || is_space (slice_index bytes.now (length bytes.now - 1)))) }
{
    if bytes.is_empty() {
        return false;
    }
    is_space(bytes[0]) || is_space(bytes[bytes.len() - 1])
}
