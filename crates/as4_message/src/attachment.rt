//! A payload as received.
ghost use Rattle.std.specs.Prelude.{IsTrue};
ghost use Rattle.as4_values.specs.Payload.{IsContentId, is_media_text};

use as4_values::{Named, Octets};

/// A payload as received: its head is owned, its content is borrowed from the package.
#[derive(Drop)]
pub struct Attachment<'a> {
    /// The part's Content-ID without its angle brackets (RFC 2392).
    pub cid: Octets,
    /// The part's Content-Type; empty where the part has none.
    pub media: Octets,
    /// The part's bytes, as received.
    pub content: &'a [u8],
    pub ghost named: { IsContentId cid },
    pub ghost typed: { IsTrue (is_media_text media) },
}

impl Named for Attachment<'_> {
    ghost name = { λ part. part.cid };

    fn cid(&self) -> &[u8] {
        self.cid.bytes()
    }
}
