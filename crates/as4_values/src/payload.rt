//! Payloads of user messages.

ghost use Rattle.std.specs.Prelude.{IsTrue};
ghost use Rattle.as4_values.specs.Payload.{IsContentId, is_media_text};

use crate::lists::Octets;
use crate::memory::NoMemory;
use crate::plain_data::PlainData;
use std::alloc::Global;

/// A payload of a user message: a part of its package, after the root.
#[derive(Drop)]
pub struct Payload {
    /// The part's Content-ID without its angle brackets (RFC 2392): 1 to 255 bytes from `!` to `~` without
    /// `<` and `>`.
    pub cid: Octets,
    /// The part's Content-Type, one line of at most 1,024 bytes without a space or tab at either end; empty
    /// where the part has none.
    pub media: Octets,
    /// The part's bytes, as received.
    pub content: Octets,
    pub ghost named: { IsContentId cid },
    pub ghost typed: { IsTrue (is_media_text media) },
}

/// A payload as it is submitted.
#[derive(Drop)]
pub struct Load {
    pub media: Octets,
    pub content: Octets,
}

impl PlainData for Payload {
    fn try_clone(&self, alloc: Global) -> Result<Payload, NoMemory> {
        Ok(Payload {
            cid: self.cid.try_clone(alloc)?,
            media: self.media.try_clone(alloc)?,
            content: self.content.try_clone(alloc)?,
        })
    }

    fn same(&self, other: &Payload) -> bool {
        self.cid.same(&other.cid)
            && self.media.same(&other.media)
            && self.content.same(&other.content)
    }
}

impl PlainData for Load {
    fn try_clone(&self, alloc: Global) -> Result<Load, NoMemory> {
        Ok(Load {
            media: self.media.try_clone(alloc)?,
            content: self.content.try_clone(alloc)?,
        })
    }

    fn same(&self, other: &Load) -> bool {
        self.media.same(&other.media) && self.content.same(&other.content)
    }
}
