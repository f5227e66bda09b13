//! A part of a package: its head is read, its content is borrowed.
ghost use Rattle.std.specs.Prelude.{IfSome, IsTrue};
ghost use Rattle.as4_values.specs.Payload.{IsContentId, is_media_text};
ghost use Rattle.std.proofs.Props.{props};

use as4_values::Octets;

/// A part of a package (RFC 2046, section 5.1; RFC 2387).
#[derive(Drop)]
pub struct Part<'a> {
    /// Its Content-ID without angle brackets (RFC 2045, section 7; RFC 2392), if it has one: 1 to 255 bytes from `!` to
    /// `~` except `<` and `>`.
    pub id: Option<Octets>,
    /// Its Content-Type, unfolded, of at most 1,024 bytes and without a space or tab at either end; empty if it has
    /// none. Whether it spells a media type isn't checked.
    pub media: Octets,
    /// Whether the content is sent unencoded (RFC 2045, section 6.2): its Content-Transfer-Encoding is `7bit`, `8bit`
    /// or `binary`, or it has none.
    pub identity: bool,
    /// The bytes after the empty line that ends the head; empty if there is no such line.
    pub content: &'a [u8],
    pub ghost named: { IfSome id IsContentId } by { Prim.hlevel props },
    pub ghost typed: { IsTrue (is_media_text media) },
}
