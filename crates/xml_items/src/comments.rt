//! Comments (XML 1.0, section 2.5).
ghost use Rattle.std.specs.Prelude.{◌≡◌, []};
ghost use Rattle.std.specs.Option.{option_map};
ghost use Rattle.xml_items.specs.Cutting.{dashes_at, comment_at};
ghost use Rattle.xml_items.specs.Raw.{item_of};

use crate::item::RawItem;
use byte_forms::strip_prefix;
use memchr::memmem;

/// A comment, given the bytes after its `<!`, and the rest.
#[tactic(auto, unfolding(crate::specs::Cutting::comment_at))]
pub fn comment_at(bytes: &[u8]) -> Option<(RawItem<'_>, &[u8])>
    ensures { option_map (λ x. (item_of x.0 [], x.1.now)) result ≡ comment_at bytes.now }
{
    let rest = strip_prefix(b"--", bytes)?;
    let (text, rest) = dashes_at(rest)?;
    let rest = strip_prefix(b">", rest)?;
    Some((RawItem::Comment(text), rest))
}

// The bytes before and after the first `--`.
#[tactic(auto, using(crate::proofs::CommentLemmas::dashes_found, crate::proofs::CommentLemmas::no_dashes_found))]
fn dashes_at(bytes: &[u8]) -> Option<(&[u8], &[u8])>
    ensures { option_map (λ x. (x.0.now, x.1.now)) result ≡ dashes_at bytes.now }
{
    let at = memmem::find(bytes, b"--")?;
    let (text, dashes) = bytes.split_at(at);
    let (_, rest) = dashes.split_at(2);
    Some((text, rest))
}
