//! The first item of a document's bytes (XML 1.0, sections 2.4, 2.5, 2.8 and 3.1).
//!
//!     <?xml version="1.0" ..?>    a declaration
//!     <!-- .. -->                 a comment
//!     <name attribute ..>         a start tag, closed if it ends in `/>`
//!     </name>                     an end tag
//!     anything but `<`            a text, up to the next `<` or the end
ghost use Rattle.std.specs.Prelude.{◌≡◌, [], IfOk};
ghost use Rattle.std.specs.Option.{option_map};
ghost use Rattle.xml_items.specs.Cutting.{markup_at, item_at};
ghost use Rattle.xml_items.specs.Raw.{item_of};

use crate::comments::comment_at;
use crate::declaration::declaration_at;
use crate::item::{RawAttribute, RawItem};
use crate::runs::split_text;
use crate::tags::{finish_at, start_at};
use as4_values::NoMemory;

/// The first item of the bytes, and the rest; `None` if there is no item, and at the end. The attributes of a start tag
/// replace the content of `attributes`, in order. After any other item and after `NoMemory`, the content of
/// `attributes` is unspecified. Only attributes allocate, and one vector serves all tags.
#[tactic(auto, unfolding(crate::specs::Cutting::item_at))]
pub fn next_item<'a>(
    bytes: &'a [u8],
    attributes: &mut Vec<RawAttribute<'a>>,
) -> Result<Option<(RawItem<'a>, &'a [u8])>, NoMemory>
    ensures { IfOk result (λ found.
        option_map (λ x. (item_of x.0 attributes.new.items, x.1.now)) found ≡ item_at bytes.now) }
{
    attributes.clear();
    match bytes {
        [] => Ok(None),
        [b'<', markup @ ..] => markup_at(markup, attributes),
        [_, ..] => {
            let (text, rest) = split_text(bytes);
            Ok(Some((RawItem::Text(text), rest)))
        }
    }
}

// The item whose first byte is `<`, given the bytes after it, and the rest.
#[tactic(auto, unfolding(crate::specs::Cutting::markup_at))]
fn markup_at<'a>(
    bytes: &'a [u8],
    attributes: &mut Vec<RawAttribute<'a>>,
) -> Result<Option<(RawItem<'a>, &'a [u8])>, NoMemory>
    requires { attributes.old.items ≡ [] }
    ensures { IfOk result (λ found.
        option_map (λ x. (item_of x.0 attributes.new.items, x.1.now)) found ≡ markup_at bytes.now) }
{
    match bytes {
        [] => Ok(None),
        [b'/', rest @ ..] => Ok(finish_at(rest)),
        [b'!', rest @ ..] => Ok(comment_at(rest)),
        [b'?', rest @ ..] => declaration_at(rest, attributes),
        [_, ..] => start_at(bytes, attributes),
    }
}
