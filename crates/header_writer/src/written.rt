//! Values with one text in a document, and lists of them.
ghost use Rattle.std.specs.Prelude.{◌≡◌, ◌++◌, OnOk, List, ℕ};
ghost use Rattle.std.specs.List.{flat_map};
ghost use Rattle.as4_envelope.specs.Markup.{listed};

use as4_envelope::{push_end_tag, push_tag_end, push_tag_start};
use as4_values::NoMemory;

/// A value with one text in a document.
pub trait Written {
    ghost text: { Self → List ℕ };

    /// Adds the text.
    fn push_to(&self, out: &mut Vec<u8>) -> Result<(), NoMemory>
        ensures { OnOk result (out.new.items ≡ out.old.items ++ text self.now) };
}

/// Adds the texts of all items, in order.
pub fn push_all<T: Written>(out: &mut Vec<u8>, items: &[T]) -> Result<(), NoMemory>
    ensures { OnOk result (out.new.items ≡ out.old.items ++ flat_map T.text items.now) }
{
    for item in items {
        item.push_to(out)?;
    }
    Ok(())
}

/// Adds the element that holds the texts of all items, or nothing if there are none.
#[tactic(auto, unfolding(as4_envelope::specs::Markup::listed))]
pub fn push_listed<T: Written>(out: &mut Vec<u8>, name: &[u8], items: &[T]) -> Result<(), NoMemory>
    ensures { OnOk result (out.new.items ≡ out.old.items ++ listed name.now T.text items.now) }
{
    if items.is_empty() {
        return Ok(());
    }
    push_tag_start(out, name)?;
    push_tag_end(out)?;
    push_all(out, items)?;
    push_end_tag(out, name)
}
