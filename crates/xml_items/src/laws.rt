//! Laws of items, in the terms of `next_item`'s contract.
ghost use Rattle.std.specs.Prelude.{◌≡◌, ◌↔◌, ℕ, List, Some};
ghost use Rattle.xml_items.specs.Cutting.{item_at};
ghost use Rattle.xml_items.specs.Grammar.{BeginsItem};
ghost use Rattle.xml_items.specs.Items.{Item};

/// An item is cut off the bytes exactly if it is written there, byte for byte (XML 1.0, sections 2.4, 2.5, 2.8 and
/// 3.1).
pub fn item_is_written()
    ensures { (bytes : List ℕ) (item : Item) (rest : List ℕ) →
        (item_at bytes ≡ Some (item, rest)) ↔ BeginsItem bytes item rest }
{}

/// Bytes begin with at most one item.
pub fn one_item()
    ensures { (bytes : List ℕ) (a b : Item) (p q : List ℕ) →
        BeginsItem bytes a p → BeginsItem bytes b q → (a ≡ b) × (p ≡ q) }
{}
