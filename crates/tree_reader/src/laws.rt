//! Laws of reading, each for all trees.

ghost use Rattle.std.specs.Prelude.{◌≡◌, ℕ, List, IsTrue, ◌≤◌, length};
ghost use Rattle.as4_envelope.specs.declared.tree.Element.{Element};
ghost use Rattle.as4_envelope.specs.Tree.{tree_text};
ghost use Rattle.as4_envelope.specs.Writable.{is_writable};
ghost use Rattle.tree_reader.specs.Documents.{limit, IsDocument, IsPlace};
ghost use Rattle.tree_reader.specs.Readable.{has_names};

/// The text that `write_tree` writes for a tree is a document of that tree, if the tree's local names are names and the
/// text is within the limit of length. So `read_tree` returns the tree again.
pub fn text_is_document()
    ensures { (tree : Element) → IsTrue (is_writable tree) → IsTrue (has_names tree) → length (tree_text tree) ≤ limit
        → IsDocument (tree_text tree) tree }
{}

/// Bytes are a document of at most one tree.
pub fn one_tree()
    ensures { (bytes : List ℕ) (one other : Element) → IsDocument bytes one → IsDocument bytes other → one ≡ other }
{}

/// For documents of at most `most` levels, there is at most one place where bytes cease to begin a document.
pub fn one_place()
    ensures { (most : ℕ) (bytes : List ℕ) (at other : ℕ) → IsPlace most bytes at → IsPlace most bytes other → at ≡ other }
{}
