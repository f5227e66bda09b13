//! What the meaning of an envelope doesn't depend on. Each law is the contract of a function that does nothing.

ghost use Rattle.std.specs.Prelude.{◌≡◌, ◌≢◌, ℕ, suc, List, [], ◌∷◌, ◌++◌, false, ◌&&◌, Err};
ghost use Rattle.as4_envelope.specs.Tree.{ebms};
ghost use Rattle.as4_envelope.specs.declared.tree.Attribute.{Attribute};
ghost use Rattle.as4_envelope.specs.declared.tree.Element.{Element};
ghost use Rattle.header_reader.specs.Elements.{holds_only, is_ebms, is_plain};
ghost use Rattle.header_reader.specs.Envelope.{is_soap, must_be_understood, unit_of};
ghost use Rattle.header_reader.specs.declared.names.AttributeName.{AttributeName};
ghost use Rattle.header_reader.specs.declared.refusal.HeaderRefusal.TheVariants.{NoMemory};
ghost use Rattle.message_model.specs.UnitTree.{node};
ghost use Rattle.unit_laws.specs.Alike.{ReadAlike, SameByName, SameName};

/// The order of children with different names says nothing, at any depth. The order of children with one name may say
/// something, and so does that of the elements of SOAP. Two neighbours that change places are such a difference.
pub fn the_order_of_names_says_nothing()
    ensures same { (levels : ℕ) (a b : Element) → SameByName levels a b → unit_of a ≡ unit_of b }
    ensures swapped { (space local text : List ℕ) (attributes : List Attribute) (front back : List Element) (a b : Element)
        → ¬ SameName a b → (is_soap a && is_soap b) ≡ false
        → SameByName 1 (node space local attributes text (front ++ a ∷ b ∷ back)) (node space local attributes text (front ++ b ∷ a ∷ back)) }
{}

/// What the reader skips says nothing: the content of the body; blocks that aren't mandatory; in an element of ebMS the
/// children outside of ebMS, attributes with other names, and the text where there are children of ebMS. One such child or
/// attribute more, or another such text, is such a difference, and so it is deeper in a tree.
pub fn what_is_skipped_says_nothing()
    ensures same { (levels : ℕ) (a b : Element) → ReadAlike levels a b → unit_of a ≡ unit_of b }
    ensures child { (local text : List ℕ) (attributes : List Attribute) (front back : List Element) (foreign : Element)
        → is_ebms foreign ≡ false
        → ReadAlike 1 (node ebms local attributes text (front ++ back)) (node ebms local attributes text (front ++ foreign ∷ back)) }
    ensures text { (local text other : List ℕ) (attributes : List Attribute) (children : List Element)
        → holds_only [] (node ebms local attributes text children) ≡ false
        → ReadAlike 1 (node ebms local attributes text children) (node ebms local attributes other children) }
    ensures attribute { (local text : List ℕ) (front back : List Attribute) (foreign : Attribute) (children : List Element)
        → ((label : AttributeName) → is_plain label foreign ≡ false)
        → ReadAlike 1 (node ebms local (front ++ back) text children) (node ebms local (front ++ foreign ∷ back) text children) }
    ensures deeper { (levels : ℕ) (space local text : List ℕ) (attributes : List Attribute) (front back : List Element)
        (a b : Element) → ReadAlike levels a b → must_be_understood a ≡ must_be_understood b
        → ReadAlike (suc levels) (node space local attributes text (front ++ a ∷ back)) (node space local attributes text (front ++ b ∷ back)) }
{}

/// The meaning of a tree is never "out of memory": that is for the reader alone to report.
pub fn no_meaning_is_out_of_memory()
    ensures { (tree : Element) → unit_of tree ≢ Err NoMemory }
{}
