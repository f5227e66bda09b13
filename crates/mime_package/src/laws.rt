//! Laws of packages, in the terms of their readers' contracts.

ghost use Rattle.std.specs.Prelude.{◌≡◌, ◌↔◌, ◌++◌, ℕ, List, Ok, Err, IsTrue};
ghost use Rattle.mime_fields.specs.Fields.{PartValue, crlf};
ghost use Rattle.mime_package.specs.Encoded.{EncodedAt};
ghost use Rattle.mime_package.specs.Pieces.{IsDelimiter, Holds, BreaksAt, HasParts};
ghost use Rattle.mime_package.specs.declared.read.MimeRefusal.TheVariants.{NoBoundary, BadPart, Encoding, NoMemory};
ghost use Rattle.mime_package.specs.Reading.{is_boundary, package_of, parts_of};

/// The parts that are read are those of the body's only cut at its delimiters. Conversely, each such cut whose pieces
/// spell parts is read (RFC 2046, section 5.1.1).
pub fn a_body_is_cut_so()
    ensures { (boundary body : List ℕ) (parts : List PartValue) → IsTrue (is_boundary boundary) →
        ((parts_of boundary body ≡ Ok parts) ↔ HasParts boundary body parts) }
{}

/// A body is refused with `NoBoundary` exactly if it contains no delimiter. A CRLF is put before the body, since a
/// delimiter at the body's first byte needs none.
pub fn a_body_without_a_delimiter()
    ensures { (boundary body : List ℕ) →
        ((parts_of boundary body ≡ Err NoBoundary) ↔ (¬ (Holds (IsDelimiter boundary) (crlf ++ body)))) }
{}

/// `BadPart` names the index at which the pieces of the body break off. The pieces before it spell parts. Then either
/// their number is the maximum of a package, or no delimiter ends what follows, or the next piece spells no part.
pub fn a_bad_part_is_the_first()
    ensures { (boundary body : List ℕ) (k : ℕ) → IsTrue (is_boundary boundary) →
        ((parts_of boundary body ≡ Err (BadPart k)) ↔ BreaksAt boundary body k) }
{}

/// `Encoding` names the first of the body's parts whose content is encoded (RFC 2045, section 6).
pub fn an_encoded_part_is_the_first()
    ensures { (media body : List ℕ) (k : ℕ) → package_of media body ≡ Err (Encoding k) → EncodedAt media body k }
{}

/// The meaning of a media text and a body is never `NoMemory`: only the reader reports it, when memory ran out.
pub fn the_meaning_wants_no_memory()
    ensures { (media body : List ℕ) → ¬ (package_of media body ≡ Err NoMemory) }
{}
