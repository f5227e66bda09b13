//! Laws of media types and parts, in the terms of the contracts of `read_media_type` and `read_part`.
ghost use Rattle.std.specs.Prelude.{◌≡◌, ◌↔◌, ℕ, List, Some};
ghost use Rattle.mime_fields.specs.Fields.{Field, fields_within, max_fields};
ghost use Rattle.mime_fields.specs.MediaTypes.{MediaType, media_type_of};
ghost use Rattle.mime_fields.specs.WrittenParts.{HasFields};
ghost use Rattle.mime_fields.specs.WrittenTypes.{IsMediaType};

/// A text is read as a media type exactly if it is written as that type (RFC 2045, section 5.1).
pub fn a_media_type_is_written_so()
    ensures { (text : List ℕ) (m : MediaType) → (media_type_of text ≡ Some m) ↔ IsMediaType text m }
{}

/// Bytes are read as these fields and this content exactly if they are written so (RFC 2822, section 2.2; RFC 2046,
/// section 5.1).
pub fn a_part_is_written_so()
    ensures { (bytes : List ℕ) (fields : List Field) (content : List ℕ) →
        (fields_within max_fields bytes ≡ Some (fields, content)) ↔ HasFields bytes fields content }
{}
