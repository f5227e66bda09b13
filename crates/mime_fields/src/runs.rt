//! Spaces, lines and words.
ghost use Rattle.std.specs.Prelude.{◌≡◌, option_map};
ghost use Rattle.std.specs.List.{list_all};
ghost use Rattle.std.specs.Str.{str_eq_ignore_ascii_case};
ghost use Rattle.byte_forms.specs.Classes.{is_space};
ghost use Rattle.byte_forms.specs.Cuts.{strip_prefix, skip};
ghost use Rattle.mime_fields.specs.Fields.{crlf, is_line_byte};

use crate::class::Class;
use byte_forms::{is_space, skip, strip_prefix};

/// Whether all bytes are spaces and tabs.
pub fn are_spaces(bytes: &[u8]) -> bool
    ensures { result ≡ list_all is_space bytes.now }
{
    bytes.iter().all(|byte| is_space(*byte))
}

/// The bytes after the first line end, which is CRLF and comes before any other CR or LF.
pub fn after_line(bytes: &[u8]) -> Option<&[u8]>
    ensures { option_map (λ rest. rest.now) result ≡ strip_prefix crlf (skip is_line_byte bytes.now) }
{
    strip_prefix(b"\r\n", skip(Class::Line, bytes))
}

/// Whether two words are equal, in any case.
pub fn is_same_word(bytes: &[u8], word: &[u8]) -> bool
    ensures { result ≡ str_eq_ignore_ascii_case bytes.now word.now }
{
    bytes.eq_ignore_ascii_case(word)
}
