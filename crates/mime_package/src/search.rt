//! The search for delimiters: first for their prefix, then for the whole line.

ghost use Rattle.std.specs.Prelude.{◌≡◌, ◌++◌, codes};
ghost use Rattle.std.specs.Option.{option_map};
ghost use Rattle.mime_fields.specs.Fields.{crlf};
ghost use Rattle.mime_package.specs.Reading.{delimiter_at, ending_at, up_to};
ghost use Rattle.mime_package.specs.Lent.{ending_of};

use crate::delimiters::{Ending, delimiter_at, ending_at, first_at};
use memchr::memmem::Finder;

/// The search for the delimiters of one boundary, made once for a body.
#[derive(Drop)]
pub struct Search<'b> {
    boundary: &'b [u8],
    // CRLF, two hyphens and the boundary.
    start: Finder<'b>,
    ghost starts_so: { start ≡ crlf ++ (codes "--" ++ boundary.now) },
}

impl<'b> Search<'b> {
    /// The search for delimiters with this boundary, each of which begins with `start`.
    pub fn new(boundary: &'b [u8], start: &'b [u8]) -> Search<'b>
        requires { start.now ≡ crlf ++ (codes "--" ++ boundary.now) }
        ensures { result.boundary.now ≡ boundary.now }
    {
        Search {
            boundary,
            start: Finder::new(start),
        }
    }

    /// The bytes after the first delimiter of a body. At the body's first byte a delimiter has no CRLF before it.
    #[tactic(auto, using(crate::proofs::StartLemmas::first_found, crate::proofs::StartLemmas::first_further))]
    pub fn behind_first<'a>(&self, body: &'a [u8]) -> Option<&'a [u8]>
        ensures { option_map (λ rest. rest.now) result ≡ option_map (λ cut. cut.1) (up_to (delimiter_at self.now.boundary.now) (crlf ++ body.now)) }
    {
        match first_at(self.boundary, body) {
            Some(rest) => Some(rest),
            None => self.behind_delimiter(body),
        }
    }

    /// The bytes before the first end of a part, and that end.
    pub fn up_to_ending<'a>(&self, bytes: &'a [u8]) -> Option<(&'a [u8], Ending<'a>)>
        ensures { option_map (λ cut. (cut.0.now, ending_of cut.1)) result ≡ up_to (ending_at self.now.boundary.now) bytes.now }
    {
        let mut rest = bytes;
        'search: while let Some(at) = self.start.find(rest) {
            let (_, hit) = rest.split_at(at);
            if let Some(ending) = ending_at(self.boundary, hit) {
                let (front, _) = bytes.split_at(bytes.len() - hit.len());
                return Some((front, ending));
            }
            let (_, behind) = hit.split_at(1);
            rest = behind;
        }
        None
    }

    // The bytes after the first delimiter.
    fn behind_delimiter<'a>(&self, bytes: &'a [u8]) -> Option<&'a [u8]>
        ensures { option_map (λ rest. rest.now) result ≡ option_map (λ cut. cut.1) (up_to (delimiter_at self.now.boundary.now) bytes.now) }
    {
        let mut rest = bytes;
        'search: while let Some(at) = self.start.find(rest) {
            let (_, hit) = rest.split_at(at);
            if let Some(behind) = delimiter_at(self.boundary, hit) {
                return Some(behind);
            }
            let (_, behind) = hit.split_at(1);
            rest = behind;
        }
        None
    }
}
