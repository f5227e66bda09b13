//! Texts of headers.

ghost use Rattle.std.specs.Prelude.{◌≡◌, ℕ, ◌-◌, ◌<◌, ◌≤◌, ◌↔◌, List, false, IfOk, IfErr, IsTrue, length, slice_index};
ghost use Rattle.std.specs.List.{AllWithin};
ghost use Rattle.as4_values.specs.PlainTexts.{IsPlainText};
ghost use Rattle.as4_values.specs.Texts.{IsText, Spells, TextGoesWrong};
ghost use Rattle.byte_forms.specs.Classes.{is_blank};

use crate::lists::Octets;
use crate::memory::NoMemory;
use crate::plain_data::PlainData;
use crate::xml::first_not_xml;
use byte_forms::{Blank, end_without_blanks, run_len};
use std::alloc::Global;
use std::marker::Model;

/// The most bytes that a text may have.
pub const MAX_TEXT: usize = 65_536;

const _: () = prove!(MAX_TEXT == 65536);

/// A text of a header: 1 to 65,536 bytes of UTF-8. All its characters are allowed in XML (XML 1.0, section 2.2), and it
/// neither begins nor ends with a blank.
#[derive(Drop)]
pub struct Text {
    octets: Octets,
}

/// Why the bytes aren't read as a text.
#[derive(Clone, Copy, Debug, PartialEq, Eq)]
pub enum TextRefusal {
    /// The first byte that isn't part of a character that XML allows; of a broken sequence, its first byte. Otherwise
    /// the first byte past the limit, counted from the first byte that isn't a blank. Where the bytes are empty or all
    /// blank, their length.
    BadText { at: usize },
    /// Memory ran out.
    NoMemory,
}

impl Model for Text {
    ghost Value = { List ℕ };

    ghost view = { λ text. text.octets };

    ghost invariant = { λ text. IsText text.octets };
}

impl Text {
    /// Reads a text: the bytes without the blanks at both ends (XML 1.0, section 2.3).
    pub fn read(alloc: Global, bytes: &[u8]) -> Result<Text, TextRefusal>
        ensures found { IfOk result (λ text. Spells bytes.now text) }
        ensures only { (text : List ℕ) → Spells bytes.now text → IfErr result (λ e. e ≡ TextRefusal.NoMemory) }
        ensures bad_text { (at : ℕ) → (result ≡ Err (TextRefusal.BadText at)) ↔ TextGoesWrong bytes.now at }
    {
        match text_in(bytes) {
            Err(at) => Err(TextRefusal::BadText { at }),
            Ok(text) => match Vec::from_slice(alloc, text) {
                Ok(items) => Ok(Text {
                    octets: Octets::of(items),
                }),
                Err(_) => Err(TextRefusal::NoMemory),
            },
        }
    }

    /// The text with exactly these bytes, which are plain: printable ASCII without `"`, `%`, `&`, `<` and `>`, and
    /// without a space at either end.
    pub fn plain(alloc: Global, bytes: &[u8]) -> Result<Text, NoMemory>
        requires { IsPlainText bytes.now }
        ensures { IfOk result (λ text. text ≡ bytes.now) }
    {
        match Text::read(alloc, bytes) {
            Ok(text) => Ok(text),
            Err(TextRefusal::NoMemory) => Err(NoMemory),
            Err(TextRefusal::BadText { .. }) => unreachable!(),
        }
    }

    pub fn bytes(&self) -> &[u8]
        ensures value { result.now ≡ self.now }
        ensures spelled { IsText self.now }
    {
        self.octets.bytes()
    }
}

impl PlainData for Text {
    fn try_clone(&self, alloc: Global) -> Result<Text, NoMemory> {
        Ok(Text {
            octets: self.octets.try_clone(alloc)?,
        })
    }

    fn same(&self, other: &Text) -> bool {
        self.octets.same(&other.octets)
    }
}

/// The same bytes are never read as two different texts.
pub fn one_text()
    ensures { (bytes a b : List ℕ) → Spells bytes a → Spells bytes b → a ≡ b }
{}

/// The text in the bytes, or the place where they go wrong.
fn text_in(bytes: &[u8]) -> Result<&[u8], usize>
    ensures found { IfOk result (λ text. Spells bytes.now text.now) }
    ensures wrong { IfErr result (TextGoesWrong bytes.now) }
{
    if let Some(at) = first_not_xml(bytes) {
        return Err(at);
    }
    let (start, end) = (run_len(Blank, bytes), end_without_blanks(bytes));
    if end <= start {
        return Err(bytes.len());
    }
    if end - start > MAX_TEXT {
        return Err(start + MAX_TEXT);
    }
    Ok(&bytes[start..end])
}
