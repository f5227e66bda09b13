//! Appends elements and attributes to a buffer.

ghost use Rattle.std.specs.Prelude.{◌≡◌, ◌++◌, OnOk, MatchOption, [], ◌∷◌, codes};
ghost use Rattle.std.specs.Option.{option_copied};
ghost use Rattle.as4_envelope.specs.Markup.{escape_of, escaped, tag_start, tag_end, end_tag, attribute, text_element, optional_attribute, optional_element};

use as4_values::NoMemory;

/// `<name`, to be followed by the attributes.
#[tactic(auto, unfolding(crate::specs::Markup::tag_start))]
pub fn push_tag_start(out: &mut Vec<u8>, name: &[u8]) -> Result<(), NoMemory>
    ensures { OnOk result (out.new.items ≡ out.old.items ++ tag_start name.now) }
{
    out.push(b'<')?;
    out.extend_from_slice(name)?;
    Ok(())
}

/// `>`, to be followed by the content.
#[tactic(auto, unfolding(crate::specs::Markup::tag_end))]
pub fn push_tag_end(out: &mut Vec<u8>) -> Result<(), NoMemory>
    ensures { OnOk result (out.new.items ≡ out.old.items ++ tag_end) }
{
    out.push(b'>')?;
    Ok(())
}

/// `</name>`.
#[tactic(auto, unfolding(crate::specs::Markup::end_tag))]
pub fn push_end_tag(out: &mut Vec<u8>, name: &[u8]) -> Result<(), NoMemory>
    ensures { OnOk result (out.new.items ≡ out.old.items ++ end_tag name.now) }
{
    out.extend_from_slice(b"</")?;
    out.extend_from_slice(name)?;
    out.push(b'>')?;
    Ok(())
}

/// ` name="value"`, the value escaped.
#[tactic(auto, unfolding(crate::specs::Markup::attribute))]
pub fn push_attribute(out: &mut Vec<u8>, name: &[u8], value: &[u8]) -> Result<(), NoMemory>
    ensures { OnOk result (out.new.items ≡ out.old.items ++ attribute name.now value.now) }
{
    out.push(b' ')?;
    out.extend_from_slice(name)?;
    push_value(out, value)
}

/// `="value"`, the value escaped.
pub(crate) fn push_value(out: &mut Vec<u8>, value: &[u8]) -> Result<(), NoMemory>
    ensures { OnOk result (out.new.items ≡ out.old.items ++ codes "=\"" ++ escaped value.now ++ codes "\"") }
{
    out.extend_from_slice(b"=\"")?;
    push_escaped(out, value)?;
    out.push(b'"')?;
    Ok(())
}

/// The escape of a byte in a text or a value; `None` if the byte needs none.
fn escape_of(byte: u8) -> Option<&'static [u8]>
    ensures { MatchOption result (escape_of byte ≡ byte ∷ []) (λ escape. escape.now ≡ escape_of byte) }
{
    match byte {
        b'&' => Some(b"&amp;"),
        b'<' => Some(b"&lt;"),
        b'>' => Some(b"&gt;"),
        b'"' => Some(b"&quot;"),
        b'\t' => Some(b"&#9;"),
        b'\n' => Some(b"&#10;"),
        b'\r' => Some(b"&#13;"),
        _ => None,
    }
}

/// The bytes, escaped where necessary.
#[tactic(auto, using(crate::proofs::EscapeLemmas::escape_start))]
pub fn push_escaped(out: &mut Vec<u8>, bytes: &[u8]) -> Result<(), NoMemory>
    ensures { OnOk result (out.new.items ≡ out.old.items ++ escaped bytes.now) }
{
    // The bytes before `done` are written.
    let mut done = 0;
    for (at, byte) in bytes.iter().enumerate() {
        if let Some(escape) = escape_of(*byte) {
            out.extend_from_slice(&bytes[done..at])?;
            out.extend_from_slice(escape)?;
            done = at + 1;
        }
    }
    out.extend_from_slice(&bytes[done..])?;
    Ok(())
}

/// An element whose content is a text.
#[tactic(auto, unfolding(crate::specs::Markup::text_element))]
pub fn push_text_element(out: &mut Vec<u8>, name: &[u8], text: &[u8]) -> Result<(), NoMemory>
    ensures { OnOk result (out.new.items ≡ out.old.items ++ text_element name.now text.now) }
{
    push_tag_start(out, name)?;
    push_tag_end(out)?;
    push_escaped(out, text)?;
    push_end_tag(out, name)
}

/// The attribute, if there is a value.
#[tactic(auto, unfolding(crate::specs::Markup::optional_attribute))]
pub fn push_optional_attribute(
    out: &mut Vec<u8>,
    name: &[u8],
    value: Option<&[u8]>,
) -> Result<(), NoMemory>
    ensures { OnOk result (out.new.items ≡ out.old.items ++ optional_attribute name.now (option_copied value.entry)) }
{
    match value {
        None => Ok(()),
        Some(value) => push_attribute(out, name, value),
    }
}

/// The element, if there is a text.
#[tactic(auto, unfolding(crate::specs::Markup::optional_element))]
pub fn push_optional_element(
    out: &mut Vec<u8>,
    name: &[u8],
    text: Option<&[u8]>,
) -> Result<(), NoMemory>
    ensures { OnOk result (out.new.items ≡ out.old.items ++ optional_element name.now (option_copied text.entry)) }
{
    match text {
        None => Ok(()),
        Some(text) => push_text_element(out, name, text),
    }
}
