//! What the tests ask of a drawing.
use memchr::memmem::find;

/// Whether the drawing has this part.
fn has(drawing: &[u8], part: &str) -> bool {
    find(drawing, part.as_bytes()).is_some()
}

/// Whether the drawing is one element `svg` that ends with an LF.
pub(crate) fn is_svg(drawing: &[u8]) -> bool {
    drawing.starts_with(b"<svg xmlns=\"http://www.w3.org/2000/svg\" ")
        && drawing.ends_with(b"</svg>\n")
}

/// Whether the drawing of all events counts no more, and that of one event more counts one.
pub(crate) fn count_the_last(all: &[u8], one_more: &[u8]) -> bool {
    is_svg(all)
        && !has(all, " more</text>")
        && is_svg(one_more)
        && has(one_more, ">... and 1 more</text>\n")
}

/// Whether it has each of the parts.
pub(crate) fn has_all(drawing: &[u8], parts: &[&str]) -> bool {
    parts.iter().all(|part| has(drawing, part))
}
