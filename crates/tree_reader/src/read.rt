//! Reads documents, item by item.

ghost use Rattle.std.specs.Prelude.{◌≡◌, ◌↔◌, ◌<◌, ◌≤◌, ◌-◌, IfOk, IfErr, Err, length};
ghost use Rattle.as4_envelope.specs.declared.tree.Element.{Element};
ghost use Rattle.tree_reader.specs.Documents.{limit, behind_mark, IsDocument, IsReadAs, NamesPlace};
ghost use Rattle.tree_reader.specs.Halts.{Advances, AreNamed, Halts, refusal_of};
ghost use Rattle.tree_reader.specs.Views.{state_of};

use crate::reading::{Reading, behind_end, read_item, read_known_end};
use crate::stop::{Stop, TreeRefusal};
use as4_envelope::Element;
use std::alloc::Global;
use xml_items::{RawAttribute, next_item};

/// The maximum number of bytes of a document.
pub const MAX_BYTES: usize = 262_144;

/// The tree of a document (XML 1.0, Fifth Edition, sections 2 to 4; Namespaces in XML 1.0) in UTF-8, of at most
/// `MAX_BYTES` bytes and `MAX_DEPTH` levels. A byte order mark may come first. Document types, CDATA sections and
/// processing instructions are refused. The only entities are the five predefined ones.
pub fn read_tree(alloc: Global, bytes: &[u8]) -> Result<Element, TreeRefusal>
    ensures too_long { (result ≡ Err TreeRefusal.TooLong) ↔ (limit < length bytes.now) }
    ensures ok { IfOk result (IsDocument bytes.now) }
    ensures only { (tree : Element) → IsDocument bytes.now tree → IsReadAs result tree }
    ensures place { IfErr result (NamesPlace bytes.now) }
{
    if bytes.len() > MAX_BYTES {
        return Err(TreeRefusal::TooLong);
    }
    match read_items(alloc, behind_mark(bytes)) {
        Ok(tree) => Ok(tree),
        Err(halt) => Err(refusal(halt, bytes.len())),
    }
}

/// The bytes after the byte order mark, if there is one.
#[tactic(auto, unfolding(crate::specs::Documents::behind_mark))]
fn behind_mark(bytes: &[u8]) -> &[u8]
    ensures { result.now ≡ behind_mark bytes.now }
{
    match bytes.strip_prefix(b"\xEF\xBB\xBF") {
        Some(behind) => behind,
        None => bytes,
    }
}

/// Where reading stops, by the number of bytes left, and why.
#[derive(Clone, Copy)]
struct Halt {
    stop: Stop,
    left: usize,
}

/// The refusal for a halt in a document of this length.
fn refusal(halt: Halt, len: usize) -> TreeRefusal
    requires { halt.left ≤ len }
    ensures { result ≡ refusal_of halt.stop (len - halt.left) }
{
    let at = len - halt.left;
    match halt.stop {
        Stop::Memory => TreeRefusal::NoMemory,
        Stop::Markup => TreeRefusal::Markup { at },
        Stop::TooDeep => TreeRefusal::TooDeep { at },
    }
}

/// Reads all items into a tree.
fn read_items(alloc: Global, bytes: &[u8]) -> Result<Element, Halt>
    ensures halts { Halts result bytes.now }
    ensures within { IfErr result (λ halt. halt.left ≤ length bytes.now) }
{
    let mut attributes = Vec::new(alloc);
    let mut reading = Reading {
        first: true,
        open: Vec::new(alloc),
        root: None,
    };
    let mut rest = bytes;
    while !rest.is_empty() {
        match advance(alloc, &mut reading, &mut attributes, rest) {
            Ok(behind) => rest = behind,
            Err(stop) => return Err(Halt {
                stop,
                left: rest.len(),
            }),
        }
    }
    let Reading {
        first: _,
        open,
        root,
    } = reading;
    drop(open);
    match root {
        Some(tree) => Ok(tree),
        None => Err(UNFINISHED),
    }
}

/// The bytes end before the document does.
const UNFINISHED: Halt = Halt {
    stop: Stop::Markup,
    left: 0,
};

/// Reads the first item, and returns the bytes after it. The attributes are room for those of its tag.
#[inline(always)]
fn advance<'a>(
    alloc: Global,
    reading: &mut Reading<'a>,
    attributes: &mut Vec<RawAttribute<'a>>,
    bytes: &'a [u8],
) -> Result<&'a [u8], Stop>
    requires { AreNamed (state_of reading.old) }
    ensures { Advances result (state_of reading.old) (state_of reading.new) bytes.now }
{
    if let Some(behind) = behind_end(reading, bytes) {
        read_known_end(reading)?;
        return Ok(behind);
    }
    match next_item(bytes, attributes) {
        Err(_) => Err(Stop::Memory),
        Ok(None) => Err(Stop::Markup),
        Ok(Some((item, behind))) => {
            read_item(alloc, reading, item, attributes.as_slice())?;
            Ok(behind)
        }
    }
}
