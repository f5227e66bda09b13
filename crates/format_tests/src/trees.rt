//! The texts of trees, and which trees can be written.
use as4_envelope::{
    Attribute, Attributes, EBMS, Element, SOAP, TreeBytes, is_writable, write_tree,
};
use as4_values::{NoMemory, Octets, Seq};
use std::alloc::Global;
use std::test::Fail;

/// Both values, or an error.
fn both<A: Drop, B: Drop>(
    one: Result<A, NoMemory>,
    other: Result<B, NoMemory>,
) -> Result<(A, B), NoMemory> {
    let one = match one {
        Ok(one) => one,
        Err(error) => {
            drop(other);
            return Err(error);
        }
    };
    match other {
        Ok(other) => Ok((one, other)),
        Err(error) => {
            drop(one);
            Err(error)
        }
    }
}

/// A list of the item, or its error.
fn list_of<T: Drop>(alloc: Global, item: Result<T, NoMemory>) -> Result<Vec<T>, NoMemory> {
    let item = item?;
    let mut list = Vec::new(alloc);
    list.push(item)?;
    Ok(list)
}

fn attribute(
    alloc: Global,
    space: &[u8],
    local: &[u8],
    value: &[u8],
) -> Result<Attribute, NoMemory> {
    let name = both(
        TreeBytes::copied(alloc, space),
        TreeBytes::copied(alloc, local),
    );
    let ((space, local), value) = both(name, TreeBytes::copied(alloc, value))?;
    Ok(Attribute {
        space,
        local,
        value,
    })
}

fn element(
    alloc: Global,
    space: &[u8],
    local: &[u8],
    attributes: Vec<Attribute>,
    children: Vec<Element>,
) -> Result<Element, NoMemory> {
    match both(
        TreeBytes::copied(alloc, space),
        TreeBytes::copied(alloc, local),
    ) {
        Ok((space, local)) => Ok(Element {
            space,
            local,
            attributes: Attributes::of(attributes),
            text: TreeBytes::new(),
            children: Seq::of(children),
        }),
        Err(error) => {
            drop(attributes);
            drop(children);
            Err(error)
        }
    }
}

/// An element without attributes whose content is a text.
fn text_element(
    alloc: Global,
    space: &[u8],
    local: &[u8],
    text: &[u8],
) -> Result<Element, NoMemory> {
    let name = both(
        TreeBytes::copied(alloc, space),
        TreeBytes::copied(alloc, local),
    );
    let ((space, local), text) = both(name, TreeBytes::copied(alloc, text))?;
    Ok(Element {
        space,
        local,
        attributes: Attributes::of(Vec::new(alloc)),
        text,
        children: Seq::of(Vec::new(alloc)),
    })
}

/// The same in the namespace of ebMS.
fn leaf(alloc: Global, local: &[u8], text: &[u8]) -> Result<Element, NoMemory> {
    text_element(alloc, EBMS, local, text)
}

/// An ebMS element with these children.
fn nest(alloc: Global, local: &[u8], children: Vec<Element>) -> Result<Element, NoMemory> {
    element(alloc, EBMS, local, Vec::new(alloc), children)
}

/// The text of a tree that can be written.
fn text_of(alloc: Global, tree: &Element) -> Result<Option<Octets>, NoMemory> {
    if !is_writable(tree) {
        return Ok(None);
    }
    Ok(Some(write_tree(alloc, tree)?))
}

/// Whether the tree has this text.
fn writes(alloc: Global, tree: Result<Element, NoMemory>, wanted: &[u8]) -> Result<bool, NoMemory> {
    let tree = tree?;
    let text = text_of(alloc, &tree);
    drop(tree);
    match text? {
        None => Ok(false),
        Some(text) => Ok(text.bytes() == wanted),
    }
}

/// Whether the tree can be written.
fn can_be_written(tree: Result<Element, NoMemory>) -> Result<bool, NoMemory> {
    let tree = tree?;
    let is_writable = is_writable(&tree);
    drop(tree);
    Ok(is_writable)
}

#[test]
fn an_empty_element_has_two_tags(rt: HostRuntime) -> Result<(), Fail> {
    let tree = leaf(rt.alloc(), b"A", b"");
    let wanted =
        b"<eb:A xmlns:S=\"http://www.w3.org/2003/05/soap-envelope\" xmlns:eb=\"http://docs.oasis-open.org/ebxml-msg/ebms/v3.0/ns/core/200704/\"></eb:A>";
    assert_eq!(rt; writes(rt.alloc(), tree, wanted), Ok(true));
    Ok(())
}

/// An element with a text and with two children.
fn mixed(alloc: Global, text: &[u8]) -> Result<Element, NoMemory> {
    let children = leaves(alloc, &[(b"B", b"b"), (b"C", b"")])?;
    let (text, mut tree) = both(TreeBytes::copied(alloc, text), nest(alloc, b"A", children))?;
    tree.text = text;
    Ok(tree)
}

#[test]
fn text_stands_before_children(rt: HostRuntime) -> Result<(), Fail> {
    let tree = mixed(rt.alloc(), "t\u{e9} \u{1f600}&<>\"'\t\n\r]]>".as_bytes());
    let wanted =
        "<eb:A xmlns:S=\"http://www.w3.org/2003/05/soap-envelope\" xmlns:eb=\"http://docs.oasis-open.org/ebxml-msg/ebms/v3.0/ns/core/200704/\">t\u{e9} \u{1f600}&amp;&lt;&gt;&quot;'&#9;&#10;&#13;]]&gt;<eb:B>b</eb:B><eb:C></eb:C></eb:A>";
    assert_eq!(rt; writes(rt.alloc(), tree, wanted.as_bytes()), Ok(true));
    Ok(())
}

/// An element with attributes in each of the two namespaces and in none, with one local name.
fn with_three_attributes(alloc: Global) -> Result<Element, NoMemory> {
    let one = attribute(alloc, SOAP, b"x", b"1&\"\t\n\r<>");
    let two = attribute(alloc, b"", b"x", b"");
    let three = attribute(alloc, EBMS, b"x", b"3");
    let ((one, two), three) = both(both(one, two), three)?;
    let attributes = vec![in alloc; one, two, three]?;
    element(alloc, SOAP, b"A", attributes, Vec::new(alloc))
}

#[test]
fn attributes_have_the_prefix_of_their_namespace(rt: HostRuntime) -> Result<(), Fail> {
    let tree = with_three_attributes(rt.alloc());
    let wanted =
        b"<S:A xmlns:S=\"http://www.w3.org/2003/05/soap-envelope\" xmlns:eb=\"http://docs.oasis-open.org/ebxml-msg/ebms/v3.0/ns/core/200704/\" S:x=\"1&amp;&quot;&#9;&#10;&#13;&lt;&gt;\" x=\"\" eb:x=\"3\"></S:A>";
    assert_eq!(rt; writes(rt.alloc(), tree, wanted), Ok(true));
    Ok(())
}

/// A namespace and a text that exclude an element from writing.
const OTHER_KINDS: [(&str, &[u8], &[u8]); 4] = [
    ("another namespace", b"urn:x", b""),
    ("no namespace", b"", b""),
    ("no character of XML", EBMS, b"\x01"),
    ("no UTF-8", EBMS, b"\xc3"),
];

/// The first kind with which an element can be written.
fn first_writable(
    alloc: Global,
    kinds: &[(&'static str, &[u8], &[u8])],
) -> Result<Option<&'static str>, NoMemory> {
    for (kind, space, text) in kinds {
        if can_be_written(text_element(alloc, space, b"A", text))? {
            return Ok(Some(*kind));
        }
    }
    Ok(None)
}

#[test]
fn trees_of_other_kinds_are_not_written(rt: HostRuntime) -> Result<(), Fail> {
    assert_eq!(rt; first_writable(rt.alloc(), &OTHER_KINDS), Ok(None));
    Ok(())
}

/// An element with two attributes of the same name.
fn with_an_attribute_twice(alloc: Global) -> Result<Element, NoMemory> {
    let one = attribute(alloc, b"", b"x", b"1");
    let (one, two) = both(one, attribute(alloc, b"", b"x", b"2"))?;
    let twice = vec![in alloc; one, two]?;
    element(alloc, SOAP, b"A", twice, Vec::new(alloc))
}

#[test]
fn an_attribute_stands_once(rt: HostRuntime) -> Result<(), Fail> {
    assert_eq!(rt;
        can_be_written(with_an_attribute_twice(rt.alloc())),
        Ok(false)
    );
    Ok(())
}

/// This many elements, each inside the one before.
fn levels(alloc: Global, count: usize) -> Result<Element, NoMemory> {
    let mut tree = leaf(alloc, b"A", b"")?;
    for _ in 1..count {
        tree = nest(alloc, b"A", vec![in alloc; tree]?)?;
    }
    Ok(tree)
}

#[test]
fn a_tree_has_32_levels_at_most(rt: HostRuntime) -> Result<(), Fail> {
    assert_eq!(rt; can_be_written(levels(rt.alloc(), 32)), Ok(true));
    assert_eq!(rt; can_be_written(levels(rt.alloc(), 33)), Ok(false));
    Ok(())
}

/// ebMS elements with these texts, one after another.
fn leaves(alloc: Global, texts: &[(&[u8], &[u8])]) -> Result<Vec<Element>, NoMemory> {
    let mut leaves = Vec::new(alloc);
    for (local, text) in texts {
        leaves.push(leaf(alloc, local, text)?)?;
    }
    Ok(leaves)
}

fn message_info(alloc: Global) -> Result<Element, NoMemory> {
    let stamp = b"2025-01-02T03:04:05.006Z";
    let children = leaves(alloc, &[(b"Timestamp", stamp), (b"MessageId", b"m1@a")])?;
    nest(alloc, b"MessageInfo", children)
}

fn side(alloc: Global, local: &[u8], id: &[u8], role: &[u8]) -> Result<Element, NoMemory> {
    let children = leaves(alloc, &[(b"PartyId", id), (b"Role", role)])?;
    nest(alloc, local, children)
}

fn party_info(alloc: Global) -> Result<Element, NoMemory> {
    let from = side(alloc, b"From", b"acme", b"seller");
    let (from, to) = both(from, side(alloc, b"To", b"bolt", b"buyer"))?;
    nest(alloc, b"PartyInfo", vec![in alloc; from, to]?)
}

fn collaboration_info(alloc: Global) -> Result<Element, NoMemory> {
    let children = leaves(
        alloc,
        &[
            (b"Service", b"orders"),
            (b"Action", b"invoice"),
            (b"ConversationId", b"c1"),
        ],
    )?;
    nest(alloc, b"CollaborationInfo", children)
}

fn payload_info(alloc: Global) -> Result<Element, NoMemory> {
    let href = list_of(alloc, attribute(alloc, b"", b"href", b"cid:p1@a"))?;
    let part = element(alloc, EBMS, b"PartInfo", href, Vec::new(alloc));
    nest(alloc, b"PayloadInfo", list_of(alloc, part)?)
}

fn user_message(alloc: Global) -> Result<Element, NoMemory> {
    let who = both(message_info(alloc), party_info(alloc));
    let what = both(collaboration_info(alloc), payload_info(alloc));
    let ((info, parties), (work, payload)) = both(who, what)?;
    let children = vec![in alloc; info, parties, work, payload]?;
    nest(alloc, b"UserMessage", children)
}

fn header(alloc: Global) -> Result<Element, NoMemory> {
    let flag = list_of(alloc, attribute(alloc, SOAP, b"mustUnderstand", b"true"));
    let (flag, unit) = both(flag, list_of(alloc, user_message(alloc)))?;
    let messaging = list_of(alloc, element(alloc, EBMS, b"Messaging", flag, unit))?;
    element(alloc, SOAP, b"Header", Vec::new(alloc), messaging)
}

fn envelope(alloc: Global) -> Result<Element, NoMemory> {
    let body = element(alloc, SOAP, b"Body", Vec::new(alloc), Vec::new(alloc));
    let (header, body) = both(header(alloc), body)?;
    let children = vec![in alloc; header, body]?;
    element(alloc, SOAP, b"Envelope", Vec::new(alloc), children)
}

#[test]
fn an_envelope_is_its_canonical_text(rt: HostRuntime) -> Result<(), Fail> {
    let wanted =
        b"<S:Envelope xmlns:S=\"http://www.w3.org/2003/05/soap-envelope\" xmlns:eb=\"http://docs.oasis-open.org/ebxml-msg/ebms/v3.0/ns/core/200704/\"><S:Header><eb:Messaging S:mustUnderstand=\"true\"><eb:UserMessage><eb:MessageInfo><eb:Timestamp>2025-01-02T03:04:05.006Z</eb:Timestamp><eb:MessageId>m1@a</eb:MessageId></eb:MessageInfo><eb:PartyInfo><eb:From><eb:PartyId>acme</eb:PartyId><eb:Role>seller</eb:Role></eb:From><eb:To><eb:PartyId>bolt</eb:PartyId><eb:Role>buyer</eb:Role></eb:To></eb:PartyInfo><eb:CollaborationInfo><eb:Service>orders</eb:Service><eb:Action>invoice</eb:Action><eb:ConversationId>c1</eb:ConversationId></eb:CollaborationInfo><eb:PayloadInfo><eb:PartInfo href=\"cid:p1@a\"></eb:PartInfo></eb:PayloadInfo></eb:UserMessage></eb:Messaging></S:Header><S:Body></S:Body></S:Envelope>";
    assert_eq!(rt; writes(rt.alloc(), envelope(rt.alloc()), wanted), Ok(true));
    Ok(())
}
