//! Sample texts, and the items that are cut off them, one after another, until the rest begins with none.
//!
//!     D;                      a declaration
//!     Ctext;                  a comment
//!     Sname name=value ../;   a start tag with its attributes; `/` if it is closed
//!     Ename;                  an end tag
//!     Ttext;                  a text
//!     |                       followed by the rest

use as4_values::NoMemory;
use std::alloc::Global;
use std::test::Fail;
use xml_items::{RawAttribute, RawItem, next_item};

const TEXTS: [(&[u8], &[u8]); 72] = [
    (b"", b"|"),
    (b"a", b"Ta;|"),
    (b"a&b]]> '\"", b"Ta&b]]> '\";|"),
    (b"a<", b"Ta;|<"),
    (b" \n<a>", b"T \n;Sa;|"),
    (b"<a>", b"Sa;|"),
    (b"<a/>", b"Sa/;|"),
    (b"<a />", b"Sa/;|"),
    (b"<a \t\r\n>", b"Sa;|"),
    (b"<a x='1'>", b"Sa x=1;|"),
    (b"<a x=\"1\"\ny='2'/>", b"Sa x=1 y=2/;|"),
    (b"<a x = \"1\"\t>", b"Sa x=1;|"),
    (b"<a x\r\n=\t' 1 '/>", b"Sa x= 1 /;|"),
    (b"<a x=\"'\" y='\"'>", b"Sa x=' y=\";|"),
    (b"<a x=''>", b"Sa x=;|"),
    (b"<a x='>&/'>", b"Sa x=>&/;|"),
    (b"<a x='1' x='1'>", b"Sa x=1 x=1;|"),
    (b"<a x='<'>", b"|<a x='<'>"),
    (b"<a x='1'y='2'>", b"|<a x='1'y='2'>"),
    (b"<a x=1>", b"|<a x=1>"),
    (b"<a x>", b"|<a x>"),
    (b"<a x='1>", b"|<a x='1>"),
    (b"<a x='1\">", b"|<a x='1\">"),
    (b"<a ='1'>", b"|<a ='1'>"),
    (b"<a / >", b"|<a / >"),
    (b"<a", b"|<a"),
    (b"<a ", b"|<a "),
    (b"< a>", b"|< a>"),
    (b"<>", b"|<>"),
    (b"</", b"|</"),
    (b"<a<b>", b"|<a<b>"),
    (b"<a:b:.-_9Z>", b"Sa:b:.-_9Z;|"),
    (b"<-1/>", b"S-1/;|"),
    (b"<\xc3\xa9\xff\x80/>", b"S\xc3\xa9\xff\x80/;|"),
    (b"<a\x7f>", b"|<a\x7f>"),
    (b"<a@>", b"|<a@>"),
    (b"</a>", b"Ea;|"),
    (b"</a:b\n >", b"Ea:b;|"),
    (b"</ a>", b"|</ a>"),
    (b"</a/>", b"|</a/>"),
    (b"</>", b"|</>"),
    (b"</a x='1'>", b"|</a x='1'>"),
    (b"<!---->", b"C;|"),
    (b"<!-- a-b <c>& -->", b"C a-b <c>& ;|"),
    (b"<!--a--->", b"|<!--a--->"),
    (b"<!--->", b"|<!--->"),
    (b"<!-->-->", b"C>;|"),
    (b"<!--a--b-->", b"|<!--a--b-->"),
    (b"<!--a-- >", b"|<!--a-- >"),
    (b"<!--a", b"|<!--a"),
    (b"<!-a-->", b"|<!-a-->"),
    (b"<!DOCTYPE a>", b"|<!DOCTYPE a>"),
    (b"<![CDATA[a]]>", b"|<![CDATA[a]]>"),
    (b"<?xml version=\"1.0\"?>", b"D;|"),
    (
        b"<?xml version='1.0' encoding='utf-8' standalone='yes' ?>",
        b"D;|",
    ),
    (b"<?xml\tversion = '1.0'\nencoding=\"UtF-8\"?>", b"D;|"),
    (b"<?xml version='1.0' standalone='no'?>", b"D;|"),
    (b"<?xml version='1.1'?>", b"|<?xml version='1.1'?>"),
    (b"<?xml encoding='utf-8'?>", b"|<?xml encoding='utf-8'?>"),
    (
        b"<?xml version='1.0' encoding='utf-16'?>",
        b"|<?xml version='1.0' encoding='utf-16'?>",
    ),
    (
        b"<?xml version='1.0' standalone='YES'?>",
        b"|<?xml version='1.0' standalone='YES'?>",
    ),
    (
        b"<?xml version='1.0' standalone='no' encoding='utf-8'?>",
        b"|<?xml version='1.0' standalone='no' encoding='utf-8'?>",
    ),
    (
        b"<?xml version='1.0' version='1.0'?>",
        b"|<?xml version='1.0' version='1.0'?>",
    ),
    (b"<?xml?>", b"|<?xml?>"),
    (b"<?xml version='1.0'>", b"|<?xml version='1.0'>"),
    (b"<?XML version='1.0'?>", b"|<?XML version='1.0'?>"),
    (b"<?xmlversion='1.0'?>", b"|<?xmlversion='1.0'?>"),
    (b"<?a b?>", b"|<?a b?>"),
    (
        b"<?xml version='1.0' encoding='utf-8' standalone='no' a='b'?>",
        b"|<?xml version='1.0' encoding='utf-8' standalone='no' a='b'?>",
    ),
    (
        b"<a x='1' y='2'><b>t<!--c--><d/></b></a>\n",
        b"Sa x=1 y=2;Sb;Tt;Cc;Sd/;Eb;Ea;T\n;|",
    ),
    (b"<a/><?xml version='1.0'?><b/>", b"Sa/;D;Sb/;|"),
    (b"<a>t<b x=>", b"Sa;Tt;|<b x=>"),
];

fn add_tag(
    out: &mut Vec<u8>,
    name: &[u8],
    attributes: &[RawAttribute<'_>],
    closed: bool,
) -> Result<(), NoMemory> {
    out.extend_from_slice(b"S")?;
    out.extend_from_slice(name)?;
    for attribute in attributes {
        out.extend_from_slice(b" ")?;
        out.extend_from_slice(attribute.name)?;
        out.extend_from_slice(b"=")?;
        out.extend_from_slice(attribute.value)?;
    }
    if closed {
        out.extend_from_slice(b"/")?;
    }
    Ok(())
}

fn add_named(out: &mut Vec<u8>, kind: &[u8], bytes: &[u8]) -> Result<(), NoMemory> {
    out.extend_from_slice(kind)?;
    out.extend_from_slice(bytes)?;
    Ok(())
}

fn add_item(
    out: &mut Vec<u8>,
    item: &RawItem<'_>,
    attributes: &[RawAttribute<'_>],
) -> Result<(), NoMemory> {
    match item {
        RawItem::Declaration => add_named(out, b"D", b"")?,
        RawItem::Comment(text) => add_named(out, b"C", text)?,
        RawItem::Start { name, closed } => add_tag(out, name, attributes, *closed)?,
        RawItem::End { name } => add_named(out, b"E", name)?,
        RawItem::Text(text) => add_named(out, b"T", text)?,
    }
    add_named(out, b";", b"")
}

/// The items of a text of less than 100 bytes, and the rest.
fn cut(alloc: Global, text: &[u8]) -> Result<Vec<u8>, NoMemory> {
    let mut out = Vec::new(alloc);
    let mut attributes = Vec::new(alloc);
    let mut rest = text;
    for _ in 0..100 {
        match next_item(rest, &mut attributes)? {
            Some((item, behind)) => {
                add_item(&mut out, &item, attributes.as_slice())?;
                rest = behind;
            }
            None => break,
        }
    }
    add_named(&mut out, b"|", rest)?;
    Ok(out)
}

/// The first of the texts from which other items are cut.
fn first_other(alloc: Global, texts: &[(&[u8], &[u8])]) -> Result<Option<usize>, NoMemory> {
    for (at, (text, items)) in texts.iter().enumerate() {
        if cut(alloc, text)?.as_slice() != *items {
            return Ok(Some(at));
        }
    }
    Ok(None)
}

#[test]
fn a_text_is_cut_into_its_items(rt: HostRuntime) -> Result<(), Fail> {
    let other = first_other(rt.alloc(), &TEXTS);
    assert!(rt; other == Ok(None));
    Ok(())
}
