//! Documents, and how they are read.

use crate::shown::shown;
use as4_values::NoMemory;
use std::alloc::Global;
use std::test::Fail;
use tree_reader::text_is_document;

/// The first document that is read otherwise.
fn first_wrong(
    alloc: Global,
    cases: &[(&'static [u8], &'static [u8])],
) -> Result<Option<&'static [u8]>, NoMemory> {
    for (document, wanted) in cases {
        let text = shown(alloc, document)?;
        if text.as_slice() != *wanted {
            return Ok(Some(*document));
        }
    }
    Ok(None)
}

/// XML 1.0, sections 2.1, 2.5, 2.8 and 4.3.3: the bytes before and after the root.
const ROUND_THE_ROOT: [(&[u8], &[u8]); 28] = [
    (b"", b"Markup 0"),
    (b"\xEF\xBB\xBF", b"Markup 3"),
    (b" \n", b"Markup 2"),
    (b"<a/>", b"{}a"),
    (b"\xEF\xBB\xBF<a/>", b"{}a"),
    (b"\xEF\xBB\xBF\xEF\xBB\xBF<a/>", b"Markup 3"),
    (b"<?xml version=\"1.0\"?><a/>", b"{}a"),
    (b"\xEF\xBB\xBF<?xml version='1.0'?><a/>", b"{}a"),
    (
        b"<?xml version='1.0' encoding='uTf-8' standalone = \"yes\" ?>\r\n<a/>",
        b"{}a",
    ),
    (b" <?xml version=\"1.0\"?><a/>", b"Markup 1"),
    (b"<!--x--><?xml version=\"1.0\"?><a/>", b"Markup 8"),
    (
        b"<?xml version=\"1.0\"?><?xml version=\"1.0\"?><a/>",
        b"Markup 21",
    ),
    (b"<a><?xml version=\"1.0\"?></a>", b"Markup 3"),
    (b"<a/><?xml version=\"1.0\"?>", b"Markup 4"),
    (b"<?xml version=\"1.1\"?><a/>", b"Markup 0"),
    (
        b"<?xml version=\"1.0\" encoding=\"ISO-8859-1\"?><a/>",
        b"Markup 0",
    ),
    (b"<!DOCTYPE a><a/>", b"Markup 0"),
    (b"<?p x?><a/>", b"Markup 0"),
    (b"<!-- c -->\t<a/><!----> \n<!-- d -->", b"{}a"),
    (b"<!-- a--b --><a/>", b"Markup 0"),
    (b"<!-- a ---><a/>", b"Markup 0"),
    (b"<!--\x01--><a/>", b"Markup 0"),
    (b"<a/><!--\xC3-->", b"Markup 4"),
    (b"x<a/>", b"Markup 0"),
    (b"<a/> x", b"Markup 4"),
    (b"<a/>\xC2\xA0", b"Markup 4"),
    (b"<a/><b/>", b"Markup 4"),
    (b"<a/></a>", b"Markup 4"),
];

#[test]
fn comments_and_blanks_may_stand_round_one_root(rt: HostRuntime) -> Result<(), Fail> {
    assert_eq!(rt; first_wrong(rt.alloc(), &ROUND_THE_ROOT), Ok(None));
    Ok(())
}

/// XML 1.0, sections 3 and 3.1: tags and how they nest.
const TAGS: [(&[u8], &[u8]); 33] = [
    (b"<a></a>", b"{}a"),
    (b"<a></a >", b"{}a"),
    (b"<a \n/>", b"{}a"),
    (b"<a><b/><c></c></a>", b"{}a({}b)({}c)"),
    (b"<a><b><c/></b></a>", b"{}a({}b({}c))"),
    (b"<a></b>", b"Markup 3"),
    (b"<a></A>", b"Markup 3"),
    (b"<a><b></a></b>", b"Markup 6"),
    (b"</a>", b"Markup 0"),
    (b"<a><b></b>", b"Markup 10"),
    (b"<a>x", b"Markup 4"),
    (b"<a", b"Markup 0"),
    (b"<", b"Markup 0"),
    (b"<a><b", b"Markup 3"),
    (b"<a></a", b"Markup 3"),
    (b"< a/>", b"Markup 0"),
    (b"<a/ >", b"Markup 0"),
    (b"<a></ a>", b"Markup 3"),
    (b"<a><![CDATA[x]]></a>", b"Markup 3"),
    (b"<a><?p x?></a>", b"Markup 3"),
    (b"<a b=\"c\"/>", b"{}a[{}b=c]"),
    (
        b"<a z='1' b = \"2\"\tc\n=\r'3' />",
        b"{}a[{}z=1][{}b=2][{}c=3]",
    ),
    (b"<a b='\"' c=\"'>\"/>", b"{}a[{}b=\"][{}c='>]"),
    (b"<a b=\"\"/>", b"{}a[{}b=]"),
    (b"<a b=\"c\"d=\"e\"/>", b"Markup 0"),
    (b"<ab=\"c\"/>", b"Markup 0"),
    (b"<a b=c/>", b"Markup 0"),
    (b"<a b/>", b"Markup 0"),
    (b"<a b=\"<\"/>", b"Markup 0"),
    (b"<a b=\"c/>", b"Markup 0"),
    (b"<a b=\"1\" b=\"1\"/>", b"Markup 0"),
    (b"<a b=\"\x00\"/>", b"Markup 0"),
    (b"<a></a b=\"c\">", b"Markup 3"),
];

#[test]
fn tags_nest_by_their_written_names(rt: HostRuntime) -> Result<(), Fail> {
    assert_eq!(rt; first_wrong(rt.alloc(), &TAGS), Ok(None));
    Ok(())
}

/// XML 1.0, sections 2.2, 2.4, 2.11, 3.3.3, 4.1 and 4.6: the meaning of texts and values.
const TEXTS: [(&[u8], &[u8]); 40] = [
    (b"<a>x<b/>y<!--c-->z</a>", b"{}a\"xyz\"({}b)"),
    (b"<a><!--\x0B--></a>", b"Markup 3"),
    (b"<a>&amp;&lt;&gt;&quot;&apos;</a>", b"{}a\"&<>\"'\""),
    (b"<a>&#65;&#0000000065;&#x41;</a>", b"{}a\"AAA\""),
    (
        b"<a>&#233;&#x20AC;&#x1F600;&#x10FFFF;</a>",
        b"{}a\"\xC3\xA9\xE2\x82\xAC\xF0\x9F\x98\x80\xF4\x8F\xBF\xBF\"",
    ),
    (b"<a>&#xe9;&#xE9;</a>", b"{}a\"\xC3\xA9\xC3\xA9\""),
    (b"<a>&amp;lt;</a>", b"{}a\"&lt;\""),
    (b"<a>&#38;#65;</a>", b"{}a\"&#65;\""),
    (b"<a>&#;</a>", b"Markup 3"),
    (b"<a>&#x;</a>", b"Markup 3"),
    (b"<a>&#X41;</a>", b"Markup 3"),
    (b"<a>&#x4G;</a>", b"Markup 3"),
    (b"<a>&#+65;</a>", b"Markup 3"),
    (b"<a>&#4a;</a>", b"Markup 3"),
    (b"<a>&#0;</a>", b"Markup 3"),
    (b"<a>&#1;</a>", b"Markup 3"),
    (b"<a>&#xD800;</a>", b"Markup 3"),
    (b"<a>&#xFFFE;</a>", b"Markup 3"),
    (b"<a>&#x110000;</a>", b"Markup 3"),
    (b"<a>&#4294967361;</a>", b"Markup 3"),
    (b"<a>&amp</a>", b"Markup 3"),
    (b"<a>x&y;</a>", b"Markup 3"),
    (b"<a>&;</a>", b"Markup 3"),
    (b"<a>& ;</a>", b"Markup 3"),
    (b"<a>&Amp;</a>", b"Markup 3"),
    (b"<a><b/>x&y;</a>", b"Markup 7"),
    (b"<a>x\r\ny\rz\r</a>", b"{}a\"x\ny\nz\n\""),
    (b"<a>\r\r\n\n</a>", b"{}a\"\n\n\n\""),
    (b"<a>&#13;\n\t</a>", b"{}a\"\r\n\t\""),
    (b"<a b=\"x\r\ny&#13;\"/>", b"{}a[{}b=x y\r]"),
    (b"<a b='\t\n\r&#9;&#10;&#xD;'/>", b"{}a[{}b=   \t\n\r]"),
    (b"<a b=\"&quot;&lt;&amp;\"/>", b"{}a[{}b=\"<&]"),
    (b"<a b=\"&b;\"/>", b"Markup 0"),
    (b"<a b=\"\x1F\"/>", b"Markup 0"),
    (b"<a>\x08</a>", b"Markup 3"),
    (b"<a>\xC3</a>", b"Markup 3"),
    (b"<a>\xED\xA0\x80</a>", b"Markup 3"),
    (b"<a>\xEF\xBF\xBE</a>", b"Markup 3"),
    (
        b"<a>\xEF\xBB\xBF\x7F\xC2\x85]]></a>",
        b"{}a\"\xEF\xBB\xBF\x7F\xC2\x85]]>\"",
    ),
    (b"<a> <b> </b> </a>", b"{}a\"  \"({}b\" \")"),
];

#[test]
fn texts_and_values_are_decoded_once(rt: HostRuntime) -> Result<(), Fail> {
    assert_eq!(rt; first_wrong(rt.alloc(), &TEXTS), Ok(None));
    Ok(())
}

/// Namespaces in XML 1.0, sections 2 to 6.
const NAMESPACES: [(&[u8], &[u8]); 39] = [
    (b"<a xmlns=\"u\" x=\"1\"><b/></a>", b"{u}a[{}x=1]({u}b)"),
    (b"<a xmlns=\"u\"><b xmlns=\"\"/></a>", b"{u}a({}b)"),
    (b"<a xmlns=''/>", b"{}a"),
    (
        b"<p:a xmlns:p=\"u\"><p:b xmlns:p=\"v\"><p:c/></p:b><p:d/></p:a>",
        b"{u}a({v}b({v}c))({u}d)",
    ),
    (b"<p:a p:x=\"1\" xmlns:p=\"u\"/>", b"{u}a[{u}x=1]"),
    (
        b"<a xmlns:p=\"u\" p:x=\"1\" x=\"2\"/>",
        b"{}a[{u}x=1][{}x=2]",
    ),
    (
        b"<a xmlns=\"u\" xmlns:p=\"u\" p:x=\"1\" x=\"2\"/>",
        b"{u}a[{u}x=1][{}x=2]",
    ),
    (
        b"<a xmlns:p=\"u\" xmlns:q=\"u\" p:x=\"1\" q:x=\"2\"/>",
        b"Markup 0",
    ),
    (
        b"<a xmlns:p=\"u\" xmlns:q=\"v\" p:x=\"1\" q:x=\"2\"/>",
        b"{}a[{u}x=1][{v}x=2]",
    ),
    (b"<a xmlns:p=\"u\" xmlns:p=\"u\"/>", b"Markup 0"),
    (b"<a xmlns=\"u\" xmlns=\"u\"/>", b"Markup 0"),
    (b"<p:a/>", b"Markup 0"),
    (b"<a p:x=\"1\"/>", b"Markup 0"),
    (b"<a><b xmlns:p=\"u\"/><p:c/></a>", b"Markup 19"),
    (b"<a xmlns:p=\"\"/>", b"Markup 0"),
    (b"<a xmlns:p=\"u\"><b xmlns:p=\"\"/></a>", b"Markup 15"),
    (
        b"<a xmlns:p=\"u&amp;v&#x9;\r\n\"><p:b/></a>",
        b"{}a({u&v\t }b)",
    ),
    (b"<a xmlns:p=\"&u;\"/>", b"Markup 0"),
    (b"<xmlns:a/>", b"Markup 0"),
    (b"<xmlns/>", b"{}xmlns"),
    (
        b"<p:xmlns xmlns:p=\"u\" p:xmlns=\"1\"/>",
        b"{u}xmlns[{u}xmlns=1]",
    ),
    (b"<a xmlns:xmlns=\"u\"/>", b"Markup 0"),
    (
        b"<a xmlns:xmlns=\"http://www.w3.org/2000/xmlns/\"/>",
        b"Markup 0",
    ),
    (
        b"<a xmlns:p=\"http://www.w3.org/2000/xmlns/\"/>",
        b"Markup 0",
    ),
    (b"<a xmlns=\"http://www.w3.org/2000/xmlns/\"/>", b"Markup 0"),
    (
        b"<a xml:lang=\"en\"/>",
        b"{}a[{http://www.w3.org/XML/1998/namespace}lang=en]",
    ),
    (b"<xml:a/>", b"{http://www.w3.org/XML/1998/namespace}a"),
    (
        b"<a xmlns:xml=\"http://www.w3.org/XML/1998/namespace\" xml:b=\"1\"/>",
        b"{}a[{http://www.w3.org/XML/1998/namespace}b=1]",
    ),
    (b"<a xmlns:xml=\"u\"/>", b"Markup 0"),
    (
        b"<a xmlns:p=\"http://www.w3.org/XML/1998/namespace\"/>",
        b"Markup 0",
    ),
    (
        b"<a xmlns=\"http://www.w3.org/XML/1998/namespace\"/>",
        b"Markup 0",
    ),
    (b"<a xmlnsx=\"1\"/>", b"{}a[{}xmlnsx=1]"),
    (b"<a xmlns:=\"u\"/>", b"Markup 0"),
    (b"<a xmlns:p:q=\"u\"/>", b"Markup 0"),
    (b"<a xmlns:1=\"u\"/>", b"Markup 0"),
    (b"<p:a xmlns:p=\"u\" xmlns:q=\"u\"></q:a>", b"Markup 29"),
    (
        b"<a xmlns=\"u\"><b xmlns=\"v\"/><c/></a>",
        b"{u}a({v}b)({u}c)",
    ),
    (b"<XML:a/>", b"Markup 0"),
    (
        b"<a xmlns:p=\"u\"><p:b><q:c xmlns:q=\"w\" p:x=\"1\"/></p:b></a>",
        b"{}a({u}b({w}c[{u}x=1]))",
    ),
];

#[test]
fn prefixes_mean_the_nearest_declaration(rt: HostRuntime) -> Result<(), Fail> {
    assert_eq!(rt; first_wrong(rt.alloc(), &NAMESPACES), Ok(None));
    Ok(())
}

/// XML 1.0, section 2.3, and Namespaces in XML 1.0, section 4: names.
const NAMES: [(&[u8], &[u8]); 20] = [
    (b"<_a-b.c1/>", b"{}_a-b.c1"),
    (b"<\xC3\xA9\xE2\x82\xAC/>", b"{}\xC3\xA9\xE2\x82\xAC"),
    (b"<\xEF\xBF\xBE/>", b"{}\xEF\xBF\xBE"),
    (b"<a\xC2\xB7/>", b"{}a\xC2\xB7"),
    (b"<a\xED\xA0\x80/>", b"Markup 0"),
    (b"<a\xC3/>", b"Markup 0"),
    (b"<a\xC0\x80/>", b"Markup 0"),
    (b"<1a/>", b"Markup 0"),
    (b"<-a/>", b"Markup 0"),
    (b"<.a/>", b"Markup 0"),
    (b"<:a/>", b"Markup 0"),
    (b"<a:/>", b"Markup 0"),
    (b"<p:q:a xmlns:p=\"u\"/>", b"Markup 0"),
    (b"<p:1 xmlns:p=\"u\"/>", b"Markup 0"),
    (b"<a 1b=\"c\"/>", b"Markup 0"),
    (b"<a \xC3=\"c\"/>", b"Markup 0"),
    (b"<a b:=\"c\"/>", b"Markup 0"),
    (b"<a+/>", b"Markup 0"),
    (b"<\x7F/>", b"Markup 0"),
    (b"<a><1/></a>", b"Markup 3"),
];

#[test]
fn names_begin_with_a_letter(rt: HostRuntime) -> Result<(), Fail> {
    assert_eq!(rt; first_wrong(rt.alloc(), &NAMES), Ok(None));
    Ok(())
}

/// Tags of 17 attributes and more, whose names are sorted for the comparison.
const MANY_ATTRIBUTES: [(&[u8], &[u8]); 5] = [
    (
        b"<a q='' p='' o='' n='' m='' l='' k='' j='' i='' h='' g='' f='' e='' d='' c='' b='' a=''/>",
        b"{}a[{}q=][{}p=][{}o=][{}n=][{}m=][{}l=][{}k=][{}j=][{}i=][{}h=][{}g=][{}f=][{}e=][{}d=][{}c=][{}b=][{}a=]",
    ),
    (
        b"<a q='' p='' o='' n='' m='' l='' k='' j='' i='' h='' g='' f='' e='' d='' c='' b='' q=''/>",
        b"Markup 0",
    ),
    (
        b"<a xmlns='u' p='' o='' n='' m='' l='' k='' j='' i='' h='' g='' f='' e='' d='' c='' b='' xmlns='u'/>",
        b"Markup 0",
    ),
    (
        b"<a xmlns:p='u' xmlns:q='u' p:x='' q='' o='' n='' m='' l='' k='' j='' i='' h='' g='' f='' e='' d='' c='' b='' q:x=''/>",
        b"Markup 0",
    ),
    (
        b"<a xmlns:p='u' xmlns:q='v' p:x='' q='' o='' n='' m='' l='' k='' j='' i='' h='' g='' f='' e='' d='' c='' b='' q:x=''/>",
        b"{}a[{u}x=][{}q=][{}o=][{}n=][{}m=][{}l=][{}k=][{}j=][{}i=][{}h=][{}g=][{}f=][{}e=][{}d=][{}c=][{}b=][{v}x=]",
    ),
];

#[test]
fn many_attributes_differ_too(rt: HostRuntime) -> Result<(), Fail> {
    assert_eq!(rt; first_wrong(rt.alloc(), &MANY_ATTRIBUTES), Ok(None));
    Ok(())
}

/// Tags of ten declarations, which are looked up by an index.
const MANY_DECLARATIONS: [(&[u8], &[u8]); 5] = [
    (
        b"<j:a xmlns:a='A' xmlns:b='B' xmlns:c='C' xmlns:d='D' xmlns:e='E' xmlns:f='F' xmlns:g='G' xmlns:h='H' xmlns:i='I' xmlns:j='J' b:x='1'><c:b/></j:a>",
        b"{J}a[{B}x=1]({C}b)",
    ),
    (
        b"<a xmlns='U' xmlns:a='A' xmlns:b='B' xmlns:c='C' xmlns:d='D' xmlns:e='E' xmlns:f='F' xmlns:g='G' xmlns:h='H' xmlns:i='I' xmlns:j='J'><b/><a:c xmlns:a='V'/><a:d/></a>",
        b"{U}a({U}b)({V}c)({A}d)",
    ),
    (
        b"<k:a xmlns:a='A' xmlns:b='B' xmlns:c='C' xmlns:d='D' xmlns:e='E' xmlns:f='F' xmlns:g='G' xmlns:h='H' xmlns:i='I' xmlns:j='J'/>",
        b"Markup 0",
    ),
    (
        b"<a xmlns:a='A' xmlns:b='B' xmlns:c='C' xmlns:d='D' xmlns:e='E' xmlns:f='F' xmlns:g='G' xmlns:h='H' xmlns:i='I' xmlns:j='J' xmlns:e='X'/>",
        b"Markup 0",
    ),
    (
        b"<a xmlns:a='A' xmlns:b='B' xmlns:c='C' xmlns:d='D' xmlns:e='E' xmlns:f='F' xmlns:g='G' xmlns:h='H' xmlns:i='I' xmlns:j='J'><k:b/></a>",
        b"Markup 123",
    ),
];

#[test]
fn many_declarations_are_found(rt: HostRuntime) -> Result<(), Fail> {
    assert_eq!(rt; first_wrong(rt.alloc(), &MANY_DECLARATIONS), Ok(None));
    Ok(())
}

/// A text that `write_tree` writes, and its tree.
const WRITTEN: [(&[u8], &[u8]); 1] = [(
    b"<eb:A xmlns:S=\"http://www.w3.org/2003/05/soap-envelope\" xmlns:eb=\"http://docs.oasis-open.org/ebxml-msg/ebms/v3.0/ns/core/200704/\" S:x=\"&#9;&#10;&#13;\" x=\"&quot;\">&amp;&lt;&gt;<S:B></S:B></eb:A>",
    b"{http://docs.oasis-open.org/ebxml-msg/ebms/v3.0/ns/core/200704/}A[{http://www.w3.org/2003/05/soap-envelope}x=\t\n\r][{}x=\"]\"&<>\"({http://www.w3.org/2003/05/soap-envelope}B)",
)];

#[test]
fn written_trees_are_read_back(rt: HostRuntime) -> Result<(), Fail> {
    // Laws: a written tree is a document of that tree.
    text_is_document();
    assert_eq!(rt; first_wrong(rt.alloc(), &WRITTEN), Ok(None));
    Ok(())
}
