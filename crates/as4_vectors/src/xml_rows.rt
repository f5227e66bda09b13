//! Messages whose envelope is or isn't XML of the accepted form, with their check lines.
use crate::pieces::{
    around, bad, good, in_body, in_mpc, in_reference, media, messaging, raw_soap, soap, text,
};
use conformance::Vector;

/// The XML declaration.
pub(crate) fn declarations() -> [Vector; 20] {
    [
        soap!("declaration-of-a-version", around!([r#"<?xml version="1.0"?>"#] []) => "pull c"),
        soap!(
            "declaration-whole",
            around!(["<?xml version='1.0' encoding='UTF-8' standalone=\"yes\"?>\n"] []) => "pull c"
        ),
        soap!(
            "declaration-with-blanks",
            around!(
                ["<?xml\t version = \"1.0\"\r\n encoding\n=\t'Utf-8' standalone =\"no\" \n?>"]
                []
            ) => "pull c"
        ),
        soap!(
            "declaration-after-byte-order-mark",
            around!(["\u{feff}<?xml version=\"1.0\"?>"] []) => "pull c"
        ),
        soap!(
            "declaration-standalone-without-encoding",
            around!([r#"<?xml version="1.0" standalone="no"?>"#] []) => "pull c"
        ),
        soap!(
            "declaration-after-blank",
            around!([r#" <?xml version="1.0"?>"#] []) => "refused EBMS:0009"
        ),
        soap!(
            "declaration-twice",
            around!([r#"<?xml version="1.0"?><?xml version="1.0"?>"#] []) => "refused EBMS:0009"
        ),
        bad!("declaration-in-content", r#"<?xml version="1.0"?>"#),
        soap!(
            "declaration-without-version",
            around!([r#"<?xml encoding="UTF-8"?>"#] []) => "refused EBMS:0009"
        ),
        soap!(
            "declaration-standalone-before-encoding",
            around!([r#"<?xml version="1.0" standalone="yes" encoding="UTF-8"?>"#] [])
            => "refused EBMS:0009"
        ),
        soap!(
            "declaration-version-1-1",
            around!([r#"<?xml version="1.1"?>"#] []) => "refused EBMS:0009"
        ),
        soap!(
            "declaration-encoding-latin-1",
            around!([r#"<?xml version="1.0" encoding="ISO-8859-1"?>"#] []) => "refused EBMS:0009"
        ),
        soap!(
            "declaration-encoding-us-ascii",
            around!([r#"<?xml version="1.0" encoding="US-ASCII"?>"#] []) => "refused EBMS:0009"
        ),
        soap!(
            "declaration-encoding-utf-16",
            around!([r#"<?xml version="1.0" encoding="UTF-16"?>"#] []) => "refused EBMS:0009"
        ),
        soap!(
            "declaration-standalone-maybe",
            around!([r#"<?xml version="1.0" standalone="maybe"?>"#] []) => "refused EBMS:0009"
        ),
        soap!(
            "declaration-with-another-name",
            around!([r#"<?xml version="1.0" valid="no"?>"#] []) => "refused EBMS:0009"
        ),
        soap!(
            "declaration-in-capitals",
            around!([r#"<?XML version="1.0"?>"#] []) => "refused EBMS:0009"
        ),
        soap!(
            "declaration-quotes-differ",
            around!([r#"<?xml version="1.0'?>"#] []) => "refused EBMS:0009"
        ),
        soap!(
            "declaration-values-joined",
            around!([r#"<?xml version="1.0"encoding="UTF-8"?>"#] []) => "refused EBMS:0009"
        ),
        soap!(
            "declaration-ended-like-a-tag",
            around!([r#"<?xml version="1.0">"#] []) => "refused EBMS:0009"
        ),
    ]
}

/// Instructions, document types, character data sections and comments.
pub(crate) fn markup_outside_the_profile() -> [Vector; 20] {
    [
        soap!("processing-instruction-before-root", around!(["<?a b?>"] []) => "refused EBMS:0009"),
        bad!("processing-instruction-in-content", "<?a b?>"),
        soap!(
            "processing-instruction-named-like-a-declaration",
            around!([r#"<?xml-stylesheet href="a.xsl"?>"#] []) => "refused EBMS:0009"
        ),
        soap!("document-type", around!(["<!DOCTYPE s:Envelope>"] []) => "refused EBMS:0009"),
        soap!(
            "document-type-of-another-place",
            around!([r#"<!DOCTYPE a SYSTEM "file:///a/secret">"#] []) => "refused EBMS:0009"
        ),
        soap!(
            "document-type-with-entity",
            text!(
                r#"<!DOCTYPE a [<!ENTITY e "c">]>"#
                begin
                "<e:SignalMessage>"
                pull_info
                r#"<e:PullRequest mpc="&e;"/></e:SignalMessage>"#
                end
            ) => "refused EBMS:0009"
        ),
        soap!(
            "document-type-with-nested-entities",
            around!(
                [r#"<!DOCTYPE a [<!ENTITY b "cc"><!ENTITY d "&b;&b;"><!ENTITY e "&d;&d;">]>"#]
                []
            ) => "refused EBMS:0009"
        ),
        bad!("cdata-section", "<![CDATA[a]]>"),
        soap!("cdata-section-in-a-text", in_reference!("<![CDATA[m1@a]]>") => "refused EBMS:0009"),
        bad!("conditional-section", "<![INCLUDE[a]]>"),
        good!("comment-empty", "<!---->"),
        good!(
            "comment-with-markup-inside",
            "<!-- <a> & ]]> <?b?> <![CDATA[ -->"
        ),
        good!("comment-that-begins-with-a-dash", "<!--->-->"),
        soap!("comment-before-root", around!(["<!-- a -->\n<!-- b -->"] []) => "pull c"),
        soap!("comment-inside-a-text", in_reference!("m1<!-- x -->@a") => "receipt m1@a"),
        bad!("comment-with-two-dashes-inside", "<!-- a -- b -->"),
        bad!("comment-ended-by-three-dashes", "<!-- a --->"),
        bad!("comment-left-open", "<!-- a"),
        bad!("comment-with-a-control-byte", "<!-- \x01 -->"),
        bad!("comment-inside-a-tag", "<a <!-- b -->/>"),
    ]
}

/// Tags and names.
pub(crate) fn tags() -> [Vector; 20] {
    [
        good!("tags-with-blanks-at-their-ends", "<a \t\r\n></a \r\n\t>"),
        bad!("end-tag-of-another-name", "<a></b>"),
        bad!("end-tag-in-another-case", "<a></A>"),
        bad!(
            "end-tag-of-another-prefix",
            r#"<p:a xmlns:p="u" xmlns:q="u"></q:a>"#
        ),
        bad!("end-tag-alone", "</a>"),
        bad!("end-tag-missing", "<a>"),
        bad!("end-tag-with-an-attribute", r#"<a></a b="c">"#),
        bad!("tags-crossed", "<a><b></a></b>"),
        bad!("tag-with-a-blank-before-its-name", "< a/>"),
        bad!("tag-with-a-blank-after-its-slash", "<a/ >"),
        bad!("tag-without-a-name", "<></>"),
        bad!("tag-left-open", "<a"),
        good!("name-of-every-class", "<_a.b-9/><A_/>"),
        good!("name-past-ascii", r#"<é xmlns:ß="u"><ß:é/></é>"#),
        good!("name-of-a-noncharacter", "<\u{fffe}/>"),
        bad!("name-begins-with-a-digit", "<1a/>"),
        bad!("name-begins-with-a-dash", "<-a/>"),
        bad!("name-begins-with-a-colon", "<:a/>"),
        bad!("name-ends-with-a-colon", "<s:/>"),
        bad!("name-with-two-colons", "<s:a:b/>"),
    ]
}

/// Attributes.
pub(crate) fn attributes() -> [Vector; 20] {
    [
        good!("attribute-in-either-quote", r#"<a b="'" c='"' d=""/>"#),
        good!(
            "attribute-with-blanks-around-its-sign",
            "<a b = \"c\"\n\td\r\n=\r\n'e'/>"
        ),
        good!("attribute-with-a-closing-angle", r#"<a b=">"/>"#),
        bad!("attribute-with-an-opening-angle", r#"<a b="<"/>"#),
        bad!("attribute-with-an-ampersand", r#"<a b="&"/>"#),
        bad!("attribute-without-a-value", "<a b/>"),
        bad!("attribute-without-its-sign", r#"<a b "c"/>"#),
        bad!("attribute-unquoted", "<a b=c/>"),
        bad!("attribute-in-different-quotes", r#"<a b="c'/>"#),
        bad!("attribute-of-two-values", r#"<a b="c""d"/>"#),
        bad!("attribute-after-a-slash", r#"<a / b="c">"#),
        bad!("attribute-name-begins-with-a-digit", r#"<a 1="b"/>"#),
        bad!("attributes-without-a-blank", r#"<a b="c"d="e"/>"#),
        bad!("attributes-with-a-comma", r#"<a b="c", d="e"/>"#),
        bad!("attribute-twice", r#"<a b="c" b="d"/>"#),
        bad!(
            "attribute-twice-by-its-namespace",
            r#"<a xmlns:p="u" xmlns:q="u" p:b="" q:b=""/>"#
        ),
        good!(
            "attributes-of-one-local-name",
            r#"<a xmlns:p="u" xmlns:q="v" b="" p:b="" q:b=""/>"#
        ),
        good!(
            "attribute-outside-the-default-namespace",
            r#"<a xmlns="u" xmlns:p="u" b="" p:b=""/>"#
        ),
        bad!("value-with-a-control-byte", "<a b=\"\x0b\"/>"),
        bad!("value-with-a-noncharacter", "<a b=\"\u{ffff}\"/>"),
    ]
}

/// Prefixes and namespaces.
pub(crate) fn namespaces() -> [Vector; 20] {
    [
        bad!("prefix-undeclared", "<p:a/>"),
        bad!("prefix-of-an-attribute-undeclared", r#"<a p:b="c"/>"#),
        bad!("prefix-out-of-its-element", r#"<a xmlns:p="u"/><p:a/>"#),
        good!(
            "prefix-used-before-its-declaration",
            r#"<p:a p:b="" xmlns:p="u"/>"#
        ),
        good!(
            "prefix-declared-anew-inside",
            r#"<s:a xmlns:s="u"><s:b xmlns:s="v"/></s:a>"#
        ),
        bad!("prefix-declared-twice", r#"<a xmlns:p="u" xmlns:p="u"/>"#),
        bad!("prefix-declared-empty", r#"<a xmlns:p=""/>"#),
        good!(
            "default-namespace-declared-empty",
            r#"<a xmlns="u"><b xmlns=""/></a>"#
        ),
        good!(
            "prefix-xml-needs-no-declaration",
            r#"<xml:a xml:lang="en" xml:space="preserve"/>"#
        ),
        good!(
            "prefix-xml-declared-as-it-is",
            r#"<a xmlns:xml="http://www.w3.org/XML/1998/namespace"/>"#
        ),
        bad!("prefix-xml-declared-as-another", r#"<a xmlns:xml="u"/>"#),
        bad!(
            "prefix-declared-as-xml",
            r#"<a xmlns:p="http://www.w3.org/XML/1998/namespace"/>"#
        ),
        bad!(
            "default-namespace-declared-as-xml",
            r#"<a xmlns="http://www.w3.org/XML/1998/namespace"/>"#
        ),
        bad!("prefix-xmlns-of-an-element", "<xmlns:a/>"),
        bad!("prefix-xmlns-declared", r#"<a xmlns:xmlns="u"/>"#),
        bad!(
            "prefix-declared-as-xmlns",
            r#"<a xmlns:p="http://www.w3.org/2000/xmlns/"/>"#
        ),
        bad!(
            "default-namespace-declared-as-xmlns",
            r#"<a xmlns="http://www.w3.org/2000/xmlns/"/>"#
        ),
        good!("local-name-xmlns", r#"<p:xmlns xmlns:p="u"/>"#),
        soap!(
            "namespaces-by-default",
            text!(
                r#"<Envelope xmlns=""#
                soap_ns
                r#""><Header><Messaging xmlns=""#
                ebms_ns
                r#""><SignalMessage><MessageInfo><Timestamp>2025-01-02T03:04:05Z</Timestamp>"#
                r#"<MessageId>s2@a</MessageId></MessageInfo><PullRequest mpc="c"/>"#
                "</SignalMessage></Messaging></Header><Body/></Envelope>"
            ) => "pull c"
        ),
        soap!(
            "namespace-written-with-references",
            text!(
                "<s:Envelope xmlns:s='http&#58;//www.w3.org/2003/05/soap-envelope'"
                " xmlns:e='http://docs.oasis-open.org/ebxml-msg/ebms/v3.0/ns/core/200704&#x2F;'>"
                "<s:Header><e:Messaging>"
                pull
                "</e:Messaging></s:Header><s:Body/></s:Envelope>"
            ) => "pull c"
        ),
    ]
}

/// References, and how texts and values are read.
pub(crate) fn references() -> [Vector; 20] {
    [
        soap!("references-by-name", in_mpc!("&lt;&gt;&amp;&quot;&apos;") => r#"pull <>&"'"#),
        soap!("references-by-number", in_mpc!("&#97;&#x62;&#x4a;&#x4B;") => "pull abJK"),
        soap!("reference-with-leading-zeros", in_mpc!("&#0000000065;&#x00000042;") => "pull AB"),
        soap!("reference-past-ascii", in_mpc!("&#233;&#x1F600;") => "pull é😀"),
        soap!("reference-read-once", in_mpc!("&amp;#65;&#38;lt;") => "pull &#65;&lt;"),
        soap!("value-tab-and-line-end-are-spaces", in_mpc!("a\tb\nc") => "pull a b c"),
        soap!("value-carriage-returns-are-spaces", in_mpc!("a\r\nb\rc\n\rd") => "pull a b c  d"),
        soap!("value-carriage-return-by-reference-stays", in_mpc!("a&#13;b") => "pull a\rb"),
        soap!("value-is-trimmed", in_mpc!(" \t&#13;&#10;c&#32;\r\n") => "pull c"),
        soap!(
            "text-is-joined-and-trimmed",
            in_reference!("\r\n\t m&#49;@<!-- b -->&#x61;\r") => "receipt m1@a"
        ),
        good!("text-with-the-end-of-a-cdata-section", "]]>"),
        good!(
            "text-of-odd-characters",
            "\x7f\u{85}\u{2028}\u{fdd0}\u{10ffff}"
        ),
        bad!("ampersand-alone", "a & b"),
        bad!("entity-undeclared", "&nbsp;"),
        bad!("entity-without-a-semicolon", "&amp a"),
        bad!("reference-without-digits", "&#;"),
        bad!("reference-with-a-capital-x", "&#X41;"),
        bad!("reference-to-nul", "&#0;"),
        bad!("reference-to-a-surrogate", "&#xD800;"),
        bad!("reference-past-the-last-character", "&#x110000;"),
    ]
}

/// Characters that no text may have, and further references.
pub(crate) fn characters() -> [Vector; 20] {
    [
        bad!("entity-in-capitals", "&AMP;"),
        bad!("entity-without-a-name", "&;"),
        bad!("reference-without-hexadecimal-digits", "&#x;"),
        bad!("reference-with-a-letter", "&#6A;"),
        bad!("reference-with-a-sign", "&#+65;"),
        bad!("reference-without-a-semicolon", "&#65"),
        bad!("reference-to-a-control-byte", "&#1;"),
        bad!("reference-to-a-noncharacter", "&#xFFFF;"),
        bad!("reference-that-wraps-at-32-bits", "&#4294967361;"),
        soap!("reference-to-the-last-character", in_mpc!("&#x10FFFF;") => "pull \u{10ffff}"),
        soap!("value-line-end-by-reference-stays", in_mpc!("a&#10;b") => "pull a\nb"),
        bad!("angle-alone", "a < b"),
        bad!("text-with-nul", "\0"),
        bad!("text-with-a-control-byte", "\x1f"),
        bad!("text-with-a-noncharacter", "\u{fffe}"),
        raw_soap!(
            "bytes-of-a-lone-continuation",
            b"<s:Envelope xmlns:s=\"http://www.w3.org/2003/05/soap-envelope\" \
            xmlns:e=\"http://docs.oasis-open.org/ebxml-msg/ebms/v3.0/ns/core/200704/\"><s:Header>\
            <e:Messaging><e:SignalMessage><e:MessageInfo><e:Timestamp>\
            2025-01-02T03:04:05Z</e:Timestamp><e:MessageId>s2@a</e:MessageId></e:MessageInfo>\
            <e:PullRequest mpc=\"c\"/></e:SignalMessage></e:Messaging></s:Header><s:Body>\
            \x80</s:Body></s:Envelope>" => b"refused EBMS:0009\n"
        ),
        raw_soap!(
            "bytes-cut-short",
            b"<s:Envelope xmlns:s=\"http://www.w3.org/2003/05/soap-envelope\" \
            xmlns:e=\"http://docs.oasis-open.org/ebxml-msg/ebms/v3.0/ns/core/200704/\"><s:Header>\
            <e:Messaging><e:SignalMessage><e:MessageInfo><e:Timestamp>\
            2025-01-02T03:04:05Z</e:Timestamp><e:MessageId>s2@a</e:MessageId></e:MessageInfo>\
            <e:PullRequest mpc=\"c\"/></e:SignalMessage></e:Messaging></s:Header><s:Body>\
            \xe2\x82</s:Body></s:Envelope>" => b"refused EBMS:0009\n"
        ),
        raw_soap!(
            "bytes-overlong",
            b"<s:Envelope xmlns:s=\"http://www.w3.org/2003/05/soap-envelope\" \
            xmlns:e=\"http://docs.oasis-open.org/ebxml-msg/ebms/v3.0/ns/core/200704/\"><s:Header>\
            <e:Messaging><e:SignalMessage><e:MessageInfo><e:Timestamp>\
            2025-01-02T03:04:05Z</e:Timestamp><e:MessageId>s2@a</e:MessageId></e:MessageInfo>\
            <e:PullRequest mpc=\"c\"/></e:SignalMessage></e:Messaging></s:Header><s:Body>\
            \xc0\xaf</s:Body></s:Envelope>" => b"refused EBMS:0009\n"
        ),
        raw_soap!(
            "bytes-of-a-surrogate",
            b"<s:Envelope xmlns:s=\"http://www.w3.org/2003/05/soap-envelope\" \
            xmlns:e=\"http://docs.oasis-open.org/ebxml-msg/ebms/v3.0/ns/core/200704/\"><s:Header>\
            <e:Messaging><e:SignalMessage><e:MessageInfo><e:Timestamp>\
            2025-01-02T03:04:05Z</e:Timestamp><e:MessageId>s2@a</e:MessageId></e:MessageInfo>\
            <e:PullRequest mpc=\"c\"/></e:SignalMessage></e:Messaging></s:Header><s:Body>\
            \xed\xa0\x80</s:Body></s:Envelope>" => b"refused EBMS:0009\n"
        ),
        raw_soap!(
            "bytes-past-the-last-character",
            b"<s:Envelope xmlns:s=\"http://www.w3.org/2003/05/soap-envelope\" \
            xmlns:e=\"http://docs.oasis-open.org/ebxml-msg/ebms/v3.0/ns/core/200704/\"><s:Header>\
            <e:Messaging><e:SignalMessage><e:MessageInfo><e:Timestamp>\
            2025-01-02T03:04:05Z</e:Timestamp><e:MessageId>s2@a</e:MessageId></e:MessageInfo>\
            <e:PullRequest mpc=\"c\"/></e:SignalMessage></e:Messaging></s:Header><s:Body>\
            \xf4\x90\x80\x80</s:Body></s:Envelope>" => b"refused EBMS:0009\n"
        ),
    ]
}

/// What stands before and after the root, and how deep a document is.
pub(crate) fn documents() -> [Vector; 20] {
    [
        soap!("document-empty", "" => "refused EBMS:0009"),
        soap!("document-of-blanks", " \r\n\t" => "refused EBMS:0009"),
        soap!("document-of-a-byte-order-mark", "\u{feff}" => "refused EBMS:0009"),
        soap!("document-of-a-comment", "<!-- a -->" => "refused EBMS:0009"),
        soap!("document-of-another-form", r#"{"a": 1}"# => "refused EBMS:0009"),
        raw_soap!("document-in-utf-16", b"\xff\xfe<\0a\0/\0>\0" => b"refused EBMS:0009\n"),
        raw_soap!(
            "bytes-of-latin-1",
            b"<s:Envelope xmlns:s=\"http://www.w3.org/2003/05/soap-envelope\" \
            xmlns:e=\"http://docs.oasis-open.org/ebxml-msg/ebms/v3.0/ns/core/200704/\"><s:Header>\
            <e:Messaging><e:SignalMessage><e:MessageInfo><e:Timestamp>\
            2025-01-02T03:04:05Z</e:Timestamp><e:MessageId>s2@a</e:MessageId></e:MessageInfo>\
            <e:PullRequest mpc=\"c\"/></e:SignalMessage></e:Messaging></s:Header><s:Body>\
            \xe9</s:Body></s:Envelope>" => b"refused EBMS:0009\n"
        ),
        soap!("byte-order-mark", around!(["\u{feff}"] []) => "pull c"),
        soap!("byte-order-mark-twice", around!(["\u{feff}\u{feff}"] []) => "refused EBMS:0009"),
        soap!("byte-order-mark-after-a-blank", around!([" \u{feff}"] []) => "refused EBMS:0009"),
        soap!("blanks-around-the-root", around!([" \t\r\n"] ["\n\r\t "]) => "pull c"),
        soap!("text-before-the-root", around!(["a"] []) => "refused EBMS:0009"),
        soap!("text-after-the-root", around!([] ["a"]) => "refused EBMS:0009"),
        soap!("reference-before-the-root", around!(["&#32;"] []) => "refused EBMS:0009"),
        soap!("nul-after-the-root", around!([] ["\0"]) => "refused EBMS:0009"),
        soap!("root-twice", around!([] ["<a/>"]) => "refused EBMS:0009"),
        soap!("end-tag-after-the-root", around!([] ["</s:Envelope>"]) => "refused EBMS:0009"),
        soap!(
            "root-left-open",
            text!(r#"<s:Envelope xmlns:s=""# soap_ns r#""><s:Header/><s:Body/>"#)
            => "refused EBMS:0009"
        ),
        good!("depth-of-32", fifteen ["<a><a>"] fifteen ["</a></a>"]),
        bad!("depth-of-33", fifteen ["<a><a>"] "<a/>" fifteen ["</a></a>"]),
    ]
}
