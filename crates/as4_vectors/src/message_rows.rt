//! References of a header and parts of its package, with the check lines of their messages.
use crate::pieces::{boundary_b, media, messaging, package, soap, text, with_info, with_parts};
use conformance::Vector;

/// References that name a part, and that name nothing in the package.
pub(crate) fn references() -> [Vector; 20] {
    [
        boundary_b!(
            "reference-to-a-part",
            with_info!(r#"<e:PartInfo href="cid:p@a"/>"#) => "user m1@a"
        ),
        boundary_b!(
            "reference-with-its-scheme-in-capitals",
            with_info!(r#"<e:PartInfo href="CID:p@a"/>"#) => "user m1@a"
        ),
        boundary_b!(
            "reference-with-blanks-around",
            with_info!("<e:PartInfo href=\" \ncid:p@a\t\"/>") => "user m1@a"
        ),
        boundary_b!(
            "reference-escaped",
            with_info!(r#"<e:PartInfo href="cid:%70%40a"/>"#) => "user m1@a"
        ),
        boundary_b!(
            "reference-escaped-in-small-digits",
            with_parts!(
                [r#"<e:PartInfo href="cid:p%2fa"/>"#]
                ["--b\r\nContent-ID: <p/a>\r\n\r\nx\r\n"]
            ) => "user m1@a"
        ),
        boundary_b!(
            "reference-by-a-character-reference",
            with_info!(r#"<e:PartInfo href="c&#105;d:p&#64;a"/>"#) => "user m1@a"
        ),
        boundary_b!(
            "reference-with-a-plus",
            with_parts!(
                [r#"<e:PartInfo href="cid:p+a"/>"#]
                ["--b\r\nContent-ID: <p+a>\r\n\r\nx\r\n"]
            ) => "user m1@a"
        ),
        boundary_b!(
            "reference-with-a-lone-percent-sign",
            with_parts!(
                [r#"<e:PartInfo href="cid:p%4"/>"#]
                ["--b\r\nContent-ID: <p%4>\r\n\r\nx\r\n"]
            ) => "user m1@a"
        ),
        boundary_b!(
            "reference-to-an-escaped-name",
            with_parts!(
                [r#"<e:PartInfo href="cid:p%2540a"/>"#]
                ["--b\r\nContent-ID: <p%40a>\r\n\r\nx\r\n"]
            ) => "user m1@a"
        ),
        boundary_b!(
            "references-in-another-order",
            with_parts!(
                [r#"<e:PartInfo href="cid:q@a"/><e:PartInfo href="cid:p@a"/>"#]
                [part "--b\r\nContent-ID: <q@a>\r\n\r\nx\r\n"]
            ) => "user m1@a"
        ),
        boundary_b!("references-none-and-no-parts", with_parts!([] []) => "user m1@a"),
        boundary_b!(
            "part-info-with-other-children",
            with_info!(
                r#"<e:PartInfo href="cid:p@a"><e:Schema location="u"/>"#
                "<e:Description>d</e:Description><e:PartProperties>"
                r#"<e:Property name="n">v</e:Property></e:PartProperties><x/></e:PartInfo>"#
            ) => "user m1@a"
        ),
        boundary_b!(
            "part-with-the-content-id-of-the-root",
            package!(
                "--b\r\nContent-ID: <p@a>\r\nContent-Type: application/soap+xml\r\n\r\n"
                begin
                begin_user
                r#"<e:PayloadInfo><e:PartInfo href="cid:p@a"/></e:PayloadInfo>"#
                end_user
                end
                "\r\n"
                part
            ) => "user m1@a"
        ),
        boundary_b!("reference-missing", with_info!("<e:PartInfo/>") => "refused EBMS:0008 m1@a"),
        boundary_b!(
            "reference-empty",
            with_info!(r#"<e:PartInfo href=""/>"#) => "refused EBMS:0008 m1@a"
        ),
        boundary_b!(
            "reference-of-blanks",
            with_info!(r#"<e:PartInfo href=" &#10;"/>"#) => "refused EBMS:0008 m1@a"
        ),
        boundary_b!(
            "reference-in-a-namespace",
            with_info!(r#"<e:PartInfo e:href="cid:p@a"/>"#) => "refused EBMS:0008 m1@a"
        ),
        boundary_b!(
            "reference-into-the-envelope",
            with_info!("<e:PartInfo href=\"#p@a\"/>") => "refused EBMS:0008 m1@a"
        ),
        boundary_b!(
            "reference-to-the-web",
            with_info!(r#"<e:PartInfo href="http://a/b"/>"#) => "refused EBMS:0011 m1@a"
        ),
        boundary_b!(
            "reference-without-a-scheme",
            with_info!(r#"<e:PartInfo href="p@a"/>"#) => "refused EBMS:0011 m1@a"
        ),
    ]
}

/// References and parts that don't pair.
pub(crate) fn pairings() -> [Vector; 20] {
    [
        boundary_b!(
            "reference-with-an-escaped-scheme",
            with_info!(r#"<e:PartInfo href="%63id:p@a"/>"#) => "refused EBMS:0011 m1@a"
        ),
        boundary_b!(
            "reference-with-a-blank-in-its-scheme",
            with_info!(r#"<e:PartInfo href="cid :p@a"/>"#) => "refused EBMS:0011 m1@a"
        ),
        boundary_b!(
            "reference-by-message-identifier",
            with_info!(r#"<e:PartInfo href="mid:p@a"/>"#) => "refused EBMS:0011 m1@a"
        ),
        boundary_b!(
            "reference-to-no-part",
            with_info!(r#"<e:PartInfo href="cid:x@a"/>"#) => "refused EBMS:0007 m1@a"
        ),
        boundary_b!(
            "reference-to-nothing",
            with_info!(r#"<e:PartInfo href="cid:"/>"#) => "refused EBMS:0007 m1@a"
        ),
        boundary_b!(
            "reference-in-another-case",
            with_info!(r#"<e:PartInfo href="cid:P@a"/>"#) => "refused EBMS:0007 m1@a"
        ),
        boundary_b!(
            "reference-in-brackets",
            with_info!(r#"<e:PartInfo href="cid:&lt;p@a&gt;"/>"#) => "refused EBMS:0007 m1@a"
        ),
        boundary_b!(
            "reference-escaped-twice",
            with_info!(r#"<e:PartInfo href="cid:p%2540a"/>"#) => "refused EBMS:0007 m1@a"
        ),
        boundary_b!(
            "reference-with-a-blank-behind-its-scheme",
            with_info!(r#"<e:PartInfo href="cid: p@a"/>"#) => "refused EBMS:0007 m1@a"
        ),
        boundary_b!(
            "reference-without-parts",
            with_parts!([r#"<e:PartInfo href="cid:p@a"/>"#] []) => "refused EBMS:0007 m1@a"
        ),
        soap!(
            "reference-from-a-bare-envelope",
            messaging!(
                begin_user
                r#"<e:PayloadInfo><e:PartInfo href="cid:p@a"/></e:PayloadInfo>"#
                end_user
            ) => "refused EBMS:0007 m1@a"
        ),
        boundary_b!(
            "reference-to-the-root-alone",
            package!(
                "--b\r\nContent-ID: <r@a>\r\nContent-Type: application/soap+xml\r\n\r\n"
                begin
                begin_user
                r#"<e:PayloadInfo><e:PartInfo href="cid:r@a"/></e:PayloadInfo>"#
                end_user
                end
                "\r\n"
            ) => "refused EBMS:0007 m1@a"
        ),
        boundary_b!(
            "references-to-one-part",
            with_parts!([r#"<e:PartInfo href="cid:p@a"/><e:PartInfo href="cid:p@a"/>"#] [part])
            => "refused EBMS:0007 m1@a"
        ),
        boundary_b!(
            "references-to-one-part-in-two-spellings",
            with_parts!([r#"<e:PartInfo href="cid:p%40a"/><e:PartInfo href="CID:p@a"/>"#] [part])
            => "refused EBMS:0007 m1@a"
        ),
        boundary_b!(
            "parts-of-one-content-id",
            with_parts!([r#"<e:PartInfo href="cid:p@a"/>"#] [part part]) => "refused EBMS:0007 m1@a"
        ),
        boundary_b!(
            "parts-of-one-content-id-named-twice",
            with_parts!([r#"<e:PartInfo href="cid:p@a"/><e:PartInfo href="cid:p@a"/>"#] [part part])
            => "refused EBMS:0007 m1@a"
        ),
        boundary_b!(
            "part-without-a-content-id",
            with_parts!([] ["--b\r\nContent-Type: text/plain\r\n\r\nx\r\n"])
            => "refused EBMS:0007 m1@a"
        ),
        boundary_b!(
            "part-without-a-content-id-beside-another",
            with_parts!(
                [r#"<e:PartInfo href="cid:p@a"/>"#]
                [part "--b\r\nContent-Type: text/plain\r\n\r\nx\r\n"]
            ) => "refused EBMS:0007 m1@a"
        ),
        boundary_b!(
            "part-that-isnt-named",
            with_parts!(
                [r#"<e:PartInfo href="cid:p@a"/>"#]
                [part "--b\r\nContent-ID: <q@a>\r\n\r\nx\r\n"]
            ) => "refused EBMS:0007 m1@a"
        ),
        boundary_b!(
            "part-without-a-payload-info",
            package!(root begin user end "\r\n" part) => "refused EBMS:0007 m1@a"
        ),
    ]
}

/// Signals in packages, and which refusal comes first.
pub(crate) fn orders() -> [Vector; 20] {
    [
        boundary_b!("package-of-a-pull-request", package!(root begin pull end "\r\n") => "pull c"),
        boundary_b!(
            "package-of-a-receipt",
            package!(root begin receipt end "\r\n") => "receipt m1@a"
        ),
        boundary_b!(
            "package-of-a-pair",
            package!(root begin receipt pull end "\r\n") => "pair m1@a c"
        ),
        boundary_b!(
            "package-of-a-pull-request-with-a-part",
            package!(root begin pull end "\r\n" part) => "refused EBMS:0007 s2@a"
        ),
        boundary_b!(
            "package-of-a-receipt-with-a-nameless-part",
            package!(root begin receipt end "\r\n--b\r\nContent-Type: text/plain\r\n\r\nx\r\n")
            => "refused EBMS:0007 s1@a"
        ),
        boundary_b!(
            "package-of-an-error-with-a-part",
            package!(root begin error end "\r\n" part) => "refused EBMS:0007 s3@a"
        ),
        boundary_b!(
            "package-of-a-pair-with-a-part",
            package!(root begin receipt pull end "\r\n" part) => "refused EBMS:0007 s1@a"
        ),
        boundary_b!(
            "package-of-a-turned-pair-with-a-part",
            package!(root begin pull receipt end "\r\n" part) => "refused EBMS:0007 s1@a"
        ),
        boundary_b!(
            "order-no-reference-before-one-to-the-web",
            with_parts!([r#"<e:PartInfo href="http://a/b"/><e:PartInfo/>"#] [])
            => "refused EBMS:0008 m1@a"
        ),
        boundary_b!(
            "order-reference-to-the-web-before-one-to-no-part",
            with_parts!([r#"<e:PartInfo href="cid:x@a"/><e:PartInfo href="http://a/b"/>"#] [])
            => "refused EBMS:0011 m1@a"
        ),
        boundary_b!(
            "order-reference-to-the-web-before-a-part-that-isnt-named",
            with_parts!([r#"<e:PartInfo href="http://a/b"/>"#] [part]) => "refused EBMS:0011 m1@a"
        ),
        boundary_b!(
            "order-encoding-before-the-envelope",
            package!(
                "--b\r\nContent-Type: application/soap+xml\r\n"
                "Content-Transfer-Encoding: base64\r\n\r\nx\r\n"
            ) => "refused EBMS:0008"
        ),
        boundary_b!(
            "order-package-before-the-envelope",
            "--b\r\nContent-Type: text/plain\r\n\r\nx\r\n--b--" => "refused EBMS:0007"
        ),
        boundary_b!(
            "order-envelope-before-the-parts",
            package!(root "x\r\n" part) => "refused EBMS:0009"
        ),
        boundary_b!(
            "order-unit-before-the-parts",
            package!(root begin begin_user "<e:x/>" end_user end "\r\n" part) => "refused EBMS:0009"
        ),
        boundary_b!(
            "order-must-understand-before-the-parts",
            package!(
                root
                open
                r#"<s:Header><x s:mustUnderstand="1"/><e:Messaging>"#
                user
                "</e:Messaging></s:Header><s:Body/>"
                close
                "\r\n"
                part
            ) => "refused EBMS:0008"
        ),
        boundary_b!(
            "order-two-units-before-the-parts",
            package!(root begin user user end "\r\n" part) => "refused EBMS:0008"
        ),
        boundary_b!(
            "reference-with-an-escaped-colon",
            with_info!(r#"<e:PartInfo href="cid%3Ap@a"/>"#) => "refused EBMS:0011 m1@a"
        ),
        boundary_b!(
            "reference-with-an-escaped-number-sign",
            with_info!(r#"<e:PartInfo href="%23p@a"/>"#) => "refused EBMS:0011 m1@a"
        ),
        boundary_b!(
            "reference-of-a-number-sign",
            with_info!("<e:PartInfo href=\"#\"/>") => "refused EBMS:0008 m1@a"
        ),
    ]
}
