//! Media texts and packages, with the check lines of their messages.
use crate::pieces::{
    bare, boundary_b, in_mpc, in_root, media, messaging, package, packaged, soap, text, with_part,
    with_parts,
};
use conformance::Vector;

/// The media text of a bare envelope.
pub(crate) fn media_of_envelopes() -> [Vector; 20] {
    [
        soap!("media-of-an-envelope", messaging!(pull) => "pull c"),
        bare!("media-in-capitals", "Application/SOAP+XML" => "pull c"),
        bare!("media-with-blanks-around", " \tapplication/soap+xml ; charset=utf-8\t" => "pull c"),
        bare!(
            "media-with-a-quoted-charset", r#"application/soap+xml; CHARSET="u\tf-8""#
            => "pull c"
        ),
        bare!("media-with-charset-us-ascii", "application/soap+xml; charset=US-ASCII" => "pull c"),
        media!(
            "media-with-charset-us-ascii-past-ascii", "application/soap+xml; charset=us-ascii",
            in_mpc!("é") => "pull é"
        ),
        bare!(
            "media-with-other-parameters", r#"application/soap+xml; action="a;b"; x={y}; boundary=b"#
            => "pull c"
        ),
        bare!(
            "media-with-charset-latin-1", "application/soap+xml; charset=iso-8859-1"
            => "refused EBMS:0007"
        ),
        bare!(
            "media-with-charset-utf-16", "application/soap+xml; charset=utf-16"
            => "refused EBMS:0007"
        ),
        bare!(
            "media-with-charset-utf8", "application/soap+xml; charset=utf8"
            => "refused EBMS:0007"
        ),
        bare!(
            "media-with-an-empty-charset", r#"application/soap+xml; charset="""#
            => "refused EBMS:0007"
        ),
        bare!(
            "media-with-a-charset-twice", "application/soap+xml; charset=utf-8; charset=utf-8"
            => "refused EBMS:0007"
        ),
        bare!(
            "media-of-an-envelope-with-a-parameter-twice", "application/soap+xml; a=b; A=c"
            => "refused EBMS:0007"
        ),
        bare!(
            "media-with-a-semicolon-at-its-end", "application/soap+xml; charset=utf-8;"
            => "refused EBMS:0007"
        ),
        bare!(
            "media-with-a-list", "application/soap+xml, application/soap+xml"
            => "refused EBMS:0007"
        ),
        bare!("media-empty", "" => "refused EBMS:0007"),
        bare!("media-of-soap-1-1", "text/xml" => "refused EBMS:0007"),
        bare!("media-of-xml", "application/xml" => "refused EBMS:0007"),
        bare!("media-of-mtom", "application/xop+xml" => "refused EBMS:0007"),
        bare!("media-with-more-behind", "application/soap+xml-x" => "refused EBMS:0007"),
    ]
}

/// The media text of a package.
pub(crate) fn media_of_packages() -> [Vector; 20] {
    [
        boundary_b!("package", package!(root begin pull end "\r\n") => "pull c"),
        packaged!("package-media-in-capitals", "MULTIPART/Related;BOUNDARY=b" => "pull c"),
        packaged!("package-media-with-blanks", " \tmultipart/related\t;\t boundary=b " => "pull c"),
        packaged!(
            "package-media-with-other-parameters", r#"multipart/related; type="text/xml"; start-info="x"; charset=x; boundary=b"#
            => "pull c"
        ),
        packaged!("package-without-a-type", r#"multipart/related; boundary="b""# => "pull c"),
        packaged!(
            "package-of-another-multipart", "multipart/mixed; boundary=b"
            => "refused EBMS:0007"
        ),
        packaged!("package-without-a-subtype", "multipart; boundary=b" => "refused EBMS:0007"),
        packaged!(
            "package-with-a-blank-in-its-type", "multipart /related; boundary=b"
            => "refused EBMS:0007"
        ),
        packaged!(
            "package-with-a-comment", "multipart/related (a); boundary=b"
            => "refused EBMS:0007"
        ),
        packaged!("package-folded", "multipart/related;\r\n boundary=b" => "refused EBMS:0007"),
        packaged!(
            "parameter-unquoted-with-a-slash", "multipart/related; type=text/xml; boundary=b"
            => "refused EBMS:0007"
        ),
        packaged!(
            "parameter-past-ascii", "multipart/related; x=é; boundary=b"
            => "refused EBMS:0007"
        ),
        packaged!(
            "parameter-quoted-past-ascii", "multipart/related; x=\"é\r \\\r\\\"\"; boundary=b"
            => "pull c"
        ),
        packaged!("parameter-quoted-empty", r#"multipart/related; x=""; boundary=b"# => "pull c"),
        packaged!("parameter-empty", "multipart/related; x=; boundary=b" => "refused EBMS:0007"),
        packaged!(
            "parameter-without-a-value", "multipart/related; x; boundary=b"
            => "refused EBMS:0007"
        ),
        packaged!(
            "parameter-with-a-blank-before-its-sign", "multipart/related; boundary =b"
            => "refused EBMS:0007"
        ),
        packaged!(
            "parameter-after-two-semicolons", "multipart/related;; boundary=b"
            => "refused EBMS:0007"
        ),
        packaged!(
            "parameter-before-a-last-semicolon", "multipart/related; boundary=b;"
            => "refused EBMS:0007"
        ),
        packaged!(
            "parameter-with-more-behind-its-quotes", r#"multipart/related; boundary="b"b"#
            => "refused EBMS:0007"
        ),
    ]
}

/// Further parameters, and the boundary.
pub(crate) fn boundaries() -> [Vector; 20] {
    [
        packaged!(
            "parameter-with-quotes-left-open", r#"multipart/related; boundary="b"#
            => "refused EBMS:0007"
        ),
        packaged!(
            "parameter-ended-by-a-backslash", r#"multipart/related; boundary=b; x="\""#
            => "refused EBMS:0007"
        ),
        packaged!(
            "parameter-twice", "multipart/related; x=1; boundary=b; X=2"
            => "refused EBMS:0007"
        ),
        packaged!(
            "parameter-without-a-semicolon", "multipart/related boundary=b"
            => "refused EBMS:0007"
        ),
        packaged!(
            "parameter-with-a-blank-behind-its-sign", "multipart/related; boundary= b"
            => "refused EBMS:0007"
        ),
        packaged!(
            "boundary-twice", "multipart/related; boundary=b; boundary=b"
            => "refused EBMS:0007"
        ),
        packaged!("boundary-missing", "multipart/related" => "refused EBMS:0007"),
        packaged!(
            "boundary-in-extended-form", "multipart/related; boundary*=us-ascii''b"
            => "refused EBMS:0007"
        ),
        packaged!("boundary-empty", r#"multipart/related; boundary="""# => "refused EBMS:0007"),
        packaged!("boundary-with-a-backslash", r#"multipart/related; boundary="\b""# => "pull c"),
        packaged!(
            "boundary-in-another-case", "multipart/related; boundary=B"
            => "refused EBMS:0007"
        ),
        media!(
            "boundary-of-every-mark", r#"multipart/related; boundary="'()+_,-./:=?""#,
            text!(
                "--'()+_,-./:=?\r\nContent-Type: application/soap+xml\r\n\r\n"
                begin
                pull
                end
                "\r\n--'()+_,-./:=?--"
            ) => "pull c"
        ),
        media!(
            "boundary-with-a-space", r#"multipart/related; boundary=" b b""#,
            text!(
                "-- b b\r\nContent-Type: application/soap+xml\r\n\r\n"
                begin
                pull
                end
                "\r\n-- b b--"
            ) => "pull c"
        ),
        media!(
            "boundary-ended-by-a-space", r#"multipart/related; boundary="b ""#,
            text!("--b \r\nContent-Type: application/soap+xml\r\n\r\n" begin pull end "\r\n--b --")
            => "refused EBMS:0007"
        ),
        media!(
            "boundary-with-a-tab", "multipart/related; boundary=\"b\tb\"",
            text!(
                "--b\tb\r\nContent-Type: application/soap+xml\r\n\r\n"
                begin
                pull
                end
                "\r\n--b\tb--"
            ) => "refused EBMS:0007"
        ),
        media!(
            "boundary-with-a-semicolon", r#"multipart/related; boundary="b;b""#,
            text!(
                "--b;b\r\nContent-Type: application/soap+xml\r\n\r\n"
                begin
                pull
                end
                "\r\n--b;b--"
            ) => "refused EBMS:0007"
        ),
        media!(
            "boundary-with-a-quote", r#"multipart/related; boundary="b\"b""#,
            text!(
                "--b\"b\r\nContent-Type: application/soap+xml\r\n\r\n"
                begin
                pull
                end
                "\r\n--b\"b--"
            ) => "refused EBMS:0007"
        ),
        media!(
            "boundary-past-ascii", r#"multipart/related; boundary="é""#,
            text!("--é\r\nContent-Type: application/soap+xml\r\n\r\n" begin pull end "\r\n--é--")
            => "refused EBMS:0007"
        ),
        media!(
            "boundary-of-70-bytes", r#"multipart/related; boundary="bbbbbbbbbbbbbbbbbbbbbbbbbbbbbbbbbbbbbbbbbbbbbbbbbbbbbbbbbbbbbbbbbbbbbb""#,
            text!(
                "--bbbbbbbbbbbbbbbbbbbbbbbbbbbbbbbbbbbbbbbbbbbbbbbbbbbbbbbbbbbbbbbbbbbbbb\r\n"
                "Content-Type: application/soap+xml\r\n\r\n"
                begin
                pull
                end
                "\r\n--bbbbbbbbbbbbbbbbbbbbbbbbbbbbbbbbbbbbbbbbbbbbbbbbbbbbbbbbbbbbbbbbbbbbbb--"
            ) => "pull c"
        ),
        media!(
            "boundary-of-71-bytes", r#"multipart/related; boundary="bbbbbbbbbbbbbbbbbbbbbbbbbbbbbbbbbbbbbbbbbbbbbbbbbbbbbbbbbbbbbbbbbbbbbbb""#,
            text!(
                "--bbbbbbbbbbbbbbbbbbbbbbbbbbbbbbbbbbbbbbbbbbbbbbbbbbbbbbbbbbbbbbbbbbbbbbb\r\n"
                "Content-Type: application/soap+xml\r\n\r\n"
                begin
                pull
                end
                "\r\n"
                "--bbbbbbbbbbbbbbbbbbbbbbbbbbbbbbbbbbbbbbbbbbbbbbbbbbbbbbbbbbbbbbbbbbbbbbb--"
            ) => "refused EBMS:0007"
        ),
    ]
}

/// Delimiters.
pub(crate) fn delimiters() -> [Vector; 20] {
    [
        boundary_b!("package-empty", "" => "refused EBMS:0007"),
        boundary_b!(
            "text-before-the-first-delimiter",
            text!(
                "a\r\n\r\n--bc\r\nb--b\r\n--b\r\nContent-Type: application/soap+xml\r\n\r\n"
                begin
                pull
                end
                "\r\n--b--"
            ) => "pull c"
        ),
        boundary_b!(
            "text-after-the-last-delimiter",
            text!(
                "--b\r\nContent-Type: application/soap+xml\r\n\r\n"
                begin
                pull
                end
                "\r\n--b--\r\na\r\n--b\r\nA\r\n"
            ) => "pull c"
        ),
        boundary_b!(
            "delimiter-with-blanks-behind",
            text!(
                "--b \t\r\nContent-Type: application/soap+xml\r\n\r\n"
                begin
                pull
                end
                "\r\n--b--\t \r\n"
            ) => "pull c"
        ),
        boundary_b!(
            "last-delimiter-at-the-end",
            text!("--b\r\nContent-Type: application/soap+xml\r\n\r\n" begin pull end "\r\n--b--")
            => "pull c"
        ),
        boundary_b!(
            "last-delimiter-before-the-first",
            text!(
                "--b--\r\n--b\r\nContent-Type: application/soap+xml\r\n\r\n"
                begin
                pull
                end
                "\r\n--b--"
            ) => "pull c"
        ),
        boundary_b!("last-delimiter-alone", "--b--\r\n" => "refused EBMS:0007"),
        boundary_b!(
            "last-delimiter-missing",
            text!("--b\r\nContent-Type: application/soap+xml\r\n\r\n" begin pull end "\r\n")
            => "refused EBMS:0007"
        ),
        boundary_b!(
            "last-delimiter-without-its-line-end-before",
            text!("--b\r\nContent-Type: application/soap+xml\r\n\r\n" begin pull end "--b--")
            => "refused EBMS:0007"
        ),
        boundary_b!(
            "last-delimiter-with-more-behind",
            text!(
                "--b\r\nContent-Type: application/soap+xml\r\n\r\n"
                begin
                pull
                end
                "\r\n--b--b\r\n"
            ) => "refused EBMS:0007"
        ),
        boundary_b!(
            "last-delimiter-with-a-blank-inside",
            text!(
                "--b\r\nContent-Type: application/soap+xml\r\n\r\n"
                begin
                pull
                end
                "\r\n--b --\r\n"
            ) => "refused EBMS:0007"
        ),
        boundary_b!(
            "last-delimiter-ended-by-lf",
            text!("--b\r\nContent-Type: application/soap+xml\r\n\r\n" begin pull end "\r\n--b--\n")
            => "refused EBMS:0007"
        ),
        boundary_b!("delimiter-at-the-end-without-line-end", "--b" => "refused EBMS:0007"),
        boundary_b!(
            "delimiter-in-place-of-the-last",
            text!("--b\r\nContent-Type: application/soap+xml\r\n\r\n" begin pull end "\r\n--b\r\n")
            => "refused EBMS:0007"
        ),
        boundary_b!(
            "delimiter-after-a-blank",
            text!(" --b\r\nContent-Type: application/soap+xml\r\n\r\n" begin pull end "\r\n--b--")
            => "refused EBMS:0007"
        ),
        boundary_b!(
            "delimiter-of-three-dashes",
            text!("---b\r\nContent-Type: application/soap+xml\r\n\r\n" begin pull end "\r\n--b--")
            => "refused EBMS:0007"
        ),
        boundary_b!(
            "delimiter-of-a-longer-name",
            text!("--bb\r\nContent-Type: application/soap+xml\r\n\r\n" begin pull end "\r\n--b--")
            => "refused EBMS:0007"
        ),
        boundary_b!(
            "delimiter-after-lf-alone",
            text!("a\n--b\r\nContent-Type: application/soap+xml\r\n\r\n" begin pull end "\r\n--b--")
            => "refused EBMS:0007"
        ),
        boundary_b!(
            "delimiter-ended-by-lf",
            text!("--b\nContent-Type: application/soap+xml\r\n\r\n" begin pull end "\r\n--b--")
            => "refused EBMS:0007"
        ),
        boundary_b!(
            "lines-ended-by-lf",
            text!("--b\nContent-Type: application/soap+xml\n\n" begin pull end "\n--b--\n")
            => "refused EBMS:0007"
        ),
    ]
}

/// How many parts there are, and their fields.
pub(crate) fn fields() -> [Vector; 20] {
    [
        boundary_b!(
            "delimiters-that-share-a-line-end",
            text!(
                "--b\r\n--b\r\nContent-Type: application/soap+xml\r\n\r\n"
                begin
                pull
                end
                "\r\n--b--"
            ) => "refused EBMS:0007"
        ),
        boundary_b!(
            "parts-256",
            text!(
                root
                begin
                pull
                end
                "\r\n"
                fifteen ["--b\r\n--b\r\n--b\r\n--b\r\n--b\r\n--b\r\n--b\r\n--b\r\n--b\r\n--b\r\n--b\r\n--b\r\n--b\r\n--b\r\n--b\r\n--b\r\n--b\r\n"]
                "--b--"
            ) => "refused EBMS:0007 s2@a"
        ),
        boundary_b!(
            "parts-257",
            text!(root begin pull end "\r\n" sixteen_sixteens ["--b\r\n"] "--b--")
            => "refused EBMS:0007"
        ),
        boundary_b!(
            "field-in-capitals",
            in_root!("CONTENT-type:application/soap+xml\r\n") => "pull c"
        ),
        boundary_b!(
            "field-with-blanks-around-its-value",
            in_root!("Content-Type: \t application/soap+xml\t \r\n") => "pull c"
        ),
        boundary_b!(
            "field-folded",
            in_root!("Content-Type:\r\n application/soap+xml;\r\n\tcharset=utf-8\r\n \r\n")
            => "pull c"
        ),
        boundary_b!(
            "fields-unknown",
            in_root!(
                "MIME-Version: 1.0\r\n!#$%~: \x01é\r\nContent-Type: application/soap+xml\r\n"
                "A:\r\nA:\r\n"
            ) => "pull c"
        ),
        boundary_b!(
            "fields-64",
            in_root!(
                sixteen ["A:\r\nB:\r\nC:\r\n"]
                fifteen ["D:\r\n"]
                "Content-Type: application/soap+xml\r\n"
            ) => "pull c"
        ),
        boundary_b!(
            "fields-65",
            in_root!(sixteen ["A:\r\nB:\r\nC:\r\nD:\r\n"] "Content-Type: application/soap+xml\r\n")
            => "refused EBMS:0007"
        ),
        boundary_b!(
            "field-without-a-colon",
            in_root!("Content-Type: application/soap+xml\r\nA\r\n") => "refused EBMS:0007"
        ),
        boundary_b!(
            "field-without-a-name",
            in_root!("Content-Type: application/soap+xml\r\n: a\r\n") => "refused EBMS:0007"
        ),
        boundary_b!(
            "field-with-a-blank-before-its-colon",
            in_root!("Content-Type : application/soap+xml\r\n") => "refused EBMS:0007"
        ),
        boundary_b!(
            "field-with-a-name-past-ascii",
            in_root!("Content-Type: application/soap+xml\r\né: a\r\n") => "refused EBMS:0007"
        ),
        boundary_b!(
            "field-folded-first",
            in_root!(" A: b\r\nContent-Type: application/soap+xml\r\n") => "refused EBMS:0007"
        ),
        boundary_b!(
            "field-with-lf",
            in_root!("Content-Type: application/soap+xml\r\nA: b\nC: d\r\n") => "refused EBMS:0007"
        ),
        boundary_b!(
            "field-with-cr",
            in_root!("Content-Type: application/soap+xml\r\nA: b\rC: d\r\n") => "refused EBMS:0007"
        ),
        boundary_b!(
            "field-ended-by-lf",
            in_root!("Content-Type: application/soap+xml\n") => "refused EBMS:0007"
        ),
        boundary_b!(
            "field-of-type-twice",
            in_root!("Content-Type: application/soap+xml\r\nContent-Type: application/soap+xml\r\n")
            => "refused EBMS:0007"
        ),
        boundary_b!(
            "field-of-identifier-twice",
            in_root!(
                "Content-Type: application/soap+xml\r\nContent-ID: <r@a>\r\n"
                "content-id: <r@a>\r\n"
            ) => "refused EBMS:0007"
        ),
        boundary_b!(
            "field-of-encoding-twice",
            in_root!(
                "Content-Type: application/soap+xml\r\nContent-Transfer-Encoding: 8bit\r\n"
                "Content-Transfer-Encoding: 8bit\r\n"
            ) => "refused EBMS:0007"
        ),
    ]
}

/// The bytes of a part, and its identifier.
pub(crate) fn parts() -> [Vector; 20] {
    [
        boundary_b!(
            "fields-without-a-blank-line",
            text!("--b\r\nContent-Type: application/soap+xml\r\n" begin pull end "\r\n--b--")
            => "refused EBMS:0007"
        ),
        boundary_b!(
            "fields-ended-by-a-delimiter",
            "--b\r\nContent-Type: application/soap+xml\r\n--b--" => "refused EBMS:0007"
        ),
        boundary_b!(
            "part-with-its-fields-alone-unended",
            with_part!("Content-ID: <p@a>") => "refused EBMS:0007"
        ),
        boundary_b!("part-empty", with_part!("Content-ID: <p@a>\r\n") => "user m1@a"),
        boundary_b!("part-of-no-bytes", with_part!("Content-ID: <p@a>\r\n\r\n") => "user m1@a"),
        boundary_b!(
            "part-of-lines",
            with_part!("Content-ID: <p@a>\r\n\r\n\r\n\r\n") => "user m1@a"
        ),
        boundary_b!(
            "part-with-lines-like-delimiters",
            with_part!(
                "Content-ID: <p@a>\r\n\r\n--bb\r\n--b --\r\n --b\r\n--b\n--b--a\n--b\r\r\n"
                "--B\r\n-b"
            ) => "user m1@a"
        ),
        boundary_b!(
            "part-of-any-type",
            with_part!("Content-ID: <p@a>\r\nContent-Type: any text; at all;\r\n\r\nx")
            => "user m1@a"
        ),
        boundary_b!(
            "part-with-a-type-of-1024-bytes",
            with_part!(
                "Content-ID: <p@a>\r\nContent-Type: "
                sixteen ["xxxxxxxxxxxxxxxxxxxxxxxxxxxxxxxxxxxxxxxxxxxxxxxxxxxxxxxxxxxxxxxx"]
                " \r\n\r\n"
            ) => "user m1@a"
        ),
        boundary_b!(
            "part-with-a-type-of-1025-bytes",
            with_part!(
                "Content-ID: <p@a>\r\nContent-Type: "
                sixteen ["xxxxxxxxxxxxxxxxxxxxxxxxxxxxxxxxxxxxxxxxxxxxxxxxxxxxxxxxxxxxxxxx"]
                "x\r\n\r\n"
            ) => "refused EBMS:0007"
        ),
        boundary_b!("content-id-bare", with_part!("Content-ID:p@a\r\n\r\nx") => "user m1@a"),
        boundary_b!(
            "content-id-folded",
            with_part!("Content-ID:\r\n <p@a>\r\n\r\nx") => "user m1@a"
        ),
        boundary_b!("content-id-empty", with_part!("Content-ID:\r\n\r\nx") => "refused EBMS:0007"),
        boundary_b!(
            "content-id-of-brackets-alone",
            with_part!("Content-ID: <>\r\n\r\nx") => "refused EBMS:0007"
        ),
        boundary_b!(
            "content-id-with-one-bracket",
            with_part!("Content-ID: <p@a\r\n\r\nx") => "refused EBMS:0007"
        ),
        boundary_b!(
            "content-id-in-two-brackets",
            with_part!("Content-ID: <<p@a>>\r\n\r\nx") => "refused EBMS:0007"
        ),
        boundary_b!(
            "content-id-with-a-blank",
            with_part!("Content-ID: <p @a>\r\n\r\nx") => "refused EBMS:0007"
        ),
        boundary_b!(
            "content-id-past-ascii",
            with_part!("Content-ID: <é@a>\r\n\r\nx") => "refused EBMS:0007"
        ),
        boundary_b!(
            "content-id-of-255-bytes",
            with_parts!(
                [r#"<e:PartInfo href="cid:"# fifteen ["ppppppppppppppppp"] r#""/>"#]
                ["--b\r\nContent-ID: <" fifteen ["ppppppppppppppppp"] ">\r\n\r\nx\r\n"]
            ) => "user m1@a"
        ),
        boundary_b!(
            "content-id-of-256-bytes",
            with_part!("Content-ID: <" sixteen ["pppppppppppppppp"] ">\r\n\r\nx")
            => "refused EBMS:0007"
        ),
    ]
}

/// Which part is the root.
pub(crate) fn roots() -> [Vector; 20] {
    [
        media!(
            "start-in-brackets", r#"multipart/related; boundary=b; start="<r@a>""#,
            text!(started) => "user m1@a"
        ),
        media!(
            "start-without-brackets", r#"multipart/related; boundary=b; start="r@a""#,
            text!(started) => "user m1@a"
        ),
        media!(
            "start-with-a-backslash", r#"multipart/related; boundary=b; start="<r\@a>""#,
            text!(started) => "user m1@a"
        ),
        media!(
            "start-of-no-part", r#"multipart/related; boundary=b; start="<x@a>""#,
            text!(started) => "refused EBMS:0007"
        ),
        media!(
            "start-in-another-case", r#"multipart/related; boundary=b; start="<R@A>""#,
            text!(started) => "refused EBMS:0007"
        ),
        media!(
            "start-escaped", r#"multipart/related; boundary=b; start="<r%40a>""#,
            text!(started) => "refused EBMS:0007"
        ),
        media!(
            "start-with-one-bracket", r#"multipart/related; boundary=b; start="<r@a""#,
            text!(started) => "refused EBMS:0007"
        ),
        media!(
            "start-empty", r#"multipart/related; boundary=b; start="""#,
            text!(started) => "refused EBMS:0007"
        ),
        media!(
            "start-of-a-part-of-another-type", r#"multipart/related; boundary=b; start="<p@a>""#,
            text!(started) => "refused EBMS:0007"
        ),
        boundary_b!("start-missing-and-the-root-second", text!(started) => "refused EBMS:0007"),
        media!(
            "start-of-two-parts", r#"multipart/related; boundary=b; start="p@a""#,
            package!(
                "--b\r\nContent-ID: <p@a>\r\nContent-Type: application/soap+xml\r\n\r\n"
                begin
                pull
                end
                "\r\n"
                part
            ) => "refused EBMS:0007"
        ),
        media!(
            "start-behind-an-empty-part", r#"multipart/related; boundary=b; start="r@a""#,
            text!(
                "--b\r\n--b\r\nContent-ID: r@a\r\nContent-Type: application/soap+xml\r\n\r\n"
                begin
                pull
                end
                "\r\n--b--"
            ) => "refused EBMS:0007 s2@a"
        ),
        boundary_b!(
            "root-of-soap-1-1",
            in_root!("Content-Type: text/xml\r\n") => "refused EBMS:0007"
        ),
        boundary_b!(
            "root-of-mtom",
            in_root!("Content-Type: application/xop+xml; type=\"application/soap+xml\"\r\n")
            => "refused EBMS:0007"
        ),
        boundary_b!("root-without-a-type", in_root!("A: b\r\n") => "refused EBMS:0007"),
        boundary_b!(
            "root-of-a-misspelled-type",
            in_root!("Content-Type: application/soap+xml;\r\n") => "refused EBMS:0007"
        ),
        boundary_b!(
            "root-with-charset-latin-1",
            in_root!("Content-Type: application/soap+xml; charset=iso-8859-1\r\n")
            => "refused EBMS:0007"
        ),
        boundary_b!(
            "root-with-charset-us-ascii",
            in_root!("Content-Type: application/soap+xml; charset=\"us-ascii\"\r\n") => "pull c"
        ),
        boundary_b!(
            "root-with-a-charset-twice",
            in_root!("Content-Type: application/soap+xml; charset=utf-8; charset=us-ascii\r\n")
            => "pull c"
        ),
        boundary_b!(
            "root-with-two-charsets",
            in_root!("Content-Type: application/soap+xml; charset=utf-8; charset=utf-16\r\n")
            => "refused EBMS:0007"
        ),
    ]
}

/// Transfer encodings, and further roots.
pub(crate) fn encodings() -> [Vector; 20] {
    [
        boundary_b!(
            "encoding-7bit",
            in_root!("Content-Type: application/soap+xml\r\nContent-Transfer-Encoding: 7bit\r\n")
            => "pull c"
        ),
        boundary_b!(
            "encoding-8bit-in-capitals",
            in_root!("Content-Type: application/soap+xml\r\nContent-Transfer-Encoding: 8BIT\r\n")
            => "pull c"
        ),
        boundary_b!(
            "encoding-binary",
            in_root!(
                "Content-Type: application/soap+xml\r\nContent-Transfer-Encoding: \tbinary \r\n"
            ) => "pull c"
        ),
        boundary_b!(
            "encoding-base64",
            in_root!("Content-Type: application/soap+xml\r\nContent-Transfer-Encoding: base64\r\n")
            => "refused EBMS:0008"
        ),
        boundary_b!(
            "encoding-quoted-printable",
            in_root!(
                "Content-Type: application/soap+xml\r\n"
                "Content-Transfer-Encoding: Quoted-Printable\r\n"
            ) => "refused EBMS:0008"
        ),
        boundary_b!(
            "encoding-unknown",
            in_root!("Content-Type: application/soap+xml\r\nContent-Transfer-Encoding: x-a\r\n")
            => "refused EBMS:0008"
        ),
        boundary_b!(
            "encoding-empty",
            in_root!("Content-Type: application/soap+xml\r\nContent-Transfer-Encoding: \r\n")
            => "refused EBMS:0008"
        ),
        boundary_b!(
            "encoding-with-a-parameter",
            in_root!(
                "Content-Type: application/soap+xml\r\nContent-Transfer-Encoding: 8bit;a=b\r\n"
            ) => "refused EBMS:0008"
        ),
        boundary_b!(
            "encoding-with-a-comment",
            in_root!(
                "Content-Type: application/soap+xml\r\nContent-Transfer-Encoding: 8bit (a)\r\n"
            ) => "refused EBMS:0008"
        ),
        boundary_b!(
            "encoding-quoted",
            in_root!(
                "Content-Type: application/soap+xml\r\nContent-Transfer-Encoding: \"8bit\"\r\n"
            ) => "refused EBMS:0008"
        ),
        boundary_b!(
            "encoding-base64-in-a-part",
            with_part!("Content-ID: <p@a>\r\nContent-Transfer-Encoding: base64\r\n\r\neA==")
            => "refused EBMS:0008"
        ),
        boundary_b!(
            "encoding-behind-a-wrong-type",
            in_root!("Content-Type: text/xml\r\nContent-Transfer-Encoding: base64\r\n")
            => "refused EBMS:0007"
        ),
        boundary_b!(
            "encoding-before-a-misspelled-part",
            text!(
                "--b\r\nContent-Transfer-Encoding: base64\r\n"
                "Content-Type: application/soap+xml\r\n\r\n"
                begin
                pull
                end
                "\r\n--b\r\nA\r\n--b--"
            ) => "refused EBMS:0007"
        ),
        boundary_b!("root-without-fields", in_root!() => "refused EBMS:0007"),
        boundary_b!(
            "root-of-a-package",
            in_root!("Content-Type: multipart/related; boundary=c\r\n") => "refused EBMS:0007"
        ),
        media!(
            "start-unquoted", "multipart/related; boundary=b; start=r@a",
            text!(started) => "refused EBMS:0007"
        ),
        media!(
            "start-with-a-scheme", r#"multipart/related; boundary=b; start="cid:r@a""#,
            text!(started) => "refused EBMS:0007"
        ),
        media!(
            "start-with-a-blank", r#"multipart/related; boundary=b; start=" <r@a>""#,
            text!(started) => "refused EBMS:0007"
        ),
        packaged!(
            "start-of-a-part-without-content-id", r#"multipart/related; boundary=b; start="r@a""#
            => "refused EBMS:0007"
        ),
        boundary_b!(
            "content-id-with-a-comment",
            with_part!("Content-ID: <p@a> (a)\r\n\r\nx") => "refused EBMS:0007"
        ),
    ]
}
