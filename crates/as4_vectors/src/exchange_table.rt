//! HTTP streams, with the requests that they begin with.
use crate::pieces::{bytes_stream, stream, text};
use conformance::Exchange;

/// The start line.
pub(crate) fn start_lines() -> [Exchange; 20] {
    [
        stream!("get", "GET / HTTP/1.1\r\nHost: a\r\n\r\n" => "request GET 0"),
        stream!("post", "POST /as4 HTTP/1.1\r\nHost: a\r\n\r\n" => "request POST 0"),
        stream!("version-1-0", "GET / HTTP/1.0\r\nHost: a\r\n\r\n" => "request GET 0"),
        stream!("version-2-0", "GET / HTTP/2.0\r\nHost: a\r\n\r\n" => "refused"),
        stream!("version-0-9", "GET /\r\nHost: a\r\n\r\n" => "refused"),
        stream!("version-with-more-digits", "GET / HTTP/1.10\r\nHost: a\r\n\r\n" => "refused"),
        stream!("version-in-small-letters", "GET / http/1.1\r\nHost: a\r\n\r\n" => "refused"),
        stream!("method-in-small-letters", "get / HTTP/1.1\r\nHost: a\r\n\r\n" => "refused"),
        stream!("method-put", "PUT / HTTP/1.1\r\nHost: a\r\n\r\n" => "refused"),
        stream!("method-that-begins-with-get", "GETS / HTTP/1.1\r\nHost: a\r\n\r\n" => "refused"),
        stream!("method-with-a-mark", "PO(ST / HTTP/1.1\r\nHost: a\r\n\r\n" => "refused"),
        stream!("method-missing", " / HTTP/1.1\r\nHost: a\r\n\r\n" => "refused"),
        stream!("blank-before-the-method", " GET / HTTP/1.1\r\nHost: a\r\n\r\n" => "refused"),
        stream!("tab-behind-the-method", "GET\t/ HTTP/1.1\r\nHost: a\r\n\r\n" => "refused"),
        stream!("two-spaces-before-the-target", "GET  / HTTP/1.1\r\nHost: a\r\n\r\n" => "refused"),
        stream!("two-spaces-behind-the-target", "GET /  HTTP/1.1\r\nHost: a\r\n\r\n" => "refused"),
        stream!("space-behind-the-version", "GET / HTTP/1.1 \r\nHost: a\r\n\r\n" => "refused"),
        stream!("target-missing", "GET HTTP/1.1\r\nHost: a\r\n\r\n" => "refused"),
        stream!("target-with-a-space", "GET /a b HTTP/1.1\r\nHost: a\r\n\r\n" => "refused"),
        stream!("preface-of-http-2", "PRI * HTTP/2.0\r\n\r\nSM\r\n\r\n" => "refused"),
    ]
}

/// Targets, and the ends of lines.
pub(crate) fn line_ends() -> [Exchange; 20] {
    [
        stream!(
            "target-absolute",
            "GET http://a/b?c#d HTTP/1.1\r\nHost: a\r\n\r\n" => "request GET 0"
        ),
        stream!("target-of-an-asterisk", "POST * HTTP/1.1\r\nHost: a\r\n\r\n" => "request POST 0"),
        stream!(
            "target-with-odd-marks",
            "GET /\"<>\\^`{|}% HTTP/1.1\r\nHost: a\r\n\r\n" => "request GET 0"
        ),
        stream!("target-past-ascii", "GET /é HTTP/1.1\r\nHost: a\r\n\r\n" => "request GET 0"),
        bytes_stream!(
            "target-not-in-utf-8",
            b"GET /\xe9 HTTP/1.1\r\nHost: a\r\n\r\n"
            => b"refused\n"
        ),
        stream!("target-with-a-control-byte", "GET /\x01 HTTP/1.1\r\nHost: a\r\n\r\n" => "refused"),
        stream!("target-with-delete", "GET /\x7f HTTP/1.1\r\nHost: a\r\n\r\n" => "refused"),
        stream!("version-1-2", "GET / HTTP/1.2\r\nHost: a\r\n\r\n" => "refused"),
        stream!("version-of-another-protocol", "GET / ICY/1.1\r\nHost: a\r\n\r\n" => "refused"),
        stream!("method-head", "HEAD / HTTP/1.1\r\nHost: a\r\n\r\n" => "refused"),
        stream!("method-connect", "CONNECT a:1 HTTP/1.1\r\nHost: a\r\n\r\n" => "refused"),
        bytes_stream!("hello-of-tls", b"\x16\x03\x01\0\x05\x01\0\0\x01\0" => b"refused\n"),
        stream!("empty-lines-before-the-head", "\r\n\n\r\n" get "\r\n" => "request GET 0"),
        stream!("blank-line-before-the-head", " \r\n" get "\r\n" => "refused"),
        stream!("lf-ends-lines", "POST / HTTP/1.1\nContent-Length: 2\n\nhi" => "request POST 2"),
        stream!(
            "lf-and-crlf-end-lines",
            "POST / HTTP/1.1\r\nContent-Length: 2\nHost: a\r\n\nhi" => "request POST 2"
        ),
        stream!("cr-ends-lines", "GET / HTTP/1.1\rHost: a\r\r" => "refused"),
        stream!("cr-before-crlf", "GET / HTTP/1.1\r\nHost: a\r\r\n\r\n" => "refused"),
        stream!("cr-before-the-head", "\r" get "\r\n" => "refused"),
        stream!("cr-in-the-blank-line", "GET / HTTP/1.1\r\nHost: a\r\n\r\r\n" => "refused"),
    ]
}

/// Fields.
pub(crate) fn fields() -> [Exchange; 20] {
    [
        stream!("fields-none", get "\r\n" => "request GET 0"),
        stream!("field-host-missing", get "Accept: */*\r\n\r\n" => "request GET 0"),
        stream!("field-host-twice", get "Host: a\r\nHost: b\r\n\r\n" => "request GET 0"),
        stream!("field-with-blanks-around-its-value", get "A: \t b \t\r\n\r\n" => "request GET 0"),
        stream!("field-without-a-value", get "A:\r\n\r\n" => "request GET 0"),
        stream!("field-name-of-marks", get "!#$%&'*+-.^_`|~0: a\r\n\r\n" => "request GET 0"),
        stream!("field-without-a-colon", get "A\r\n\r\n" => "refused"),
        stream!("field-without-a-name", get ": a\r\n\r\n" => "refused"),
        stream!("field-with-a-blank-before-its-colon", get "A : b\r\n\r\n" => "refused"),
        stream!("field-name-with-a-blank", get "A B: c\r\n\r\n" => "refused"),
        stream!("field-name-with-a-mark", get "A(: b\r\n\r\n" => "refused"),
        stream!("field-folded", get "A: b\r\n c\r\n\r\n" => "refused"),
        stream!("field-folded-first", get " A: b\r\n\r\n" => "refused"),
        bytes_stream!(
            "field-value-past-ascii",
            b"GET / HTTP/1.1\r\nA: \xe9\xff\r\n\r\n"
            => b"request GET 0\n"
        ),
        stream!("field-value-with-nul", get "A: b\0c\r\n\r\n" => "refused"),
        stream!("field-value-with-a-control-byte", get "A: b\x0bc\r\n\r\n" => "refused"),
        stream!("field-value-with-delete", get "A: b\x7f\r\n\r\n" => "refused"),
        stream!(
            "field-type-twice",
            get
            "Content-Type: a/b\r\ncontent-type: a/b\r\n\r\n" => "refused"
        ),
        stream!("field-type-empty", get "Content-Type:\r\n\r\n" => "request GET 0"),
        stream!(
            "field-expect",
            get
            "Expect: 100-continue\r\nUpgrade: b\r\nConnection: close, upgrade\r\n\r\n"
            => "request GET 0"
        ),
    ]
}

/// How many fields there are, and the length of a body.
pub(crate) fn lengths() -> [Exchange; 20] {
    [
        stream!(
            "fields-128",
            get
            sixteen ["A:\r\nB:\r\nC:\r\nD:\r\nE:\r\nF:\r\nG:\r\nH:\r\n"]
            "\r\n" => "request GET 0"
        ),
        stream!(
            "fields-129",
            get
            sixteen ["A:\r\nB:\r\nC:\r\nD:\r\nE:\r\nF:\r\nG:\r\nH:\r\n"]
            "A:\r\n\r\n" => "refused"
        ),
        stream!(
            "fields-128-and-a-begun-one",
            "GET / HTTP/1.1\r\n"
            sixteen ["A:\r\nB:\r\nC:\r\nD:\r\nE:\r\nF:\r\nG:\r\nH:\r\n"]
            "A:" => "cut"
        ),
        stream!("length-of-the-body", post "Content-Length: 5\r\n\r\nhello" => "request POST 5"),
        stream!(
            "length-in-another-case",
            post
            "cONTENT-lENGTH: 5\r\n\r\nhello" => "request POST 5"
        ),
        stream!("length-of-a-get", get "content-length: 2\r\n\r\nhi" => "request GET 2"),
        stream!("length-0", post "Content-Length: 0\r\n\r\nhello" => "request POST 0"),
        stream!(
            "length-with-leading-zeros",
            post
            "Content-Length: 005\r\n\r\nhello" => "request POST 5"
        ),
        stream!(
            "length-of-19-digits",
            post
            "Content-Length: 0000000000000000005\r\n\r\nhello" => "request POST 5"
        ),
        stream!(
            "length-of-20-digits",
            post
            "Content-Length: 00000000000000000005\r\n\r\nhello" => "refused"
        ),
        stream!(
            "length-with-blanks-around",
            post
            "Content-Length: \t5\t \r\n\r\nhello" => "request POST 5"
        ),
        stream!(
            "length-less-than-what-comes",
            post
            "Content-Length: 2\r\n\r\nhello" => "request POST 2"
        ),
        stream!("length-more-than-what-comes", post "Content-Length: 6\r\n\r\nhello" => "cut"),
        stream!("length-empty", post "Content-Length:\r\n\r\nhello" => "refused"),
        stream!("length-of-two-numbers", post "Content-Length: 5, 5\r\n\r\nhello" => "refused"),
        stream!("length-with-a-plus", post "Content-Length: +5\r\n\r\nhello" => "refused"),
        stream!("length-with-a-minus", post "Content-Length: -5\r\n\r\nhello" => "refused"),
        stream!("length-in-hexadecimal", post "Content-Length: 0x5\r\n\r\nhello" => "refused"),
        stream!("length-at-the-limit", post "Content-Length: 67108864\r\n\r\nhello" => "cut"),
        stream!("length-past-the-limit", post "Content-Length: 67108865\r\n\r\nhello" => "refused"),
    ]
}

/// Further lengths, and transfer codings.
pub(crate) fn codings() -> [Exchange; 20] {
    [
        stream!("length-of-two-words", post "Content-Length: 5 5\r\n\r\nhello" => "refused"),
        stream!("length-with-letters", post "Content-Length: 5a\r\n\r\nhello" => "refused"),
        stream!("length-in-other-digits", post "Content-Length: ５\r\n\r\nhello" => "refused"),
        stream!(
            "length-twice-the-same",
            post
            "Content-Length: 5\r\nContent-Length: 5\r\n\r\nhello" => "refused"
        ),
        stream!(
            "length-twice-different",
            post
            "Content-Length: 5\r\nContent-Length: 6\r\n\r\nhello" => "refused"
        ),
        stream!(
            "length-and-chunked",
            post
            "Content-Length: 5\r\nTransfer-Encoding: chunked\r\n\r\nhello" => "refused"
        ),
        stream!(
            "length-with-an-underscore",
            post
            "Content_Length: 5\r\n\r\nhello" => "request POST 0"
        ),
        stream!(
            "length-that-wraps-at-64-bits",
            post
            "Content-Length: 18446744073709551621\r\n\r\nhello" => "refused"
        ),
        stream!(
            "coding-chunked",
            post
            "Transfer-Encoding: chunked\r\n\r\n2\r\nhi\r\n0\r\n\r\n" => "request POST 2"
        ),
        stream!(
            "coding-in-capitals",
            post
            "Transfer-Encoding: CHUNKED\r\n\r\n2\r\nhi\r\n0\r\n\r\n" => "request POST 2"
        ),
        stream!(
            "coding-with-blanks-around",
            post
            "Transfer-Encoding:\t chunked \t\r\n\r\n2\r\nhi\r\n0\r\n\r\n" => "request POST 2"
        ),
        stream!("coding-empty", post "Transfer-Encoding:\r\n\r\n2\r\nhi\r\n0\r\n\r\n" => "refused"),
        stream!(
            "coding-identity",
            post
            "Transfer-Encoding: identity\r\n\r\n2\r\nhi\r\n0\r\n\r\n" => "refused"
        ),
        stream!(
            "coding-gzip-and-chunked",
            post
            "Transfer-Encoding: gzip, chunked\r\n\r\n2\r\nhi\r\n0\r\n\r\n" => "refused"
        ),
        stream!(
            "coding-chunked-and-identity",
            post
            "Transfer-Encoding: chunked, identity\r\n\r\n2\r\nhi\r\n0\r\n\r\n" => "refused"
        ),
        stream!(
            "coding-chunked-and-a-comma",
            post
            "Transfer-Encoding: chunked,\r\n\r\n2\r\nhi\r\n0\r\n\r\n" => "refused"
        ),
        stream!(
            "coding-with-a-parameter",
            post
            "Transfer-Encoding: chunked;q=1\r\n\r\n2\r\nhi\r\n0\r\n\r\n" => "refused"
        ),
        stream!(
            "coding-quoted",
            post
            "Transfer-Encoding: \"chunked\"\r\n\r\n2\r\nhi\r\n0\r\n\r\n" => "refused"
        ),
        stream!(
            "coding-of-a-longer-name",
            post
            "Transfer-Encoding: xchunked\r\n\r\n2\r\nhi\r\n0\r\n\r\n" => "refused"
        ),
        stream!(
            "coding-twice",
            post
            "Transfer-Encoding: chunked\r\nTransfer-Encoding: chunked\r\n\r\n2\r\nhi\r\n"
            "0\r\n\r\n" => "refused"
        ),
    ]
}

/// Further codings, and the sizes of chunks.
pub(crate) fn chunk_sizes() -> [Exchange; 20] {
    [
        stream!(
            "coding-with-a-blank-before-its-colon",
            post
            "Transfer-Encoding: chunked\r\nTransfer-Encoding : chunked\r\n\r\n2\r\nhi\r\n"
            "0\r\n\r\n" => "refused"
        ),
        stream!(
            "coding-with-a-control-byte",
            post
            "Transfer-Encoding: chunked\x0b\r\n\r\n2\r\nhi\r\n0\r\n\r\n" => "refused"
        ),
        stream!(
            "coding-folded",
            post
            "Transfer-Encoding:\r\n chunked\r\n\r\n2\r\nhi\r\n0\r\n\r\n" => "refused"
        ),
        stream!(
            "coding-and-a-length",
            post
            "Transfer-Encoding: chunked\r\nContent-Length: 12\r\n\r\n2\r\nhi\r\n0\r\n\r\n"
            => "refused"
        ),
        stream!(
            "coding-in-version-1-0",
            "POST / HTTP/1.0\r\nTransfer-Encoding: chunked\r\n\r\n2\r\nhi\r\n0\r\n\r\n"
            => "request POST 2"
        ),
        stream!(
            "coding-of-a-get",
            get
            "Transfer-Encoding: chunked\r\n\r\n2\r\nhi\r\n0\r\n\r\n" => "request GET 2"
        ),
        stream!("chunk-none", chunked "0\r\n\r\n" => "request POST 0"),
        stream!(
            "chunks-of-several-sizes",
            chunked
            "1\r\na\r\nA\r\nbbbbbbbbbb\r\na\r\ncccccccccc\r\n00\r\n\r\n" => "request POST 21"
        ),
        stream!("chunk-of-line-ends", chunked "4\r\n\r\n\r\n\r\n0\r\n\r\n" => "request POST 4"),
        stream!("chunk-of-a-last-chunk", chunked "5\r\n0\r\n\r\n\r\n0\r\n\r\n" => "request POST 5"),
        stream!(
            "chunk-size-of-16-digits",
            chunked
            "0000000000000002\r\nhi\r\n0\r\n\r\n" => "request POST 2"
        ),
        stream!(
            "chunk-size-of-17-digits",
            chunked
            "00000000000000002\r\nhi\r\n0\r\n\r\n" => "refused"
        ),
        stream!("chunk-size-empty", chunked "\r\nhi\r\n0\r\n\r\n" => "refused"),
        stream!("chunk-size-with-a-prefix", chunked "0x2\r\nhi\r\n0\r\n\r\n" => "refused"),
        stream!("chunk-size-with-a-plus", chunked "+2\r\nhi\r\n0\r\n\r\n" => "refused"),
        stream!("chunk-size-with-an-underscore", chunked "0_2\r\nhi\r\n0\r\n\r\n" => "refused"),
        stream!("chunk-size-of-another-letter", chunked "g\r\nhi\r\n0\r\n\r\n" => "refused"),
        stream!("chunk-size-after-a-blank", chunked " 2\r\nhi\r\n0\r\n\r\n" => "refused"),
        stream!(
            "chunk-size-with-blanks-behind",
            chunked
            "2 \t\r\nhi\r\n0 \r\n\r\n" => "request POST 2"
        ),
        stream!("chunk-size-of-two-words", chunked "2 2\r\nhi\r\n0\r\n\r\n" => "refused"),
    ]
}

/// Chunks, and how they end.
pub(crate) fn chunks() -> [Exchange; 20] {
    [
        stream!("chunk-size-at-the-limit", chunked "4000000\r\n" => "cut"),
        stream!("chunk-size-past-the-limit", chunked "4000001\r\n" => "refused"),
        stream!("chunk-size-past-the-limit-unended", chunked "4000001" => "refused"),
        stream!("chunks-past-the-limit-together", chunked "2\r\nhi\r\n3ffffff\r\n" => "refused"),
        stream!("chunks-at-the-limit-together", chunked "2\r\nhi\r\n3fffffe\r\n" => "cut"),
        stream!(
            "chunk-extension",
            chunked
            "2;a=b;c=\"d;e\" ;\r\nhi\r\n0;x\r\n\r\n" => "request POST 2"
        ),
        stream!("chunk-extension-with-lf", chunked "2;a\nhi\r\n0\r\n\r\n" => "refused"),
        stream!("chunk-extension-with-cr", chunked "2;a\rb\r\nhi\r\n0\r\n\r\n" => "refused"),
        stream!(
            "chunk-line-of-1024-bytes",
            chunked
            "2;"
            fifteen ["eeeeeeeeeeeeeeeeeeeeeeeeeeeeeeeeeeeeeeeeeeeeeeeeeeeeeeeeeeeeeeeeeeee"]
            "\r\nhi\r\n0\r\n\r\n" => "request POST 2"
        ),
        stream!(
            "chunk-line-of-1025-bytes",
            chunked
            "2;e"
            fifteen ["eeeeeeeeeeeeeeeeeeeeeeeeeeeeeeeeeeeeeeeeeeeeeeeeeeeeeeeeeeeeeeeeeeee"]
            "\r\nhi\r\n0\r\n\r\n" => "refused"
        ),
        stream!("lf-after-the-size", chunked "2\nhi\r\n0\r\n\r\n" => "refused"),
        stream!("cr-after-the-size", chunked "2\rhi\r\n0\r\n\r\n" => "refused"),
        stream!("lf-after-the-chunk", chunked "2\r\nhi\n0\r\n\r\n" => "refused"),
        stream!("cr-after-the-chunk", chunked "2\r\nhi\r0\r\n\r\n" => "refused"),
        stream!("chunk-without-its-line-end", chunked "2\r\nhi0\r\n\r\n" => "refused"),
        stream!("chunk-longer-than-its-size", chunked "2\r\nhim\r\n0\r\n\r\n" => "refused"),
        stream!("chunk-shorter-than-its-size", chunked "3\r\nhi\r\n0\r\n\r\n" => "refused"),
        stream!("last-chunk-of-zeros", chunked "2\r\nhi\r\n0000\r\n\r\n" => "request POST 2"),
        stream!("last-chunk-ended-by-lf", chunked "0\n\r\n" => "refused"),
        stream!(
            "trailers",
            chunked
            "2\r\nhi\r\n0\r\nA: b\r\nContent-Length: 9\r\nTransfer-Encoding: c\r\n\r\n"
            => "request POST 2"
        ),
    ]
}

/// Trailers, and streams that end early or go on.
pub(crate) fn ends() -> [Exchange; 20] {
    [
        stream!("trailers-ended-by-lf", chunked "0\r\nA: b\n\n" => "request POST 0"),
        stream!("trailer-without-a-colon", chunked "0\r\nA\r\n\r\n" => "refused"),
        stream!("trailer-with-a-blank-before-its-colon", chunked "0\r\nA : b\r\n\r\n" => "refused"),
        stream!("trailer-folded", chunked "0\r\nA: b\r\n c\r\n\r\n" => "refused"),
        stream!("stream-empty", "" => "cut"),
        stream!("stream-of-empty-lines", "\r\n\n\r" => "cut"),
        stream!("stream-ends-in-a-method-not-served", "PUT" => "cut"),
        stream!("stream-ends-behind-a-method-not-served", "PUT / HTTP/1.1\r\nHost: a\r\n" => "cut"),
        bytes_stream!("stream-ends-in-a-target-not-in-utf-8", b"GET /\xff" => b"cut\n"),
        stream!("stream-ends-behind-delete-in-the-target", "GET /\x7f" => "refused"),
        stream!("stream-ends-in-a-wrong-version", "GET / HTTP/3" => "refused"),
        stream!(
            "stream-ends-behind-two-lengths",
            "POST / HTTP/1.1\r\nContent-Length: 1\r\nContent-Length: 2\r\n" => "cut"
        ),
        stream!("stream-ends-in-the-blank-line", "GET / HTTP/1.1\r\nHost: a\r\n\r" => "cut"),
        stream!("stream-ends-behind-the-head", post "Content-Length: 1\r\n\r\n" => "cut"),
        stream!("stream-ends-in-a-size", chunked "2" => "cut"),
        stream!("stream-ends-in-a-chunk", chunked "2\r\nh" => "cut"),
        stream!("stream-ends-behind-the-last-chunk", chunked "0\r\n" => "cut"),
        stream!("stream-ends-in-the-last-line", chunked "0\r\nA: b\r\n\r" => "cut"),
        stream!(
            "stream-goes-on-with-a-request",
            post
            "Content-Length: 2\r\n\r\nhi"
            get
            "\r\n" => "request POST 2"
        ),
        stream!("stream-goes-on-with-anything", get "Host: a\r\n\r\n\0\x01" => "request GET 0"),
    ]
}
