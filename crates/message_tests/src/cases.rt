//! Sample messages, a change of each, and the check line that results. A change is `old=>new`: the first `old` becomes
//! `new`. Lines end in CRLF.

/// The change of the media text, the change of the body, and the check line.
pub type Case = (&'static str, &'static str, &'static str);

pub const MEDIA: &str =
    "multipart/related; boundary=b; start=\"<r@a>\"; type=\"application/soap+xml\"";

pub const BODY: &str =
    "--b\r\nContent-ID: <r@a>\r\nContent-Type: application/soap+xml; charset=UTF-8\r\n\r\n<S:Envelope xmlns:S=\"http://www.w3.org/2003/05/soap-envelope\" xmlns:eb=\"http://docs.oasis-open.org/ebxml-msg/ebms/v3.0/ns/core/200704/\"><S:Header><eb:Messaging S:mustUnderstand=\"true\"><eb:UserMessage><eb:MessageInfo><eb:Timestamp>2025-01-02T03:04:05.006Z</eb:Timestamp><eb:MessageId>m1@a</eb:MessageId></eb:MessageInfo><eb:PartyInfo><eb:From><eb:PartyId>acme</eb:PartyId><eb:Role>seller</eb:Role></eb:From><eb:To><eb:PartyId>bolt</eb:PartyId><eb:Role>buyer</eb:Role></eb:To></eb:PartyInfo><eb:CollaborationInfo><eb:Service>orders</eb:Service><eb:Action>invoice</eb:Action><eb:ConversationId>c1</eb:ConversationId></eb:CollaborationInfo><eb:PayloadInfo><eb:PartInfo href=\"cid:p1@a\"></eb:PartInfo></eb:PayloadInfo></eb:UserMessage></eb:Messaging></S:Header><S:Body></S:Body></S:Envelope>\r\n--b\r\nContent-ID: <p1@a>\r\nContent-Type: text/plain\r\nContent-Transfer-Encoding: binary\r\n\r\nhello\r\n--b--\r\n";

pub const BARE_MEDIA: &str = "application/soap+xml; charset=UTF-8";

pub const BARE: &str =
    "<S:Envelope xmlns:S=\"http://www.w3.org/2003/05/soap-envelope\" xmlns:eb=\"http://docs.oasis-open.org/ebxml-msg/ebms/v3.0/ns/core/200704/\"><S:Header><eb:Messaging S:mustUnderstand=\"true\"><eb:UserMessage><eb:MessageInfo><eb:Timestamp>2025-01-02T03:04:05.006Z</eb:Timestamp><eb:MessageId>m1@a</eb:MessageId></eb:MessageInfo><eb:PartyInfo><eb:From><eb:PartyId>acme</eb:PartyId><eb:Role>seller</eb:Role></eb:From><eb:To><eb:PartyId>bolt</eb:PartyId><eb:Role>buyer</eb:Role></eb:To></eb:PartyInfo><eb:CollaborationInfo><eb:Service>orders</eb:Service><eb:Action>invoice</eb:Action><eb:ConversationId>c1</eb:ConversationId></eb:CollaborationInfo></eb:UserMessage></eb:Messaging></S:Header><S:Body></S:Body></S:Envelope>";

/// Media texts of packages (RFC 2045, section 5.1; RFC 2387, section 3).
pub const MEDIA_CASES: [Case; 55] = [
    ("", "", "user m1@a"),
    ("multipart/related=>MULTIPART/Related", "", "user m1@a"),
    ("multipart=> \tmultipart", "", "user m1@a"),
    ("soap+xml\"=>soap+xml\" \t", "", "user m1@a"),
    ("; boundary=b=> \t;\t boundary=b", "", "user m1@a"),
    ("boundary=b=>boundary=\"b\"", "", "user m1@a"),
    ("boundary=b=>boundary=\"\\b\"", "", "user m1@a"),
    ("boundary=b=>BOUNDARY=b", "", "user m1@a"),
    ("boundary=b=>boundary =b", "", "refused EBMS:0007"),
    ("boundary=b=>boundary= b", "", "refused EBMS:0007"),
    ("; boundary=>;; boundary", "", "refused EBMS:0007"),
    ("soap+xml\"=>soap+xml\";", "", "refused EBMS:0007"),
    ("soap+xml\"=>soap+xml\" (x)", "", "refused EBMS:0007"),
    ("soap+xml\"=>soap+xml\"; x=y (z)", "", "refused EBMS:0007"),
    (
        "; boundary=b=>; boundary=b; boundary=b",
        "",
        "refused EBMS:0007",
    ),
    (
        "; boundary=b=>; boundary=b; Boundary=b",
        "",
        "refused EBMS:0007",
    ),
    (
        "; boundary=b=>; boundary=b; x=1; X=2",
        "",
        "refused EBMS:0007",
    ),
    ("; boundary=b=>; boundary=b; x=1; y=1", "", "user m1@a"),
    ("; boundary=b=>; x=\"\"; boundary=b", "", "user m1@a"),
    (
        "; boundary=b=>; x=\"a\\\"b;c=d\"; boundary=b",
        "",
        "user m1@a",
    ),
    (
        "; boundary=b=>; x=\"a\"b\"; boundary=b",
        "",
        "refused EBMS:0007",
    ),
    (
        "; boundary=b=>; x=\"\u{1}\u{e9}\"; boundary=b",
        "",
        "user m1@a",
    ),
    ("; boundary=b=>; x={a}; boundary=b", "", "user m1@a"),
    ("; boundary=b=>; x=a@b; boundary=b", "", "refused EBMS:0007"),
    ("; boundary=b=>; x=; boundary=b", "", "refused EBMS:0007"),
    ("; boundary=b=>; =x; boundary=b", "", "refused EBMS:0007"),
    ("; boundary=b=>; x; boundary=b", "", "refused EBMS:0007"),
    ("soap+xml\"=>soap+xml\"; x=\"y", "", "refused EBMS:0007"),
    ("soap+xml\"=>soap+xml\"; x=\"y\\", "", "refused EBMS:0007"),
    ("multipart/related=>multipart", "", "refused EBMS:0007"),
    ("multipart/related=>multipart/", "", "refused EBMS:0007"),
    ("multipart/related=>/related", "", "refused EBMS:0007"),
    (
        "multipart/related=>multipart /related",
        "",
        "refused EBMS:0007",
    ),
    (
        "multipart/related=>multipart/mixed",
        "",
        "refused EBMS:0007",
    ),
    ("multipart/related=>text/xml", "", "refused EBMS:0007"),
    (
        "; type=\"application/soap+xml\"=>; type=\"text/xml\"; start-info=x",
        "",
        "user m1@a",
    ),
    (
        "; type=\"application/soap+xml\"=>; charset=latin1",
        "",
        "user m1@a",
    ),
    ("; boundary=b=>", "", "refused EBMS:0007"),
    ("boundary=b=>boundary=\"b \"", "", "refused EBMS:0007"),
    ("boundary=b=>boundary=\"\"", "", "refused EBMS:0007"),
    ("boundary=b=>boundary=b*", "", "refused EBMS:0007"),
    ("boundary=b=>boundary=c", "", "refused EBMS:0007"),
    ("boundary=b=>boundary=B", "", "refused EBMS:0007"),
    ("; start=\"<r@a>\"=>", "", "user m1@a"),
    ("\"<r@a>\"=>\"r@a\"", "", "user m1@a"),
    ("start=>START", "", "user m1@a"),
    ("\"<r@a>\"=>\"<r@b>\"", "", "refused EBMS:0007"),
    ("\"<r@a>\"=>\"<R@a>\"", "", "refused EBMS:0007"),
    ("\"<r@a>\"=>\"\"", "", "refused EBMS:0007"),
    ("\"<r@a>\"=>\"<>\"", "", "refused EBMS:0007"),
    ("\"<r@a>\"=>\"<r@a\"", "", "refused EBMS:0007"),
    ("\"<r@a>\"=>\"r@a>\"", "", "refused EBMS:0007"),
    ("\"<r@a>\"=>\"<<r@a>>\"", "", "refused EBMS:0007"),
    ("\"<r@a>\"=>\"<r@\"", "", "refused EBMS:0007"),
    ("\"<r@a>\"=>\"<p1@a>\"", "", "refused EBMS:0007"),
];

/// Delimiters (RFC 2046, section 5.1.1).
pub const CUT_CASES: [Case; 36] = [
    (
        "",
        "--b\r\nContent-ID: <r@a>=>x\r\n--b\r\nContent-ID: <r@a>",
        "user m1@a",
    ),
    (
        "",
        "--b\r\nContent-ID: <r@a>=>--b--\r\n--b\r\nContent-ID: <r@a>",
        "user m1@a",
    ),
    (
        "",
        "--b\r\nContent-ID: <r@a>=>\r\n--b\r\nContent-ID: <r@a>",
        "user m1@a",
    ),
    (
        "",
        "--b\r\nContent-ID: <r@a>=>x--b\r\nContent-ID: <r@a>",
        "refused EBMS:0007",
    ),
    ("", "--b--\r\n=>--b--\r\ny", "user m1@a"),
    ("", "--b--\r\n=>--b--\r\n--b\r\nx", "user m1@a"),
    ("", "--b--\r\n=>--b-- \t\r\n", "user m1@a"),
    ("", "--b--\r\n=>--b--", "user m1@a"),
    ("", "--b--\r\n=>--b-- \t", "user m1@a"),
    ("", "--b--\r\n=>--b--\r", "refused EBMS:0007"),
    ("", "--b--\r\n=>--b--x", "refused EBMS:0007"),
    ("", "--b--\r\n=>--b-- x\r\n", "refused EBMS:0007"),
    ("", "--b--\r\n=>--b-\r\n", "refused EBMS:0007"),
    ("", "--b--\r\n=>--b --\r\n", "refused EBMS:0007"),
    ("", "--b--\r\n=>--b\r\n", "refused EBMS:0007"),
    ("", "--b--\r\n=>--b", "refused EBMS:0007"),
    ("", "--b--\r\n=>", "refused EBMS:0007"),
    (
        "",
        "--b\r\nContent-ID: <p1@a>=>--b \t\r\nContent-ID: <p1@a>",
        "user m1@a",
    ),
    ("", "hello=>hello\r\n--bx\r\n", "user m1@a"),
    ("", "hello=>hello\r\n--b x\r\n", "user m1@a"),
    ("", "hello=>hello\n--b\r\nx", "user m1@a"),
    ("", "hello=>hello\r--b\r\nx", "user m1@a"),
    ("", "hello=>hello --b\r\nx", "user m1@a"),
    ("", "hello=>hello\r\n--b\nx", "user m1@a"),
    ("", "hello=>hello\r\n-b\r\nx", "user m1@a"),
    ("", "hello=>hello\r\n--b-\r\nx", "user m1@a"),
    ("", "hello=>hello\r\n--b--x\r\ny", "user m1@a"),
    ("", "hello=>", "user m1@a"),
    ("", "hello=>\r\n\r\n", "user m1@a"),
    ("", "hello=>hello\r\n--b\r\n", "refused EBMS:0007 m1@a"),
    ("", "hello=>hello\r\n--b\r\n--b", "refused EBMS:0007 m1@a"),
    (
        "",
        "hello\r\n=>hello\r\n--b\r\n\r\n",
        "refused EBMS:0007 m1@a",
    ),
    (
        "",
        "hello\r\n=>hello\r\n--b\r\n\r\nmore\r\n",
        "refused EBMS:0007 m1@a",
    ),
    ("", "\r\nhello=>", "user m1@a"),
    (
        "",
        "\r\n\r\nhello\r\n--b--\r\n=>\r\n--b--\r\n",
        "refused EBMS:0007",
    ),
    (
        "",
        "\r\n\r\nhello\r\n--b--\r\n=>\r\n\r\n--b--\r\n",
        "user m1@a",
    ),
];

/// Fields of parts (RFC 2822, section 2.2; RFC 2045).
pub const FIELD_CASES: [Case; 45] = [
    (
        "",
        "Content-Type: text/plain=>Content-Type: text/plain;\r\n charset=x",
        "user m1@a",
    ),
    (
        "",
        "Content-Type: text/plain=>Content-Type: text/plain;\r\n\tcharset=x",
        "user m1@a",
    ),
    (
        "",
        "Content-Type: text/plain=>Content-Type:\r\n text/plain",
        "user m1@a",
    ),
    (
        "",
        "Content-Type: text/plain=>Content-Type: text/plain\r\n ",
        "user m1@a",
    ),
    (
        "",
        "Content-ID: <p1@a>=>Content-ID:\r\n <p1@a>",
        "user m1@a",
    ),
    (
        "",
        "Content-ID: <p1@a>=>Content-ID: <p1\r\n @a>",
        "refused EBMS:0007",
    ),
    ("", "Content-ID: <p1@a>=>content-id: <p1@a>", "user m1@a"),
    ("", "Content-ID: <p1@a>=>CONTENT-ID:<p1@a>", "user m1@a"),
    (
        "",
        "Content-ID: <p1@a>=>Content-ID:\t <p1@a> \t",
        "user m1@a",
    ),
    ("", "Content-ID: <p1@a>=>Content-ID: p1@a", "user m1@a"),
    (
        "",
        "Content-ID: <p1@a>=>Content-ID: <p1@a",
        "refused EBMS:0007",
    ),
    (
        "",
        "Content-ID: <p1@a>=>Content-ID: p1@a>",
        "refused EBMS:0007",
    ),
    (
        "",
        "Content-ID: <p1@a>=>Content-ID: <<p1@a>>",
        "refused EBMS:0007",
    ),
    (
        "",
        "Content-ID: <p1@a>=>Content-ID: <p1 @a>",
        "refused EBMS:0007",
    ),
    (
        "",
        "Content-ID: <p1@a>=>Content-ID: <>",
        "refused EBMS:0007",
    ),
    ("", "Content-ID: <p1@a>=>Content-ID:", "refused EBMS:0007"),
    (
        "",
        "Content-ID: <p1@a>=>Content-ID: <p1\u{e9}>",
        "refused EBMS:0007",
    ),
    (
        "",
        "Content-ID: <p1@a>\r\n=>Content-ID: <p1@a>\r\nContent-Id: <p1@a>\r\n",
        "refused EBMS:0007",
    ),
    ("", "Content-ID: <p1@a>\r\n=>", "refused EBMS:0007 m1@a"),
    (
        "",
        "Content-ID: <p1@a>=>Content-ID : <p1@a>",
        "refused EBMS:0007",
    ),
    (
        "",
        "Content-ID: <p1@a>=>Content ID: <p1@a>",
        "refused EBMS:0007",
    ),
    (
        "",
        "Content-Type: text/plain\r\n=>Content-Type: text/plain\r\ncontent-type: text/plain\r\n",
        "refused EBMS:0007",
    ),
    ("", "Content-Type: text/plain\r\n=>", "user m1@a"),
    ("", "Content-Type: text/plain=>Content-Type:", "user m1@a"),
    (
        "",
        "Content-Type: text/plain=>Content-Type: no type at all",
        "user m1@a",
    ),
    ("", "Content-Type: text/plain=>X: 1\r\nX: 2", "user m1@a"),
    ("", "Content-Type: text/plain=>X: \u{e9}\u{1}", "user m1@a"),
    ("", "Content-Type: text/plain=>: x", "refused EBMS:0007"),
    ("", "Content-Type: text/plain=> x: y", "refused EBMS:0007"),
    ("", "Content-Type: text/plain=>abc", "refused EBMS:0007"),
    (
        "",
        "Content-Type: text/plain=>X\u{e9}: y",
        "refused EBMS:0007",
    ),
    (
        "",
        "Content-Type: text/plain=>X\u{7f}: y",
        "refused EBMS:0007",
    ),
    (
        "",
        "Content-Type: text/plain=>X: a\nY: b",
        "refused EBMS:0007",
    ),
    (
        "",
        "Content-Type: text/plain=>X: a\rY: b",
        "refused EBMS:0007",
    ),
    ("", "Encoding: binary=>Encoding: 7bit", "user m1@a"),
    ("", "Encoding: binary=>Encoding: 8BIT", "user m1@a"),
    ("", "Encoding: binary=>Encoding: Binary", "user m1@a"),
    ("", "Encoding: binary=>Encoding:\r\n binary", "user m1@a"),
    (
        "",
        "Encoding: binary=>Encoding: base64",
        "refused EBMS:0008",
    ),
    (
        "",
        "Encoding: binary=>Encoding: quoted-printable",
        "refused EBMS:0008",
    ),
    ("", "Encoding: binary=>Encoding:", "refused EBMS:0008"),
    (
        "",
        "Encoding: binary=>Encoding: binary; x=y",
        "refused EBMS:0008",
    ),
    (
        "",
        "Encoding: binary=>Encoding: x-7bit",
        "refused EBMS:0008",
    ),
    (
        "",
        "Encoding: binary\r\n=>Encoding: binary\r\nContent-Transfer-Encoding: binary\r\n",
        "refused EBMS:0007",
    ),
    ("", "Content-Transfer-Encoding: binary\r\n=>", "user m1@a"),
];

/// The root, and its content.
pub const ROOT_CASES: [Case; 29] = [
    (
        "",
        "application/soap+xml; charset=UTF-8=>APPLICATION/Soap+Xml",
        "user m1@a",
    ),
    ("", "charset=UTF-8=>charset=us-ascii", "user m1@a"),
    (
        "",
        "charset=UTF-8=>charset=\"utf-8\"; action=x",
        "user m1@a",
    ),
    (
        "",
        "charset=UTF-8=>charset=utf-8; charset=US-ASCII",
        "user m1@a",
    ),
    (
        "",
        "charset=UTF-8=>charset=utf-8; charset=latin1",
        "refused EBMS:0007",
    ),
    ("", "charset=UTF-8=>charset=iso-8859-1", "refused EBMS:0007"),
    ("", "charset=UTF-8=>charset=utf-16", "refused EBMS:0007"),
    ("", "charset=UTF-8=>charset =utf-8", "refused EBMS:0007"),
    (
        "",
        "application/soap+xml; charset=UTF-8=>text/xml; charset=UTF-8",
        "refused EBMS:0007",
    ),
    (
        "",
        "application/soap+xml; charset=UTF-8=>application/xop+xml",
        "refused EBMS:0007",
    ),
    (
        "",
        "Content-Type: application/soap+xml; charset=UTF-8\r\n=>",
        "refused EBMS:0007",
    ),
    ("", "Content-ID: <r@a>\r\n=>", "refused EBMS:0007"),
    (
        "; start=\"<r@a>\"=>",
        "Content-ID: <r@a>\r\n=>",
        "user m1@a",
    ),
    (
        "",
        "Content-ID: <p1@a>=>Content-ID: <r@a>",
        "refused EBMS:0007",
    ),
    (
        "; start=\"<r@a>\"=>",
        "Content-ID: <p1@a>=>Content-ID: <r@a>",
        "refused EBMS:0007 m1@a",
    ),
    (
        "",
        "Content-ID: <r@a>\r\n=>Content-ID: <r@a>\r\nContent-Transfer-Encoding: base64\r\n",
        "refused EBMS:0008",
    ),
    (
        "",
        "Content-ID: <r@a>\r\nContent-Type: application=>Content-ID: <r@a>\r\nContent-Transfer-Encoding: base64\r\nContent-Type: text",
        "refused EBMS:0007",
    ),
    ("", "</S:Envelope>=>", "refused EBMS:0009"),
    (
        "",
        "<eb:UserMessage>=><eb:UserMessage>&x;",
        "refused EBMS:0009",
    ),
    ("", "<S:Body></S:Body>=>", "refused EBMS:0009"),
    ("", "acme=> ", "refused EBMS:0009"),
    ("", "<eb:Action>invoice</eb:Action>=>", "refused EBMS:0009"),
    (
        "",
        "m1@a</eb:MessageId>=>m1 a</eb:MessageId>",
        "refused EBMS:0009",
    ),
    (
        "",
        "<S:Header>=><S:Header><x:y xmlns:x=\"u\" S:mustUnderstand=\"1\"></x:y>",
        "refused EBMS:0008",
    ),
    (
        "",
        "<S:Header>=><S:Header><x:y xmlns:x=\"u\" S:mustUnderstand=\"0\"></x:y>",
        "user m1@a",
    ),
    (
        "",
        "<S:Header>=><S:Header><x:y xmlns:x=\"u\" x:mustUnderstand=\"1\"></x:y>",
        "user m1@a",
    ),
    (
        "",
        "<eb:UserMessage><eb:MessageInfo><eb:Timestamp>2025-01-02T03:04:05.006Z</eb:Timestamp><eb:MessageId>m1@a</eb:MessageId></eb:MessageInfo><eb:PartyInfo><eb:From><eb:PartyId>acme</eb:PartyId><eb:Role>seller</eb:Role></eb:From><eb:To><eb:PartyId>bolt</eb:PartyId><eb:Role>buyer</eb:Role></eb:To></eb:PartyInfo><eb:CollaborationInfo><eb:Service>orders</eb:Service><eb:Action>invoice</eb:Action><eb:ConversationId>c1</eb:ConversationId></eb:CollaborationInfo><eb:PayloadInfo><eb:PartInfo href=\"cid:p1@a\"></eb:PartInfo></eb:PayloadInfo></eb:UserMessage>=><eb:Other></eb:Other>",
        "refused EBMS:0009",
    ),
    (
        "",
        "</eb:Messaging></S:Header><S:Body></S:Body></S:Envelope>=><eb:SignalMessage><eb:MessageInfo><eb:Timestamp>2025-01-02T03:04:05.006Z</eb:Timestamp><eb:MessageId>s2@b</eb:MessageId></eb:MessageInfo><eb:PullRequest mpc=\"urn:ch\"></eb:PullRequest></eb:SignalMessage></eb:Messaging></S:Header><S:Body></S:Body></S:Envelope>",
        "refused EBMS:0008",
    ),
    (
        "",
        "</eb:Messaging></S:Header><S:Body></S:Body></S:Envelope>=><eb:UserMessage></eb:UserMessage></eb:Messaging></S:Header><S:Body></S:Body></S:Envelope>",
        "refused EBMS:0008",
    ),
];

/// References to parts (RFC 2392).
pub const REFERENCE_CASES: [Case; 32] = [
    ("", "cid:p1@a=>cid:p1%40a", "user m1@a"),
    ("", "cid:p1@a=>CID:p1@a", "user m1@a"),
    ("", "cid:p1@a=> cid:p1@a ", "user m1@a"),
    ("", "cid:p1@a=>cid:p1&#64;a", "user m1@a"),
    ("", "cid:p1@a=>cid:p1%2540a", "refused EBMS:0007 m1@a"),
    ("", "cid:p1@a=>cid:p2@a", "refused EBMS:0007 m1@a"),
    ("", "cid:p1@a=>cid:P1@a", "refused EBMS:0007 m1@a"),
    ("", "cid:p1@a=>cid:r@a", "refused EBMS:0007 m1@a"),
    ("", "cid:p1@a=>cid:<p1@a>", "refused EBMS:0009"),
    ("", "cid:p1@a=>cid:&lt;p1@a&gt;", "refused EBMS:0007 m1@a"),
    ("", "cid:p1@a=>cid:", "refused EBMS:0007 m1@a"),
    ("", "cid:p1@a=>ci:p1@a", "refused EBMS:0011 m1@a"),
    ("", "cid:p1@a=>%63id:p1@a", "refused EBMS:0011 m1@a"),
    ("", "cid:p1@a=>http://x/y", "refused EBMS:0011 m1@a"),
    ("", "cid:p1@a=>p1@a", "refused EBMS:0011 m1@a"),
    ("", "cid:p1@a=>#p1@a", "refused EBMS:0008 m1@a"),
    ("", "cid:p1@a=>#cid:p1@a", "refused EBMS:0008 m1@a"),
    ("", "cid:p1@a=> ", "refused EBMS:0008 m1@a"),
    ("", " href=\"cid:p1@a\"=>", "refused EBMS:0008 m1@a"),
    (
        "",
        "</eb:PartInfo>=></eb:PartInfo><eb:PartInfo href=\"cid:p1@a\"></eb:PartInfo>",
        "refused EBMS:0007 m1@a",
    ),
    (
        "",
        "</eb:PartInfo>=></eb:PartInfo><eb:PartInfo href=\"cid:p1%40a\"></eb:PartInfo>",
        "refused EBMS:0007 m1@a",
    ),
    (
        "",
        "</eb:PartInfo>=></eb:PartInfo><eb:PartInfo href=\"cid:p2@a\"></eb:PartInfo>",
        "refused EBMS:0007 m1@a",
    ),
    (
        "",
        "</eb:PartInfo>=></eb:PartInfo><eb:PartInfo href=\"http://x\"></eb:PartInfo>",
        "refused EBMS:0011 m1@a",
    ),
    (
        "",
        "</eb:PartInfo>=></eb:PartInfo><eb:PartInfo></eb:PartInfo>",
        "refused EBMS:0008 m1@a",
    ),
    (
        "",
        "</eb:PartInfo>=></eb:PartInfo><eb:PartInfo href=\"http://x\"></eb:PartInfo><eb:PartInfo></eb:PartInfo>",
        "refused EBMS:0008 m1@a",
    ),
    (
        "",
        "<eb:PartInfo href=\"cid:p1@a\">=><eb:PartInfo></eb:PartInfo><eb:PartInfo href=\"http://x\">",
        "refused EBMS:0008 m1@a",
    ),
    (
        "",
        "<eb:PayloadInfo><eb:PartInfo href=\"cid:p1@a\"></eb:PartInfo></eb:PayloadInfo>=>",
        "refused EBMS:0007 m1@a",
    ),
    (
        "",
        "hello\r\n=>hello\r\n--b\r\nContent-ID: <p2@a>\r\n\r\nmore\r\n",
        "refused EBMS:0007 m1@a",
    ),
    (
        "",
        "hello\r\n=>hello\r\n--b\r\nContent-ID: <p1@a>\r\n\r\nmore\r\n",
        "refused EBMS:0007 m1@a",
    ),
    (
        "",
        "<eb:UserMessage><eb:MessageInfo><eb:Timestamp>2025-01-02T03:04:05.006Z</eb:Timestamp><eb:MessageId>m1@a</eb:MessageId></eb:MessageInfo><eb:PartyInfo><eb:From><eb:PartyId>acme</eb:PartyId><eb:Role>seller</eb:Role></eb:From><eb:To><eb:PartyId>bolt</eb:PartyId><eb:Role>buyer</eb:Role></eb:To></eb:PartyInfo><eb:CollaborationInfo><eb:Service>orders</eb:Service><eb:Action>invoice</eb:Action><eb:ConversationId>c1</eb:ConversationId></eb:CollaborationInfo><eb:PayloadInfo><eb:PartInfo href=\"cid:p1@a\"></eb:PartInfo></eb:PayloadInfo></eb:UserMessage>=><eb:SignalMessage><eb:MessageInfo><eb:Timestamp>2025-01-02T03:04:05.006Z</eb:Timestamp><eb:MessageId>s2@b</eb:MessageId></eb:MessageInfo><eb:PullRequest mpc=\"urn:ch\"></eb:PullRequest></eb:SignalMessage>",
        "refused EBMS:0007 s2@b",
    ),
    (
        "",
        "<eb:UserMessage><eb:MessageInfo><eb:Timestamp>2025-01-02T03:04:05.006Z</eb:Timestamp><eb:MessageId>m1@a</eb:MessageId></eb:MessageInfo><eb:PartyInfo><eb:From><eb:PartyId>acme</eb:PartyId><eb:Role>seller</eb:Role></eb:From><eb:To><eb:PartyId>bolt</eb:PartyId><eb:Role>buyer</eb:Role></eb:To></eb:PartyInfo><eb:CollaborationInfo><eb:Service>orders</eb:Service><eb:Action>invoice</eb:Action><eb:ConversationId>c1</eb:ConversationId></eb:CollaborationInfo><eb:PayloadInfo><eb:PartInfo href=\"cid:p1@a\"></eb:PartInfo></eb:PayloadInfo></eb:UserMessage>=><eb:SignalMessage><eb:MessageInfo><eb:Timestamp>2025-01-02T03:04:05.006Z</eb:Timestamp><eb:MessageId>s1@b</eb:MessageId><eb:RefToMessageId>m1@a</eb:RefToMessageId></eb:MessageInfo><eb:Receipt></eb:Receipt></eb:SignalMessage><eb:SignalMessage><eb:MessageInfo><eb:Timestamp>2025-01-02T03:04:05.006Z</eb:Timestamp><eb:MessageId>s2@b</eb:MessageId></eb:MessageInfo><eb:PullRequest mpc=\"urn:ch\"></eb:PullRequest></eb:SignalMessage>",
        "refused EBMS:0007 s1@b",
    ),
    (
        "",
        "<eb:UserMessage><eb:MessageInfo><eb:Timestamp>2025-01-02T03:04:05.006Z</eb:Timestamp><eb:MessageId>m1@a</eb:MessageId></eb:MessageInfo><eb:PartyInfo><eb:From><eb:PartyId>acme</eb:PartyId><eb:Role>seller</eb:Role></eb:From><eb:To><eb:PartyId>bolt</eb:PartyId><eb:Role>buyer</eb:Role></eb:To></eb:PartyInfo><eb:CollaborationInfo><eb:Service>orders</eb:Service><eb:Action>invoice</eb:Action><eb:ConversationId>c1</eb:ConversationId></eb:CollaborationInfo><eb:PayloadInfo><eb:PartInfo href=\"cid:p1@a\"></eb:PartInfo></eb:PayloadInfo></eb:UserMessage>=><eb:SignalMessage><eb:MessageInfo><eb:Timestamp>2025-01-02T03:04:05.006Z</eb:Timestamp><eb:MessageId>s2@b</eb:MessageId></eb:MessageInfo><eb:PullRequest mpc=\"urn:ch\"></eb:PullRequest></eb:SignalMessage><eb:SignalMessage><eb:MessageInfo><eb:Timestamp>2025-01-02T03:04:05.006Z</eb:Timestamp><eb:MessageId>s1@b</eb:MessageId><eb:RefToMessageId>m1@a</eb:RefToMessageId></eb:MessageInfo><eb:Receipt></eb:Receipt></eb:SignalMessage>",
        "refused EBMS:0007 s1@b",
    ),
];

/// Bare envelopes.
pub const BARE_CASES: [Case; 29] = [
    ("", "", "user m1@a"),
    ("; charset=UTF-8=>", "", "user m1@a"),
    ("UTF-8=>utf-8", "", "user m1@a"),
    ("UTF-8=>\"us-ascii\"", "", "user m1@a"),
    ("application=> \tApplication", "", "user m1@a"),
    ("; charset=UTF-8=>; action=\"urn:x\"", "", "user m1@a"),
    ("UTF-8=>latin1", "", "refused EBMS:0007"),
    ("UTF-8=>utf-8; charset=utf-8", "", "refused EBMS:0007"),
    ("soap+xml=>soap", "", "refused EBMS:0007"),
    ("application/soap+xml=>text/xml", "", "refused EBMS:0007"),
    (
        "",
        "<S:Envelope=>\u{feff}<?xml version=\"1.0\"?> <S:Envelope",
        "user m1@a",
    ),
    ("", "<S:Envelope=>x<S:Envelope", "refused EBMS:0009"),
    (
        "",
        "</S:Envelope>=></S:Envelope>\r\n--b--",
        "refused EBMS:0009",
    ),
    ("", "orders=><!-- orders -->orders", "user m1@a"),
    (
        "",
        "xmlns:eb=\"http://docs.oasis-open.org/ebxml-msg/ebms/v3.0/ns/core/200704/\"=>xmlns:eb=\"urn:x\"",
        "refused EBMS:0009",
    ),
    (
        "",
        "<S:Envelope=><!DOCTYPE x><S:Envelope",
        "refused EBMS:0009",
    ),
    (
        "",
        "<eb:Service>=><eb:Service type=\"a\" type=\"b\">",
        "refused EBMS:0009",
    ),
    ("", "<eb:Service>=><eb:Service type=\"a\">", "user m1@a"),
    ("", "orders=>&x;", "refused EBMS:0009"),
    ("", "<eb:Service>=><eb:Service eb:type=\"x\">", "user m1@a"),
    (
        "",
        "</eb:CollaborationInfo>=></eb:CollaborationInfo><eb:PayloadInfo><eb:PartInfo href=\"cid:p1@a\"></eb:PartInfo></eb:PayloadInfo>",
        "refused EBMS:0007 m1@a",
    ),
    (
        "",
        "<eb:UserMessage><eb:MessageInfo><eb:Timestamp>2025-01-02T03:04:05.006Z</eb:Timestamp><eb:MessageId>m1@a</eb:MessageId></eb:MessageInfo><eb:PartyInfo><eb:From><eb:PartyId>acme</eb:PartyId><eb:Role>seller</eb:Role></eb:From><eb:To><eb:PartyId>bolt</eb:PartyId><eb:Role>buyer</eb:Role></eb:To></eb:PartyInfo><eb:CollaborationInfo><eb:Service>orders</eb:Service><eb:Action>invoice</eb:Action><eb:ConversationId>c1</eb:ConversationId></eb:CollaborationInfo></eb:UserMessage>=><eb:SignalMessage><eb:MessageInfo><eb:Timestamp>2025-01-02T03:04:05.006Z</eb:Timestamp><eb:MessageId>s2@b</eb:MessageId></eb:MessageInfo><eb:PullRequest mpc=\"urn:ch\"></eb:PullRequest></eb:SignalMessage>",
        "pull urn:ch",
    ),
    (
        "",
        "<eb:UserMessage><eb:MessageInfo><eb:Timestamp>2025-01-02T03:04:05.006Z</eb:Timestamp><eb:MessageId>m1@a</eb:MessageId></eb:MessageInfo><eb:PartyInfo><eb:From><eb:PartyId>acme</eb:PartyId><eb:Role>seller</eb:Role></eb:From><eb:To><eb:PartyId>bolt</eb:PartyId><eb:Role>buyer</eb:Role></eb:To></eb:PartyInfo><eb:CollaborationInfo><eb:Service>orders</eb:Service><eb:Action>invoice</eb:Action><eb:ConversationId>c1</eb:ConversationId></eb:CollaborationInfo></eb:UserMessage>=><eb:SignalMessage><eb:MessageInfo><eb:Timestamp>2025-01-02T03:04:05.006Z</eb:Timestamp><eb:MessageId>s2@b</eb:MessageId></eb:MessageInfo><eb:PullRequest></eb:PullRequest></eb:SignalMessage>",
        "pull http://docs.oasis-open.org/ebxml-msg/ebms/v3.0/ns/core/200704/defaultMPC",
    ),
    (
        "",
        "<eb:UserMessage><eb:MessageInfo><eb:Timestamp>2025-01-02T03:04:05.006Z</eb:Timestamp><eb:MessageId>m1@a</eb:MessageId></eb:MessageInfo><eb:PartyInfo><eb:From><eb:PartyId>acme</eb:PartyId><eb:Role>seller</eb:Role></eb:From><eb:To><eb:PartyId>bolt</eb:PartyId><eb:Role>buyer</eb:Role></eb:To></eb:PartyInfo><eb:CollaborationInfo><eb:Service>orders</eb:Service><eb:Action>invoice</eb:Action><eb:ConversationId>c1</eb:ConversationId></eb:CollaborationInfo></eb:UserMessage>=><eb:SignalMessage><eb:MessageInfo><eb:Timestamp>2025-01-02T03:04:05.006Z</eb:Timestamp><eb:MessageId>s1@b</eb:MessageId><eb:RefToMessageId>m1@a</eb:RefToMessageId></eb:MessageInfo><eb:Receipt></eb:Receipt></eb:SignalMessage>",
        "receipt m1@a",
    ),
    (
        "",
        "<eb:UserMessage><eb:MessageInfo><eb:Timestamp>2025-01-02T03:04:05.006Z</eb:Timestamp><eb:MessageId>m1@a</eb:MessageId></eb:MessageInfo><eb:PartyInfo><eb:From><eb:PartyId>acme</eb:PartyId><eb:Role>seller</eb:Role></eb:From><eb:To><eb:PartyId>bolt</eb:PartyId><eb:Role>buyer</eb:Role></eb:To></eb:PartyInfo><eb:CollaborationInfo><eb:Service>orders</eb:Service><eb:Action>invoice</eb:Action><eb:ConversationId>c1</eb:ConversationId></eb:CollaborationInfo></eb:UserMessage>=><eb:SignalMessage><eb:MessageInfo><eb:Timestamp>2025-01-02T03:04:05.006Z</eb:Timestamp><eb:MessageId>s1@b</eb:MessageId><eb:RefToMessageId>m1@a</eb:RefToMessageId></eb:MessageInfo><eb:Error errorCode=\"EBMS:0004\" severity=\"failure\"></eb:Error><eb:Error errorCode=\"EBMS:0006\" severity=\"warning\"></eb:Error></eb:SignalMessage>",
        "errors 2",
    ),
    (
        "",
        "<eb:UserMessage><eb:MessageInfo><eb:Timestamp>2025-01-02T03:04:05.006Z</eb:Timestamp><eb:MessageId>m1@a</eb:MessageId></eb:MessageInfo><eb:PartyInfo><eb:From><eb:PartyId>acme</eb:PartyId><eb:Role>seller</eb:Role></eb:From><eb:To><eb:PartyId>bolt</eb:PartyId><eb:Role>buyer</eb:Role></eb:To></eb:PartyInfo><eb:CollaborationInfo><eb:Service>orders</eb:Service><eb:Action>invoice</eb:Action><eb:ConversationId>c1</eb:ConversationId></eb:CollaborationInfo></eb:UserMessage>=><eb:SignalMessage><eb:MessageInfo><eb:Timestamp>2025-01-02T03:04:05.006Z</eb:Timestamp><eb:MessageId>s1@b</eb:MessageId><eb:RefToMessageId>m1@a</eb:RefToMessageId></eb:MessageInfo><eb:Receipt></eb:Receipt></eb:SignalMessage><eb:SignalMessage><eb:MessageInfo><eb:Timestamp>2025-01-02T03:04:05.006Z</eb:Timestamp><eb:MessageId>s2@b</eb:MessageId></eb:MessageInfo><eb:PullRequest mpc=\"urn:ch\"></eb:PullRequest></eb:SignalMessage>",
        "pair m1@a urn:ch",
    ),
    (
        "",
        "<eb:UserMessage><eb:MessageInfo><eb:Timestamp>2025-01-02T03:04:05.006Z</eb:Timestamp><eb:MessageId>m1@a</eb:MessageId></eb:MessageInfo><eb:PartyInfo><eb:From><eb:PartyId>acme</eb:PartyId><eb:Role>seller</eb:Role></eb:From><eb:To><eb:PartyId>bolt</eb:PartyId><eb:Role>buyer</eb:Role></eb:To></eb:PartyInfo><eb:CollaborationInfo><eb:Service>orders</eb:Service><eb:Action>invoice</eb:Action><eb:ConversationId>c1</eb:ConversationId></eb:CollaborationInfo></eb:UserMessage>=><eb:SignalMessage><eb:MessageInfo><eb:Timestamp>2025-01-02T03:04:05.006Z</eb:Timestamp><eb:MessageId>s2@b</eb:MessageId></eb:MessageInfo><eb:PullRequest mpc=\"urn:ch\"></eb:PullRequest></eb:SignalMessage><eb:SignalMessage><eb:MessageInfo><eb:Timestamp>2025-01-02T03:04:05.006Z</eb:Timestamp><eb:MessageId>s1@b</eb:MessageId><eb:RefToMessageId>m1@a</eb:RefToMessageId></eb:MessageInfo><eb:Receipt></eb:Receipt></eb:SignalMessage>",
        "pair m1@a urn:ch",
    ),
    (
        "",
        "<eb:UserMessage><eb:MessageInfo><eb:Timestamp>2025-01-02T03:04:05.006Z</eb:Timestamp><eb:MessageId>m1@a</eb:MessageId></eb:MessageInfo><eb:PartyInfo><eb:From><eb:PartyId>acme</eb:PartyId><eb:Role>seller</eb:Role></eb:From><eb:To><eb:PartyId>bolt</eb:PartyId><eb:Role>buyer</eb:Role></eb:To></eb:PartyInfo><eb:CollaborationInfo><eb:Service>orders</eb:Service><eb:Action>invoice</eb:Action><eb:ConversationId>c1</eb:ConversationId></eb:CollaborationInfo></eb:UserMessage>=><eb:SignalMessage><eb:MessageInfo><eb:Timestamp>2025-01-02T03:04:05.006Z</eb:Timestamp><eb:MessageId>s1@b</eb:MessageId><eb:RefToMessageId>m1@a</eb:RefToMessageId></eb:MessageInfo><eb:Receipt></eb:Receipt></eb:SignalMessage><eb:SignalMessage><eb:MessageInfo><eb:Timestamp>2025-01-02T03:04:05.006Z</eb:Timestamp><eb:MessageId>s1@b</eb:MessageId><eb:RefToMessageId>m1@a</eb:RefToMessageId></eb:MessageInfo><eb:Receipt></eb:Receipt></eb:SignalMessage>",
        "refused EBMS:0008",
    ),
    (
        "",
        "<eb:UserMessage><eb:MessageInfo><eb:Timestamp>2025-01-02T03:04:05.006Z</eb:Timestamp><eb:MessageId>m1@a</eb:MessageId></eb:MessageInfo><eb:PartyInfo><eb:From><eb:PartyId>acme</eb:PartyId><eb:Role>seller</eb:Role></eb:From><eb:To><eb:PartyId>bolt</eb:PartyId><eb:Role>buyer</eb:Role></eb:To></eb:PartyInfo><eb:CollaborationInfo><eb:Service>orders</eb:Service><eb:Action>invoice</eb:Action><eb:ConversationId>c1</eb:ConversationId></eb:CollaborationInfo></eb:UserMessage>=>",
        "refused EBMS:0009",
    ),
];
