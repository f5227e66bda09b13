//! Sample units, changes in the text of each envelope, and how the result is read: `=` as the unit itself, `!` as
//! Invalid, `?` as Unsupported, and `old=>new` as the unit with that change.

pub const USER: &str =
    "<eb:UserMessage mpc=\"urn:mpc\"><eb:MessageInfo><eb:Timestamp>2025-01-02T03:04:05.006Z</eb:Timestamp><eb:MessageId>m1@a</eb:MessageId><eb:RefToMessageId>m0@a</eb:RefToMessageId></eb:MessageInfo><eb:PartyInfo><eb:From><eb:PartyId type=\"urn:k\">acme</eb:PartyId><eb:Role>seller</eb:Role></eb:From><eb:To><eb:PartyId>bolt</eb:PartyId><eb:Role>buyer</eb:Role></eb:To></eb:PartyInfo><eb:CollaborationInfo><eb:AgreementRef type=\"urn:a\" pmode=\"urn:p\">agreed</eb:AgreementRef><eb:Service type=\"urn:s\">orders</eb:Service><eb:Action>invoice</eb:Action><eb:ConversationId>c1</eb:ConversationId></eb:CollaborationInfo><eb:MessageProperties><eb:Property name=\"one\" type=\"urn:t\">v1</eb:Property></eb:MessageProperties><eb:PayloadInfo><eb:PartInfo href=\"cid:p1@a\"><eb:PartProperties><eb:Property name=\"two\">v2</eb:Property></eb:PartProperties></eb:PartInfo></eb:PayloadInfo></eb:UserMessage>";

pub const PULL: &str =
    "<eb:SignalMessage><eb:MessageInfo><eb:Timestamp>2025-01-02T03:04:05.006Z</eb:Timestamp><eb:MessageId>m1@a</eb:MessageId><eb:RefToMessageId>m0@a</eb:RefToMessageId></eb:MessageInfo><eb:PullRequest mpc=\"urn:mpc\"></eb:PullRequest></eb:SignalMessage>";

pub const RECEIPT: &str =
    "<eb:SignalMessage><eb:MessageInfo><eb:Timestamp>2025-01-02T03:04:05.006Z</eb:Timestamp><eb:MessageId>m1@a</eb:MessageId><eb:RefToMessageId>m0@a</eb:RefToMessageId></eb:MessageInfo><eb:Receipt><eb:UserMessage mpc=\"urn:mpc\"><eb:MessageInfo><eb:Timestamp>2025-01-02T03:04:05.006Z</eb:Timestamp><eb:MessageId>m1@a</eb:MessageId><eb:RefToMessageId>m0@a</eb:RefToMessageId></eb:MessageInfo><eb:PartyInfo><eb:From><eb:PartyId type=\"urn:k\">acme</eb:PartyId><eb:Role>seller</eb:Role></eb:From><eb:To><eb:PartyId>bolt</eb:PartyId><eb:Role>buyer</eb:Role></eb:To></eb:PartyInfo><eb:CollaborationInfo><eb:AgreementRef type=\"urn:a\" pmode=\"urn:p\">agreed</eb:AgreementRef><eb:Service type=\"urn:s\">orders</eb:Service><eb:Action>invoice</eb:Action><eb:ConversationId>c1</eb:ConversationId></eb:CollaborationInfo><eb:MessageProperties><eb:Property name=\"one\" type=\"urn:t\">v1</eb:Property></eb:MessageProperties><eb:PayloadInfo><eb:PartInfo href=\"cid:p1@a\"><eb:PartProperties><eb:Property name=\"two\">v2</eb:Property></eb:PartProperties></eb:PartInfo></eb:PayloadInfo></eb:UserMessage></eb:Receipt></eb:SignalMessage>";

pub const ERROR: &str =
    "<eb:SignalMessage><eb:MessageInfo><eb:Timestamp>2025-01-02T03:04:05.006Z</eb:Timestamp><eb:MessageId>m1@a</eb:MessageId><eb:RefToMessageId>m0@a</eb:RefToMessageId></eb:MessageInfo><eb:Error errorCode=\"EBMS:0004\" severity=\"failure\" origin=\"ebMS\" category=\"Content\" refToMessageInError=\"m0@a\" shortDescription=\"Other\"><eb:Description>why</eb:Description><eb:ErrorDetail>more</eb:ErrorDetail></eb:Error></eb:SignalMessage>";

pub const PAIR: &str =
    "<eb:SignalMessage><eb:MessageInfo><eb:Timestamp>2025-01-02T03:04:05.006Z</eb:Timestamp><eb:MessageId>m1@a</eb:MessageId><eb:RefToMessageId>m0@a</eb:RefToMessageId></eb:MessageInfo><eb:Receipt></eb:Receipt></eb:SignalMessage><eb:SignalMessage><eb:MessageInfo><eb:Timestamp>2025-01-02T03:04:05.006Z</eb:Timestamp><eb:MessageId>m1@a</eb:MessageId><eb:RefToMessageId>m0@a</eb:RefToMessageId></eb:MessageInfo><eb:PullRequest mpc=\"urn:mpc\"></eb:PullRequest></eb:SignalMessage>";

pub type Case = (&'static str, &'static str, &'static str);

pub const ENVELOPE_CASES: [Case; 20] = [
    ("", "", "="),
    ("<S:Envelope>", "<eb:Envelope>", "!"),
    ("<S:Envelope>", "<S:envelope>", "!"),
    ("<S:Header>", "<S:header>", "!"),
    ("<S:Header>", "<eb:Header>", "!"),
    ("<S:Body></S:Body>", "", "!"),
    (
        "<S:Body></S:Body>",
        "<S:Body></S:Body><S:Body></S:Body>",
        "!",
    ),
    (
        "<S:Body></S:Body>",
        "<S:Body></S:Body><S:Fault></S:Fault>",
        "!",
    ),
    ("<S:Body></S:Body>", "<x:Body></x:Body>", "!"),
    (
        "<S:Body></S:Body>",
        "<S:Body><S:Fault></S:Fault></S:Body>",
        "=",
    ),
    (
        "<S:Body></S:Body>",
        "<S:Body></S:Body><eb:Other></eb:Other>",
        "=",
    ),
    (
        "<S:Body></S:Body>",
        "<x:y></x:y><S:Body>text</S:Body><y></y>",
        "=",
    ),
    ("<S:Header>", "<S:Header></S:Header><S:Header>", "!"),
    ("<S:Envelope>", "<S:Envelope><S:Body></S:Body>", "!"),
    ("<S:Envelope>", "<S:Envelope>text", "="),
    ("<S:Header>", "<S:Header>text", "="),
    (
        "<eb:Messaging S:mustUnderstand=\"true\">",
        "<eb:Messaging>text",
        "=",
    ),
    (
        "<eb:Messaging S:mustUnderstand=\"true\">",
        "<eb:Messaging S:mustUnderstand=\"false\">",
        "=",
    ),
    ("<eb:Messaging ", "<x:Messaging ", "!"),
    (
        "<eb:Messaging ",
        "<eb:Messaging></eb:Messaging><eb:Messaging ",
        "!",
    ),
];

pub const BLOCK_CASES: [Case; 19] = [
    (
        "<eb:Messaging ",
        "<x:Security S:mustUnderstand=\"true\"></x:Security><eb:Messaging ",
        "?",
    ),
    (
        "<eb:Messaging ",
        "<x:Security S:mustUnderstand=\"1\"></x:Security><eb:Messaging ",
        "?",
    ),
    (
        "<eb:Messaging ",
        "<x:Security S:mustUnderstand=\" 1 \"></x:Security><eb:Messaging ",
        "?",
    ),
    (
        "<eb:Messaging ",
        "<x:Security S:mustUnderstand=\"0\"></x:Security><eb:Messaging ",
        "=",
    ),
    (
        "<eb:Messaging ",
        "<x:Security S:mustUnderstand=\"false\"></x:Security><eb:Messaging ",
        "=",
    ),
    (
        "<eb:Messaging ",
        "<x:Security S:mustUnderstand=\"TRUE\"></x:Security><eb:Messaging ",
        "=",
    ),
    (
        "<eb:Messaging ",
        "<x:Security S:mustUnderstand=\"\"></x:Security><eb:Messaging ",
        "=",
    ),
    (
        "<eb:Messaging ",
        "<x:Security mustUnderstand=\"1\"></x:Security><eb:Messaging ",
        "=",
    ),
    (
        "<eb:Messaging ",
        "<x:Security x:mustUnderstand=\"1\"></x:Security><eb:Messaging ",
        "=",
    ),
    (
        "<eb:Messaging ",
        "<x:Security eb:mustUnderstand=\"1\"></x:Security><eb:Messaging ",
        "=",
    ),
    (
        "<eb:Messaging ",
        "<Security S:mustUnderstand=\"1\"></Security><eb:Messaging ",
        "?",
    ),
    (
        "<eb:Messaging ",
        "<S:Upgrade S:mustUnderstand=\"1\"></S:Upgrade><eb:Messaging ",
        "?",
    ),
    (
        "<eb:Messaging ",
        "<eb:Other S:mustUnderstand=\"1\" S:role=\"urn:none\"></eb:Other><eb:Messaging ",
        "?",
    ),
    (
        "<eb:Messaging ",
        "<x:a><x:b S:mustUnderstand=\"1\"></x:b></x:a><eb:Messaging ",
        "=",
    ),
    (
        "<eb:UserMessage mpc=\"urn:mpc\">",
        "<x:UserMessage mpc=\"urn:mpc\">",
        "!",
    ),
    (
        "<eb:UserMessage mpc=\"urn:mpc\">",
        "<eb:Schema></eb:Schema><x:y></x:y><eb:UserMessage mpc=\"urn:mpc\">",
        "=",
    ),
    (
        "<eb:UserMessage mpc=\"urn:mpc\">",
        "<eb:UserMessage></eb:UserMessage><eb:UserMessage mpc=\"urn:mpc\">",
        "?",
    ),
    (
        "<eb:UserMessage mpc=\"urn:mpc\">",
        "<eb:SignalMessage></eb:SignalMessage><eb:UserMessage mpc=\"urn:mpc\">",
        "?",
    ),
    (
        "<eb:UserMessage mpc=\"urn:mpc\">",
        "<eb:SignalMessage></eb:SignalMessage><eb:SignalMessage></eb:SignalMessage><eb:UserMessage mpc=\"urn:mpc\">",
        "?",
    ),
];

pub const USER_CASES: [Case; 11] = [
    (
        "<eb:UserMessage mpc=\"urn:mpc\">",
        "<eb:UserMessage>",
        " mpc=\"urn:mpc\"=>",
    ),
    (
        "<eb:UserMessage mpc=\"urn:mpc\">",
        "<eb:UserMessage mpc=\"  \">",
        " mpc=\"urn:mpc\"=>",
    ),
    (
        "<eb:UserMessage mpc=\"urn:mpc\">",
        "<eb:UserMessage eb:mpc=\"urn:mpc\">",
        " mpc=\"urn:mpc\"=>",
    ),
    (
        "<eb:UserMessage mpc=\"urn:mpc\">",
        "<eb:UserMessage mpc=\" urn:x \">",
        "urn:mpc=>urn:x",
    ),
    (
        "<eb:UserMessage mpc=\"urn:mpc\">",
        "<eb:UserMessage mpc=\"urn:mpc\" other=\"x\">text",
        "=",
    ),
    (
        "<eb:MessageInfo><eb:Timestamp>2025-01-02T03:04:05.006Z</eb:Timestamp><eb:MessageId>m1@a</eb:MessageId><eb:RefToMessageId>m0@a</eb:RefToMessageId></eb:MessageInfo>",
        "",
        "!",
    ),
    (
        "<eb:MessageInfo><eb:Timestamp>2025-01-02T03:04:05.006Z</eb:Timestamp><eb:MessageId>m1@a</eb:MessageId><eb:RefToMessageId>m0@a</eb:RefToMessageId></eb:MessageInfo>",
        "<eb:MessageInfo><eb:Timestamp>2025-01-02T03:04:05.006Z</eb:Timestamp><eb:MessageId>m1@a</eb:MessageId><eb:RefToMessageId>m0@a</eb:RefToMessageId></eb:MessageInfo><eb:MessageInfo><eb:Timestamp>2025-01-02T03:04:05.006Z</eb:Timestamp><eb:MessageId>m1@a</eb:MessageId><eb:RefToMessageId>m0@a</eb:RefToMessageId></eb:MessageInfo>",
        "!",
    ),
    (
        "<eb:MessageInfo><eb:Timestamp>2025-01-02T03:04:05.006Z</eb:Timestamp><eb:MessageId>m1@a</eb:MessageId><eb:RefToMessageId>m0@a</eb:RefToMessageId></eb:MessageInfo>",
        "<x:y><eb:Other></eb:Other></x:y><eb:MessageInfo><eb:Timestamp>2025-01-02T03:04:05.006Z</eb:Timestamp><eb:MessageId>m1@a</eb:MessageId><eb:RefToMessageId>m0@a</eb:RefToMessageId></eb:MessageInfo>",
        "=",
    ),
    (
        "<eb:MessageInfo><eb:Timestamp>2025-01-02T03:04:05.006Z</eb:Timestamp><eb:MessageId>m1@a</eb:MessageId><eb:RefToMessageId>m0@a</eb:RefToMessageId></eb:MessageInfo>",
        "<eb:Other></eb:Other><eb:MessageInfo><eb:Timestamp>2025-01-02T03:04:05.006Z</eb:Timestamp><eb:MessageId>m1@a</eb:MessageId><eb:RefToMessageId>m0@a</eb:RefToMessageId></eb:MessageInfo>",
        "!",
    ),
    (
        "<eb:MessageInfo><eb:Timestamp>2025-01-02T03:04:05.006Z</eb:Timestamp><eb:MessageId>m1@a</eb:MessageId><eb:RefToMessageId>m0@a</eb:RefToMessageId></eb:MessageInfo>",
        "<S:Header></S:Header><eb:MessageInfo><eb:Timestamp>2025-01-02T03:04:05.006Z</eb:Timestamp><eb:MessageId>m1@a</eb:MessageId><eb:RefToMessageId>m0@a</eb:RefToMessageId></eb:MessageInfo>",
        "=",
    ),
    (
        "<eb:MessageInfo><eb:Timestamp>2025-01-02T03:04:05.006Z</eb:Timestamp><eb:MessageId>m1@a</eb:MessageId><eb:RefToMessageId>m0@a</eb:RefToMessageId></eb:MessageInfo><eb:PartyInfo>",
        "<eb:PartyInfo>",
        "!",
    ),
];

pub const INFO_CASES: [Case; 18] = [
    (
        "2025-01-02T03:04:05.006Z",
        " 2025-01-02T03:04:05.006Z\n",
        "=",
    ),
    (
        "2025-01-02T03:04:05.006Z",
        "1900-01-01T00:00:00",
        "2025-01-02T03:04:05.006Z=>1900-01-01T00:00:00",
    ),
    ("2025-01-02T03:04:05.006Z", "2025-02-29T00:00:00Z", "!"),
    ("2025-01-02T03:04:05.006Z", "2025-01-02T24:00:00Z", "!"),
    (
        "2025-01-02T03:04:05.006Z",
        "2025-01-02T03:04:05.1234567890Z",
        "!",
    ),
    (
        "2025-01-02T03:04:05.006Z",
        "2025-01-02T03:04:05+14:00",
        "2025-01-02T03:04:05.006Z=>2025-01-02T03:04:05+14:00",
    ),
    ("2025-01-02T03:04:05.006Z", "", "!"),
    ("<eb:MessageId>m1@a", "<eb:MessageId> m1@a\t", "="),
    ("<eb:MessageId>m1@a", "<eb:MessageId>m1 @a", "!"),
    ("<eb:MessageId>m1@a", "<eb:MessageId>", "!"),
    (
        "<eb:MessageId>m1@a",
        "<eb:MessageId x=\"1\">m1@a<x:y></x:y>",
        "=",
    ),
    ("<eb:MessageId>m1@a", "<eb:MessageId>m1@a<eb:y></eb:y>", "!"),
    (
        "<eb:RefToMessageId>m0@a</eb:RefToMessageId>",
        "",
        "<eb:RefToMessageId>m0@a</eb:RefToMessageId>=>",
    ),
    ("<eb:RefToMessageId>m0@a", "<eb:RefToMessageId>", "!"),
    (
        "<eb:RefToMessageId>",
        "<eb:RefToMessageId>m0@a</eb:RefToMessageId><eb:RefToMessageId>",
        "!",
    ),
    ("<eb:MessageInfo>", "<eb:MessageInfo>text<x:y></x:y>", "="),
    ("<eb:MessageInfo>", "<eb:MessageInfo><eb:y></eb:y>", "!"),
    (
        "<eb:MessageId>m1@a</eb:MessageId><eb:RefToMessageId>m0@a</eb:RefToMessageId>",
        "<eb:RefToMessageId>m0@a</eb:RefToMessageId><eb:MessageId>m1@a</eb:MessageId>",
        "=",
    ),
];

pub const SIDE_CASES: [Case; 12] = [
    (
        "<eb:PartyId type=\"urn:k\">acme",
        "<eb:PartyId>acme",
        " type=\"urn:k\"=>",
    ),
    (
        "<eb:PartyId type=\"urn:k\">acme",
        "<eb:PartyId type=\"\">acme",
        " type=\"urn:k\"=>",
    ),
    (
        "<eb:PartyId type=\"urn:k\">acme",
        "<eb:PartyId type=\"urn:k\"> ",
        "!",
    ),
    (
        "<eb:PartyId>bolt",
        "<eb:PartyId>one</eb:PartyId><eb:PartyId>bolt",
        "<eb:PartyId>bolt=><eb:PartyId>one</eb:PartyId><eb:PartyId>bolt",
    ),
    (
        "<eb:PartyId>bolt</eb:PartyId><eb:Role>buyer</eb:Role>",
        "<eb:Role>buyer</eb:Role><eb:PartyId>bolt</eb:PartyId>",
        "=",
    ),
    ("<eb:PartyId>bolt</eb:PartyId>", "", "!"),
    ("<eb:Role>buyer</eb:Role>", "", "!"),
    (
        "<eb:Role>buyer</eb:Role>",
        "<eb:Role>buyer</eb:Role><eb:Role>buyer</eb:Role>",
        "!",
    ),
    ("<eb:Role>buyer", "<eb:Role>", "!"),
    ("<eb:From>", "<eb:From><eb:Other></eb:Other>", "!"),
    ("<eb:From>", "<eb:From><Role>x</Role>", "="),
    ("<eb:PartyInfo>", "<eb:PartyInfo><eb:Other></eb:Other>", "!"),
];

pub const BUSINESS_CASES: [Case; 14] = [
    (
        "<eb:AgreementRef type=\"urn:a\" pmode=\"urn:p\">agreed</eb:AgreementRef>",
        "",
        "<eb:AgreementRef type=\"urn:a\" pmode=\"urn:p\">agreed</eb:AgreementRef>=>",
    ),
    (
        "<eb:AgreementRef type=\"urn:a\" pmode=\"urn:p\">agreed",
        "<eb:AgreementRef type=\"urn:a\" pmode=\"urn:p\">\n",
        "<eb:AgreementRef type=\"urn:a\" pmode=\"urn:p\">agreed</eb:AgreementRef>=>",
    ),
    (
        "<eb:AgreementRef type=\"urn:a\" pmode=\"urn:p\">agreed",
        "<eb:AgreementRef type=\"urn:a\">agreed",
        " pmode=\"urn:p\"=>",
    ),
    (
        "agreed</eb:AgreementRef>",
        "</eb:AgreementRef><eb:AgreementRef></eb:AgreementRef>",
        "!",
    ),
    (
        "agreed</eb:AgreementRef>",
        "<eb:y></eb:y></eb:AgreementRef>",
        "!",
    ),
    ("<eb:Service type=\"urn:s\">orders</eb:Service>", "", "!"),
    (
        "<eb:Service type=\"urn:s\">orders",
        "<eb:Service type=\"urn:s\">",
        "!",
    ),
    (
        "<eb:Service type=\"urn:s\">",
        "<eb:Service type=\"\t\">",
        " type=\"urn:s\"=>",
    ),
    ("<eb:Action>invoice</eb:Action>", "", "!"),
    (
        "<eb:Action>invoice</eb:Action>",
        "<eb:Action>a</eb:Action><eb:Action>a</eb:Action>",
        "!",
    ),
    ("<eb:ConversationId>c1</eb:ConversationId>", "", "!"),
    (
        "<eb:ConversationId>c1",
        "<eb:ConversationId> ",
        "<eb:ConversationId>c1=><eb:ConversationId>",
    ),
    (
        "<eb:ConversationId>c1</eb:ConversationId>",
        "<eb:ConversationId></eb:ConversationId><eb:ConversationId></eb:ConversationId>",
        "!",
    ),
    (
        "<eb:CollaborationInfo>",
        "<eb:CollaborationInfo><eb:Other></eb:Other>",
        "!",
    ),
];

pub const LIST_CASES: [Case; 16] = [
    (
        "<eb:Property name=\"one\" type=\"urn:t\">v1</eb:Property>",
        "",
        "<eb:MessageProperties><eb:Property name=\"one\" type=\"urn:t\">v1</eb:Property></eb:MessageProperties>=>",
    ),
    ("name=\"one\" type=\"urn:t\"", "type=\"urn:t\"", "!"),
    ("name=\"one\"", "name=\" \"", "!"),
    ("name=\"one\"", "eb:name=\"one\"", "!"),
    ("name=\"one\"", "name=\" one \"", "="),
    (">v1<", "><", ">v1<=>><"),
    (
        "<eb:MessageProperties>",
        "<eb:MessageProperties><eb:Other></eb:Other>",
        "!",
    ),
    (
        "<eb:MessageProperties>",
        "<eb:MessageProperties></eb:MessageProperties><eb:MessageProperties>",
        "!",
    ),
    (
        "<eb:MessageProperties>",
        "<eb:MessageProperties>text<x:y></x:y>",
        "=",
    ),
    (
        "<eb:PartInfo href=\"cid:p1@a\">",
        "<eb:PartInfo>",
        " href=\"cid:p1@a\"=>",
    ),
    (
        "<eb:PartInfo href=\"cid:p1@a\">",
        "<eb:PartInfo href=\"cid:p1@a\"><eb:Schema></eb:Schema><eb:Description>d</eb:Description>",
        "=",
    ),
    (
        "<eb:PartProperties>",
        "<eb:PartProperties></eb:PartProperties><eb:PartProperties>",
        "!",
    ),
    (
        "<eb:PartProperties>",
        "<eb:PartProperties><eb:Schema></eb:Schema>",
        "!",
    ),
    (
        "<eb:PayloadInfo>",
        "<eb:PayloadInfo><eb:Schema></eb:Schema>",
        "!",
    ),
    (
        "<eb:PayloadInfo>",
        "<eb:PayloadInfo></eb:PayloadInfo><eb:PayloadInfo>",
        "!",
    ),
    (
        "<eb:Property name=\"two\">v2</eb:Property>",
        "",
        "<eb:PartProperties><eb:Property name=\"two\">v2</eb:Property></eb:PartProperties>=>",
    ),
];

pub const PULL_CASES: [Case; 13] = [
    ("", "", "="),
    (
        " mpc=\"urn:mpc\"",
        "",
        "urn:mpc=>http://docs.oasis-open.org/ebxml-msg/ebms/v3.0/ns/core/200704/defaultMPC",
    ),
    (
        "mpc=\"urn:mpc\"",
        "mpc=\" \"",
        "urn:mpc=>http://docs.oasis-open.org/ebxml-msg/ebms/v3.0/ns/core/200704/defaultMPC",
    ),
    (
        "mpc=\"urn:mpc\"",
        "eb:mpc=\"urn:mpc\"",
        "urn:mpc=>http://docs.oasis-open.org/ebxml-msg/ebms/v3.0/ns/core/200704/defaultMPC",
    ),
    ("mpc=\"urn:mpc\">", "mpc=\"urn:mpc\">text<x:y></x:y>", "="),
    ("mpc=\"urn:mpc\">", "mpc=\"urn:mpc\"><eb:y></eb:y>", "!"),
    ("<eb:PullRequest mpc=\"urn:mpc\"></eb:PullRequest>", "", "!"),
    (
        "<eb:PullRequest mpc=\"urn:mpc\">",
        "<eb:PullRequest></eb:PullRequest><eb:PullRequest>",
        "!",
    ),
    (
        "<eb:PullRequest mpc=\"urn:mpc\">",
        "<eb:Receipt></eb:Receipt><eb:PullRequest>",
        "!",
    ),
    (
        "<eb:PullRequest mpc=\"urn:mpc\">",
        "<eb:Other></eb:Other><eb:PullRequest>",
        "!",
    ),
    (
        "<eb:PullRequest mpc=\"urn:mpc\">",
        "<x:Other></x:Other><eb:PullRequest mpc=\"urn:mpc\">",
        "=",
    ),
    (
        "<eb:RefToMessageId>m0@a</eb:RefToMessageId>",
        "",
        "<eb:RefToMessageId>m0@a</eb:RefToMessageId>=>",
    ),
    (
        "<eb:SignalMessage>",
        "<eb:SignalMessage></eb:SignalMessage><eb:SignalMessage>",
        "!",
    ),
];

pub const RECEIPT_CASES: [Case; 6] = [
    ("", "", "="),
    (
        "<eb:RefToMessageId>m0@a</eb:RefToMessageId></eb:MessageInfo><eb:Receipt>",
        "</eb:MessageInfo><eb:Receipt>",
        "!",
    ),
    (
        "<eb:Receipt>",
        "<eb:Receipt>text<x:y></x:y><eb:Other></eb:Other>",
        "=",
    ),
    (
        "<eb:Receipt>",
        "<eb:Receipt><eb:UserMessage></eb:UserMessage>",
        "!",
    ),
    ("<eb:Role>buyer</eb:Role>", "", "!"),
    ("<eb:Receipt>", "<eb:Receipt></eb:Receipt><eb:Receipt>", "!"),
];

pub const ERROR_CASES: [Case; 17] = [
    ("", "", "="),
    (" errorCode=\"EBMS:0004\"", "", "!"),
    ("errorCode=\"EBMS:0004\"", "errorCode=\" EBMS:0004 \"", "="),
    ("errorCode=\"EBMS:0004\"", "errorCode=\"EBMS 0004\"", "!"),
    (
        "severity=\"failure\"",
        "severity=\"warning\"",
        "severity=\"failure\"=>severity=\"warning\"",
    ),
    ("severity=\"failure\"", "severity=\"Failure\"", "!"),
    ("severity=\"failure\"", "severity=\" failure\"", "!"),
    (" severity=\"failure\"", "", "!"),
    ("origin=\"ebMS\"", "origin=\"\"", " origin=\"ebMS\"=>"),
    (
        "refToMessageInError=\"m0@a\"",
        "refToMessageInError=\" \"",
        " refToMessageInError=\"m0@a\"=>",
    ),
    (
        "refToMessageInError=\"m0@a\"",
        "refToMessageInError=\"m0 @a\"",
        "!",
    ),
    (
        "<eb:Description>why",
        "<eb:Description>",
        "<eb:Description>why</eb:Description>=>",
    ),
    ("<eb:ErrorDetail>more", "<eb:ErrorDetail><eb:y></eb:y>", "!"),
    (
        "<eb:Description>",
        "<eb:Description></eb:Description><eb:Description>",
        "!",
    ),
    (
        "<eb:Description>",
        "<eb:Other></eb:Other><eb:Description>",
        "!",
    ),
    (
        "<eb:Error ",
        "<eb:Error errorCode=\"EBMS:0001\" severity=\"warning\"></eb:Error><eb:Error ",
        "<eb:Error =><eb:Error errorCode=\"EBMS:0001\" severity=\"warning\"></eb:Error><eb:Error ",
    ),
    (
        "<eb:Error ",
        "<eb:PullRequest></eb:PullRequest><eb:Error ",
        "!",
    ),
];

pub const PAIR_CASES: [Case; 10] = [
    ("", "", "="),
    (
        "<eb:SignalMessage><eb:MessageInfo><eb:Timestamp>2025-01-02T03:04:05.006Z</eb:Timestamp><eb:MessageId>m1@a</eb:MessageId><eb:RefToMessageId>m0@a</eb:RefToMessageId></eb:MessageInfo><eb:Receipt></eb:Receipt></eb:SignalMessage><eb:SignalMessage><eb:MessageInfo><eb:Timestamp>2025-01-02T03:04:05.006Z</eb:Timestamp><eb:MessageId>m1@a</eb:MessageId><eb:RefToMessageId>m0@a</eb:RefToMessageId></eb:MessageInfo><eb:PullRequest mpc=\"urn:mpc\"></eb:PullRequest></eb:SignalMessage>",
        "<eb:SignalMessage><eb:MessageInfo><eb:Timestamp>2025-01-02T03:04:05.006Z</eb:Timestamp><eb:MessageId>m1@a</eb:MessageId><eb:RefToMessageId>m0@a</eb:RefToMessageId></eb:MessageInfo><eb:PullRequest mpc=\"urn:mpc\"></eb:PullRequest></eb:SignalMessage><eb:SignalMessage><eb:MessageInfo><eb:Timestamp>2025-01-02T03:04:05.006Z</eb:Timestamp><eb:MessageId>m1@a</eb:MessageId><eb:RefToMessageId>m0@a</eb:RefToMessageId></eb:MessageInfo><eb:Receipt></eb:Receipt></eb:SignalMessage>",
        "=",
    ),
    (
        "<eb:SignalMessage><eb:MessageInfo><eb:Timestamp>2025-01-02T03:04:05.006Z</eb:Timestamp><eb:MessageId>m1@a</eb:MessageId><eb:RefToMessageId>m0@a</eb:RefToMessageId></eb:MessageInfo><eb:Receipt></eb:Receipt></eb:SignalMessage><eb:SignalMessage><eb:MessageInfo><eb:Timestamp>2025-01-02T03:04:05.006Z</eb:Timestamp><eb:MessageId>m1@a</eb:MessageId><eb:RefToMessageId>m0@a</eb:RefToMessageId></eb:MessageInfo><eb:PullRequest mpc=\"urn:mpc\"></eb:PullRequest></eb:SignalMessage>",
        "<eb:SignalMessage><eb:MessageInfo><eb:Timestamp>2025-01-02T03:04:05.006Z</eb:Timestamp><eb:MessageId>m1@a</eb:MessageId><eb:RefToMessageId>m0@a</eb:RefToMessageId></eb:MessageInfo><eb:Receipt></eb:Receipt></eb:SignalMessage><eb:SignalMessage><eb:MessageInfo><eb:Timestamp>2025-01-02T03:04:05.006Z</eb:Timestamp><eb:MessageId>m1@a</eb:MessageId><eb:RefToMessageId>m0@a</eb:RefToMessageId></eb:MessageInfo><eb:Receipt></eb:Receipt></eb:SignalMessage>",
        "?",
    ),
    (
        "<eb:SignalMessage><eb:MessageInfo><eb:Timestamp>2025-01-02T03:04:05.006Z</eb:Timestamp><eb:MessageId>m1@a</eb:MessageId><eb:RefToMessageId>m0@a</eb:RefToMessageId></eb:MessageInfo><eb:Receipt></eb:Receipt></eb:SignalMessage><eb:SignalMessage><eb:MessageInfo><eb:Timestamp>2025-01-02T03:04:05.006Z</eb:Timestamp><eb:MessageId>m1@a</eb:MessageId><eb:RefToMessageId>m0@a</eb:RefToMessageId></eb:MessageInfo><eb:PullRequest mpc=\"urn:mpc\"></eb:PullRequest></eb:SignalMessage>",
        "<eb:SignalMessage><eb:MessageInfo><eb:Timestamp>2025-01-02T03:04:05.006Z</eb:Timestamp><eb:MessageId>m1@a</eb:MessageId><eb:RefToMessageId>m0@a</eb:RefToMessageId></eb:MessageInfo><eb:PullRequest mpc=\"urn:mpc\"></eb:PullRequest></eb:SignalMessage><eb:SignalMessage><eb:MessageInfo><eb:Timestamp>2025-01-02T03:04:05.006Z</eb:Timestamp><eb:MessageId>m1@a</eb:MessageId><eb:RefToMessageId>m0@a</eb:RefToMessageId></eb:MessageInfo><eb:PullRequest mpc=\"urn:mpc\"></eb:PullRequest></eb:SignalMessage>",
        "?",
    ),
    (
        "<eb:SignalMessage><eb:MessageInfo><eb:Timestamp>2025-01-02T03:04:05.006Z</eb:Timestamp><eb:MessageId>m1@a</eb:MessageId><eb:RefToMessageId>m0@a</eb:RefToMessageId></eb:MessageInfo><eb:Receipt></eb:Receipt></eb:SignalMessage><eb:SignalMessage><eb:MessageInfo><eb:Timestamp>2025-01-02T03:04:05.006Z</eb:Timestamp><eb:MessageId>m1@a</eb:MessageId><eb:RefToMessageId>m0@a</eb:RefToMessageId></eb:MessageInfo><eb:PullRequest mpc=\"urn:mpc\"></eb:PullRequest></eb:SignalMessage>",
        "<eb:SignalMessage><eb:MessageInfo><eb:Timestamp>2025-01-02T03:04:05.006Z</eb:Timestamp><eb:MessageId>m1@a</eb:MessageId><eb:RefToMessageId>m0@a</eb:RefToMessageId></eb:MessageInfo><eb:Receipt></eb:Receipt></eb:SignalMessage><eb:SignalMessage><eb:MessageInfo><eb:Timestamp>2025-01-02T03:04:05.006Z</eb:Timestamp><eb:MessageId>m1@a</eb:MessageId><eb:RefToMessageId>m0@a</eb:RefToMessageId></eb:MessageInfo><eb:PullRequest mpc=\"urn:mpc\"></eb:PullRequest></eb:SignalMessage><eb:SignalMessage><eb:MessageInfo><eb:Timestamp>2025-01-02T03:04:05.006Z</eb:Timestamp><eb:MessageId>m1@a</eb:MessageId><eb:RefToMessageId>m0@a</eb:RefToMessageId></eb:MessageInfo><eb:PullRequest mpc=\"urn:mpc\"></eb:PullRequest></eb:SignalMessage>",
        "?",
    ),
    (" mpc=\"urn:mpc\">", " mpc=\"urn:mpc\"><eb:y></eb:y>", "!"),
    (
        "<eb:SignalMessage><eb:MessageInfo><eb:Timestamp>2025-01-02T03:04:05.006Z</eb:Timestamp><eb:MessageId>m1@a</eb:MessageId><eb:RefToMessageId>m0@a</eb:RefToMessageId></eb:MessageInfo><eb:Receipt></eb:Receipt></eb:SignalMessage><eb:SignalMessage><eb:MessageInfo><eb:Timestamp>2025-01-02T03:04:05.006Z</eb:Timestamp><eb:MessageId>m1@a</eb:MessageId><eb:RefToMessageId>m0@a</eb:RefToMessageId></eb:MessageInfo><eb:PullRequest mpc=\"urn:mpc\"></eb:PullRequest></eb:SignalMessage>",
        "<eb:SignalMessage></eb:SignalMessage><eb:SignalMessage><eb:MessageInfo><eb:Timestamp>2025-01-02T03:04:05.006Z</eb:Timestamp><eb:MessageId>m1@a</eb:MessageId><eb:RefToMessageId>m0@a</eb:RefToMessageId></eb:MessageInfo><eb:Receipt></eb:Receipt></eb:SignalMessage>",
        "!",
    ),
    (
        "<eb:SignalMessage><eb:MessageInfo><eb:Timestamp>2025-01-02T03:04:05.006Z</eb:Timestamp><eb:MessageId>m1@a</eb:MessageId><eb:RefToMessageId>m0@a</eb:RefToMessageId></eb:MessageInfo><eb:Receipt></eb:Receipt></eb:SignalMessage><eb:SignalMessage><eb:MessageInfo><eb:Timestamp>2025-01-02T03:04:05.006Z</eb:Timestamp><eb:MessageId>m1@a</eb:MessageId><eb:RefToMessageId>m0@a</eb:RefToMessageId></eb:MessageInfo><eb:PullRequest mpc=\"urn:mpc\"></eb:PullRequest></eb:SignalMessage>",
        "<eb:SignalMessage><eb:MessageInfo><eb:Timestamp>2025-01-02T03:04:05.006Z</eb:Timestamp><eb:MessageId>m1@a</eb:MessageId><eb:RefToMessageId>m0@a</eb:RefToMessageId></eb:MessageInfo><eb:Receipt></eb:Receipt></eb:SignalMessage><eb:UserMessage></eb:UserMessage>",
        "?",
    ),
    (
        "<eb:SignalMessage><eb:MessageInfo><eb:Timestamp>2025-01-02T03:04:05.006Z</eb:Timestamp><eb:MessageId>m1@a</eb:MessageId><eb:RefToMessageId>m0@a</eb:RefToMessageId></eb:MessageInfo><eb:Receipt></eb:Receipt></eb:SignalMessage><eb:SignalMessage><eb:MessageInfo><eb:Timestamp>2025-01-02T03:04:05.006Z</eb:Timestamp><eb:MessageId>m1@a</eb:MessageId><eb:RefToMessageId>m0@a</eb:RefToMessageId></eb:MessageInfo><eb:PullRequest mpc=\"urn:mpc\"></eb:PullRequest></eb:SignalMessage>",
        "<eb:SignalMessage><eb:MessageInfo><eb:Timestamp>2025-01-02T03:04:05.006Z</eb:Timestamp><eb:MessageId>m1@a</eb:MessageId><eb:RefToMessageId>m0@a</eb:RefToMessageId></eb:MessageInfo><eb:Receipt></eb:Receipt></eb:SignalMessage><eb:SignalMessage><eb:MessageInfo><eb:Timestamp>2025-01-02T03:04:05.006Z</eb:Timestamp><eb:MessageId>m1@a</eb:MessageId><eb:RefToMessageId>m0@a</eb:RefToMessageId></eb:MessageInfo><eb:Error errorCode=\"EBMS:0004\" severity=\"failure\" origin=\"ebMS\" category=\"Content\" refToMessageInError=\"m0@a\" shortDescription=\"Other\"><eb:Description>why</eb:Description><eb:ErrorDetail>more</eb:ErrorDetail></eb:Error></eb:SignalMessage>",
        "?",
    ),
    (
        "<eb:SignalMessage><eb:MessageInfo><eb:Timestamp>2025-01-02T03:04:05.006Z</eb:Timestamp><eb:MessageId>m1@a</eb:MessageId><eb:RefToMessageId>m0@a</eb:RefToMessageId></eb:MessageInfo><eb:Receipt></eb:Receipt></eb:SignalMessage><eb:SignalMessage><eb:MessageInfo><eb:Timestamp>2025-01-02T03:04:05.006Z</eb:Timestamp><eb:MessageId>m1@a</eb:MessageId><eb:RefToMessageId>m0@a</eb:RefToMessageId></eb:MessageInfo><eb:PullRequest mpc=\"urn:mpc\"></eb:PullRequest></eb:SignalMessage>",
        "<eb:SignalMessage></eb:SignalMessage><eb:SignalMessage><eb:MessageInfo><eb:Timestamp>2025-01-02T03:04:05.006Z</eb:Timestamp><eb:MessageId>m1@a</eb:MessageId><eb:RefToMessageId>m0@a</eb:RefToMessageId></eb:MessageInfo><eb:Error errorCode=\"EBMS:0004\" severity=\"failure\" origin=\"ebMS\" category=\"Content\" refToMessageInError=\"m0@a\" shortDescription=\"Other\"><eb:Description>why</eb:Description><eb:ErrorDetail>more</eb:ErrorDetail></eb:Error></eb:SignalMessage>",
        "!",
    ),
];
