//! Modes files, a leaf, requests and a response, byte for byte.

/// A modes file, a leaf, a request or a response.
#[derive(Clone, Copy)]
pub(crate) enum Sample {
    Pushes,
    Collects,
    NoModes,
    BadModes,
    TickedTwice,
    NoJournal,
    User,
    Package,
    NoRequest,
    Submission,
    TwoSubmissions,
}

impl Sample {
    pub(crate) fn bytes(self) -> &'static [u8] {
        match self {
            Sample::Pushes => PUSHES,
            Sample::Collects => COLLECTS,
            Sample::NoModes => b"",
            Sample::BadModes => b"[[",
            Sample::TickedTwice => TICKED_TWICE,
            Sample::NoJournal => b"7777777777",
            Sample::User => USER,
            Sample::Package => PACKAGE,
            Sample::NoRequest => b"x",
            Sample::Submission => SUBMISSION,
            Sample::TwoSubmissions => TWO_SUBMISSIONS,
        }
    }
}

/// A mode that pushes.
const PUSHES: &[u8] = b"[[mode]]
name = \"invoice\"
from = { role = \"seller\", party = [ { id = \"acme\" } ] }
to = { role = \"buyer\", party = [ { id = \"bolt\" } ] }
service = \"orders\"
action = \"invoice\"
push = \"http://h:1/\"
retries = 10
period = 3000
";

/// The same mode, but pulled, from the side that collects.
const COLLECTS: &[u8] = b"[[mode]]
name = \"invoice\"
from = { role = \"seller\", party = [ { id = \"acme\" } ] }
to = { role = \"buyer\", party = [ { id = \"bolt\" } ] }
service = \"orders\"
action = \"invoice\"
pull = \"ch\"
address = \"http://h:1/\"
collect = true
retries = 10
period = 3000
";

/// A leaf with two ticks, to 1,000 and to 2,000.
const TICKED_TWICE: &[u8] =
    b"AS4JNL2\n\x01\0\0\0\0\0\0\0\x0b\0\x01\x02\0\0\0\0\0\0\x03\xe8\x01\0\0\0\0\0\0\0\x0b\0\x01\x02\0\0\0\0\0\0\x07\xd0\0";

/// A response with an invoice without payloads.
const USER: &[u8] =
    b"HTTP/1.1 200 OK\r\nContent-Type: application/soap+xml\r\nContent-Length: 709\r\n\r\n<S:Envelope xmlns:S=\"http://www.w3.org/2003/05/soap-envelope\" xmlns:eb=\"http://docs.oasis-open.org/ebxml-msg/ebms/v3.0/ns/core/200704/\"><S:Header><eb:Messaging S:mustUnderstand=\"true\"><eb:UserMessage><eb:MessageInfo><eb:Timestamp>2025-01-02T03:04:05.006Z</eb:Timestamp><eb:MessageId>m1@a</eb:MessageId></eb:MessageInfo><eb:PartyInfo><eb:From><eb:PartyId>acme</eb:PartyId><eb:Role>seller</eb:Role></eb:From><eb:To><eb:PartyId>bolt</eb:PartyId><eb:Role>buyer</eb:Role></eb:To></eb:PartyInfo><eb:CollaborationInfo><eb:Service>orders</eb:Service><eb:Action>invoice</eb:Action><eb:ConversationId>c1</eb:ConversationId></eb:CollaborationInfo></eb:UserMessage></eb:Messaging></S:Header><S:Body></S:Body></S:Envelope>";

/// A request with that invoice.
const PACKAGE: &[u8] =
    b"POST /as4 HTTP/1.1\r\nContent-Type: application/soap+xml\r\nContent-Length: 709\r\n\r\n<S:Envelope xmlns:S=\"http://www.w3.org/2003/05/soap-envelope\" xmlns:eb=\"http://docs.oasis-open.org/ebxml-msg/ebms/v3.0/ns/core/200704/\"><S:Header><eb:Messaging S:mustUnderstand=\"true\"><eb:UserMessage><eb:MessageInfo><eb:Timestamp>2025-01-02T03:04:05.006Z</eb:Timestamp><eb:MessageId>m1@a</eb:MessageId></eb:MessageInfo><eb:PartyInfo><eb:From><eb:PartyId>acme</eb:PartyId><eb:Role>seller</eb:Role></eb:From><eb:To><eb:PartyId>bolt</eb:PartyId><eb:Role>buyer</eb:Role></eb:To></eb:PartyInfo><eb:CollaborationInfo><eb:Service>orders</eb:Service><eb:Action>invoice</eb:Action><eb:ConversationId>c1</eb:ConversationId></eb:CollaborationInfo></eb:UserMessage></eb:Messaging></S:Header><S:Body></S:Body></S:Envelope>";

/// A submission without contents.
const SUBMISSION: &[u8] =
    b"POST /submit/invoice/c1 HTTP/1.1\r\nHost: h\r\nContent-Length: 0\r\n\r\n";

/// Two submissions without contents, on one connection.
const TWO_SUBMISSIONS: &[u8] =
    b"POST /submit/invoice/c1 HTTP/1.1\r\nHost: h\r\nContent-Length: 0\r\n\r\nPOST /submit/invoice/c1 HTTP/1.1\r\nHost: h\r\nContent-Length: 0\r\n\r\n";
