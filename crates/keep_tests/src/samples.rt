//! Requests and responses, byte for byte.

/// A request, or a response.
#[derive(Clone, Copy)]
pub(crate) enum Text {
    Invoice,
    Closing,
    NoMessage,
    Failure,
    Stranger,
    Nonsense,
    FirstKept,
    SecondKept,
    FirstClosed,
    SecondClosed,
    ErrorKept,
    AcceptedKept,
    BadRequest,
    Unavailable,
}

pub(crate) fn bytes_of(text: Text) -> &'static [u8] {
    match text {
        Text::Invoice => INVOICE,
        Text::Closing => CLOSING,
        Text::NoMessage => NO_MESSAGE,
        Text::Failure => FAILURE,
        Text::Stranger => STRANGER,
        Text::Nonsense => b"nonsense\r\n\r\n",
        Text::FirstKept => FIRST_KEPT,
        Text::SecondKept => SECOND_KEPT,
        Text::FirstClosed => FIRST_CLOSED,
        Text::SecondClosed => SECOND_CLOSED,
        Text::ErrorKept => ERROR_KEPT,
        Text::AcceptedKept => ACCEPTED_KEPT,
        Text::BadRequest => BAD_REQUEST,
        Text::Unavailable => UNAVAILABLE,
    }
}

/// A P-Mode, by which seller acme sends invoices to buyer bolt.
pub(crate) const MODES: &[u8] = b"[[mode]]
name = \"invoice\"
from = { role = \"seller\", party = [ { id = \"acme\" } ] }
to = { role = \"buyer\", party = [ { id = \"bolt\" } ] }
service = \"orders\"
action = \"invoice\"
push = \"http://127.0.0.1:9080/as4\"
retries = 10
period = 3000
";

/// The invoice `m1@a` with the payload `hello`, without a `Connection` field.
pub(crate) const INVOICE: &[u8] =
    b"POST /as4 HTTP/1.1\r\nHost: bolt\r\nContent-Type: multipart/related; type=\"application/soap+xml\"; boundary=\"b\"; start=\"<r@a>\"\r\nContent-Length: 966\r\n\r\n--b\r\nContent-ID: <r@a>\r\nContent-Type: application/soap+xml; charset=UTF-8\r\n\r\n<S:Envelope xmlns:S=\"http://www.w3.org/2003/05/soap-envelope\" xmlns:eb=\"http://docs.oasis-open.org/ebxml-msg/ebms/v3.0/ns/core/200704/\"><S:Header><eb:Messaging S:mustUnderstand=\"true\"><eb:UserMessage><eb:MessageInfo><eb:Timestamp>2025-01-02T03:04:05.006Z</eb:Timestamp><eb:MessageId>m1@a</eb:MessageId></eb:MessageInfo><eb:PartyInfo><eb:From><eb:PartyId>acme</eb:PartyId><eb:Role>seller</eb:Role></eb:From><eb:To><eb:PartyId>bolt</eb:PartyId><eb:Role>buyer</eb:Role></eb:To></eb:PartyInfo><eb:CollaborationInfo><eb:Service>orders</eb:Service><eb:Action>invoice</eb:Action><eb:ConversationId>c1</eb:ConversationId></eb:CollaborationInfo><eb:PayloadInfo><eb:PartInfo href=\"cid:p1@a\"></eb:PartInfo></eb:PayloadInfo></eb:UserMessage></eb:Messaging></S:Header><S:Body></S:Body></S:Envelope>\r\n--b\r\nContent-ID: <p1@a>\r\nContent-Type: text/plain\r\nContent-Transfer-Encoding: binary\r\n\r\nhello\r\n--b--\r\n";

/// The invoice, with `Connection: close`.
pub(crate) const CLOSING: &[u8] =
    b"POST /as4 HTTP/1.1\r\nHost: bolt\r\nContent-Type: multipart/related; type=\"application/soap+xml\"; boundary=\"b\"; start=\"<r@a>\"\r\nContent-Length: 966\r\nConnection: close\r\n\r\n--b\r\nContent-ID: <r@a>\r\nContent-Type: application/soap+xml; charset=UTF-8\r\n\r\n<S:Envelope xmlns:S=\"http://www.w3.org/2003/05/soap-envelope\" xmlns:eb=\"http://docs.oasis-open.org/ebxml-msg/ebms/v3.0/ns/core/200704/\"><S:Header><eb:Messaging S:mustUnderstand=\"true\"><eb:UserMessage><eb:MessageInfo><eb:Timestamp>2025-01-02T03:04:05.006Z</eb:Timestamp><eb:MessageId>m1@a</eb:MessageId></eb:MessageInfo><eb:PartyInfo><eb:From><eb:PartyId>acme</eb:PartyId><eb:Role>seller</eb:Role></eb:From><eb:To><eb:PartyId>bolt</eb:PartyId><eb:Role>buyer</eb:Role></eb:To></eb:PartyInfo><eb:CollaborationInfo><eb:Service>orders</eb:Service><eb:Action>invoice</eb:Action><eb:ConversationId>c1</eb:ConversationId></eb:CollaborationInfo><eb:PayloadInfo><eb:PartInfo href=\"cid:p1@a\"></eb:PartInfo></eb:PayloadInfo></eb:UserMessage></eb:Messaging></S:Header><S:Body></S:Body></S:Envelope>\r\n--b\r\nContent-ID: <p1@a>\r\nContent-Type: text/plain\r\nContent-Transfer-Encoding: binary\r\n\r\nhello\r\n--b--\r\n";

/// The receipt of the invoice, of moment 0 and nonce 1. The connection is kept.
pub(crate) const FIRST_KEPT: &[u8] =
    b"HTTP/1.1 200 OK\r\nContent-Type: application/soap+xml; charset=UTF-8\r\nContent-Length: 1047\r\nConnection: keep-alive\r\n\r\n<S:Envelope xmlns:S=\"http://www.w3.org/2003/05/soap-envelope\" xmlns:eb=\"http://docs.oasis-open.org/ebxml-msg/ebms/v3.0/ns/core/200704/\"><S:Header><eb:Messaging S:mustUnderstand=\"true\"><eb:SignalMessage><eb:MessageInfo><eb:Timestamp>1970-01-01T00:00:00.000Z</eb:Timestamp><eb:MessageId>s.00000000-0000-0000-0000-000000000001@as4</eb:MessageId><eb:RefToMessageId>m1@a</eb:RefToMessageId></eb:MessageInfo><eb:Receipt><eb:UserMessage><eb:MessageInfo><eb:Timestamp>2025-01-02T03:04:05.006Z</eb:Timestamp><eb:MessageId>m1@a</eb:MessageId></eb:MessageInfo><eb:PartyInfo><eb:From><eb:PartyId>acme</eb:PartyId><eb:Role>seller</eb:Role></eb:From><eb:To><eb:PartyId>bolt</eb:PartyId><eb:Role>buyer</eb:Role></eb:To></eb:PartyInfo><eb:CollaborationInfo><eb:Service>orders</eb:Service><eb:Action>invoice</eb:Action><eb:ConversationId>c1</eb:ConversationId></eb:CollaborationInfo><eb:PayloadInfo><eb:PartInfo href=\"cid:p1@a\"></eb:PartInfo></eb:PayloadInfo></eb:UserMessage></eb:Receipt></eb:SignalMessage></eb:Messaging></S:Header><S:Body></S:Body></S:Envelope>";

/// The receipt of the invoice, of moment 0 and nonce 2. The connection is kept.
pub(crate) const SECOND_KEPT: &[u8] =
    b"HTTP/1.1 200 OK\r\nContent-Type: application/soap+xml; charset=UTF-8\r\nContent-Length: 1047\r\nConnection: keep-alive\r\n\r\n<S:Envelope xmlns:S=\"http://www.w3.org/2003/05/soap-envelope\" xmlns:eb=\"http://docs.oasis-open.org/ebxml-msg/ebms/v3.0/ns/core/200704/\"><S:Header><eb:Messaging S:mustUnderstand=\"true\"><eb:SignalMessage><eb:MessageInfo><eb:Timestamp>1970-01-01T00:00:00.000Z</eb:Timestamp><eb:MessageId>s.00000000-0000-0000-0000-000000000002@as4</eb:MessageId><eb:RefToMessageId>m1@a</eb:RefToMessageId></eb:MessageInfo><eb:Receipt><eb:UserMessage><eb:MessageInfo><eb:Timestamp>2025-01-02T03:04:05.006Z</eb:Timestamp><eb:MessageId>m1@a</eb:MessageId></eb:MessageInfo><eb:PartyInfo><eb:From><eb:PartyId>acme</eb:PartyId><eb:Role>seller</eb:Role></eb:From><eb:To><eb:PartyId>bolt</eb:PartyId><eb:Role>buyer</eb:Role></eb:To></eb:PartyInfo><eb:CollaborationInfo><eb:Service>orders</eb:Service><eb:Action>invoice</eb:Action><eb:ConversationId>c1</eb:ConversationId></eb:CollaborationInfo><eb:PayloadInfo><eb:PartInfo href=\"cid:p1@a\"></eb:PartInfo></eb:PayloadInfo></eb:UserMessage></eb:Receipt></eb:SignalMessage></eb:Messaging></S:Header><S:Body></S:Body></S:Envelope>";

/// The receipt of the invoice, of moment 0 and nonce 1. The connection closes.
pub(crate) const FIRST_CLOSED: &[u8] =
    b"HTTP/1.1 200 OK\r\nContent-Type: application/soap+xml; charset=UTF-8\r\nContent-Length: 1047\r\nConnection: close\r\n\r\n<S:Envelope xmlns:S=\"http://www.w3.org/2003/05/soap-envelope\" xmlns:eb=\"http://docs.oasis-open.org/ebxml-msg/ebms/v3.0/ns/core/200704/\"><S:Header><eb:Messaging S:mustUnderstand=\"true\"><eb:SignalMessage><eb:MessageInfo><eb:Timestamp>1970-01-01T00:00:00.000Z</eb:Timestamp><eb:MessageId>s.00000000-0000-0000-0000-000000000001@as4</eb:MessageId><eb:RefToMessageId>m1@a</eb:RefToMessageId></eb:MessageInfo><eb:Receipt><eb:UserMessage><eb:MessageInfo><eb:Timestamp>2025-01-02T03:04:05.006Z</eb:Timestamp><eb:MessageId>m1@a</eb:MessageId></eb:MessageInfo><eb:PartyInfo><eb:From><eb:PartyId>acme</eb:PartyId><eb:Role>seller</eb:Role></eb:From><eb:To><eb:PartyId>bolt</eb:PartyId><eb:Role>buyer</eb:Role></eb:To></eb:PartyInfo><eb:CollaborationInfo><eb:Service>orders</eb:Service><eb:Action>invoice</eb:Action><eb:ConversationId>c1</eb:ConversationId></eb:CollaborationInfo><eb:PayloadInfo><eb:PartInfo href=\"cid:p1@a\"></eb:PartInfo></eb:PayloadInfo></eb:UserMessage></eb:Receipt></eb:SignalMessage></eb:Messaging></S:Header><S:Body></S:Body></S:Envelope>";

/// The receipt of the invoice, of moment 0 and nonce 2. The connection closes.
pub(crate) const SECOND_CLOSED: &[u8] =
    b"HTTP/1.1 200 OK\r\nContent-Type: application/soap+xml; charset=UTF-8\r\nContent-Length: 1047\r\nConnection: close\r\n\r\n<S:Envelope xmlns:S=\"http://www.w3.org/2003/05/soap-envelope\" xmlns:eb=\"http://docs.oasis-open.org/ebxml-msg/ebms/v3.0/ns/core/200704/\"><S:Header><eb:Messaging S:mustUnderstand=\"true\"><eb:SignalMessage><eb:MessageInfo><eb:Timestamp>1970-01-01T00:00:00.000Z</eb:Timestamp><eb:MessageId>s.00000000-0000-0000-0000-000000000002@as4</eb:MessageId><eb:RefToMessageId>m1@a</eb:RefToMessageId></eb:MessageInfo><eb:Receipt><eb:UserMessage><eb:MessageInfo><eb:Timestamp>2025-01-02T03:04:05.006Z</eb:Timestamp><eb:MessageId>m1@a</eb:MessageId></eb:MessageInfo><eb:PartyInfo><eb:From><eb:PartyId>acme</eb:PartyId><eb:Role>seller</eb:Role></eb:From><eb:To><eb:PartyId>bolt</eb:PartyId><eb:Role>buyer</eb:Role></eb:To></eb:PartyInfo><eb:CollaborationInfo><eb:Service>orders</eb:Service><eb:Action>invoice</eb:Action><eb:ConversationId>c1</eb:ConversationId></eb:CollaborationInfo><eb:PayloadInfo><eb:PartInfo href=\"cid:p1@a\"></eb:PartInfo></eb:PayloadInfo></eb:UserMessage></eb:Receipt></eb:SignalMessage></eb:Messaging></S:Header><S:Body></S:Body></S:Envelope>";

/// A request whose media text is none of a message.
pub(crate) const NO_MESSAGE: &[u8] =
    b"POST /as4 HTTP/1.1\r\nHost: bolt\r\nContent-Type: text/xml\r\nContent-Length: 4\r\n\r\n<a/>";

/// The error signal that the message is no package, of moment 0 and nonce 1. The connection is kept.
pub(crate) const ERROR_KEPT: &[u8] =
    b"HTTP/1.1 200 OK\r\nContent-Type: application/soap+xml; charset=UTF-8\r\nContent-Length: 556\r\nConnection: keep-alive\r\n\r\n<S:Envelope xmlns:S=\"http://www.w3.org/2003/05/soap-envelope\" xmlns:eb=\"http://docs.oasis-open.org/ebxml-msg/ebms/v3.0/ns/core/200704/\"><S:Header><eb:Messaging S:mustUnderstand=\"true\"><eb:SignalMessage><eb:MessageInfo><eb:Timestamp>1970-01-01T00:00:00.000Z</eb:Timestamp><eb:MessageId>s.00000000-0000-0000-0000-000000000001@as4</eb:MessageId></eb:MessageInfo><eb:Error errorCode=\"EBMS:0007\" severity=\"failure\" category=\"Unpackaging\" shortDescription=\"MimeInconsistency\"></eb:Error></eb:SignalMessage></eb:Messaging></S:Header><S:Body></S:Body></S:Envelope>";

/// An error signal with a failure of a message that wasn't submitted.
pub(crate) const FAILURE: &[u8] =
    b"POST /as4 HTTP/1.1\r\nHost: acme\r\nContent-Type: application/soap+xml\r\nContent-Length: 587\r\n\r\n<S:Envelope xmlns:S=\"http://www.w3.org/2003/05/soap-envelope\" xmlns:eb=\"http://docs.oasis-open.org/ebxml-msg/ebms/v3.0/ns/core/200704/\"><S:Header><eb:Messaging S:mustUnderstand=\"true\"><eb:SignalMessage><eb:MessageInfo><eb:Timestamp>2025-01-02T03:04:05.006Z</eb:Timestamp><eb:MessageId>s1@b</eb:MessageId></eb:MessageInfo><eb:Error errorCode=\"EBMS:0010\" severity=\"failure\" category=\"Processing\" shortDescription=\"ProcessingModeMismatch\" refToMessageInError=\"1.00000000-0000-0000-0000-000000000001@as4\"></eb:Error></eb:SignalMessage></eb:Messaging></S:Header><S:Body></S:Body></S:Envelope>";

/// The response where a message gets no answer. The connection is kept.
pub(crate) const ACCEPTED_KEPT: &[u8] =
    b"HTTP/1.1 202 Accepted\r\nContent-Length: 0\r\nConnection: keep-alive\r\n\r\n";

/// A request that isn't one of the peer's door.
pub(crate) const STRANGER: &[u8] = b"GET /as4 HTTP/1.1\r\nHost: bolt\r\n\r\n";

/// A submission without a payload.
pub(crate) const SUBMISSION: &[u8] =
    b"POST /submit/invoice/c1 HTTP/1.1\r\nHost: localhost\r\nContent-Length: 0\r\n\r\n";

/// The response 400.
pub(crate) const BAD_REQUEST: &[u8] =
    b"HTTP/1.1 400 Bad Request\r\nContent-Length: 0\r\nConnection: close\r\n\r\n";

/// The response 503.
pub(crate) const UNAVAILABLE: &[u8] =
    b"HTTP/1.1 503 Service Unavailable\r\nContent-Length: 0\r\nConnection: close\r\n\r\n";
