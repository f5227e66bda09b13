//! Requests and responses, byte for byte.

/// Two P-Modes, by which seller acme sends to buyer bolt: invoices, with ten retries; and what is sent once.
pub(crate) const MODES: &[u8] = b"[[mode]]
name = \"invoice\"
from = { role = \"seller\", party = [ { id = \"acme\" } ] }
to = { role = \"buyer\", party = [ { id = \"bolt\" } ] }
service = \"orders\"
action = \"invoice\"
push = \"http://127.0.0.1:9080/as4\"
retries = 10
period = 3000

[[mode]]
name = \"once\"
from = { role = \"seller\", party = [ { id = \"acme\" } ] }
to = { role = \"buyer\", party = [ { id = \"bolt\" } ] }
service = \"orders\"
action = \"once\"
push = \"http://127.0.0.1:9080/as4\"
retries = 0
period = 1000
";

/// The invoice `m1@a` with the payload `hello`, with its length.
pub(crate) const COUNTED: &[u8] =
    b"POST /as4 HTTP/1.1\r\nHost: bolt\r\nContent-Type: multipart/related; type=\"application/soap+xml\"; boundary=\"b\"; start=\"<r@a>\"\r\nContent-Length: 966\r\n\r\n--b\r\nContent-ID: <r@a>\r\nContent-Type: application/soap+xml; charset=UTF-8\r\n\r\n<S:Envelope xmlns:S=\"http://www.w3.org/2003/05/soap-envelope\" xmlns:eb=\"http://docs.oasis-open.org/ebxml-msg/ebms/v3.0/ns/core/200704/\"><S:Header><eb:Messaging S:mustUnderstand=\"true\"><eb:UserMessage><eb:MessageInfo><eb:Timestamp>2025-01-02T03:04:05.006Z</eb:Timestamp><eb:MessageId>m1@a</eb:MessageId></eb:MessageInfo><eb:PartyInfo><eb:From><eb:PartyId>acme</eb:PartyId><eb:Role>seller</eb:Role></eb:From><eb:To><eb:PartyId>bolt</eb:PartyId><eb:Role>buyer</eb:Role></eb:To></eb:PartyInfo><eb:CollaborationInfo><eb:Service>orders</eb:Service><eb:Action>invoice</eb:Action><eb:ConversationId>c1</eb:ConversationId></eb:CollaborationInfo><eb:PayloadInfo><eb:PartInfo href=\"cid:p1@a\"></eb:PartInfo></eb:PayloadInfo></eb:UserMessage></eb:Messaging></S:Header><S:Body></S:Body></S:Envelope>\r\n--b\r\nContent-ID: <p1@a>\r\nContent-Type: text/plain\r\nContent-Transfer-Encoding: binary\r\n\r\nhello\r\n--b--\r\n";

/// The same in two chunks, with a chunk extension and a trailer.
pub(crate) const CHUNKED: &[u8] =
    b"POST /as4 HTTP/1.1\r\nHost: bolt\r\nContent-Type: multipart/related; type=\"application/soap+xml\"; boundary=\"b\"; start=\"<r@a>\"\r\nTransfer-Encoding: chunked\r\n\r\n2bc\r\n--b\r\nContent-ID: <r@a>\r\nContent-Type: application/soap+xml; charset=UTF-8\r\n\r\n<S:Envelope xmlns:S=\"http://www.w3.org/2003/05/soap-envelope\" xmlns:eb=\"http://docs.oasis-open.org/ebxml-msg/ebms/v3.0/ns/core/200704/\"><S:Header><eb:Messaging S:mustUnderstand=\"true\"><eb:UserMessage><eb:MessageInfo><eb:Timestamp>2025-01-02T03:04:05.006Z</eb:Timestamp><eb:MessageId>m1@a</eb:MessageId></eb:MessageInfo><eb:PartyInfo><eb:From><eb:PartyId>acme</eb:PartyId><eb:Role>seller</eb:Role></eb:From><eb:To><eb:PartyId>bolt</eb:PartyId><eb:Role>buyer</eb:Role></eb:To></eb:PartyInfo><eb:CollaborationInfo><eb:Service>orders</eb:Service><eb:Action>invoice</eb:Action><eb:ConversationId>c1</eb:ConversationId></eb:Colla\r\n10A;x=y\r\nborationInfo><eb:PayloadInfo><eb:PartInfo href=\"cid:p1@a\"></eb:PartInfo></eb:PayloadInfo></eb:UserMessage></eb:Messaging></S:Header><S:Body></S:Body></S:Envelope>\r\n--b\r\nContent-ID: <p1@a>\r\nContent-Type: text/plain\r\nContent-Transfer-Encoding: binary\r\n\r\nhello\r\n--b--\r\n\r\n0\r\nX: y\r\n\r\n";

/// The receipt of the invoice, of moment 0 and nonce 1.
pub(crate) const RECEIPT: &[u8] =
    b"HTTP/1.1 200 OK\r\nContent-Type: application/soap+xml; charset=UTF-8\r\nContent-Length: 1047\r\nConnection: close\r\n\r\n<S:Envelope xmlns:S=\"http://www.w3.org/2003/05/soap-envelope\" xmlns:eb=\"http://docs.oasis-open.org/ebxml-msg/ebms/v3.0/ns/core/200704/\"><S:Header><eb:Messaging S:mustUnderstand=\"true\"><eb:SignalMessage><eb:MessageInfo><eb:Timestamp>1970-01-01T00:00:00.000Z</eb:Timestamp><eb:MessageId>s.00000000-0000-0000-0000-000000000001@as4</eb:MessageId><eb:RefToMessageId>m1@a</eb:RefToMessageId></eb:MessageInfo><eb:Receipt><eb:UserMessage><eb:MessageInfo><eb:Timestamp>2025-01-02T03:04:05.006Z</eb:Timestamp><eb:MessageId>m1@a</eb:MessageId></eb:MessageInfo><eb:PartyInfo><eb:From><eb:PartyId>acme</eb:PartyId><eb:Role>seller</eb:Role></eb:From><eb:To><eb:PartyId>bolt</eb:PartyId><eb:Role>buyer</eb:Role></eb:To></eb:PartyInfo><eb:CollaborationInfo><eb:Service>orders</eb:Service><eb:Action>invoice</eb:Action><eb:ConversationId>c1</eb:ConversationId></eb:CollaborationInfo><eb:PayloadInfo><eb:PartInfo href=\"cid:p1@a\"></eb:PartInfo></eb:PayloadInfo></eb:UserMessage></eb:Receipt></eb:SignalMessage></eb:Messaging></S:Header><S:Body></S:Body></S:Envelope>";

/// A request whose media text is none of a message.
pub(crate) const NO_MESSAGE: &[u8] =
    b"POST /as4 HTTP/1.1\r\nHost: bolt\r\nContent-Type: text/xml\r\nContent-Length: 4\r\n\r\n<a/>";

/// The error signal that the message is no package, of moment 0 and nonce 1.
pub(crate) const ERROR_7: &[u8] =
    b"HTTP/1.1 200 OK\r\nContent-Type: application/soap+xml; charset=UTF-8\r\nContent-Length: 556\r\nConnection: close\r\n\r\n<S:Envelope xmlns:S=\"http://www.w3.org/2003/05/soap-envelope\" xmlns:eb=\"http://docs.oasis-open.org/ebxml-msg/ebms/v3.0/ns/core/200704/\"><S:Header><eb:Messaging S:mustUnderstand=\"true\"><eb:SignalMessage><eb:MessageInfo><eb:Timestamp>1970-01-01T00:00:00.000Z</eb:Timestamp><eb:MessageId>s.00000000-0000-0000-0000-000000000001@as4</eb:MessageId></eb:MessageInfo><eb:Error errorCode=\"EBMS:0007\" severity=\"failure\" category=\"Unpackaging\" shortDescription=\"MimeInconsistency\"></eb:Error></eb:SignalMessage></eb:Messaging></S:Header><S:Body></S:Body></S:Envelope>";

/// The invoice as a response.
pub(crate) const PACKAGE: &[u8] =
    b"HTTP/1.1 200 OK\r\nContent-Type: multipart/related; type=\"application/soap+xml\"; boundary=\"as4-0000000000000000\"; start=\"<root-0000000000000000@as4>\"\r\nContent-Length: 1080\r\nConnection: close\r\n\r\n--as4-0000000000000000\r\nContent-ID: <root-0000000000000000@as4>\r\nContent-Type: application/soap+xml; charset=UTF-8\r\nContent-Transfer-Encoding: binary\r\n\r\n<S:Envelope xmlns:S=\"http://www.w3.org/2003/05/soap-envelope\" xmlns:eb=\"http://docs.oasis-open.org/ebxml-msg/ebms/v3.0/ns/core/200704/\"><S:Header><eb:Messaging S:mustUnderstand=\"true\"><eb:UserMessage><eb:MessageInfo><eb:Timestamp>2025-01-02T03:04:05.006Z</eb:Timestamp><eb:MessageId>m1@a</eb:MessageId></eb:MessageInfo><eb:PartyInfo><eb:From><eb:PartyId>acme</eb:PartyId><eb:Role>seller</eb:Role></eb:From><eb:To><eb:PartyId>bolt</eb:PartyId><eb:Role>buyer</eb:Role></eb:To></eb:PartyInfo><eb:CollaborationInfo><eb:Service>orders</eb:Service><eb:Action>invoice</eb:Action><eb:ConversationId>c1</eb:ConversationId></eb:CollaborationInfo><eb:PayloadInfo><eb:PartInfo href=\"cid:p1@a\"></eb:PartInfo></eb:PayloadInfo></eb:UserMessage></eb:Messaging></S:Header><S:Body></S:Body></S:Envelope>\r\n--as4-0000000000000000\r\nContent-ID: <p1@a>\r\nContent-Type: text/plain\r\nContent-Transfer-Encoding: binary\r\n\r\nhello\r\n--as4-0000000000000000--\r\n";

/// The fixed response 400.
pub(crate) const BAD_REQUEST: &[u8] =
    b"HTTP/1.1 400 Bad Request\r\nContent-Length: 0\r\nConnection: close\r\n\r\n";

/// The fixed response 413.
pub(crate) const TOO_LARGE: &[u8] =
    b"HTTP/1.1 413 Content Too Large\r\nContent-Length: 0\r\nConnection: close\r\n\r\n";

/// The fixed response 503.
pub(crate) const UNAVAILABLE: &[u8] =
    b"HTTP/1.1 503 Service Unavailable\r\nContent-Length: 0\r\nConnection: close\r\n\r\n";

/// A receipt for submission 0, without a copy of its header.
pub(crate) const RECEIPT_OF_0: &[u8] =
    b"POST /as4 HTTP/1.1\r\nHost: acme\r\nContent-Type: application/soap+xml\r\nContent-Length: 502\r\n\r\n<S:Envelope xmlns:S=\"http://www.w3.org/2003/05/soap-envelope\" xmlns:eb=\"http://docs.oasis-open.org/ebxml-msg/ebms/v3.0/ns/core/200704/\"><S:Header><eb:Messaging S:mustUnderstand=\"true\"><eb:SignalMessage><eb:MessageInfo><eb:Timestamp>2025-01-02T03:04:05.006Z</eb:Timestamp><eb:MessageId>s1@b</eb:MessageId><eb:RefToMessageId>0.00000000-0000-0000-0000-000000000001@as4</eb:RefToMessageId></eb:MessageInfo><eb:Receipt></eb:Receipt></eb:SignalMessage></eb:Messaging></S:Header><S:Body></S:Body></S:Envelope>";

/// An error signal with a failure of submission 1.
pub(crate) const FAILURE_OF_1: &[u8] =
    b"POST /as4 HTTP/1.1\r\nHost: acme\r\nContent-Type: application/soap+xml\r\nContent-Length: 587\r\n\r\n<S:Envelope xmlns:S=\"http://www.w3.org/2003/05/soap-envelope\" xmlns:eb=\"http://docs.oasis-open.org/ebxml-msg/ebms/v3.0/ns/core/200704/\"><S:Header><eb:Messaging S:mustUnderstand=\"true\"><eb:SignalMessage><eb:MessageInfo><eb:Timestamp>2025-01-02T03:04:05.006Z</eb:Timestamp><eb:MessageId>s1@b</eb:MessageId></eb:MessageInfo><eb:Error errorCode=\"EBMS:0010\" severity=\"failure\" category=\"Processing\" shortDescription=\"ProcessingModeMismatch\" refToMessageInError=\"1.00000000-0000-0000-0000-000000000001@as4\"></eb:Error></eb:SignalMessage></eb:Messaging></S:Header><S:Body></S:Body></S:Envelope>";

/// The response where a message gets no answer.
pub(crate) const ACCEPTED: &[u8] =
    b"HTTP/1.1 202 Accepted\r\nContent-Length: 0\r\nConnection: close\r\n\r\n";

/// A submission whose media text has 1,025 bytes.
pub(crate) const LONG_MEDIA: &[u8] =
    b"POST /submit/invoice/c1 HTTP/1.1\r\nHost: localhost\r\nContent-Type: xxxxxxxxxxxxxxxxxxxxxxxxxxxxxxxxxxxxxxxxxxxxxxxxxxxxxxxxxxxxxxxxxxxxxxxxxxxxxxxxxxxxxxxxxxxxxxxxxxxxxxxxxxxxxxxxxxxxxxxxxxxxxxxxxxxxxxxxxxxxxxxxxxxxxxxxxxxxxxxxxxxxxxxxxxxxxxxxxxxxxxxxxxxxxxxxxxxxxxxxxxxxxxxxxxxxxxxxxxxxxxxxxxxxxxxxxxxxxxxxxxxxxxxxxxxxxxxxxxxxxxxxxxxxxxxxxxxxxxxxxxxxxxxxxxxxxxxxxxxxxxxxxxxxxxxxxxxxxxxxxxxxxxxxxxxxxxxxxxxxxxxxxxxxxxxxxxxxxxxxxxxxxxxxxxxxxxxxxxxxxxxxxxxxxxxxxxxxxxxxxxxxxxxxxxxxxxxxxxxxxxxxxxxxxxxxxxxxxxxxxxxxxxxxxxxxxxxxxxxxxxxxxxxxxxxxxxxxxxxxxxxxxxxxxxxxxxxxxxxxxxxxxxxxxxxxxxxxxxxxxxxxxxxxxxxxxxxxxxxxxxxxxxxxxxxxxxxxxxxxxxxxxxxxxxxxxxxxxxxxxxxxxxxxxxxxxxxxxxxxxxxxxxxxxxxxxxxxxxxxxxxxxxxxxxxxxxxxxxxxxxxxxxxxxxxxxxxxxxxxxxxxxxxxxxxxxxxxxxxxxxxxxxxxxxxxxxxxxxxxxxxxxxxxxxxxxxxxxxxxxxxxxxxxxxxxxxxxxxxxxxxxxxxxxxxxxxxxxxxxxxxxxxxxxxxxxxxxxxxxxxxxxxxxxxxxxxxxxxxxxxxxxxxxxxxxxxxxxxxxxxxxxxxxxxxxxxxxxxxxxxxxxxxxxxxxxxxxxxxxxxxxxxxxxxxxxxxxxxxxxxxxxxxxxxxxxxxxxxxxxxxxxxxxxxxxxxxxxxxxxxxxxxxxxxxxxxxxxxxxxxxxxxxxxxxxxxxxxxxxxxxxxxxxxxxxxxxxxxxxxxxxxxxxxxxxxxxxxxxxxxxxxxxxxxxxxxxxxxxxxxxxx\r\nContent-Length: 0\r\n\r\n";

/// A message with both framings.
pub(crate) const BOTH_FRAMINGS: &[u8] =
    b"POST /as4 HTTP/1.1\r\nHost: bolt\r\nContent-Length: 4\r\nTransfer-Encoding: chunked\r\n\r\n";

/// A message whose body has 67,108,865 bytes.
pub(crate) const COUNTED_OVER: &[u8] =
    b"POST /as4 HTTP/1.1\r\nHost: bolt\r\nContent-Length: 67108865\r\n\r\n";

/// A message whose body has 67,108,864 bytes.
pub(crate) const COUNTED_TO: &[u8] =
    b"POST /as4 HTTP/1.1\r\nHost: bolt\r\nContent-Length: 67108864\r\n\r\n";

/// A message whose first chunk has 67,108,865 bytes.
pub(crate) const CHUNKED_OVER: &[u8] =
    b"POST /as4 HTTP/1.1\r\nHost: bolt\r\nTransfer-Encoding: chunked\r\n\r\n4000001\r\n";

/// A request for the first message of the inbox.
pub(crate) const GET_0: &[u8] = b"GET /inbox/0 HTTP/1.1\r\nHost: localhost\r\n\r\n";

/// The response where the inbox has no such message.
pub(crate) const NO_ENTRY: &[u8] =
    b"HTTP/1.1 404 Not Found\r\nContent-Type: text/plain\r\nContent-Length: 9\r\nConnection: close\r\n\r\nno entry\n";
