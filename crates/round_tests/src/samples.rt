//! P-Modes and responses, byte for byte.

/// A mode that pushes and one that pulls.
pub(crate) const MODES: &[u8] = b"[[mode]]
name = \"invoice\"
from = { role = \"seller\", party = [ { id = \"acme\" } ] }
to = { role = \"buyer\", party = [ { id = \"bolt\" } ] }
service = \"orders\"
action = \"invoice\"
push = \"http://h:1/as4\"
retries = 10
period = 3000

[[mode]]
name = \"drawer\"
from = { role = \"seller\", party = [ { id = \"acme\" } ] }
to = { role = \"buyer\", party = [ { id = \"bolt\" } ] }
service = \"orders\"
action = \"pulled\"
pull = \"box\"
address = \"http://h:2/as4\"
retries = 10
period = 3000
";

/// A response with a receipt for submission 0, without a copy of its header.
pub(crate) const RECEIPT: &[u8] =
    b"HTTP/1.1 200 OK\r\nContent-Type: application/soap+xml\r\nContent-Length: 502\r\n\r\n<S:Envelope xmlns:S=\"http://www.w3.org/2003/05/soap-envelope\" xmlns:eb=\"http://docs.oasis-open.org/ebxml-msg/ebms/v3.0/ns/core/200704/\"><S:Header><eb:Messaging S:mustUnderstand=\"true\"><eb:SignalMessage><eb:MessageInfo><eb:Timestamp>2025-01-02T03:04:05.006Z</eb:Timestamp><eb:MessageId>s1@b</eb:MessageId><eb:RefToMessageId>0.00000000-0000-0000-0000-000000000001@as4</eb:RefToMessageId></eb:MessageInfo><eb:Receipt></eb:Receipt></eb:SignalMessage></eb:Messaging></S:Header><S:Body></S:Body></S:Envelope>";

/// A response with the warning that the channel is empty.
pub(crate) const EMPTY: &[u8] =
    b"HTTP/1.1 200 OK\r\nContent-Type: application/soap+xml\r\nContent-Length: 531\r\n\r\n<S:Envelope xmlns:S=\"http://www.w3.org/2003/05/soap-envelope\" xmlns:eb=\"http://docs.oasis-open.org/ebxml-msg/ebms/v3.0/ns/core/200704/\"><S:Header><eb:Messaging S:mustUnderstand=\"true\"><eb:SignalMessage><eb:MessageInfo><eb:Timestamp>2025-01-02T03:04:05.006Z</eb:Timestamp><eb:MessageId>s1@b</eb:MessageId></eb:MessageInfo><eb:Error errorCode=\"EBMS:0006\" severity=\"warning\" category=\"Communication\" shortDescription=\"EmptyMessagePartitionChannel\"></eb:Error></eb:SignalMessage></eb:Messaging></S:Header><S:Body></S:Body></S:Envelope>";

/// A response with a user message of the mode that pulls.
pub(crate) const USER: &[u8] =
    b"HTTP/1.1 200 OK\r\nContent-Type: application/soap+xml\r\nContent-Length: 708\r\n\r\n<S:Envelope xmlns:S=\"http://www.w3.org/2003/05/soap-envelope\" xmlns:eb=\"http://docs.oasis-open.org/ebxml-msg/ebms/v3.0/ns/core/200704/\"><S:Header><eb:Messaging S:mustUnderstand=\"true\"><eb:UserMessage><eb:MessageInfo><eb:Timestamp>2025-01-02T03:04:05.006Z</eb:Timestamp><eb:MessageId>m1@a</eb:MessageId></eb:MessageInfo><eb:PartyInfo><eb:From><eb:PartyId>acme</eb:PartyId><eb:Role>seller</eb:Role></eb:From><eb:To><eb:PartyId>bolt</eb:PartyId><eb:Role>buyer</eb:Role></eb:To></eb:PartyInfo><eb:CollaborationInfo><eb:Service>orders</eb:Service><eb:Action>pulled</eb:Action><eb:ConversationId>c1</eb:ConversationId></eb:CollaborationInfo></eb:UserMessage></eb:Messaging></S:Header><S:Body></S:Body></S:Envelope>";

/// A response with a body that is no message.
pub(crate) const NO_MESSAGE: &[u8] =
    b"HTTP/1.1 200 OK\r\nContent-Type: text/plain\r\nContent-Length: 1\r\n\r\nx";

/// A response without a body.
pub(crate) const ACCEPTED: &[u8] = b"HTTP/1.1 202 Accepted\r\nContent-Length: 0\r\n\r\n";

/// The same, of a service that is unavailable.
pub(crate) const UNAVAILABLE: &[u8] =
    b"HTTP/1.1 503 Service Unavailable\r\nContent-Length: 0\r\n\r\n";

/// A request with that user message.
pub(crate) const PACKAGE: &[u8] =
    b"POST /as4 HTTP/1.1\r\nContent-Type: application/soap+xml\r\nContent-Length: 708\r\n\r\n<S:Envelope xmlns:S=\"http://www.w3.org/2003/05/soap-envelope\" xmlns:eb=\"http://docs.oasis-open.org/ebxml-msg/ebms/v3.0/ns/core/200704/\"><S:Header><eb:Messaging S:mustUnderstand=\"true\"><eb:UserMessage><eb:MessageInfo><eb:Timestamp>2025-01-02T03:04:05.006Z</eb:Timestamp><eb:MessageId>m1@a</eb:MessageId></eb:MessageInfo><eb:PartyInfo><eb:From><eb:PartyId>acme</eb:PartyId><eb:Role>seller</eb:Role></eb:From><eb:To><eb:PartyId>bolt</eb:PartyId><eb:Role>buyer</eb:Role></eb:To></eb:PartyInfo><eb:CollaborationInfo><eb:Service>orders</eb:Service><eb:Action>pulled</eb:Action><eb:ConversationId>c1</eb:ConversationId></eb:CollaborationInfo></eb:UserMessage></eb:Messaging></S:Header><S:Body></S:Body></S:Envelope>";

/// A request for the first received message.
pub(crate) const GET_0: &[u8] = b"GET /inbox/0 HTTP/1.1\r\nHost: h\r\n\r\n";

/// The identifier of the first submission, by the nonce 1.
pub(crate) const FIRST: &[u8] = b"0.00000000-0000-0000-0000-000000000001@as4";
