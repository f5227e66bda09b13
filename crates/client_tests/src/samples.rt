//! Responses, requests and message files, byte for byte.

/// A response, a request or a file of a test.
#[derive(Clone, Copy)]
pub(crate) enum Sample {
    Nothing,
    Message,
    MessageFile,
    Bare,
    BareFile,
    Confirmed,
    NoEntry,
    Gone,
    Unavailable,
    NoResponse,
    Cut,
    Fetch0,
    Confirm0,
    Fetch1,
    Submitted,
    NoMode,
    Submit,
    SubmitEscaped,
}

impl Sample {
    pub(crate) fn bytes(self) -> &'static [u8] {
        match self {
            Sample::Nothing => b"",
            Sample::Message => MESSAGE,
            Sample::MessageFile => MESSAGE_FILE,
            Sample::Bare => BARE,
            Sample::BareFile => BARE_FILE,
            Sample::Confirmed => CONFIRMED,
            Sample::NoEntry => NO_ENTRY,
            Sample::Gone => GONE,
            Sample::Unavailable => UNAVAILABLE,
            Sample::NoResponse => NO_RESPONSE,
            Sample::Cut => CUT,
            Sample::Fetch0 => FETCH_0,
            Sample::Confirm0 => CONFIRM_0,
            Sample::Fetch1 => FETCH_1,
            Sample::Submitted => SUBMITTED,
            Sample::NoMode => NO_MODE,
            Sample::Submit => SUBMIT,
            Sample::SubmitEscaped => SUBMIT_ESCAPED,
        }
    }
}

/// A response with a user message that has the content `hello`.
const MESSAGE: &[u8] =
    b"HTTP/1.1 200 OK\r\nContent-Type: multipart/related; type=\"application/soap+xml\"; boundary=\"as4-0000000000000000\"; start=\"<root-0000000000000000@as4>\"\r\nContent-Length: 1080\r\nConnection: close\r\n\r\n--as4-0000000000000000\r\nContent-ID: <root-0000000000000000@as4>\r\nContent-Type: application/soap+xml; charset=UTF-8\r\nContent-Transfer-Encoding: binary\r\n\r\n<S:Envelope xmlns:S=\"http://www.w3.org/2003/05/soap-envelope\" xmlns:eb=\"http://docs.oasis-open.org/ebxml-msg/ebms/v3.0/ns/core/200704/\"><S:Header><eb:Messaging S:mustUnderstand=\"true\"><eb:UserMessage><eb:MessageInfo><eb:Timestamp>2025-01-02T03:04:05.006Z</eb:Timestamp><eb:MessageId>m1@a</eb:MessageId></eb:MessageInfo><eb:PartyInfo><eb:From><eb:PartyId>acme</eb:PartyId><eb:Role>seller</eb:Role></eb:From><eb:To><eb:PartyId>bolt</eb:PartyId><eb:Role>buyer</eb:Role></eb:To></eb:PartyInfo><eb:CollaborationInfo><eb:Service>orders</eb:Service><eb:Action>invoice</eb:Action><eb:ConversationId>c1</eb:ConversationId></eb:CollaborationInfo><eb:PayloadInfo><eb:PartInfo href=\"cid:p1@a\"></eb:PartInfo></eb:PayloadInfo></eb:UserMessage></eb:Messaging></S:Header><S:Body></S:Body></S:Envelope>\r\n--as4-0000000000000000\r\nContent-ID: <p1@a>\r\nContent-Type: text/plain\r\nContent-Transfer-Encoding: binary\r\n\r\nhello\r\n--as4-0000000000000000--\r\n";

/// Its message file.
const MESSAGE_FILE: &[u8] =
    b"Content-Type: multipart/related; type=\"application/soap+xml\"; boundary=\"as4-0000000000000000\"; start=\"<root-0000000000000000@as4>\"\r\n\r\n--as4-0000000000000000\r\nContent-ID: <root-0000000000000000@as4>\r\nContent-Type: application/soap+xml; charset=UTF-8\r\nContent-Transfer-Encoding: binary\r\n\r\n<S:Envelope xmlns:S=\"http://www.w3.org/2003/05/soap-envelope\" xmlns:eb=\"http://docs.oasis-open.org/ebxml-msg/ebms/v3.0/ns/core/200704/\"><S:Header><eb:Messaging S:mustUnderstand=\"true\"><eb:UserMessage><eb:MessageInfo><eb:Timestamp>2025-01-02T03:04:05.006Z</eb:Timestamp><eb:MessageId>m1@a</eb:MessageId></eb:MessageInfo><eb:PartyInfo><eb:From><eb:PartyId>acme</eb:PartyId><eb:Role>seller</eb:Role></eb:From><eb:To><eb:PartyId>bolt</eb:PartyId><eb:Role>buyer</eb:Role></eb:To></eb:PartyInfo><eb:CollaborationInfo><eb:Service>orders</eb:Service><eb:Action>invoice</eb:Action><eb:ConversationId>c1</eb:ConversationId></eb:CollaborationInfo><eb:PayloadInfo><eb:PartInfo href=\"cid:p1@a\"></eb:PartInfo></eb:PayloadInfo></eb:UserMessage></eb:Messaging></S:Header><S:Body></S:Body></S:Envelope>\r\n--as4-0000000000000000\r\nContent-ID: <p1@a>\r\nContent-Type: text/plain\r\nContent-Transfer-Encoding: binary\r\n\r\nhello\r\n--as4-0000000000000000--\r\n";

/// The response to a submission.
const SUBMITTED: &[u8] =
    b"HTTP/1.1 200 OK\r\nContent-Type: text/plain\r\nContent-Length: 45\r\nConnection: close\r\n\r\n0 0.00000000-0000-0000-0000-000000000001@as4\n";

/// The response to a submission by a mode that there is none of.
const NO_MODE: &[u8] =
    b"HTTP/1.1 404 Not Found\r\nContent-Type: text/plain\r\nContent-Length: 8\r\nConnection: close\r\n\r\nno mode\n";

/// The response to a confirmation.
const CONFIRMED: &[u8] =
    b"HTTP/1.1 200 OK\r\nContent-Type: text/plain\r\nContent-Length: 12\r\nConnection: close\r\n\r\nconfirmed 0\n";

/// The response to a number that the inbox has no entry of.
const NO_ENTRY: &[u8] =
    b"HTTP/1.1 404 Not Found\r\nContent-Type: text/plain\r\nContent-Length: 9\r\nConnection: close\r\n\r\nno entry\n";

/// The response to a number whose document is gone.
const GONE: &[u8] =
    b"HTTP/1.1 410 Gone\r\nContent-Type: text/plain\r\nContent-Length: 5\r\nConnection: close\r\n\r\ngone\n";

/// The response of a service that is unavailable.
const UNAVAILABLE: &[u8] =
    b"HTTP/1.1 503 Service Unavailable\r\nContent-Length: 0\r\nConnection: close\r\n\r\n";

/// A response with a body and without a media text.
const BARE: &[u8] = b"HTTP/1.1 200 OK\r\nContent-Length: 1\r\nConnection: close\r\n\r\nx";

/// The message file of that.
const BARE_FILE: &[u8] = b"Content-Type: \r\n\r\nx";

/// Bytes that are no response.
const NO_RESPONSE: &[u8] = b"SSH-2.0-x\r\n\r\n";

/// A response that is cut in its body.
const CUT: &[u8] = b"HTTP/1.1 200 OK\r\nContent-Length: 2\r\n\r\nx";

/// The request for entry 0, and the one that confirms it.
const FETCH_0: &[u8] =
    b"GET /inbox/0 HTTP/1.1\r\nHost: h:1\r\nContent-Length: 0\r\nConnection: close\r\n\r\n";

const CONFIRM_0: &[u8] =
    b"POST /confirm/0 HTTP/1.1\r\nHost: h:1\r\nContent-Length: 0\r\nConnection: close\r\n\r\n";

const FETCH_1: &[u8] =
    b"GET /inbox/1 HTTP/1.1\r\nHost: h:1\r\nContent-Length: 0\r\nConnection: close\r\n\r\n";

/// The request that submits `hello`.
const SUBMIT: &[u8] =
    b"POST /submit/m/c HTTP/1.1\r\nHost: h:1\r\nContent-Type: text/plain\r\nContent-Length: 5\r\nConnection: close\r\n\r\nhello";

/// The request that submits nothing, by a mode whose name needs escapes, and without a conversation and a media text.
const SUBMIT_ESCAPED: &[u8] =
    b"POST /submit/a%2Fb%20%C3%BC-._~9/ HTTP/1.1\r\nHost: h:1\r\nContent-Length: 0\r\nConnection: close\r\n\r\n";
