//! The messages: a request and a response, as far as this product reads and writes them.
use as4_values::Octets;

/// What a request asks for (RFC 9110, section 9.3).
#[derive(Clone, Copy, Debug, PartialEq, Eq)]
pub enum Method {
    Get,
    Post,
}

#[derive(Drop)]
pub struct Request {
    pub method: Method,
    /// As it was sent: nothing is decoded.
    pub target: Octets,
    /// The value of its field `Content-Type`, where it has that field.
    pub media: Option<Octets>,
    /// Its body, chunks joined.
    pub body: Octets,
}

#[derive(Drop)]
pub struct Response {
    /// From 200 to 999.
    pub status: u16,
    /// The value of its field `Content-Type`, where it has that field.
    pub media: Option<Octets>,
    /// Its body, chunks joined.
    pub body: Octets,
}
