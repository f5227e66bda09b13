//! HTTP/1.1 messages as they are read from a source and written, in whatever pieces their bytes come (RFC 9112).
#![tactic(auto)]

mod body;
mod chunk_line;
mod chunks;
mod connection;
mod counted;
mod fields;
mod framing;
mod gathered;
mod intake;
mod limits;
mod message;
mod refusal;
mod request_head;
mod request_start;
mod requests;
mod response_head;
mod response_start;
mod responses;
mod trailers;
mod writing;

pub use intake::Intake;
pub use limits::{MAX_BODY, MAX_CHUNK_LINE, MAX_FIELDS, MAX_HEAD, MAX_PIECE, MAX_TRAILERS};
pub use message::{Method, Request, Response};
pub use refusal::HttpRefusal;
pub use requests::{one_request, request_goes_on, request_read_back};
pub use responses::{one_response, response_goes_on, response_read_back};
pub use writing::{fixed_response, write_kept, write_request, write_response};
