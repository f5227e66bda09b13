//! The values of AS4 messages: lists of bytes, identifiers, texts, stamps, headers, payloads and signals.
#![tactic(auto)]

mod address;
mod code;
mod header;
mod lists;
mod media;
mod memory;
mod message;
mod message_id;
mod message_id_order;
mod moment;
mod named;
mod pairing;
mod payload;
mod plain_data;
mod plain_text;
mod route;
mod signal;
mod signal_body;
mod stamp;
mod stamp_form;
mod text;
mod word;
mod xml;

pub use address::{MAX_ADDRESS, has_address_form, is_address};
pub use code::Code;
pub use header::{Agreement, PartInfo, Party, Property, Service, Side, UserHeader};
pub use lists::{Octets, Seq};
pub use media::is_media_text;
pub use memory::NoMemory;
pub use message::{Message, Pair, Unit};
pub use message_id::{MessageId, submission_ids_differ};
pub use moment::{MAX_MOMENT, is_moment_stamp, one_stamp, stamp_text};
pub use named::{Named, all_differ, are_among};
pub use pairing::{cid_in, pairs};
pub use payload::{Load, Payload};
pub use plain_data::{PlainData, try_clone_four, try_clone_two};
pub use plain_text::is_plain_text;
pub use route::Route;
pub use signal::Signal;
pub use signal_body::{ErrorItem, Severity, SignalBody};
pub use stamp::{StampRefusal, StampText, read_stamp};
pub use text::{Text, TextRefusal, one_text};
pub use word::{IdRefusal, Word};
pub use xml::first_not_xml;
