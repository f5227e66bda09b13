//! The tables of this crate, topic by topic.
use crate::{exchange_table, header_rows, message_rows, mime_rows, play_table, xml_rows};
use conformance::{Case, Exchange, Listed, Play, Vector};
use std::array;

/// The number of rows of a topic.
const TOPIC: usize = 20;

/// The messages of `vectors`.
pub fn cases() -> [Case; 580] {
    let rows = vectors();
    array::from_fn(|k| rows[k].case)
}

/// The messages of `vectors`, to be written out.
pub fn listed() -> [Listed; 580] {
    let rows = vectors();
    array::from_fn(|k| Listed { vector: rows[k] })
}

/// Messages with their check lines: how a package is cut, how its root is read, what a header says, and how parts are paired.
pub fn vectors() -> [Vector; 580] {
    let topics = [
        mime_rows::media_of_envelopes(),
        mime_rows::media_of_packages(),
        mime_rows::boundaries(),
        mime_rows::delimiters(),
        mime_rows::fields(),
        mime_rows::parts(),
        mime_rows::roots(),
        mime_rows::encodings(),
        xml_rows::declarations(),
        xml_rows::markup_outside_the_profile(),
        xml_rows::tags(),
        xml_rows::attributes(),
        xml_rows::namespaces(),
        xml_rows::references(),
        xml_rows::characters(),
        xml_rows::documents(),
        header_rows::envelopes(),
        header_rows::blocks(),
        header_rows::bundles(),
        header_rows::identifiers(),
        header_rows::stamps(),
        header_rows::further_stamps(),
        header_rows::parties(),
        header_rows::services(),
        header_rows::lists(),
        header_rows::errors(),
        message_rows::references(),
        message_rows::pairings(),
        message_rows::orders(),
    ];
    array::from_fn(|k| topics[k / TOPIC][k % TOPIC])
}

/// HTTP streams with their lines.
pub fn exchanges() -> [Exchange; 160] {
    let topics = [
        exchange_table::start_lines(),
        exchange_table::line_ends(),
        exchange_table::fields(),
        exchange_table::lengths(),
        exchange_table::codings(),
        exchange_table::chunk_sizes(),
        exchange_table::chunks(),
        exchange_table::ends(),
    ];
    array::from_fn(|k| topics[k / TOPIC][k % TOPIC])
}

/// Scripts of a drill with their transcripts.
pub fn plays() -> [Play; 100] {
    let topics = [
        play_table::pushes(),
        play_table::pulls(),
        play_table::crashes(),
        play_table::wrong_lines(),
        play_table::wrong_words(),
    ];
    array::from_fn(|k| topics[k / TOPIC][k % TOPIC])
}
