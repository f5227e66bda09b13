//! The table of error codes, and error signals.
use as4_codes::{Row, TABLE, error_signal, find};
use as4_values::{ErrorItem, MessageId, NoMemory, Severity, Signal, SignalBody, Text};
use std::alloc::Global;
use std::test::Fail;

/// A code, its short description, its severity and its category.
const ROWS: [(u16, &str, Severity, &str); 10] = [
    (1, "ValueNotRecognized", Severity::Failure, "Content"),
    (3, "ValueInconsistent", Severity::Failure, "Content"),
    (
        6,
        "EmptyMessagePartitionChannel",
        Severity::Warning,
        "Communication",
    ),
    (7, "MimeInconsistency", Severity::Failure, "Unpackaging"),
    (8, "FeatureNotSupported", Severity::Failure, "Unpackaging"),
    (9, "InvalidHeader", Severity::Failure, "Unpackaging"),
    (
        10,
        "ProcessingModeMismatch",
        Severity::Failure,
        "Processing",
    ),
    (11, "ExternalPayloadError", Severity::Failure, "Content"),
    (301, "MissingReceipt", Severity::Failure, "Communication"),
    (302, "InvalidReceipt", Severity::Failure, "Communication"),
];

/// Whether the row of the code has these values.
fn is_found(code: u16, short: &str, severity: Severity, category: &str) -> bool {
    match find(&TABLE, code) {
        Some(row) => {
            row.code == code
                && row.short == short
                && row.severity == severity
                && row.category == category
        }
        None => false,
    }
}

/// The first of the rows that isn't found so.
fn first_other(rows: &[(u16, &str, Severity, &str)]) -> Option<usize> {
    for (at, (code, short, severity, category)) in rows.iter().enumerate() {
        if !is_found(*code, short, *severity, category) {
            return Some(at);
        }
    }
    None
}

#[test]
fn a_code_finds_its_row(rt: HostRuntime) -> Result<(), Fail> {
    assert_eq!(rt; first_other(&ROWS), None);
    assert!(rt; find(&TABLE, 5).is_none());
    Ok(())
}

const FIRST: Row = Row {
    code: 7,
    short: "First",
    severity: Severity::Failure,
    category: "Content",
};

/// Two rows with the same code.
const TWINS: [Row; 2] = [
    FIRST,
    Row {
        short: "Second",
        ..FIRST
    },
];

/// The short description of the row of the code.
fn short_of(table: &[Row], code: u16) -> Option<&'static str> {
    find(table, code).map(|row| row.short)
}

#[test]
fn the_first_row_of_a_code_is_found(rt: HostRuntime) -> Result<(), Fail> {
    assert_eq!(rt; short_of(&TWINS, 7), Some("First"));
    assert_eq!(rt; short_of(&[], 7), None);
    Ok(())
}

fn is_text(text: &Option<Text>, wanted: &[u8]) -> bool {
    matches!(text, Some(text) if text.bytes() == wanted)
}

fn is_about(id: &Option<MessageId>, wanted: Option<&[u8]>) -> bool {
    match (id, wanted) {
        (None, None) => true,
        (Some(id), Some(wanted)) => id.bytes() == wanted,
        _ => false,
    }
}

/// Whether the item reports a package whose parts don't fit.
fn is_mime_inconsistency(item: &ErrorItem, about: Option<&[u8]>) -> bool {
    item.code.bytes() == b"EBMS:0007".as_slice()
        && item.severity == Severity::Failure
        && item.origin.is_none()
        && is_text(&item.category, b"Unpackaging")
        && is_about(&item.about, about)
        && is_text(&item.short, b"MimeInconsistency")
        && item.description.is_none()
        && item.detail.is_none()
}

/// Whether the signal has only that error, the stamp of the moment 0, and the identifier of the nonce 1.
fn is_signal(signal: &Signal, about: Option<&[u8]>) -> bool {
    signal.stamp.bytes() == b"1970-01-01T00:00:00.000Z".as_slice()
        && signal.id.bytes() == b"s.00000000-0000-0000-0000-000000000001@as4".as_slice()
        && is_about(&signal.ref_to, about)
        && match &signal.body {
            SignalBody::Errors { items } => match items.items() {
                [item] => is_mime_inconsistency(item, about),
                _ => false,
            },
            _ => false,
        }
}

/// The error signal with the code 7 about this message.
#[tactic(auto, unfolding(as4_codes::specs::ErrorCodes::error_row, as4_codes::specs::ErrorCodes::error_table))]
fn signal_about(alloc: Global, id: Option<&MessageId>) -> Result<Signal, NoMemory> {
    error_signal(alloc, 7, id, 0, 1)
}

/// Whether that signal names the message that it should.
fn tells_of(alloc: Global, id: Option<&MessageId>, about: Option<&[u8]>) -> Option<bool> {
    let signal = signal_about(alloc, id).ok()?;
    let tells = is_signal(&signal, about);
    drop(signal);
    Some(tells)
}

/// The same for a message with this identifier.
fn tells_of_id(alloc: Global, about: &[u8]) -> Option<bool> {
    let id = MessageId::read(alloc, about).ok()?;
    let tells = tells_of(alloc, Some(&id), Some(about));
    drop(id);
    tells
}

#[test]
fn an_error_signal_says_what_its_row_says(rt: HostRuntime) -> Result<(), Fail> {
    assert_eq!(rt; tells_of(rt.alloc(), None, None), Some(true));
    assert_eq!(rt; tells_of_id(rt.alloc(), b"m1@a"), Some(true));
    Ok(())
}
