//! Requests that come in pieces, requests that are cut off, and what is no request.

use crate::desk::{Connection, Desk, whole};
use crate::samples::{
    BAD_REQUEST, BOTH_FRAMINGS, CHUNKED, CHUNKED_OVER, COUNTED, COUNTED_OVER, COUNTED_TO, RECEIPT,
    TOO_LARGE,
};
use crate::shown::EndKind;
use sessions::DoorKind;
use std::alloc::{AllocError, Global};

/// The first place or row that isn't so, and how many messages came.
type Found = Result<(Option<usize>, u64), AllocError>;

// The first place after which the stream can end so that the session isn't cut.
fn first_other_end(desk: &mut Desk<'_>, bytes: &[u8]) -> Option<usize> {
    for at in 0..bytes.len() {
        if !desk.answers(DoorKind::Peer, &bytes[..at], EndKind::Cut, b"") {
            return Some(at);
        }
    }
    None
}

fn after_ends(alloc: Global, bytes: &[u8]) -> Found {
    let mut desk = Desk::new(alloc, &[])?;
    let end = first_other_end(&mut desk, bytes);
    let inbox = desk.office.totals().inbox;
    drop(desk);
    Ok((end, inbox))
}

#[test]
fn a_counted_request_ends_too_early(rt: HostRuntime) {
    assert_eq!(rt; after_ends(rt.alloc(), COUNTED), Ok((None, 0)));
}

#[test]
fn a_chunked_request_ends_too_early(rt: HostRuntime) {
    assert_eq!(rt; after_ends(rt.alloc(), CHUNKED), Ok((None, 0)));
}

// The first of these places after which the request can go on in a second piece so that the answer isn't the receipt.
fn first_other_piece(desk: &mut Desk<'_>, bytes: &[u8], from: usize, upto: usize) -> Option<usize> {
    for at in from..upto {
        let pieces = [at];
        let connection = Connection {
            pieces: &pieces,
            ..whole(DoorKind::Peer, bytes)
        };
        if !desk.gives(connection, EndKind::Answered, RECEIPT) {
            return Some(at);
        }
    }
    None
}

fn after_pieces(alloc: Global, bytes: &[u8], from: usize, upto: usize) -> Found {
    let mut desk = Desk::new(alloc, &[])?;
    let piece = first_other_piece(&mut desk, bytes, from, upto);
    let inbox = desk.office.totals().inbox;
    drop(desk);
    Ok((piece, inbox))
}

// The counted request has 1,112 bytes, the chunked one 1,148. Each is cut by two tests, since a test has a minute.
#[test]
fn a_counted_request_in_two_pieces(rt: HostRuntime) {
    assert_eq!(rt; after_pieces(rt.alloc(), COUNTED, 1, 560), Ok((None, 1)));
}

#[test]
fn a_counted_request_whose_second_piece_is_short(rt: HostRuntime) {
    assert_eq!(rt; after_pieces(rt.alloc(), COUNTED, 560, 1112), Ok((None, 1)));
}

#[test]
fn a_chunked_request_in_two_pieces(rt: HostRuntime) {
    assert_eq!(rt; after_pieces(rt.alloc(), CHUNKED, 1, 560), Ok((None, 1)));
}

#[test]
fn a_chunked_request_whose_second_piece_is_short(rt: HostRuntime) {
    assert_eq!(rt; after_pieces(rt.alloc(), CHUNKED, 560, 1148), Ok((None, 1)));
}

/// What comes.
#[derive(Clone, Copy)]
enum Form {
    Counted,
    Chunked,
    CountedOver,
    CountedTo,
    ChunkedOver,
    BothFramings,
    Nothing,
}

fn bytes_of(form: Form) -> &'static [u8] {
    match form {
        Form::Counted => COUNTED,
        Form::Chunked => CHUNKED,
        Form::CountedOver => COUNTED_OVER,
        Form::CountedTo => COUNTED_TO,
        Form::ChunkedOver => CHUNKED_OVER,
        Form::BothFramings => BOTH_FRAMINGS,
        Form::Nothing => b"",
    }
}

/// What comes, before 14 further bytes; the sizes of the pieces; the numbers of the reads that fail; how the session ends;
/// and how many bytes the source has left.
type Row = (Form, &'static [usize], &'static [u64], EndKind, usize);

const FOLLOWING: &[u8] = b"GET / HTTP/1.1";

const ROWS: [Row; 16] = [
    // the request is read to its end, and the source isn't asked again
    (Form::Counted, &[1112], &[2], EndKind::Answered, 14),
    (Form::Chunked, &[1148], &[2], EndKind::Answered, 14),
    // a counted body is read to its end, and the end of a chunked one with the piece that it comes in
    (Form::Counted, &[1111], &[3], EndKind::Answered, 14),
    (Form::Chunked, &[1147, 1], &[3], EndKind::Answered, 14),
    (Form::Chunked, &[1147, 5], &[3], EndKind::Answered, 10),
    (Form::Counted, &[], &[2], EndKind::Answered, 0),
    (Form::Chunked, &[], &[2], EndKind::Answered, 0),
    (Form::Counted, &[], &[1], EndKind::ReadFault, 1126),
    (Form::Counted, &[100], &[2], EndKind::ReadFault, 1026),
    (Form::Counted, &[1111], &[2], EndKind::ReadFault, 15),
    (Form::Chunked, &[1147], &[2], EndKind::ReadFault, 15),
    (Form::CountedOver, &[60], &[2], EndKind::TooLong, 14),
    (Form::ChunkedOver, &[71], &[2], EndKind::TooLong, 14),
    (Form::CountedTo, &[60], &[], EndKind::Cut, 0),
    (Form::BothFramings, &[81], &[2], EndKind::Bad, 14),
    (Form::Nothing, &[], &[], EndKind::Cut, 0),
];

// What a session that ends so writes, where the invoice is answered.
fn response_of(ended: EndKind) -> &'static [u8] {
    match ended {
        EndKind::Answered => RECEIPT,
        EndKind::Bad => BAD_REQUEST,
        EndKind::TooLong => TOO_LARGE,
        _ => b"",
    }
}

fn is_right(desk: &mut Desk<'_>, row: &Row) -> Result<bool, AllocError> {
    let mut bytes = bytes_of(row.0).to_vec(desk.alloc)?;
    bytes.extend_from_slice(FOLLOWING)?;
    let connection = Connection {
        pieces: row.1,
        failing_reads: row.2,
        ..whole(DoorKind::Peer, bytes.as_slice())
    };
    let served = desk.serves(connection)?;
    let is_so = served.is(row.3, response_of(row.3)) && served.left == row.4;
    drop(served);
    Ok(is_so)
}

fn after_rows(alloc: Global) -> Found {
    let mut desk = Desk::new(alloc, &[])?;
    let mut wrong = None;
    for (at, row) in ROWS.iter().enumerate() {
        if wrong.is_none() && is_right(&mut desk, row) != Ok(true) {
            wrong = Some(at);
        }
    }
    let inbox = desk.office.totals().inbox;
    drop(desk);
    Ok((wrong, inbox))
}

#[test]
fn a_source_is_read_no_further(rt: HostRuntime) {
    assert_eq!(rt; after_rows(rt.alloc()), Ok((None, 1)));
}
