//! How the envelopes of the cases are read.
use crate::cases::{
    BLOCK_CASES, BUSINESS_CASES, Case, ENVELOPE_CASES, ERROR, ERROR_CASES, INFO_CASES, LIST_CASES,
    PAIR, PAIR_CASES, PULL, PULL_CASES, RECEIPT, RECEIPT_CASES, SIDE_CASES, USER, USER_CASES,
};
use crate::trees::tree_of;
use as4_values::Unit;
use header_reader::{HeaderRefusal, read_unit};
use header_writer::write_envelope;
use std::alloc::Global;
use std::test::Fail;

const START: &str = "<S:Envelope><S:Header><eb:Messaging S:mustUnderstand=\"true\">";

const END: &str = "</eb:Messaging></S:Header><S:Body></S:Body></S:Envelope>";

/// The text with the first `old` replaced, if the text contains it.
fn replaced(alloc: Global, text: &str, old: &str, new: &str) -> Option<String> {
    let (front, back) = text.split_once(old)?;
    let mut out = String::new(alloc);
    if out.push_str(front).is_err() || out.push_str(new).is_err() || out.push_str(back).is_err() {
        drop(out);
        return None;
    }
    Some(out)
}

fn in_envelope(alloc: Global, unit: &str) -> Option<String> {
    let mut out = String::new(alloc);
    if out.push_str(START).is_err() || out.push_str(unit).is_err() || out.push_str(END).is_err() {
        drop(out);
        return None;
    }
    Some(out)
}

/// Whether the canonical text of the unit that was read contains just this unit.
fn is_unit_text(text: &[u8], unit: &str) -> bool {
    let Some(rest) = text.strip_suffix(END.as_bytes()) else {
        return false;
    };
    rest.ends_with(unit.as_bytes())
        && rest.len() > unit.len()
        && rest[..rest.len() - unit.len()].ends_with(b"<eb:Messaging S:mustUnderstand=\"true\">")
}

const PARTY: &str = "<eb:PartyId>bolt</eb:PartyId>";

fn repeated(alloc: Global, piece: &str, count: usize) -> Option<String> {
    let mut out = String::new(alloc);
    for _ in 0..count {
        if out.push_str(piece).is_err() {
            drop(out);
            return None;
        }
    }
    Some(out)
}

/// Whether this unit was read.
fn is_written_so(alloc: Global, read: Unit, unit: &str) -> Option<bool> {
    let text = write_envelope(alloc, &read);
    drop(read);
    let text = text.ok()?;
    let so = is_unit_text(text.bytes(), unit);
    drop(text);
    Some(so)
}

/// Whether the changed envelope is read as the case says.
fn is_read_so(alloc: Global, unit: &str, case: &Case) -> Option<bool> {
    let (old, new, wanted) = *case;
    let envelope = in_envelope(alloc, unit)?;
    let changed = replaced(alloc, envelope.as_str(), old, new)?;
    let tree = tree_of(alloc, changed.as_str())?;
    let read = read_unit(alloc, &tree);
    drop((envelope, changed, tree));
    match read {
        Err(HeaderRefusal::Invalid) => Some(wanted == "!"),
        Err(HeaderRefusal::Unsupported) => Some(wanted == "?"),
        Err(HeaderRefusal::NoMemory) => None,
        Ok(read) => match wanted.split_once("=>") {
            None => Some(is_written_so(alloc, read, unit)? && wanted == "="),
            Some((old, new)) => {
                let Some(unit) = replaced(alloc, unit, old, new) else {
                    drop(read);
                    return None;
                };
                let so = is_written_so(alloc, read, unit.as_str());
                drop(unit);
                so
            }
        },
    }
}

/// The first case that is read otherwise.
fn first_wrong(alloc: Global, unit: &str, cases: &[Case]) -> Option<usize> {
    for (at, case) in cases.iter().enumerate() {
        if is_read_so(alloc, unit, case) != Some(true) {
            return Some(at);
        }
    }
    None
}

#[test]
fn an_envelope_has_one_header_one_body_and_one_messaging(rt: HostRuntime) -> Result<(), Fail> {
    assert_eq!(rt; first_wrong(rt.alloc(), USER, &ENVELOPE_CASES), None);
    Ok(())
}

#[test]
fn other_blocks_are_not_to_be_understood_and_one_unit_stands(rt: HostRuntime) -> Result<(), Fail> {
    assert_eq!(rt; first_wrong(rt.alloc(), USER, &BLOCK_CASES), None);
    Ok(())
}

#[test]
fn a_user_message_holds_its_parts_in_any_order(rt: HostRuntime) -> Result<(), Fail> {
    assert_eq!(rt; first_wrong(rt.alloc(), USER, &USER_CASES), None);
    Ok(())
}

#[test]
fn a_message_info_has_a_stamp_and_identifiers(rt: HostRuntime) -> Result<(), Fail> {
    assert_eq!(rt; first_wrong(rt.alloc(), USER, &INFO_CASES), None);
    Ok(())
}

#[test]
fn sides_have_parties_and_a_role(rt: HostRuntime) -> Result<(), Fail> {
    assert_eq!(rt; first_wrong(rt.alloc(), USER, &SIDE_CASES), None);
    Ok(())
}

#[test]
fn the_business_is_read_as_it_is_spelled(rt: HostRuntime) -> Result<(), Fail> {
    assert_eq!(rt; first_wrong(rt.alloc(), USER, &BUSINESS_CASES), None);
    Ok(())
}

#[test]
fn properties_and_part_infos_are_read_as_they_are_spelled(rt: HostRuntime) -> Result<(), Fail> {
    assert_eq!(rt; first_wrong(rt.alloc(), USER, &LIST_CASES), None);
    Ok(())
}

/// Whether a side of this many parties is read as a side of these.
fn are_parties(alloc: Global, count: usize) -> Option<bool> {
    let parties = repeated(alloc, PARTY, count)?;
    let envelope = in_envelope(alloc, USER)?;
    let changed = replaced(alloc, envelope.as_str(), PARTY, parties.as_str())?;
    let unit = replaced(alloc, USER, PARTY, parties.as_str())?;
    let tree = tree_of(alloc, changed.as_str())?;
    drop((parties, envelope, changed));
    let read = read_unit(alloc, &tree);
    drop(tree);
    let so = match read {
        Err(_) => Some(false),
        Ok(read) => is_written_so(alloc, read, unit.as_str()),
    };
    drop(unit);
    so
}

#[test]
fn a_side_has_at_most_sixteen_parties(rt: HostRuntime) -> Result<(), Fail> {
    assert_eq!(rt; are_parties(rt.alloc(), 16), Some(true));
    assert_eq!(rt; are_parties(rt.alloc(), 17), Some(false));
    Ok(())
}

#[test]
fn pull_requests_are_read_as_they_are_spelled(rt: HostRuntime) -> Result<(), Fail> {
    assert_eq!(rt; first_wrong(rt.alloc(), PULL, &PULL_CASES), None);
    Ok(())
}

#[test]
fn receipts_are_read_as_they_are_spelled(rt: HostRuntime) -> Result<(), Fail> {
    assert_eq!(rt; first_wrong(rt.alloc(), RECEIPT, &RECEIPT_CASES), None);
    Ok(())
}

#[test]
fn errors_are_read_as_they_are_spelled(rt: HostRuntime) -> Result<(), Fail> {
    assert_eq!(rt; first_wrong(rt.alloc(), ERROR, &ERROR_CASES), None);
    Ok(())
}

#[test]
fn pairs_are_read_as_they_are_spelled(rt: HostRuntime) -> Result<(), Fail> {
    assert_eq!(rt; first_wrong(rt.alloc(), PAIR, &PAIR_CASES), None);
    Ok(())
}
