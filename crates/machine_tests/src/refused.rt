//! Error signals, and the submissions that they refuse.
use as4_effects::Effect;
use as4_values::{Code, ErrorItem, MessageId, Seq, Severity};
use made_messages::{act, submission};
use msh_state::EndTables;
use msh_transitions::refusals_of;
use std::alloc::Global;

/// Adds the submission of this number.
fn takes_in(alloc: Global, tables: &mut EndTables, number: u64) -> Option<()> {
    match submission(alloc, number, 1) {
        Some(submission) => act(tables, Effect::Submitted(submission)),
        None => None,
    }
}

/// Adds two submissions, the first of which may be receipted.
fn takes_in_two(alloc: Global, tables: &mut EndTables, receipted: bool) -> Option<()> {
    takes_in(alloc, tables, 0)?;
    takes_in(alloc, tables, 1)?;
    if receipted {
        act(tables, Effect::Receipted { number: 0 })
    } else {
        Some(())
    }
}

/// An item of an error signal: its severity, its code, and the number of the submission that it names.
#[derive(Clone, Copy)]
struct Row {
    severity: Severity,
    code: &'static [u8],
    about: Option<u64>,
}

/// The identifier of the submission of this number.
fn id_of(alloc: Global, number: Option<u64>) -> Option<Option<MessageId>> {
    match number {
        Some(number) => Some(Some(MessageId::of_submission(alloc, number, 1).ok()?)),
        None => Some(None),
    }
}

fn item(alloc: Global, row: &Row) -> Option<ErrorItem> {
    match (id_of(alloc, row.about), Code::read(alloc, row.code)) {
        (Some(about), Ok(code)) => Some(ErrorItem {
            code,
            severity: row.severity,
            origin: None,
            category: None,
            about,
            short: None,
            description: None,
            detail: None,
        }),
        (about, code) => {
            drop(about);
            drop(code);
            None
        }
    }
}

/// Adds the item of this row.
fn adds(alloc: Global, items: &mut Vec<ErrorItem>, row: &Row) -> bool {
    match item(alloc, row) {
        Some(item) => match items.push(item) {
            Ok(()) => true,
            Err(error) => {
                drop(error);
                false
            }
        },
        None => false,
    }
}

fn items(alloc: Global, rows: &[Row]) -> Option<Vec<ErrorItem>> {
    let mut items = Vec::new(alloc);
    for row in rows {
        if !adds(alloc, &mut items, row) {
            drop(items);
            return None;
        }
    }
    Some(items)
}

fn is_refusal(effect: &Effect, number: u64, code: &[u8]) -> bool {
    match effect {
        Effect::Refused {
            number: other,
            code: told,
        } => *other == number && told.bytes() == code,
        _ => false,
    }
}

/// Whether the effects refuse these submissions, in order, with these codes.
fn are_refusals(effects: &[Effect], wanted: &[(u64, &[u8])]) -> bool {
    if effects.len() != wanted.len() {
        return false;
    }
    for at in 0..wanted.len() {
        let (number, code) = wanted[at];
        if !is_refusal(&effects[at], number, code) {
            return false;
        }
    }
    true
}

/// Whether a signal that refers to this message, with these items, refuses these submissions.
fn refuses_by(
    alloc: Global,
    tables: &EndTables,
    ref_to: &Option<MessageId>,
    items: &[ErrorItem],
    wanted: &[(u64, &[u8])],
) -> Option<bool> {
    if items.len() > 256 {
        return None;
    }
    match refusals_of(alloc, tables, ref_to, items) {
        Ok(effects) => {
            let are = are_refusals(effects.items(), wanted);
            drop(effects);
            Some(are)
        }
        Err(error) => {
            drop(error);
            None
        }
    }
}

/// An error signal from the other endpoint, given two submissions.
#[derive(Clone, Copy)]
struct Case {
    /// Whether the first is receipted; the others are pending.
    receipted: bool,
    /// The number of the submission that the signal refers to.
    ref_to: Option<u64>,
    rows: &'static [Row],
    /// The numbers and codes of the refusals, in order.
    wanted: &'static [(u64, &'static [u8])],
}

/// Whether the signal refuses the right submissions in these tables.
fn refuses_in(alloc: Global, tables: &EndTables, case: &Case) -> Option<bool> {
    match (id_of(alloc, case.ref_to), items(alloc, case.rows)) {
        (Some(ref_to), Some(items)) => {
            let refuses = refuses_by(alloc, tables, &ref_to, items.as_slice(), case.wanted);
            drop(ref_to);
            drop(items);
            refuses
        }
        (ref_to, items) => {
            drop(ref_to);
            drop(items);
            None
        }
    }
}

/// Whether the signal refuses the right submissions.
fn refuses(alloc: Global, case: &Case) -> Option<bool> {
    let mut tables = EndTables::new(alloc);
    let refuses = match takes_in_two(alloc, &mut tables, case.receipted) {
        Some(()) => refuses_in(alloc, &tables, case),
        None => None,
    };
    drop(tables);
    refuses
}

/// Error signals, and the refusals of each.
const CASES: [Case; 6] = [
    // A failure refuses the submission that it names.
    Case {
        receipted: false,
        ref_to: None,
        rows: &[Row {
            severity: Severity::Failure,
            code: b"EBMS:0004",
            about: Some(1),
        }],
        wanted: &[(1, b"EBMS:0004")],
    },
    // A warning refuses none.
    Case {
        receipted: false,
        ref_to: Some(0),
        rows: &[Row {
            severity: Severity::Warning,
            code: b"EBMS:0004",
            about: Some(1),
        }],
        wanted: &[],
    },
    // Of two failures for one submission, the first refuses it.
    Case {
        receipted: false,
        ref_to: None,
        rows: &[
            Row {
                severity: Severity::Failure,
                code: b"EBMS:0102",
                about: Some(1),
            },
            Row {
                severity: Severity::Failure,
                code: b"EBMS:0004",
                about: Some(0),
            },
            Row {
                severity: Severity::Failure,
                code: b"EBMS:0001",
                about: Some(1),
            },
        ],
        wanted: &[(1, b"EBMS:0102"), (0, b"EBMS:0004")],
    },
    // A failure that names no submission refuses the one that its signal refers to.
    Case {
        receipted: false,
        ref_to: Some(1),
        rows: &[Row {
            severity: Severity::Failure,
            code: b"EBMS:0004",
            about: None,
        }],
        wanted: &[(1, b"EBMS:0004")],
    },
    // A failure that names no submission, in a signal that refers to none, refuses nothing.
    Case {
        receipted: false,
        ref_to: None,
        rows: &[Row {
            severity: Severity::Failure,
            code: b"EBMS:0004",
            about: None,
        }],
        wanted: &[],
    },
    // Unknown and settled submissions aren't refused.
    Case {
        receipted: true,
        ref_to: Some(1),
        rows: &[
            Row {
                severity: Severity::Failure,
                code: b"EBMS:0004",
                about: Some(2),
            },
            Row {
                severity: Severity::Failure,
                code: b"EBMS:0004",
                about: Some(0),
            },
        ],
        wanted: &[],
    },
];

/// The index of the first signal that doesn't refuse the right submissions.
fn first_other(alloc: Global, cases: &[Case]) -> Option<usize> {
    for (at, case) in cases.iter().enumerate() {
        if refuses(alloc, case) != Some(true) {
            return Some(at);
        }
    }
    None
}

#[test]
fn an_error_signal_refuses_what_its_failures_are_about(rt: HostRuntime) {
    assert_eq!(rt; first_other(rt.alloc(), &CASES), None);
}
