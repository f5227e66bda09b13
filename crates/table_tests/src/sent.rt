//! The outbox: submissions, their tries and how they are settled.
ghost use Rattle.std.specs.Prelude.{IsTrue};
ghost use Rattle.exchange_model.specs.Questions.{is_pending, is_waiting, sent_at};
ghost use Rattle.exchange_model.specs.Apply.{is_one};

use as4_effects::{Carried, Mark, Submission};
use as4_values::{Code, MAX_MOMENT, MessageId};
use exchange_model::Standing;
use made_messages::{carried, submission};
use outbox::Outbox;
use std::alloc::Global;

/// Values are dropped explicitly: that is proved faster than drops at the end of their scope.
fn submit(outbox: &mut Outbox, submission: Submission) -> Option<()> {
    if outbox.len() != submission.number || outbox.number_of(&submission.header.id).is_some() {
        drop(submission);
        return None;
    }
    match outbox.reserve(&submission.header.id) {
        Ok(()) => {
            outbox.commit_submit(submission);
            Some(())
        }
        Err(_) => {
            drop(submission);
            None
        }
    }
}

/// The same for a submission that is carried over.
fn carry(outbox: &mut Outbox, carried: Carried) -> Option<()> {
    let (number, id) = (carried.submission.number, &carried.submission.header.id);
    if outbox.len() != number || outbox.number_of(id).is_some() {
        drop(carried);
        return None;
    }
    match outbox.reserve(id) {
        Ok(()) => {
            outbox.carry(carried);
            Some(())
        }
        Err(_) => {
            drop(carried);
            None
        }
    }
}

/// An outbox of submissions with these numbers of retries.
fn outbox_of(alloc: Global, retries: &[u32]) -> Option<Outbox> {
    let mut outbox = Outbox::new(alloc);
    match submit_all(alloc, &mut outbox, retries) {
        Some(()) => Some(outbox),
        None => {
            drop(outbox);
            None
        }
    }
}

fn submit_all(alloc: Global, outbox: &mut Outbox, retries: &[u32]) -> Option<()> {
    for (at, retries) in retries.iter().enumerate() {
        submit(outbox, submission(alloc, at as u64, *retries)?)?;
    }
    Some(())
}

/// The number that the outbox returns for the identifier of this number and nonce.
fn number_of(alloc: Global, outbox: &Outbox, number: u64, nonce: u128) -> Option<Option<u64>> {
    let id = MessageId::of_submission(alloc, number, nonce).ok()?;
    Some(outbox.number_of(&id))
}

fn waits(outbox: &Outbox, number: u64) -> bool
    ensures { IsTrue result → IsTrue (is_one is_waiting (sent_at number outbox.now.sent)) }
{
    let Some(Standing::Pending { tries }) = outbox.status(number) else {
        return false;
    };
    let Some(submission) = outbox.get(number) else {
        return false;
    };
    tries <= submission.retries
}

fn pends(outbox: &Outbox, number: u64) -> bool
    ensures { IsTrue result → IsTrue (is_one is_pending (sent_at number outbox.now.sent)) }
{
    let Some(Standing::Pending { .. }) = outbox.status(number) else {
        return false;
    };
    true
}

fn try_at(outbox: &mut Outbox, number: u64, moment: u64) -> bool {
    if moment > MAX_MOMENT || !waits(outbox, number) {
        return false;
    }
    outbox.mark_tried(number, moment);
    true
}

fn receipt(outbox: &mut Outbox, number: u64) -> bool {
    if !pends(outbox, number) {
        return false;
    }
    outbox.mark_receipted(number);
    true
}

fn refuse(outbox: &mut Outbox, number: u64, code: Code) -> bool {
    if !pends(outbox, number) {
        drop(code);
        return false;
    }
    outbox.mark_ended(number, code);
    true
}

/// The submission is refused with the code `EBMS:0004`.
fn refuse_by_code(alloc: Global, outbox: &mut Outbox, number: u64) -> bool {
    match Code::read(alloc, b"EBMS:0004") {
        Ok(code) => refuse(outbox, number, code),
        Err(_) => false,
    }
}

/// Whether the outbox returns this code for the submission.
fn has_code(outbox: &Outbox, number: u64, code: &[u8]) -> bool {
    match outbox.refused_code(number) {
        Some(told) => told.bytes() == code,
        None => false,
    }
}

/// A change of an outbox, or a question to it.
#[derive(Clone, Copy)]
enum Step {
    Try { number: u64, moment: u64 },
    Receipt(u64),
    Refuse(u64),
    FailSpent(u64),
    Len,
    NumberOf { number: u64, nonce: u128 },
    Status(u64),
    Due(u64),
    /// The number of tries, and the moment of the last.
    Tried(u64),
    Mark(u64),
    HasNoCode(u64),
    HasCode(u64),
}

/// The result of a step.
#[derive(Clone, Copy, PartialEq, Eq)]
enum Said {
    Done,
    NotDone,
    Count(u64),
    Number(Option<u64>),
    Status(Option<Standing>),
    Due(Option<u64>),
    Tried(Option<(u32, u64)>),
    Mark(Option<Marked>),
}

/// A mark without its code.
#[derive(Clone, Copy, PartialEq, Eq)]
enum Marked {
    Pending,
    Receipted,
    Failed,
    Refused,
}

fn without_code(mark: &Mark) -> Marked {
    match mark {
        Mark::Pending => Marked::Pending,
        Mark::Receipted => Marked::Receipted,
        Mark::Failed => Marked::Failed,
        Mark::Refused { .. } => Marked::Refused,
    }
}

fn said_if(done: bool) -> Said {
    if done { Said::Done } else { Said::NotDone }
}

fn answer(alloc: Global, outbox: &mut Outbox, step: Step) -> Option<Said> {
    Some(match step {
        Step::Try { number, moment } => said_if(try_at(outbox, number, moment)),
        Step::Receipt(number) => said_if(receipt(outbox, number)),
        Step::Refuse(number) => said_if(refuse_by_code(alloc, outbox, number)),
        Step::FailSpent(moment) => Said::Count(outbox.fail_spent(moment)),
        Step::Len => Said::Count(outbox.len()),
        Step::NumberOf { number, nonce } => {
            Said::Number(number_of(alloc, outbox, number, nonce)?)
        }
        Step::Status(number) => Said::Status(outbox.status(number)),
        Step::Due(number) => Said::Due(outbox.due(number)),
        Step::Tried(number) => Said::Tried(outbox.tried(number)),
        Step::Mark(number) => Said::Mark(outbox.mark(number).map(without_code)),
        Step::HasNoCode(number) => said_if(outbox.refused_code(number).is_none()),
        Step::HasCode(number) => said_if(has_code(outbox, number, b"EBMS:0004")),
    })
}

/// The number of leading rows with the right result.
fn right_of(alloc: Global, outbox: &mut Outbox, rows: &[(Step, Said)]) -> usize {
    for (at, (step, wanted)) in rows.iter().enumerate() {
        if answer(alloc, outbox, *step) != Some(*wanted) {
            return at;
        }
    }
    rows.len()
}

/// The same for a new outbox of submissions with these numbers of retries.
fn right(alloc: Global, retries: &[u32], rows: &[(Step, Said)]) -> Option<usize> {
    let mut outbox = outbox_of(alloc, retries)?;
    let count = right_of(alloc, &mut outbox, rows);
    drop(outbox);
    Some(count)
}

const UNTRIED: Said = Said::Status(Some(Standing::Pending { tries: 0 }));

const TRIED_ONCE: Said = Said::Status(Some(Standing::Pending { tries: 1 }));

const TRIED_TWICE: Said = Said::Status(Some(Standing::Pending { tries: 2 }));

/// Two submissions to which nothing has happened.
const NUMBERED: [(Step, Said); 9] = [
    (Step::Len, Said::Count(2)),
    (
        Step::NumberOf {
            number: 0,
            nonce: 1,
        },
        Said::Number(Some(0)),
    ),
    (Step::Status(0), UNTRIED),
    (Step::Due(0), Said::Due(Some(1000))),
    (
        Step::NumberOf {
            number: 1,
            nonce: 1,
        },
        Said::Number(Some(1)),
    ),
    (Step::Status(1), UNTRIED),
    (Step::Due(1), Said::Due(Some(1000))),
    (
        Step::NumberOf {
            number: 1,
            nonce: 2,
        },
        Said::Number(None),
    ),
    (Step::Status(2), Said::Status(None)),
];

#[test]
fn submissions_stand_at_their_numbers(rt: HostRuntime) {
    assert_eq!(rt; right(rt.alloc(), &[0, 0], &NUMBERED), Some(NUMBERED.len()));
}

/// A try and a receipt of one submission, and an error about another.
const MARKED: [(Step, Said); 15] = [
    (Step::Tried(0), Said::Tried(Some((0, 0)))),
    (Step::Mark(0), Said::Mark(Some(Marked::Pending))),
    (
        Step::Try {
            number: 0,
            moment: 5000,
        },
        Said::Done,
    ),
    (Step::Status(0), TRIED_ONCE),
    (Step::Due(0), Said::Due(Some(65_000))),
    (Step::Receipt(0), Said::Done),
    (Step::Status(0), Said::Status(Some(Standing::Receipted))),
    (Step::Refuse(1), Said::Done),
    (Step::Status(1), Said::Status(Some(Standing::Refused))),
    (Step::HasNoCode(0), Said::Done),
    (Step::HasCode(1), Said::Done),
    (Step::Tried(0), Said::Tried(Some((1, 5000)))),
    (Step::Mark(0), Said::Mark(Some(Marked::Receipted))),
    (Step::Mark(1), Said::Mark(Some(Marked::Refused))),
    (Step::Mark(2), Said::Mark(None)),
];

#[test]
fn tries_receipts_and_errors_are_kept(rt: HostRuntime) {
    assert_eq!(rt; right(rt.alloc(), &[0, 0], &MARKED), Some(MARKED.len()));
}

/// A submission without retries, after its try.
const SPENT: [(Step, Said); 6] = [
    (
        Step::Try {
            number: 0,
            moment: 5000,
        },
        Said::Done,
    ),
    (Step::FailSpent(64_999), Said::Count(0)),
    (Step::Status(0), TRIED_ONCE),
    (Step::FailSpent(65_000), Said::Count(1)),
    (Step::Status(0), Said::Status(Some(Standing::Failed))),
    (Step::FailSpent(65_000), Said::Count(0)),
];

#[test]
fn one_without_retries_is_given_up_a_period_after_its_try(rt: HostRuntime) {
    assert_eq!(rt; right(rt.alloc(), &[0], &SPENT), Some(SPENT.len()));
}

/// A submission with a try left, and one that is receipted.
const NOT_SPENT: [(Step, Said); 7] = [
    (
        Step::Try {
            number: 0,
            moment: 1000,
        },
        Said::Done,
    ),
    (
        Step::Try {
            number: 0,
            moment: 61_000,
        },
        Said::Done,
    ),
    (
        Step::Try {
            number: 1,
            moment: 1000,
        },
        Said::Done,
    ),
    (Step::Receipt(1), Said::Done),
    (Step::FailSpent(MAX_MOMENT), Said::Count(0)),
    (Step::Status(0), TRIED_TWICE),
    (Step::Status(1), Said::Status(Some(Standing::Receipted))),
];

#[test]
fn one_with_tries_left_or_a_receipt_is_not_given_up(rt: HostRuntime) {
    assert_eq!(rt;
        right(rt.alloc(), &[2, 0], &NOT_SPENT),
        Some(NOT_SPENT.len())
    );
}

/// Carries over a submission with three retries.
fn carry_one(
    alloc: Global,
    outbox: &mut Outbox,
    number: u64,
    tries: u32,
    last: u64,
    standing: Mark,
) -> Option<()> {
    match submission(alloc, number, 3) {
        Some(submission) => carry(outbox, carried(submission, tries, last, standing)?),
        None => {
            drop(standing);
            None
        }
    }
}

/// Carries over a pending, a receipted, an expired and a refused submission.
fn carry_all(alloc: Global, outbox: &mut Outbox) -> Option<()> {
    carry_one(alloc, outbox, 0, 2, 5000, Mark::Pending)?;
    carry_one(alloc, outbox, 1, 1, 7000, Mark::Receipted)?;
    carry_one(alloc, outbox, 2, 4, 9000, Mark::Failed)?;
    let code = Code::read(alloc, b"EBMS:0004").ok()?;
    carry_one(alloc, outbox, 3, 0, 0, Mark::Refused { code })
}

/// The results of an outbox for submissions that were carried over.
const CARRIED: [(Step, Said); 13] = [
    (Step::Len, Said::Count(4)),
    (Step::Status(0), TRIED_TWICE),
    (Step::Tried(0), Said::Tried(Some((2, 5000)))),
    (Step::Due(0), Said::Due(Some(65_000))),
    (Step::Status(1), Said::Status(Some(Standing::Receipted))),
    (Step::Tried(1), Said::Tried(Some((1, 7000)))),
    (Step::Mark(2), Said::Mark(Some(Marked::Failed))),
    (Step::Tried(2), Said::Tried(Some((4, 9000)))),
    (Step::HasCode(3), Said::Done),
    (Step::Tried(3), Said::Tried(Some((0, 0)))),
    (
        Step::Try {
            number: 0,
            moment: 65_000,
        },
        Said::Done,
    ),
    (Step::Tried(0), Said::Tried(Some((3, 65_000)))),
    (Step::FailSpent(MAX_MOMENT), Said::Count(0)),
];

fn right_carried(alloc: Global) -> Option<usize> {
    let mut outbox = Outbox::new(alloc);
    let right = match carry_all(alloc, &mut outbox) {
        Some(()) => Some(right_of(alloc, &mut outbox, &CARRIED)),
        None => None,
    };
    drop(outbox);
    right
}

#[test]
fn one_that_is_carried_over_stands_as_it_stood(rt: HostRuntime) {
    assert_eq!(rt; right_carried(rt.alloc()), Some(CARRIED.len()));
}
