//! Exchanges between two endpoints, step by step.
mod arrivals;
mod filling;
mod folded;
mod gates;
mod many;
mod records;
mod replayed;
mod rig;
mod said;
mod steps;

use many::exchanged;
use rig::right_steps;
use std::alloc::{AllocError, Global};
use steps::{End, Said, Step};

/// A step at one of two endpoints, and its reply.
type Happens = (End, Step, Said);

type Steps = &'static [Happens];

/// A repeated message gets another receipt, and is delivered once.
const A_REPEAT: Steps = &[
    (End::A, Step::Submit("invoice"), Said::Submitted(0)),
    (End::A, Step::Take, Said::Push),
    (End::B, Step::Hear, Said::Receipt),
    (End::B, Step::Hear, Said::Receipt),
    (End::B, Step::Inbox, Said::Count(1)),
    (End::B, Step::Read(0), Said::Entry(5)),
    (End::B, Step::ReadBare(0), Said::Entry(0)),
    (End::B, Step::Read(1), Said::NoEntry),
    (End::A, Step::Size, Said::Count(384)),
    (End::B, Step::Size, Said::Count(306)),
];

/// A message is confirmed once, and only after its delivery; its repeat isn't delivered again.
const TAKEN_OVER: Steps = &[
    (End::A, Step::Submit("invoice"), Said::Submitted(0)),
    (End::A, Step::Take, Said::Push),
    (End::B, Step::Confirm(0), Said::NoEntry),
    (End::B, Step::ConfirmLightly(0), Said::NoEntry),
    (End::B, Step::Hear, Said::Receipt),
    (End::B, Step::Confirm(0), Said::Confirmed(0)),
    (End::B, Step::Confirm(0), Said::Gone),
    (End::B, Step::ConfirmLightly(0), Said::Gone),
    (End::B, Step::Read(0), Said::Gone),
    (End::B, Step::Hear, Said::Receipt),
    (End::B, Step::Inbox, Said::Count(1)),
    (End::B, Step::Read(0), Said::Gone),
];

/// Ticks and confirmations have the same effect with and without memory.
const LIGHTLY: Steps = &[
    (End::A, Step::Submit("once"), Said::Submitted(0)),
    (End::A, Step::Take, Said::Push),
    (End::B, Step::Hear, Said::Receipt),
    (End::B, Step::ConfirmLightly(0), Said::Confirmed(0)),
    (End::B, Step::Read(0), Said::Gone),
    (End::A, Step::TickLightly(999), Said::Ticked(0)),
    (End::A, Step::TickLightly(999), Said::Ticked(0)),
    (End::A, Step::Status, Said::Pending(1)),
    (End::A, Step::TickLightly(1000), Said::Ticked(1)),
    (End::A, Step::Status, Said::Failed),
    (End::A, Step::Tick(1000), Said::Ticked(0)),
];

/// A submission that fits no mode or is too large is refused at once, and changes nothing.
const NOT_TAKEN: Steps = &[
    (End::A, Step::Submit("none"), Said::NoMode),
    (End::A, Step::Ask("none"), Said::NoMode),
    (End::A, Step::SubmitTooMuch("invoice"), Said::TooLarge),
    (End::A, Step::StatusOf("none@x"), Said::Unknown),
    (End::A, Step::Take, Said::Nothing),
    (End::A, Step::Size, Said::Count(9)),
];

/// A message without a mode is refused, and isn't delivered.
const NO_MODE: Steps = &[
    (End::A, Step::Submit("invoice"), Said::Submitted(0)),
    (End::A, Step::Take, Said::Push),
    (End::B, Step::HearOfAnotherAction, Said::Error(10)),
    (End::B, Step::Inbox, Said::Count(0)),
    (End::B, Step::Size, Said::Count(9)),
    (End::B, Step::Hear, Said::Receipt),
];

/// A pull request for a channel that no mode names is refused, and no record is written.
const NO_CHANNEL: Steps = &[
    (End::A, Step::Pull("x"), Said::Error(1)),
    (End::A, Step::Pull("drill-m"), Said::Error(6)),
    (End::A, Step::Size, Said::Count(9)),
];

/// The messages of a channel are pulled in order, and again once they are due.
const PULLS: Steps = &[
    (End::A, Step::Ask("pulled"), Said::Request),
    (End::A, Step::Ask("once"), Said::NoMode),
    (End::A, Step::Submit("pulled"), Said::Submitted(0)),
    (End::A, Step::Submit("pulled"), Said::Submitted(1)),
    (End::A, Step::Pull("drill-m"), Said::User(0)),
    (End::A, Step::Pull("drill-m"), Said::User(1)),
    (End::A, Step::Pull("drill-m"), Said::Error(6)),
    (End::A, Step::Tick(1000), Said::Ticked(0)),
    (End::A, Step::Pull("drill-m"), Said::User(0)),
    (End::A, Step::Receipts, Said::Count(0)),
];

/// A submission without a receipt in time expires, and a late receipt changes nothing.
const A_LOST_RECEIPT: Steps = &[
    (End::A, Step::Submit("once"), Said::Submitted(0)),
    (End::A, Step::Take, Said::Push),
    (End::B, Step::Hear, Said::Receipt),
    (End::A, Step::Tick(999), Said::Ticked(0)),
    (End::A, Step::Status, Said::Pending(1)),
    (End::A, Step::Tick(1000), Said::Ticked(1)),
    (End::A, Step::Status, Said::Failed),
    (End::A, Step::Receipt, Said::Quiet),
    (End::A, Step::Status, Said::Failed),
];

/// A receipt is valid if it names the submission and has no copy of another header.
const RECEIPTS: Steps = &[
    (End::A, Step::Submit("invoice"), Said::Submitted(0)),
    (End::A, Step::Take, Said::Push),
    (End::A, Step::OtherReceipt, Said::Error(302)),
    (End::A, Step::Status, Said::Pending(1)),
    (End::A, Step::ReceiptOf("none@x"), Said::Error(3)),
    (End::A, Step::Status, Said::Pending(1)),
    (End::A, Step::BareReceipt, Said::Quiet),
    (End::A, Step::Status, Said::Receipted),
];

/// A failure refuses the submission that it names, and a warning doesn't.
const ERRORS: Steps = &[
    (End::A, Step::Submit("invoice"), Said::Submitted(0)),
    (End::A, Step::Take, Said::Push),
    (End::A, Step::Warning, Said::Quiet),
    (End::A, Step::Status, Said::Pending(1)),
    (End::A, Step::Failure, Said::Quiet),
    (End::A, Step::Status, Said::Refused),
];

/// The next pull request carries the receipt of the message that was delivered first. One record holds both effects. A
/// repeated pair settles nothing, and gets the message that is due.
const PAIRS: Steps = &[
    (End::A, Step::Submit("pulled"), Said::Submitted(0)),
    (End::A, Step::Submit("pulled"), Said::Submitted(1)),
    (End::B, Step::AskWith("pulled", 0), Said::NoEntry),
    (End::B, Step::Ask("pulled"), Said::Request),
    (End::A, Step::HearRequest, Said::User(0)),
    (End::A, Step::Size, Said::Count(781)),
    (End::B, Step::Hear, Said::Receipt),
    (End::B, Step::AskWith("none", 0), Said::NoMode),
    (End::B, Step::AskWith("once", 0), Said::NoMode),
    (End::B, Step::AskWith("pulled", 1), Said::NoEntry),
    (End::B, Step::AskWith("pulled", 0), Said::RequestWith(0)),
    (End::A, Step::HearRequest, Said::User(1)),
    (End::A, Step::Receipts, Said::Count(1)),
    (End::A, Step::Size, Said::Count(810)),
    (End::B, Step::AskWith("pulled", 0), Said::RequestWith(0)),
    (End::A, Step::HearRequest, Said::Error(6)),
    (End::A, Step::Size, Said::Count(810)),
    (End::A, Step::Tick(1000), Said::Ticked(0)),
    (End::A, Step::HearRequest, Said::User(1)),
    (End::A, Step::Status, Said::Pending(2)),
    (End::A, Step::Receipts, Said::Count(1)),
    (End::A, Step::Size, Said::Count(850)),
    (End::B, Step::Confirm(0), Said::Confirmed(0)),
    (End::B, Step::AskWith("pulled", 0), Said::Gone),
    (End::B, Step::Size, Said::Count(336)),
];

const EXCHANGES: [Steps; 11] = [
    A_REPEAT,
    TAKEN_OVER,
    LIGHTLY,
    NOT_TAKEN,
    NO_MODE,
    NO_CHANNEL,
    PULLS,
    PAIRS,
    A_LOST_RECEIPT,
    RECEIPTS,
    ERRORS,
];

/// The index of the first exchange with another reply.
fn first_other(alloc: Global) -> Option<usize> {
    for (at, steps) in EXCHANGES.iter().enumerate() {
        if right_steps(alloc, steps) != steps.len() {
            return Some(at);
        }
    }
    None
}

/// Each step has the expected reply.
#[test]
fn each_step_has_its_reply(rt: HostRuntime) {
    assert_eq!(rt; first_other(rt.alloc()), None);
}

/// A submission with a retry each millisecond.
const BEFORE_ALL_TRIES: Steps = &[(End::A, Step::Submit("often"), Said::Submitted(0))];

/// Its last try was its 1,001st, and then a receipt arrives.
const AFTER_ALL_TRIES: Steps = &[
    (End::A, Step::Status, Said::Pending(1001)),
    (End::A, Step::Receipt, Said::Quiet),
    (End::A, Step::Status, Said::Receipted),
    (End::A, Step::Tick(1001), Said::Ticked(0)),
];

/// The submission is tried at this moment, and only once.
fn try_at(moment: u64) -> [Happens; 3] {
    [
        (End::A, Step::Tick(moment), Said::Ticked(0)),
        (End::A, Step::Take, Said::Push),
        (End::A, Step::Take, Said::Nothing),
    ]
}

/// Adds 1,001 tries, and the steps before and after them.
fn add_all_tries(steps: &mut Vec<Happens>) -> Result<(), AllocError> {
    steps.extend_from_slice(BEFORE_ALL_TRIES)?;
    for moment in 0..=1000 {
        steps.extend_from_slice(&try_at(moment))?;
    }
    steps.extend_from_slice(AFTER_ALL_TRIES)
}

/// The number of leading steps with the right reply.
fn right_tries(alloc: Global) -> Option<usize> {
    let mut steps = Vec::new(alloc);
    let right = match add_all_tries(&mut steps) {
        Ok(()) => Some(right_steps(alloc, steps.as_slice())),
        Err(_) => None,
    };
    drop(steps);
    right
}

/// The submission is sent 1,001 times, and its receipt is still valid.
#[test]
fn all_tries_are_spent(rt: HostRuntime) {
    assert_eq!(rt; right_tries(rt.alloc()), Some(3008));
}

/// A full journal takes only a record that just fits. Steps that need no record behave as before.
const A_FULL_JOURNAL: Steps = &[
    (End::B, Step::Submit("once"), Said::Submitted(0)),
    (End::B, Step::Take, Said::Push),
    (End::B, Step::Size, Said::Count(381)),
    (End::A, Step::Submit("invoice"), Said::Submitted(0)),
    (End::A, Step::Take, Said::Push),
    (End::B, Step::Fill, Said::Count(4_294_967_276)),
    (End::B, Step::Submit("invoice"), Said::Full(355)),
    (End::B, Step::Hear, Said::Full(297)),
    (End::B, Step::Failure, Said::Full(33)),
    (End::B, Step::TickLightly(1), Said::Ticked(0)),
    (End::B, Step::Size, Said::Count(4_294_967_296)),
    (End::B, Step::Tick(5000), Said::Full(20)),
    (End::B, Step::TickLightly(5000), Said::Full(20)),
    (End::B, Step::Receipt, Said::Full(20)),
    (End::B, Step::Confirm(136), Said::Full(20)),
    (End::B, Step::ConfirmLightly(136), Said::Full(20)),
    (End::B, Step::Confirm(135), Said::Gone),
    (End::B, Step::Status, Said::Pending(1)),
    (End::B, Step::Take, Said::Nothing),
    (End::B, Step::Inbox, Said::Count(137)),
    (End::B, Step::Size, Said::Count(4_294_967_296)),
];

#[test]
fn a_full_journal_changes_nothing(rt: HostRuntime) {
    assert_eq!(rt;
        right_steps(rt.alloc(), A_FULL_JOURNAL),
        A_FULL_JOURNAL.len()
    );
}

/// An event takes logarithmic time; if it searched lists, this would take an hour.
#[test]
fn two_hundred_thousand_are_exchanged(rt: HostRuntime) {
    assert_eq!(rt; exchanged(rt.alloc(), 200_000), Some((200_000, 200_000)));
}
