//! Pairs of a receipt and a pull request: as received, and as requested.
ghost use Rattle.std.specs.Prelude.{IfSome, IsTrue};
ghost use Rattle.as4_values.specs.SignalParts.{is_receipt, is_pull};

use crate::changes::{Change, effects_of};
use as4_effects::Effect;
use as4_values::{
    ErrorItem, Message, MessageId, Pair, PlainData, Signal, SignalBody, Text, UserHeader,
    stamp_text,
};
use exchange_model::{Event, Outcome, Reply, What};
use made_messages::{act, header_of, text};
use msh_state::EndTables;
use msh_transitions::row_of;
use pmodes::Modes;
use std::alloc::Global;

const MODES: &[u8] = b"[[mode]]
name = \"pushed\"
from = { role = \"r\", party = [ { id = \"a\" } ] }
to = { role = \"r\", party = [ { id = \"b\" } ] }
service = \"s\"
action = \"act\"
push = \"http://h/\"
retries = 3
period = 60000

[[mode]]
name = \"pulled\"
from = { role = \"r\", party = [ { id = \"a\" } ] }
to = { role = \"r\", party = [ { id = \"b\" } ] }
service = \"s\"
action = \"other\"
pull = \"c\"
address = \"http://h/\"
retries = 3
period = 60000
";

/// The copy in a receipt.
#[derive(Clone, Copy)]
enum Copied {
    Nothing,
    TheHeader,
    AnotherHeader,
}

/// One effect of an outcome.
#[derive(Clone, Copy)]
enum Given {
    Receipted(u64),
    Tried(u64),
}

/// The reply to a pair.
#[derive(Clone, Copy)]
enum Answered {
    /// The message of this submission.
    User(u64),
    /// An error with this code, about the receipt.
    AboutReceipt(&'static [u8]),
    /// The same, about the pull request.
    AboutPull(&'static [u8]),
}

/// A pair that an endpoint receives, and its outcome.
#[derive(Clone, Copy)]
struct Case {
    before: &'static [Change],
    /// The submission whose receipt arrives; if there is none, the receipt refers to `none@x`.
    receipted: Option<u64>,
    copied: Copied,
    channel: &'static [u8],
    effects: &'static [Given],
    answer: Answered,
}

/// Two submissions wait in the channel `c`, and the first was sent.
const ONE_SENT: &[Change] = &[
    Change::Waits(0),
    Change::Waits(1),
    Change::Ticked(1000),
    Change::Tried(0),
];

/// The same, and both were sent.
const BOTH_SENT: &[Change] = &[
    Change::Waits(0),
    Change::Waits(1),
    Change::Ticked(1000),
    Change::Tried(0),
    Change::Tried(1),
];

const CASES: [Case; 13] = [
    // It is receipted, and the next one is sent.
    Case {
        before: ONE_SENT,
        receipted: Some(0),
        copied: Copied::TheHeader,
        channel: b"c",
        effects: &[Given::Receipted(0), Given::Tried(1)],
        answer: Answered::User(1),
    },
    // A receipt without a copy is valid.
    Case {
        before: ONE_SENT,
        receipted: Some(0),
        copied: Copied::Nothing,
        channel: b"c",
        effects: &[Given::Receipted(0), Given::Tried(1)],
        answer: Answered::User(1),
    },
    // It is receipted, and nothing is left to be sent.
    Case {
        before: BOTH_SENT,
        receipted: Some(0),
        copied: Copied::TheHeader,
        channel: b"c",
        effects: &[Given::Receipted(0)],
        answer: Answered::AboutPull(b"EBMS:0006"),
    },
    // The receipted one was the head: the next one is sent.
    Case {
        before: &[Change::Waits(0), Change::Waits(1), Change::Ticked(1000)],
        receipted: Some(0),
        copied: Copied::TheHeader,
        channel: b"c",
        effects: &[Given::Receipted(0), Given::Tried(1)],
        answer: Answered::User(1),
    },
    // The receipted one was the head, and the only one.
    Case {
        before: &[Change::Waits(0), Change::Ticked(1000)],
        receipted: Some(0),
        copied: Copied::TheHeader,
        channel: b"c",
        effects: &[Given::Receipted(0)],
        answer: Answered::AboutPull(b"EBMS:0006"),
    },
    // The receipt is for one that was pushed.
    Case {
        before: &[Change::Submitted(0), Change::Waits(1), Change::Ticked(1000)],
        receipted: Some(0),
        copied: Copied::TheHeader,
        channel: b"c",
        effects: &[Given::Receipted(0), Given::Tried(1)],
        answer: Answered::User(1),
    },
    // The receipt is late: the head is sent.
    Case {
        before: &[
            Change::Waits(0),
            Change::Waits(1),
            Change::Ticked(1000),
            Change::Receipted(0),
        ],
        receipted: Some(0),
        copied: Copied::TheHeader,
        channel: b"c",
        effects: &[Given::Tried(1)],
        answer: Answered::User(1),
    },
    // The receipt is late, and nothing is due.
    Case {
        before: &[Change::Waits(0), Change::Ticked(1000), Change::Receipted(0)],
        receipted: Some(0),
        copied: Copied::TheHeader,
        channel: b"c",
        effects: &[],
        answer: Answered::AboutPull(b"EBMS:0006"),
    },
    // The receipt names no submission: the head stays untried.
    Case {
        before: ONE_SENT,
        receipted: None,
        copied: Copied::Nothing,
        channel: b"c",
        effects: &[],
        answer: Answered::AboutReceipt(b"EBMS:0003"),
    },
    // Its copy is of another header.
    Case {
        before: ONE_SENT,
        receipted: Some(0),
        copied: Copied::AnotherHeader,
        channel: b"c",
        effects: &[],
        answer: Answered::AboutReceipt(b"EBMS:0302"),
    },
    // No mode names the channel: the receipt settles nothing.
    Case {
        before: ONE_SENT,
        receipted: Some(0),
        copied: Copied::TheHeader,
        channel: b"x",
        effects: &[],
        answer: Answered::AboutPull(b"EBMS:0001"),
    },
    // The receipt's error takes precedence.
    Case {
        before: ONE_SENT,
        receipted: None,
        copied: Copied::Nothing,
        channel: b"x",
        effects: &[],
        answer: Answered::AboutReceipt(b"EBMS:0003"),
    },
    // The receipt is late, and no mode names the channel.
    Case {
        before: &[Change::Waits(0), Change::Ticked(1000), Change::Receipted(0)],
        receipted: Some(0),
        copied: Copied::TheHeader,
        channel: b"x",
        effects: &[],
        answer: Answered::AboutPull(b"EBMS:0001"),
    },
];

/// Applies the changes to the tables.
fn acts(alloc: Global, tables: &mut EndTables, changes: &[Change]) -> Option<()> {
    let effects = effects_of(alloc, changes)?;
    for effect in effects.into_vec() {
        act(tables, effect)?;
    }
    Some(())
}

fn id_of(alloc: Global, number: Option<u64>) -> Option<MessageId> {
    match number {
        Some(number) => MessageId::of_submission(alloc, number, 1).ok(),
        None => MessageId::read(alloc, b"none@x").ok(),
    }
}

/// The copy, if there is one.
fn copy_of(alloc: Global, case: &Case) -> Option<Option<UserHeader>> {
    match (case.copied, case.receipted) {
        (Copied::TheHeader, Some(number)) => Some(Some(header_of(alloc, number)?)),
        (Copied::AnotherHeader, _) => Some(Some(header_of(alloc, 99)?)),
        _ => Some(None),
    }
}

const RECEIPT_ID: &[u8] = b"r@x";

const PULL_ID: &[u8] = b"p@x";

/// The receipt of the case.
#[tactic(auto, unfolding(as4_values::specs::SignalParts::is_receipt))]
fn receipt_of(alloc: Global, case: &Case) -> Option<Signal>
    ensures { IfSome result (λ signal. IsTrue (is_receipt signal.body)) }
{
    match (
        stamp_text(alloc, 0),
        MessageId::read(alloc, RECEIPT_ID),
        id_of(alloc, case.receipted),
        copy_of(alloc, case),
    ) {
        (Ok(stamp), Ok(id), Some(ref_to), Some(copy)) => Some(Signal {
            stamp,
            id,
            ref_to: Some(ref_to),
            body: SignalBody::Receipt { copy },
        }),
        (stamp, id, ref_to, copy) => {
            drop(stamp);
            drop(id);
            drop(ref_to);
            drop(copy);
            None
        }
    }
}

/// The pull request of the case.
#[tactic(auto, unfolding(as4_values::specs::SignalParts::is_pull))]
fn pull_of(alloc: Global, case: &Case) -> Option<Signal>
    ensures { IfSome result (λ signal. IsTrue (is_pull signal.body)) }
{
    match (
        stamp_text(alloc, 0),
        MessageId::read(alloc, PULL_ID),
        text(alloc, case.channel),
    ) {
        (Ok(stamp), Ok(id), Some(mpc)) => Some(Signal {
            stamp,
            id,
            ref_to: None,
            body: SignalBody::Pull { mpc },
        }),
        (stamp, id, mpc) => {
            drop(stamp);
            drop(id);
            drop(mpc);
            None
        }
    }
}

fn pair_of(alloc: Global, case: &Case) -> Option<Pair> {
    match (receipt_of(alloc, case), pull_of(alloc, case)) {
        (Some(receipt), Some(pull)) => Some(Pair { receipt, pull }),
        (receipt, pull) => {
            drop(receipt);
            drop(pull);
            None
        }
    }
}

/// The outcome of an event at the endpoint with these tables.
fn outcome_of(alloc: Global, tables: &EndTables, event: &Event) -> Option<Outcome> {
    match Modes::read(alloc, MODES) {
        Ok(modes) => {
            let outcome = row_of(alloc, &modes, tables, event);
            drop(modes);
            outcome.ok()
        }
        Err(refusal) => {
            drop(refusal);
            None
        }
    }
}

/// The outcome of the case's pair at the endpoint.
#[tactic(auto, unfolding(exchange_model::specs::Coming::may_come))]
fn outcome_of_case(alloc: Global, tables: &EndTables, case: &Case) -> Option<Outcome> {
    let event = Event {
        stamp: 0,
        nonce: 1,
        what: What::Came(Message::Pair(pair_of(alloc, case)?)),
    };
    let outcome = outcome_of(alloc, tables, &event);
    drop(event);
    outcome
}

fn is_given(effect: &Effect, given: Given) -> bool {
    match (effect, given) {
        (Effect::Receipted { number }, Given::Receipted(other)) => *number == other,
        (Effect::Tried { number }, Given::Tried(other)) => *number == other,
        _ => false,
    }
}

fn are_given(effects: &[Effect], given: &[Given]) -> bool {
    if effects.len() != given.len() {
        return false;
    }
    for at in 0..given.len() {
        if !is_given(&effects[at], given[at]) {
            return false;
        }
    }
    true
}

/// Whether it is an error signal with one item, which has this code and is about this message.
fn is_error(signal: &Signal, code: &[u8], about: &[u8]) -> bool {
    let SignalBody::Errors { items } = &signal.body else {
        return false;
    };
    let refers = matches!(&signal.ref_to, Some(id) if id.bytes() == about);
    match items.items() {
        [item] => refers && is_item(item, code, about),
        _ => false,
    }
}

fn is_item(item: &ErrorItem, code: &[u8], about: &[u8]) -> bool {
    item.code.bytes() == code && matches!(&item.about, Some(id) if id.bytes() == about)
}

/// Whether the header is that of the submission with this number.
fn is_of(alloc: Global, header: &UserHeader, number: u64) -> Option<bool> {
    let id = MessageId::of_submission(alloc, number, 1).ok()?;
    Some(header.id.same(&id))
}

fn is_answered(alloc: Global, reply: &Reply, answer: Answered) -> Option<bool> {
    match (reply, answer) {
        (Reply::Answer(Message::User { header, .. }), Answered::User(number)) => {
            is_of(alloc, header, number)
        }
        (Reply::Answer(Message::Signal(signal)), Answered::AboutReceipt(code)) => {
            Some(is_error(signal, code, RECEIPT_ID))
        }
        (Reply::Answer(Message::Signal(signal)), Answered::AboutPull(code)) => {
            Some(is_error(signal, code, PULL_ID))
        }
        _ => Some(false),
    }
}

/// Whether the case has its effects and its reply at an endpoint with these tables.
fn is_right_at(alloc: Global, tables: &EndTables, case: &Case) -> Option<bool> {
    let outcome = outcome_of_case(alloc, tables, case)?;
    let given = are_given(outcome.effects.items(), case.effects);
    let answered = is_answered(alloc, &outcome.reply, case.answer);
    drop(outcome);
    Some(given && answered?)
}

fn is_right(alloc: Global, case: &Case) -> Option<bool> {
    let mut tables = EndTables::new(alloc);
    let right = match acts(alloc, &mut tables, case.before) {
        Some(()) => is_right_at(alloc, &tables, case),
        None => None,
    };
    drop(tables);
    right
}

/// The index of the first pair with another outcome.
fn first_other(alloc: Global) -> Option<usize> {
    for (at, case) in CASES.iter().enumerate() {
        if is_right(alloc, case) != Some(true) {
            return Some(at);
        }
    }
    None
}

#[test]
fn each_pair_has_its_effects_and_its_answer(rt: HostRuntime) {
    assert_eq!(rt; first_other(rt.alloc()), None);
}

/// The reply to a request for a pair.
#[derive(Clone, Copy, PartialEq, Eq)]
enum Asked {
    NoMode,
    Gone,
    NoEntry,
    /// The request goes to `http://h/` and asks for the channel `c`; its receipt refers to the message of the first
    /// submission, and has a copy of its header. The flag says whether the nonce names the pull request, and the next
    /// one the receipt.
    Pair(bool),
    Other,
}

/// A delivered message, a confirmed one, and both.
const CAME: &[Change] = &[Change::Delivered];

const TAKEN_OVER: &[Change] = &[Change::Delivered, Change::Confirmed(0)];

const KEPT_AND_CAME: &[Change] = &[Change::Kept(7), Change::Delivered];

/// What happened, the mode and the number of the message, and the reply.
const REQUESTS: [(&[Change], &[u8], u64, Asked); 8] = [
    (CAME, b"pulled", 0, Asked::Pair(true)),
    (CAME, b"pulled", 1, Asked::NoEntry),
    (CAME, b"pushed", 0, Asked::NoMode),
    (CAME, b"none", 0, Asked::NoMode),
    (TAKEN_OVER, b"pulled", 0, Asked::Gone),
    (TAKEN_OVER, b"pushed", 0, Asked::NoMode),
    (KEPT_AND_CAME, b"pulled", 0, Asked::Gone),
    (KEPT_AND_CAME, b"pulled", 1, Asked::Pair(true)),
];

/// A nonce, and the identifiers for it and for the next one.
type Named = (u128, &'static [u8], &'static [u8]);

const NAMED: [Named; 2] = [
    (
        1,
        b"s.00000000-0000-0000-0000-000000000001@as4",
        b"s.00000000-0000-0000-0000-000000000002@as4",
    ),
    (
        u128::MAX,
        b"s.ffffffff-ffff-ffff-ffff-ffffffffffff@as4",
        b"s.00000000-0000-0000-0000-000000000000@as4",
    ),
];

fn is_receipt(alloc: Global, receipt: &Signal) -> Option<bool> {
    let header = header_of(alloc, 0)?;
    let refers = matches!(&receipt.ref_to, Some(id) if id.same(&header.id));
    let copies =
        matches!(&receipt.body, SignalBody::Receipt { copy: Some(copy) } if copy.same(&header));
    drop(header);
    Some(refers && copies)
}

fn is_pull(pull: &Signal) -> bool {
    pull.ref_to.is_none()
        && matches!(&pull.body, SignalBody::Pull { mpc } if mpc.bytes() == b"c".as_slice())
}

fn asked_by(alloc: Global, address: &Text, pair: &Pair, named: Named) -> Option<Asked> {
    let (_, pull_id, receipt_id) = named;
    let right = is_receipt(alloc, &pair.receipt)?
        && is_pull(&pair.pull)
        && address.bytes() == b"http://h/".as_slice();
    if !right {
        return Some(Asked::Other);
    }
    Some(Asked::Pair(pair.pull.id.bytes() == pull_id && pair.receipt.id.bytes() == receipt_id))
}

fn told_of(alloc: Global, outcome: &Outcome, named: Named) -> Option<Asked> {
    if !outcome.effects.items().is_empty() {
        return Some(Asked::Other);
    }
    match &outcome.reply {
        Reply::NoMode => Some(Asked::NoMode),
        Reply::Gone => Some(Asked::Gone),
        Reply::NoEntry => Some(Asked::NoEntry),
        Reply::Request {
            address,
            message: Message::Pair(pair),
        } => asked_by(alloc, address, pair, named),
        _ => Some(Asked::Other),
    }
}

/// The reply at an endpoint with these tables.
#[tactic(auto, unfolding(exchange_model::specs::Coming::may_come))]
fn asks_at(alloc: Global, tables: &EndTables, mode: &[u8], n: u64, named: Named) -> Option<Asked> {
    let event = Event {
        stamp: 0,
        nonce: named.0,
        what: What::AskWith {
            mode: text(alloc, mode)?,
            n,
        },
    };
    let outcome = outcome_of(alloc, tables, &event);
    drop(event);
    match outcome {
        Some(outcome) => {
            let asked = told_of(alloc, &outcome, named);
            drop(outcome);
            asked
        }
        None => None,
    }
}

fn asks(alloc: Global, before: &[Change], mode: &[u8], n: u64, named: Named) -> Option<Asked> {
    let mut tables = EndTables::new(alloc);
    let asked = match acts(alloc, &mut tables, before) {
        Some(()) => asks_at(alloc, &tables, mode, n, named),
        None => None,
    };
    drop(tables);
    asked
}

/// The index of the first request with another reply for this nonce.
fn first_other_request(alloc: Global, named: Named) -> Option<usize> {
    for (at, (before, mode, n, wanted)) in REQUESTS.iter().enumerate() {
        if asks(alloc, before, mode, *n, named) != Some(*wanted) {
            return Some(at);
        }
    }
    None
}

#[test]
fn a_receipt_is_asked_for_with_the_next_pull_request(rt: HostRuntime) {
    for named in NAMED {
        assert_eq!(rt; first_other_request(rt.alloc(), named), None);
    }
}
