//! Messages as received, borrowed from the bytes that carry them, and refusals.
ghost use Rattle.std.specs.Prelude.{◌≡◌, ◌≢◌, ℕ, Ok, Err, None, Some, IfOk, IsSome, map};
ghost use Rattle.std.specs.Result.{result_map_both};
ghost use Rattle.as4_codes.specs.ErrorCodes.{error_row};
ghost use Rattle.as4_message.specs.declared.received.Refusal.{Refusal as RefusalValue};
ghost use Rattle.mime_fields.specs.Lent.{part_value};
ghost use Rattle.mime_package.specs.Lent.{package_value};
ghost use Rattle.as4_message.specs.Attached.{attach, attached_value};
ghost use Rattle.as4_message.specs.Meaning as meaning;
ghost use Rattle.as4_message.specs.Meaning.{HasItsParts, PackageMeans, Means, package_code, unit_with, root_with, alone, user_with, received_value, AnswersBy, Refuses};

use crate::attach::attach;
use crate::attachment::Attachment;
use crate::error_codes::{INCONSISTENT, NOT_SUPPORTED};
use crate::root::read_root;
use as4_values::{MessageId, NoMemory, Pair, PlainData, Signal, Unit, UserHeader};
use mime_fields::Part;
use mime_package::{MimeRefusal, read_parts};
use std::alloc::Global;

/// A message as received. The contents of its payloads are borrowed.
#[derive(Drop)]
pub enum Received<'a> {
    /// A user message, with a payload for each of its part infos, in the order of the package's parts.
    User(UserHeader, Vec<Attachment<'a>>),
    /// A signal message.
    Signal(Signal),
    /// A receipt, bundled with a pull request.
    Pair(Pair),
}

/// A refusal: its error code (ebMS 3.0 Core, section 6.7), and the message that it is about.
#[derive(Drop)]
pub struct Refusal {
    /// The number of the code, such as 7 for `EBMS:0007`.
    pub code: u16,
    /// The identifier of the message, where its header was read.
    pub about: Option<MessageId>,
}

/// Why no message was read.
#[derive(Drop)]
pub enum MessageRefusal {
    /// The bytes are not a message.
    Refused(Refusal),
    /// Memory ran out.
    NoMemory,
}

/// Reads a message from its media text and body, without copying payloads.
pub fn lend_message<'a>(
    alloc: Global,
    media: &[u8],
    body: &'a [u8],
) -> Result<Received<'a>, MessageRefusal>
    ensures meaning { AnswersBy received_value result (Means media.now body.now) }
    ensures known { (refusal : RefusalValue) → result ≡ Err (MessageRefusal.Refused refusal) → IsSome (error_row refusal.code) }
    ensures paired { IfOk result (λ received. HasItsParts (received_value received)) }
{
    lend(alloc, media, body)
}

fn lend<'a>(alloc: Global, media: &[u8], body: &'a [u8]) -> Result<Received<'a>, MessageRefusal>
    ensures { AnswersBy received_value result (Means media.now body.now) }
{
    match read_parts(alloc, media, body) {
        Ok(package) => {
            let received = with_root(alloc, package.root, package.parts.as_slice());
            drop(package);
            received
        }
        Err(refusal) => Err(no_package(refusal)),
    }
}

/// The refusal of a body that is not a package.
fn no_package(refusal: MimeRefusal) -> MessageRefusal
    ensures code { Refuses (package_code refusal) None result }
    ensures told { refusal ≢ MimeRefusal.NoMemory →
        result ≡ MessageRefusal.Refused (record { code = package_code refusal; about = None }) }
    ensures memory { refusal ≡ MimeRefusal.NoMemory → result ≡ MessageRefusal.NoMemory }
{
    match refusal {
        MimeRefusal::NoMemory => MessageRefusal::NoMemory,
        MimeRefusal::Encoding { .. } => refused(NOT_SUPPORTED, None),
        MimeRefusal::BadType
        | MimeRefusal::NoBoundary
        | MimeRefusal::BadPart { .. }
        | MimeRefusal::NoRoot => refused(INCONSISTENT, None),
    }
}

fn refused(code: u16, about: Option<MessageId>) -> MessageRefusal
    ensures { result ≡ MessageRefusal.Refused (record { code = code; about = about }) }
{
    MessageRefusal::Refused(Refusal { code, about })
}

fn with_root<'a>(
    alloc: Global,
    root: &[u8],
    parts: &[Part<'a>],
) -> Result<Received<'a>, MessageRefusal>
    ensures { AnswersBy received_value result (PackageMeans (Ok (record { root = root.now; parts = map part_value parts.now }))) }
{
    match read_root(alloc, root) {
        Ok(read) => with_read(alloc, read, parts),
        Err(NoMemory) => Err(MessageRefusal::NoMemory),
    }
}

fn with_read<'a>(
    alloc: Global,
    read: Result<Unit, u16>,
    parts: &[Part<'a>],
) -> Result<Received<'a>, MessageRefusal>
    ensures meaning { AnswersBy received_value result (λ answer. answer ≡ root_with (map part_value parts.now) read) }
    ensures told { (code : ℕ) → read ≡ Err code →
        result ≡ Err (MessageRefusal.Refused (record { code = code; about = None })) }
{
    match read {
        Ok(unit) => with_parts(alloc, unit, parts),
        Err(code) => Err(refused(code, None)),
    }
}

fn with_parts<'a>(
    alloc: Global,
    unit: Unit,
    parts: &[Part<'a>],
) -> Result<Received<'a>, MessageRefusal>
    ensures { AnswersBy received_value result (λ answer. answer ≡ unit_with (map part_value parts.now) unit) }
{
    match unit {
        Unit::User(header) => user_with(alloc, header, parts),
        Unit::Signal(signal) => signal_with(alloc, signal, parts),
        Unit::Pair(pair) => pair_with(alloc, pair, parts),
    }
}

fn user_with<'a>(
    alloc: Global,
    header: UserHeader,
    parts: &[Part<'a>],
) -> Result<Received<'a>, MessageRefusal>
    ensures { AnswersBy received_value result (λ answer. answer ≡ user_with header (attach header.parts (map part_value parts.now))) }
{
    match attach(alloc, header.parts.items(), parts) {
        Ok(found) => with_found(alloc, header, found),
        Err(NoMemory) => {
            drop(header);
            Err(MessageRefusal::NoMemory)
        }
    }
}

fn with_found<'a>(
    alloc: Global,
    header: UserHeader,
    found: Result<Vec<Attachment<'a>>, u16>,
) -> Result<Received<'a>, MessageRefusal>
    ensures { AnswersBy received_value result
        (λ answer. answer ≡ user_with header (result_map_both (λ list. map attached_value list.items) (λ code. code) found.entry)) }
{
    match found {
        Ok(attachments) => Ok(Received::User(header, attachments)),
        Err(code) => {
            let refusal = about(alloc, code, &header.id);
            drop(header);
            Err(refusal)
        }
    }
}

/// The refusal with this code, about this message.
fn about(alloc: Global, code: u16, id: &MessageId) -> MessageRefusal
    ensures { Refuses code (Some id.now) result }
{
    match id.try_clone(alloc) {
        Ok(id) => refused(code, Some(id)),
        Err(_) => MessageRefusal::NoMemory,
    }
}

fn signal_with<'a>(
    alloc: Global,
    signal: Signal,
    parts: &[Part<'a>],
) -> Result<Received<'a>, MessageRefusal>
    ensures { AnswersBy received_value result (λ answer. answer ≡ alone (map part_value parts.now) signal.id (meaning.signal signal)) }
{
    if parts.is_empty() {
        return Ok(Received::Signal(signal));
    }
    let refusal = about(alloc, INCONSISTENT, &signal.id);
    drop(signal);
    Err(refusal)
}

fn pair_with<'a>(
    alloc: Global,
    pair: Pair,
    parts: &[Part<'a>],
) -> Result<Received<'a>, MessageRefusal>
    ensures { AnswersBy received_value result (λ answer. answer ≡ alone (map part_value parts.now) pair.receipt.id (meaning.pair pair)) }
{
    if !parts.is_empty() {
        let refusal = about(alloc, INCONSISTENT, &pair.receipt.id);
        drop(pair);
        return Err(refusal);
    }
    Ok(Received::Pair(pair))
}
