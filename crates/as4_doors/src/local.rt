//! The requests of the local door: calls of the producer and the consumer.

ghost use Rattle.std.specs.Prelude.{◌≡◌, ℕ, [], ◌∷◌, None, true, Err, List, IfOk, IsSome, IsTrue, codes};
ghost use Rattle.as4_codes.specs.ErrorCodes.{error_row};
ghost use Rattle.as4_message.specs.declared.received.Refusal.{Refusal as RefusalValue};
ghost use Rattle.exchange_model.specs.Coming.{may_come};
ghost use Rattle.as4_doors.specs.Asking.{Asks};
ghost use Rattle.as4_doors.specs.Targets.{AsksBy, AsksLocally, AsksWith, Finds, IsConversation, IsShortText, Submits, loads_of, method_of, word_of};
ghost use Rattle.as4_doors.specs.declared.door.DoorKind.TheVariants.{Local};

use crate::door::DoorRefusal;
use crate::pieces::{conversation_in, id_in, number_in, pieces_of, short_text};
use as4_http::{Method, Request};
use as4_values::{Load, NoMemory, Octets, PlainData, Seq, Text};
use exchange_model::What;
use std::alloc::Global;

/// The calls whose targets have one value.
#[derive(Clone, Copy, Debug, PartialEq, Eq)]
enum Call {
    /// `GET /inbox/N`
    Read,
    /// `POST /confirm/N`
    Confirm,
    /// `GET /status/ID`
    Status,
}

/// What a request at the local door asks for.
#[tactic(auto, unfolding(exchange_model::specs::Coming::may_come))]
pub(crate) fn ask_locally(alloc: Global, request: &Request) -> Result<What, DoorRefusal>
    ensures asks { Asks Local request.now result }
    ensures known { (refusal : RefusalValue) → result ≡ Err (DoorRefusal.Refused refusal) → IsSome (error_row refusal.code) }
    ensures comes { IfOk result (λ what. IsTrue (may_come what)) }
{
    match asked(alloc, request) {
        Ok(Some(what)) => Ok(what),
        Ok(None) => Err(DoorRefusal::Stranger),
        Err(NoMemory) => Err(DoorRefusal::NoMemory),
    }
}

// What a request asks for, or None if it isn't a call of the local door.
fn asked(alloc: Global, request: &Request) -> Result<Option<What>, NoMemory>
    ensures { IfOk result (Finds (AsksLocally request.now)) }
{
    let pieces = pieces_of(alloc, request.target.bytes())?;
    let found = asked_by(alloc, request, pieces.as_slice());
    drop(pieces);
    found
}

fn asked_by(alloc: Global, request: &Request, pieces: &[Octets]) -> Result<Option<What>, NoMemory>
    ensures { IfOk result (Finds (λ what. (names : List (List ℕ)) × (pieces.now ≡ [] ∷ names) × AsksBy request.now.method names request.now.media request.now.body what)) }
{
    match pieces {
        [first, names @ ..] if first.bytes().is_empty() => asked_after(alloc, request, names),
        _ => Ok(None),
    }
}

// By the pieces after the first `/`.
fn asked_after(alloc: Global, request: &Request, names: &[Octets]) -> Result<Option<What>, NoMemory>
    ensures { IfOk result (Finds (AsksBy request.now.method names.now request.now.media request.now.body)) }
{
    match names {
        [word, piece] => one_value(alloc, request, word.bytes(), piece.bytes()),
        [word, mode, conversation] => {
            two_texts(
                alloc,
                request,
                word.bytes(),
                mode.bytes(),
                conversation.bytes(),
            )
        }
        _ => Ok(None),
    }
}

// The calls with one value.
fn one_value(
    alloc: Global,
    request: &Request,
    word: &[u8],
    piece: &[u8],
) -> Result<Option<What>, NoMemory>
    ensures { IfOk result (Finds (AsksBy request.now.method (word.now ∷ piece.now ∷ []) request.now.media request.now.body)) }
{
    match call_of(request.method, word) {
        Some(call) => asked_with(alloc, call, piece),
        None => Ok(None),
    }
}

// The call with this method and this first piece.
fn call_of(method: Method, word: &[u8]) -> Option<Call>
    ensures { Finds (λ call. (method ≡ method_of call) × (word.now ≡ word_of call)) result }
{
    match method {
        Method::Get if word == b"inbox".as_slice() => Some(Call::Read),
        Method::Get if word == b"status".as_slice() => Some(Call::Status),
        Method::Post if word == b"confirm".as_slice() => Some(Call::Confirm),
        _ => None,
    }
}

// What a call asks for, by the piece with its value.
fn asked_with(alloc: Global, call: Call, piece: &[u8]) -> Result<Option<What>, NoMemory>
    ensures { IfOk result (Finds (AsksWith call piece.now)) }
{
    match call {
        Call::Read => Ok(number_in(piece).map(|n| What::Read { n })),
        Call::Confirm => Ok(number_in(piece).map(|upto| What::Confirm { upto })),
        Call::Status => Ok(id_in(alloc, piece)?.map(|id| What::Status { id })),
    }
}

// The call with two texts: `POST /submit/MODE/CONVERSATION`.
fn two_texts(
    alloc: Global,
    request: &Request,
    word: &[u8],
    mode: &[u8],
    conversation: &[u8],
) -> Result<Option<What>, NoMemory>
    ensures { IfOk result (Finds (AsksBy request.now.method (word.now ∷ mode.now ∷ conversation.now ∷ []) request.now.media request.now.body)) }
{
    if !is_submission(request.method, word) {
        return Ok(None);
    }
    submission(alloc, request, mode, conversation)
}

fn is_submission(method: Method, word: &[u8]) -> bool
    ensures yes { result ≡ true → (method ≡ Method.Post) × (word.now ≡ codes "submit") }
    ensures only { method ≡ Method.Post → word.now ≡ codes "submit" → result ≡ true }
{
    match method {
        Method::Post => word == b"submit".as_slice(),
        Method::Get => false,
    }
}

fn submission(
    alloc: Global,
    request: &Request,
    mode: &[u8],
    conversation: &[u8],
) -> Result<Option<What>, NoMemory>
    ensures { IfOk result (Finds (Submits mode.now conversation.now request.now.media request.now.body)) }
{
    let texts = texts_in(alloc, mode, conversation)?;
    match texts {
        None => Ok(None),
        Some((mode, conversation)) => match loads_in(alloc, request) {
            Ok(loads) => Ok(Some(What::Submit {
                mode,
                conversation,
                loads,
            })),
            Err(NoMemory) => {
                drop(mode);
                drop(conversation);
                Err(NoMemory)
            }
        },
    }
}

// The texts of a submission.
fn texts_in(
    alloc: Global,
    mode: &[u8],
    conversation: &[u8],
) -> Result<Option<(Text, Option<Text>)>, NoMemory>
    ensures { IfOk result (Finds (λ texts. IsShortText mode.now texts.0 × IsConversation conversation.now texts.1)) }
{
    let Some(mode) = short_text(alloc, mode)? else {
        return Ok(None);
    };
    match conversation_in(alloc, conversation)? {
        Some(conversation) => Ok(Some((mode, conversation))),
        None => Ok(None),
    }
}

// The loads of a submission.
fn loads_in(alloc: Global, request: &Request) -> Result<Seq<Load>, NoMemory>
    ensures { IfOk result (λ loads. loads ≡ loads_of request.now.media request.now.body) }
{
    match &request.media {
        Some(media) => one_load(alloc, media.bytes(), request.body.bytes()),
        None => untyped_loads(alloc, request.body.bytes()),
    }
}

// The loads of a submission without a media text.
fn untyped_loads(alloc: Global, body: &[u8]) -> Result<Seq<Load>, NoMemory>
    ensures { IfOk result (λ loads. loads ≡ loads_of None body.now) }
{
    if body.is_empty() {
        return Ok(Seq::of(Vec::new(alloc)));
    }
    one_load(alloc, b"application/octet-stream", body)
}

fn one_load(alloc: Global, media: &[u8], content: &[u8]) -> Result<Seq<Load>, NoMemory>
    ensures { IfOk result (λ loads. loads ≡ record { media = media.now; content = content.now } ∷ []) }
{
    let media = Octets::of(Vec::from_slice(alloc, media)?);
    let content = Octets::of(Vec::from_slice(alloc, content)?);
    Ok(Seq::of(vec![in alloc; Load { media, content }]?))
}
