//! What the bytes of a response say that an endpoint replied.
ghost use Rattle.std.specs.Prelude.{◌≡◌, ℕ, List, [], Err, IfOk, Result, Some, false, unwrap_or};
ghost use Rattle.answer_laws.specs.ReadBack.{IsReadAsItself};
ghost use Rattle.as4_doors.specs.Responses.{IsResponse};
ghost use Rattle.as4_http.specs.ReadBack.{response_with};
ghost use Rattle.as4_values.specs.declared.message.Message.{Message as MessageValue};
ghost use Rattle.carrier.specs.Carrying.{IsCarried, IsReply, IsToldBy, gives_up};
ghost use Rattle.exchange_model.specs.declared.reply.Reply.{Reply as ReplyValue};
ghost use Rattle.message_model.specs.Wire.{IsWire};
ghost use Rattle.office.specs.declared.fault.OfficeFault.{OfficeFault as FaultValue};
ghost use Rattle.sessions.specs.Answering.{Tells};

use as4_flow::MemorySource;
use as4_http::{Intake, MAX_BODY, Response, one_response, response_read_back};
use as4_message::read_message;
use as4_values::{NoMemory, Octets};
use exchange_model::Reply;
use office::OfficeFault;
use sessions::Ended;
use std::alloc::Global;

/// What became of the event of a session that ended so, with this response.
pub(crate) fn told(alloc: Global, ended: Ended, response: Octets) -> Result<Reply, OfficeFault>
    ensures told { (made : Result ReplyValue FaultValue) → Tells false made ended response → IsToldBy made → IsCarried result (result ≡ made) }
    ensures none { gives_up ended → result ≡ Err OfficeFault.NoMemory }
{
    match ended {
        Ended::Answered => match reply_in(alloc, response) {
            Ok(reply) => Ok(reply),
            Err(_) => Err(OfficeFault::NoMemory),
        },
        Ended::Full { size, need } => Ok(Reply::Full { size, need }),
        Ended::DiskFault { before, after } => Err(OfficeFault::Disk { before, after }),
        Ended::Stopped { before, after } => Err(OfficeFault::Stopped { before, after }),
        Ended::Worn => Err(OfficeFault::Worn),
        other => {
            drop(other);
            drop(response);
            Err(OfficeFault::NoMemory)
        }
    }
}

/// The reply whose response this is.
fn reply_in(alloc: Global, response: Octets) -> Result<Reply, NoMemory>
    ensures { (reply : ReplyValue) → IsResponse false reply response → IsReply reply → IfOk result (λ read. read ≡ reply) }
{
    // Laws: a response that was written is read back, and no other is.
    one_response();
    response_read_back();
    if response.bytes().len() > MAX_BODY {
        return Err(NoMemory);
    }
    let mut source = MemorySource::of(response.into_vec(), Vec::new(alloc), Vec::new(alloc));
    let read = Intake::new(alloc).read_response(&mut source);
    drop(source);
    match read {
        Ok((response, intake)) => {
            drop(intake);
            reply_by(alloc, response)
        }
        Err(_) => Err(NoMemory),
    }
}

/// The reply that a response tells of: its message, or that there is none.
fn reply_by(alloc: Global, response: Response) -> Result<Reply, NoMemory>
    ensures quiet { response.status ≡ 202 → IfOk result (λ read. read ≡ Reply.Quiet) }
    ensures answer { (m : MessageValue) (media body : List ℕ) → response ≡ response_with 200 (Some media) body → IsWire m media body
        → IsReadAsItself m → IfOk result (λ read. read ≡ Reply.Answer m) }
{
    if response.status == 202 {
        drop(response);
        return Ok(Reply::Quiet);
    }
    let read = read_message(alloc, media_of(&response), response.body.bytes());
    drop(response);
    match read {
        Ok(message) => Ok(Reply::Answer(message)),
        Err(_) => Err(NoMemory),
    }
}

/// The media text of a response, which is empty where it has none.
fn media_of(response: &Response) -> &[u8]
    ensures { result.now ≡ unwrap_or response.now.media [] }
{
    match &response.media {
        Some(media) => media.bytes(),
        None => b"",
    }
}
