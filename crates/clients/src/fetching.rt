//! One entry of the inbox: it is fetched, its file is written, and then it is confirmed.
ghost use Rattle.std.specs.Prelude.{◌≡◌, IfOk};
ghost use Rattle.std.specs.Option.{option_copied};
ghost use Rattle.message_model.specs.Wire.{message_file};
ghost use Rattle.clients.specs.Endings.{visit_end};
ghost use Rattle.clients.specs.Runs.{Confirms, Fetches, FileCame, GivesFile, Visits, Writes, file_path, media_or_none};

use crate::ending::{CollectEnd, Visit, collect_lost, visit_by};
use crate::exchange::exchange_made;
use crate::requests::{confirm_request, fetch_request};
use as4_host::{Host, HostRefusal, Link};
use as4_http::Response;
use as4_values::{NoMemory, Octets};
use link_exchange::Lost;
use std::alloc::Global;

/// Room for the field and the empty line of a message file, in bytes.
const FIELD_ROOM: usize = 256;

/// Collects entry n: its file is written before it is confirmed.
pub(crate) fn visit<H: Host, L: Link>(
    alloc: Global,
    host: &mut H,
    link: &mut L,
    address: &str,
    folder: &str,
    n: u64,
) -> Visit
    ensures { Visits H.Host L.Link address.now folder.now n host.old host.new link.old link.new result }
{
    match fetch(alloc, link, address, n) {
        Ok(file) => {
            let written = keep(alloc, host, folder, n, file.bytes());
            drop(file);
            match written {
                Ok(()) => confirm(alloc, link, address, n),
                Err(HostRefusal::HostFailed) => Visit::Ends(CollectEnd::FileFault),
                Err(HostRefusal::NoMemory) => Visit::Ends(CollectEnd::NoMemory),
            }
        }
        Err(other) => other,
    }
}

// Asks for entry n, and makes the message file of the response.
fn fetch<L: Link>(alloc: Global, link: &mut L, address: &str, n: u64) -> Result<Octets, Visit>
    ensures { Fetches L.Link address.now n link.old link.new result }
{
    let request = fetch_request(alloc, address, n);
    let told = exchange_made(alloc, link, address, request);
    file_in(alloc, told)
}

// The message file that came.
fn file_in(alloc: Global, told: Result<Response, Lost>) -> Result<Octets, Visit>
    ensures { FileCame told result }
{
    match told {
        Ok(response) => file_of(alloc, response),
        Err(lost) => Err(Visit::Ends(collect_lost(lost))),
    }
}

// The message file of a response, if its status is 200.
fn file_of(alloc: Global, response: Response) -> Result<Octets, Visit>
    ensures { GivesFile response result }
{
    let Response {
        status,
        media,
        body,
    } = response;
    let file = if status == 200 {
        match message_file(alloc, media.as_ref(), body.bytes()) {
            Ok(file) => Ok(file),
            Err(_) => Err(Visit::Ends(CollectEnd::NoMemory)),
        }
    } else {
        Err(visit_by(status))
    };
    drop(media);
    drop(body);
    file
}

// A response without a media text has an empty one.
fn message_file(alloc: Global, media: Option<&Octets>, body: &[u8]) -> Result<Octets, NoMemory>
    ensures { IfOk result (λ file. file ≡ message_file (media_or_none (option_copied media.entry)) body.now) }
{
    let mut file = Vec::with_capacity(alloc, body.len() + FIELD_ROOM)?;
    file.extend_from_slice(b"Content-Type: ")?;
    if let Some(media) = media {
        file.extend_from_slice(media.bytes())?;
    }
    file.extend_from_slice(b"\r\n\r\n")?;
    file.extend_from_slice(body)?;
    Ok(Octets::of(file))
}

// Writes the file of entry n. On a machine it is synced when this returns.
fn keep<H: Host>(
    alloc: Global,
    host: &mut H,
    folder: &str,
    n: u64,
    file: &[u8],
) -> Result<(), HostRefusal>
    ensures { Writes H.Host (file_path folder.now n) file.now host.old host.new result }
{
    let Ok(path) = format!(in alloc; "{folder}/{n}.as4") else {
        return Err(HostRefusal::NoMemory);
    };
    let written = host.write_file(path.as_str(), file);
    drop(path);
    written
}

// Confirms entry n.
fn confirm<L: Link>(alloc: Global, link: &mut L, address: &str, n: u64) -> Visit
    ensures { Confirms L.Link address.now n link.old link.new result }
{
    let request = confirm_request(alloc, address, n);
    let told = exchange_made(alloc, link, address, request);
    confirmed(told)
}

// What became of an entry, by the response to its confirmation.
fn confirmed(told: Result<Response, Lost>) -> Visit
    ensures { result ≡ visit_end told }
{
    match told {
        Ok(response) => {
            let status = response.status;
            drop(response);
            visit_by(status)
        }
        Err(lost) => Visit::Ends(collect_lost(lost)),
    }
}
