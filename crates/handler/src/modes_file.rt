//! The modes file.
ghost use Rattle.std.specs.Prelude.{◌≡◌, ◌≢◌, Err, IfErr, IfOk};
ghost use Rattle.handler.specs.Endings.{EndsUnread, IsReadingCause};
ghost use Rattle.handler.specs.Handling.{Reads, pulled};
ghost use Rattle.handler.specs.Stores.{AreModesOf};

use crate::ending::HandlerEnd;
use as4_host::{FileGot, Host};
use as4_values::{NoMemory, PlainData, Text};
use pmodes::{MAX_MODES, ModeRefusal, Modes};
use std::alloc::Global;

/// The most bytes of a modes file.
pub const MODES_LIMIT: u64 = 1_048_576;

const _: () = prove!(MODES_LIMIT == 1048576);

/// The most modes by which a handler pulls.
pub(crate) const MOST_PULLED: usize = 2;

const _: () = prove!(MOST_PULLED == 2);

/// Reads the modes file. It is refused if it is missing, is longer than the limit, or isn't one.
pub fn read_modes<H: Host>(alloc: Global, host: &mut H, path: &str) -> Result<Modes, HandlerEnd>
    ensures reads { Reads H.Host path.now host.old host.new }
    ensures modes { IfOk result (AreModesOf (H.file host.old path.now)) }
    ensures faults { result ≢ Err HandlerEnd.HostFault → H.fault_count host.new ≡ H.fault_count host.old }
    ensures cause { IfErr result (IsReadingCause (H.file host.old path.now) (H.fault_count host.old) (H.fault_count host.new)) }
{
    match host.read_file(path, MODES_LIMIT) {
        FileGot::Bytes(bytes) => {
            let read = Modes::read(alloc, bytes.bytes());
            drop(bytes);
            modes_or_end(read)
        }
        FileGot::Missing | FileGot::TooLong => Err(HandlerEnd::ModesRefused),
        FileGot::Failed => Err(HandlerEnd::HostFault),
        FileGot::NoMemory => Err(HandlerEnd::NoMemory),
    }
}

// The modes, or how the handler ends without.
fn modes_or_end(read: Result<Modes, ModeRefusal>) -> Result<Modes, HandlerEnd>
    ensures { EndsUnread read result }
{
    match read {
        Ok(modes) => Ok(modes),
        Err(ModeRefusal::NoMemory) => Err(HandlerEnd::NoMemory),
        Err(other) => {
            drop(other);
            Err(HandlerEnd::ModesRefused)
        }
    }
}

/// The names of the first modes with `collect`, at most two.
pub(crate) fn pulled_modes(alloc: Global, modes: &Modes) -> Result<Vec<Text>, NoMemory>
    ensures { IfOk result (λ names. names.items ≡ pulled modes.now) }
{
    let mut names = Vec::with_capacity(alloc, MOST_PULLED)?;
    for place in 0..MAX_MODES as u64 {
        let Some(mode) = modes.get(place) else {
            break;
        };
        if mode.collect && names.len() < MOST_PULLED {
            names.push(mode.name.try_clone(alloc)?)?;
        }
    }
    Ok(names)
}
