//! The bytes that a reader of lines holds, and the pieces that it reads after them.
ghost use Rattle.std.specs.Prelude.{◌≡◌, ◌≢◌, [], ◌+◌, ◌<◌, ◌≤◌, length, take, drop};
ghost use Rattle.as4_flow.specs.Flow.{Rose, Told, before};
ghost use Rattle.drill_script.specs.Fronts.{Has, MatchFilled};
ghost use Rattle.byte_forms.specs.Parted.{Lacks};
ghost use Rattle.drill_script.specs.LineText.{line_limit};
ghost use Rattle.drill_script.specs.Lines.{ahead_limit};

use crate::lines::{Filled, Front, LINE_LIMIT};
use as4_flow::{Got, Source};
use memchr::memchr;

/// The maximum number of bytes that one read requests.
const PIECE: usize = 1 << 16;

const _: () = prove!(PIECE == 65536);

/// The prefix of these bytes, the first `scanned` of which were searched.
pub(crate) fn front_of(bytes: &[u8], scanned: usize) -> Front
    requires within { scanned ≤ length bytes.now }
    requires lacks { Lacks 10 (take scanned bytes.now) }
    ensures { Has bytes.now result }
{
    match memchr(b'\n', &bytes[scanned..]) {
        Some(at) if scanned + at <= LINE_LIMIT => Front::Line(scanned + at),
        Some(_) => Front::TooLong,
        None if bytes.len() <= LINE_LIMIT => Front::Unfinished,
        None => Front::TooLong,
    }
}

/// Drops the first `n` bytes.
pub(crate) fn drop_front(bytes: &mut Vec<u8>, n: usize)
    requires { n ≤ length bytes.old.items }
    ensures { bytes.new.items ≡ drop n bytes.old.items }
{
    if n == 0 {
        return;
    }
    let rest = bytes.len() - n;
    bytes.copy_within(n.., 0);
    bytes.truncate(rest);
}

/// Reads a piece of the source after these bytes.
pub(crate) fn read_piece<S: Source>(bytes: &mut Vec<u8>, source: &mut S) -> Filled
    requires { length bytes.old.items ≤ line_limit }
    ensures whole { before bytes.old.items (S.left source.old) ≡ before bytes.new.items (S.left source.new) }
    ensures front { take (length bytes.old.items) bytes.new.items ≡ bytes.old.items }
    ensures more { MatchFilled result (length bytes.old.items < length bytes.new.items) (bytes.new.items ≡ bytes.old.items) }
    ensures left { MatchFilled result (Unit {0}) (S.left source.new ≡ S.left source.old) }
    ensures end { result ≡ Filled.End → Told (S.left source.old) (λ bytes. bytes ≡ []) }
    ensures failed { result ≡ Filled.Failed → Rose (S.faults source.old) (S.faults source.new) }
    ensures counted { S.faults source.old ≤ S.faults source.new }
    ensures quiet { result ≢ Filled.Failed → S.faults source.new ≡ S.faults source.old }
    ensures ahead { length bytes.new.items ≤ ahead_limit }
{
    let len = bytes.len();
    if bytes.resize(len + PIECE, 0).is_err() {
        return Filled::NoMemory;
    }
    let got = source.read(&mut bytes[len..]);
    match got {
        Got::Gave(n) => {
            bytes.truncate(len + n);
            Filled::Gave
        }
        Got::End => {
            bytes.truncate(len);
            Filled::End
        }
        Got::Failed => {
            bytes.truncate(len);
            Filled::Failed
        }
    }
}
