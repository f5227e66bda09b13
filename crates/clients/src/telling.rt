//! The line that says what became of a number.
ghost use Rattle.std.specs.Prelude.{◌≡◌, ◌++◌, ◌≤◌, OnOk, OnErr, decimal};
ghost use Rattle.as4_flow.specs.Flow.{Rose, TakesFront, appended};
ghost use Rattle.clients.specs.Runs.{Prints, Tells};

use crate::ending::{CollectEnd, Visit};
use as4_flow::{SendFailed, Sink, send_all};
use itoa::Buffer;

/// Writes the line of a visit, if the collection goes on. It takes no memory.
pub(crate) fn tell<K: Sink>(output: &mut K, n: u64, visit: Visit) -> Result<(), CollectEnd>
    ensures { Tells K.Sink n visit output.old output.new result }
{
    match visit {
        Visit::Collected => line(output, n, b" collected\n"),
        Visit::Gone => line(output, n, b" gone\n"),
        Visit::Ends(end) => Err(end),
    }
}

fn line<K: Sink>(output: &mut K, n: u64, words: &[u8]) -> Result<(), CollectEnd>
    ensures { Prints K.Sink (decimal n ++ words.now) output.old output.new result }
{
    let mut digits = Buffer::new();
    match send_two(output, digits.format(n).as_bytes(), words) {
        Ok(()) => Ok(()),
        Err(_) => Err(CollectEnd::OutputFault),
    }
}

// Writes one text and then another.
fn send_two<K: Sink>(output: &mut K, first: &[u8], second: &[u8]) -> Result<(), SendFailed>
    ensures ok { OnOk result (K.taken output.new ≡ appended (K.taken output.old) (first.now ++ second.now)) }
    ensures quiet { OnOk result (K.faults output.new ≡ K.faults output.old) }
    ensures err { OnErr result (Rose (K.faults output.old) (K.faults output.new)) }
    ensures front { TakesFront (first.now ++ second.now) (K.taken output.old) (K.taken output.new) }
{
    match send_all(output, first) {
        Ok(()) => send_all(output, second),
        Err(failed) => Err(failed),
    }
}
