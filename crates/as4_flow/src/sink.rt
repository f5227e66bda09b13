//! What takes bytes, a piece at a time, until it fails.
//!
//!     Took(n)  the first n bytes of the piece were taken
//!     Failed   a fault: nothing was taken, and the count of faults rose; no other answer raises it
ghost use Rattle.std.specs.Prelude.{◌≡◌, ℕ, Option, List, [], ◌<◌, ◌≤◌, length, take, OnOk, OnErr, IsOk};
ghost use Rattle.as4_flow.specs.Flow.{appended, TakesFront, Rose};

/// What a write answers.
#[derive(Clone, Copy, Debug, PartialEq, Eq)]
pub enum Put {
    /// This many bytes were taken, at least one. The others are to be written again.
    Took(usize),
    /// Nothing was taken.
    Failed,
}

pub trait Sink {
    ghost use Rattle.as4_flow.specs.Put.{IfTook};

    /// The bytes that were taken so far, where the sink is observable.
    ghost taken: { Self → Option (List ℕ) };

    /// How many faults there were, up to the last value of a `u64`.
    ghost faults: { Self → ℕ };

    /// Takes a prefix of the piece, as much as it can at once.
    fn write(&mut self, piece: &[u8]) -> Put
        requires { 0 < length piece.now }
        ensures some { IfTook result (λ n. (1 ≤ n) × (n ≤ length piece.now)) }
        ensures bytes { IfTook result (λ n. taken self.new ≡ appended (taken self.old) (take n piece.now)) }

        ensures stays { result ≡ Put.Failed → taken self.new ≡ taken self.old }
        ensures failed { result ≡ Put.Failed → Rose (faults self.old) (faults self.new) }
        ensures quiet { IfTook result (λ _. faults self.new ≡ faults self.old) }
        ensures counted { faults self.old ≤ faults self.new };
}

/// The sink failed, and took only a prefix of the bytes: what it takes after this doesn't continue them.
#[derive(Clone, Copy, Debug, PartialEq, Eq)]
pub struct SendFailed;

/// Writes all the bytes, in as many pieces as the sink needs. It takes no memory.
#[tactic(auto, using(crate::proofs::FlowLemmas::appended_more))]
pub fn send_all<K: Sink>(sink: &mut K, bytes: &[u8]) -> Result<(), SendFailed>
    ensures ok { OnOk result (K.taken sink.new ≡ appended (K.taken sink.old) bytes.now) }
    ensures quiet { OnOk result (K.faults sink.new ≡ K.faults sink.old) }
    ensures err { OnErr result (Rose (K.faults sink.old) (K.faults sink.new)) }

    // Whatever the answer, what the sink took is a prefix of the bytes.
    ensures front { TakesFront bytes.now (K.taken sink.old) (K.taken sink.new) }
    ensures counted { K.faults sink.old ≤ K.faults sink.new }

    // No bytes make no call.
    ensures nothing { bytes.now ≡ [] → IsOk result × (sink.new ≡ sink.old) }
{
    let mut sent = 0;
    while sent < bytes.len() {
        match sink.write(&bytes[sent..]) {
            Put::Took(n) => sent += n,
            Put::Failed => return Err(SendFailed),
        }
    }
    Ok(())
}
