//! A source read to its end, into one buffer.
ghost use Rattle.std.specs.Prelude.{◌≡◌, ℕ, [], ◌+◌, ◌++◌, ◌<◌, ◌≤◌, length, IfOk, OnOk, IsErrOf};
ghost use Rattle.as4_flow.specs.Flow.{Told, before, LosesFront, Rose};

use crate::{Got, Source};
use std::alloc::{AllocError, Global};

/// The most bytes that one read asks for.
const PIECE: usize = 1 << 16;

const _: () = prove!(PIECE == 65536);

/// The least that the buffer grows by, in bytes.
const LEAST_STEP: usize = 1 << 20;

const _: () = prove!(LEAST_STEP == 1048576);

/// Why a source was not read to its end.
#[derive(Clone, Copy, Debug, PartialEq, Eq)]
pub enum ReadRefusal {
    /// The source failed. The bytes that came before that are dropped.
    Failed,
    /// More bytes came than the limit allows. One byte above it was read, and the bytes after it were not.
    TooLong,
    /// There was no memory for the bytes. Those that came are dropped.
    NoMemory,
}

impl From<AllocError> for ReadRefusal {
    ghost use Rattle.as4_flow.specs.declared.reading.ReadRefusal.TheVariants.{NoMemory};

    ghost from_gives = { λ _ refusal. refusal ≡ NoMemory };

    fn from(_: AllocError) -> Self {
        ReadRefusal::NoMemory
    }
}

/// Reads a source to its end.
#[tactic(auto, using(crate::proofs::FlowLemmas::before_more))]
pub fn read_all<S: Source>(
    alloc: Global,
    source: &mut S,
    limit: usize,
) -> Result<Vec<u8>, ReadRefusal>
    ensures bytes { IfOk result (λ bytes. S.left source.old ≡ before bytes.items (S.left source.new)) }
    ensures end { OnOk result (Told (S.left source.new) (λ bytes. bytes ≡ [])) }
    ensures within { IfOk result (λ bytes. length bytes.items ≤ limit) }

    ensures too_long { IsErrOf result ReadRefusal.TooLong → Told (S.left source.old) (λ bytes. limit < length bytes) }
    ensures failed { IsErrOf result ReadRefusal.Failed → Rose (S.faults source.old) (S.faults source.new) }

    // Whatever the answer, the source has lost a prefix, of one byte above the limit at most.
    ensures front { LosesFront (limit + 1) (S.left source.old) (S.left source.new) }
    ensures counted { S.faults source.old ≤ S.faults source.new }

    // No fault is read over.
    ensures quiet { ¬ IsErrOf result ReadRefusal.Failed → S.faults source.new ≡ S.faults source.old }
{
    let mut room = vec![in alloc; 0; PIECE.min(limit.saturating_add(1))]?;
    let mut bytes = Vec::new(alloc);
    'pieces: while bytes.len() <= limit {
        let most = room.len().min((limit - bytes.len()).saturating_add(1));
        let piece = &mut room[..most];
        match source.read(piece) {
            Got::Gave(n) => append(&mut bytes, &piece[..n], limit)?,
            Got::End => return Ok(bytes),
            Got::Failed => return Err(ReadRefusal::Failed),
        }
    }
    Err(ReadRefusal::TooLong)
}

// Appends a piece. Where there is no room, it makes some for half of what is there too, up to the limit.
fn append(bytes: &mut Vec<u8>, piece: &[u8], limit: usize) -> Result<(), AllocError>
    ensures ok { OnOk result (bytes.new.items ≡ bytes.old.items ++ piece.now) }
{
    if bytes.capacity() - bytes.len() < piece.len() {
        let step = LEAST_STEP
            .max(bytes.len() / 2)
            .min(limit.saturating_sub(bytes.len()));
        bytes.reserve_exact(step.max(piece.len()))?;
    }
    bytes.extend_from_slice(piece)
}
