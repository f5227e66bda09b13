//! How long one direction of a connection may take: 60 s, and a further second for each 16,384 bytes that moved. A peer
//! that sends or takes a byte a minute is cut off after a minute.
ghost use Rattle.std.specs.Prelude.{◌≡◌, ◌+◌, ◌-◌, ◌*◌, ◌/◌, min};
ghost use Rattle.std.specs.Duration.{as_nanos};

use std::time::Duration;

/// The longest that a connect, a read or a write may take, in seconds.
pub(crate) const LIMIT: u64 = 60;

const _: () = prove!(LIMIT == 60);

/// How many bytes add a second.
const BYTES: u64 = 16_384;

const _: () = prove!(BYTES == 16384);

/// How long the next call may take, after this time and this many bytes. Nothing where the time is spent.
pub fn time_left(spent: Duration, moved: u64) -> Duration
    ensures { as_nanos result ≡ min ((60 + moved / 16384) * 1_000_000_000 - as_nanos spent) (60 * 1_000_000_000) }
{
    Duration::from_secs(LIMIT + moved / BYTES)
        .saturating_sub(spent)
        .min(Duration::from_secs(LIMIT))
}
