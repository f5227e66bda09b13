//! Workers, and what each does.

use as4_values::Text;
use office::Call;
use pass_book::Pass;

/// What a worker does in each turn.
#[derive(Drop)]
pub enum Job {
    /// Serves a guest of its door as the partner's MSH.
    Peer,
    /// Serves a guest of its door as a local application.
    Local,
    /// Pushes the message that is due first.
    Push,
    /// Sends a pull request by the P-Mode of this name.
    Pull { mode: Text },
    /// Sets the clock of the endpoint.
    Tick,
}

/// One caller of an office: what it does, with what, and how often.
#[derive(Drop)]
pub struct Worker<'a, W: Drop, L: Drop, C: Drop, N: Drop> {
    pub job: Job,
    /// Its view of the history, and its share in it.
    pub pass: Pass<'a, Call>,
    /// Where guests come from. Only a worker with the job `Peer` or `Local` uses it, and has nothing to do without one.
    pub door: Option<W>,
    /// What opens connections to partners, for the jobs `Push` and `Pull`.
    pub link: L,
    pub clock: C,
    pub nonces: N,
    /// The number of turns that it makes.
    pub turns: u64,
    /// The number of turns for which memory ran out.
    pub starved: u64,
}
