//! Which lines a script of a pair has, and a script of a chain.
ghost use Rattle.std.specs.Prelude.{◌≡◌, Option};
ghost use Rattle.drill_script.specs.Scripts.{arrives_in_chain, is_chain_line, is_chain_run, is_linked, is_of_chain, is_of_pair, is_pair_line, is_pair_run, is_receiver, is_sender};

use crate::line::{EndName, Line, LinkName, Stoppable, Way};

/// Whether a script of the pair `a` and `b` has this line.
#[tactic(auto, unfolding(crate::specs::Scripts::is_pair_line))]
pub fn is_pair_line(line: &Line) -> bool
    ensures { result ≡ is_pair_line line.now }
{
    match line {
        Line::Mode { link, .. } => link.is_none(),
        Line::Run(line) => is_pair_run(line),
        Line::Ask { end, .. } => is_of_pair(*end),
        Line::Pair { end, .. } => is_of_pair(*end),
        Line::Relay { .. } => false,
        Line::Lost { end, from, .. } => is_of_pair(*end) && from.is_none(),
        Line::Read { end, .. } => is_of_pair(*end),
        Line::Status { end, .. } => is_of_pair(*end),
        Line::Crash { end } => is_of_pair(*end),
        Line::Stop { line, .. } => is_pair_run(line),
        Line::Fold { end } => is_of_pair(*end),
    }
}

fn is_pair_run(line: &Stoppable) -> bool
    ensures { result ≡ is_pair_run line.now }
{
    match line {
        Stoppable::Submit { end, .. } => is_of_pair(*end),
        Stoppable::Tick { end, .. } => is_of_pair(*end),
        Stoppable::Take { end } => is_of_pair(*end),
        Stoppable::Came { end, from, .. } => is_of_pair(*end) && from.is_none(),
        Stoppable::Confirm { end, .. } => is_of_pair(*end),
    }
}

/// Whether a script of the chain `f`, `h` and `l` has this line.
#[tactic(auto, unfolding(crate::specs::Scripts::is_chain_line))]
pub fn is_chain_line(line: &Line) -> bool
    ensures { result ≡ is_chain_line line.now }
{
    match line {
        Line::Mode { link, way, .. } => is_linked(*link, *way),
        Line::Run(line) => is_chain_run(line),
        Line::Ask { end, .. } => matches!(end, EndName::Last),
        Line::Pair { .. } => false,
        Line::Relay { end, .. } => matches!(end, EndName::Hub),
        Line::Lost { end, from, .. } => arrives_in_chain(*end, *from),
        Line::Read { end, .. } => is_receiver(*end),
        Line::Status { end, .. } => is_sender(*end),
        Line::Crash { end } => is_of_chain(*end),
        Line::Stop { line, .. } => is_chain_run(line),
        Line::Fold { .. } => false,
    }
}

fn is_chain_run(line: &Stoppable) -> bool
    ensures { result ≡ is_chain_run line.now }
{
    match line {
        Stoppable::Submit { end, .. } => matches!(end, EndName::First),
        Stoppable::Tick { end, .. } => is_of_chain(*end),
        Stoppable::Take { end } => is_sender(*end),
        Stoppable::Came { end, from, .. } => arrives_in_chain(*end, *from),
        Stoppable::Confirm { end, .. } => is_receiver(*end),
    }
}

fn is_of_pair(end: EndName) -> bool
    ensures { result ≡ is_of_pair end }
{
    match end {
        EndName::A | EndName::B => true,
        EndName::First | EndName::Hub | EndName::Last => false,
    }
}

fn is_of_chain(end: EndName) -> bool
    ensures { result ≡ is_of_chain end }
{
    match end {
        EndName::A | EndName::B => false,
        EndName::First | EndName::Hub | EndName::Last => true,
    }
}

// An endpoint of a chain that submits.
fn is_sender(end: EndName) -> bool
    ensures { result ≡ is_sender end }
{
    match end {
        EndName::First | EndName::Hub => true,
        EndName::A | EndName::B | EndName::Last => false,
    }
}

// An endpoint of a chain with an inbox.
fn is_receiver(end: EndName) -> bool
    ensures { result ≡ is_receiver end }
{
    match end {
        EndName::Hub | EndName::Last => true,
        EndName::A | EndName::B | EndName::First => false,
    }
}

// A package arrives at an endpoint of a chain, from an endpoint of it.
fn arrives_in_chain(end: EndName, from: Option<EndName>) -> bool
    ensures { result ≡ arrives_in_chain end from }
{
    match from {
        Some(from) => is_of_chain(end) && is_of_chain(from),
        None => false,
    }
}

// A mode of a chain is of a link. The first endpoint only pushes.
fn is_linked(link: Option<LinkName>, way: Way) -> bool
    ensures { result ≡ is_linked link way }
{
    match link {
        Some(LinkName::Front) => matches!(way, Way::Push),
        Some(LinkName::Rear) => true,
        None => false,
    }
}
