//! The lines of a drill script.
use as4_disk::Pick;
use as4_values::Octets;

/// An endpoint: one of a pair, or one of a chain.
#[derive(Clone, Copy, Debug, PartialEq, Eq)]
pub enum EndName {
    A,
    B,
    /// The first endpoint of a chain.
    First,
    /// The hub of a chain.
    Hub,
    /// The last endpoint of a chain.
    Last,
}

/// A link of a chain.
#[derive(Clone, Copy, Debug, PartialEq, Eq)]
pub enum LinkName {
    /// From the first endpoint to the hub.
    Front,
    /// From the hub to the last endpoint.
    Rear,
}

/// How the messages of a mode are sent.
#[derive(Clone, Copy, Debug, PartialEq, Eq)]
pub enum Way {
    Push,
    Pull,
}

/// The payload of a message.
#[derive(Drop)]
pub enum ScriptLoad {
    Nothing,
    /// These bytes.
    Hex(Octets),
    /// This many bytes; the byte at index i is i mod 251.
    Size(u32),
}

/// A line that can be stopped.
#[derive(Drop)]
pub enum Stoppable {
    /// A message is submitted.
    Submit {
        end: EndName,
        mode: Octets,
        load: ScriptLoad,
    },
    /// The endpoint's clock is set.
    Tick {
        end: EndName,
        moment: u64,
    },
    /// The next message to be pushed is sent.
    Take {
        end: EndName,
    },
    /// The package of this number arrives: from the other endpoint of the pair, or from the named one of the chain.
    Came {
        end: EndName,
        from: Option<EndName>,
        package: u64,
    },
    /// The messages in the inbox up to this number are confirmed.
    Confirm {
        end: EndName,
        number: u64,
    },
}

/// A line of a script.
#[derive(Drop)]
pub enum Line {
    /// All endpoints have this mode: of the pair, or of the named link of the chain.
    Mode {
        name: Octets,
        link: Option<LinkName>,
        way: Way,
        retries: u32,
        period: u64,
    },
    /// The line runs to its end.
    Run(Stoppable),
    /// A pull request is sent.
    Ask {
        end: EndName,
        mode: Octets,
    },
    /// A pull request is sent with the receipt of a message in the inbox.
    Pair {
        end: EndName,
        mode: Octets,
        number: u64,
    },
    /// The package of this number arrives, and the reply is lost.
    Lost {
        end: EndName,
        from: Option<EndName>,
        package: u64,
    },
    /// The next message of the hub's inbox is submitted by this mode.
    Relay {
        end: EndName,
        mode: Octets,
    },
    /// A message in the inbox is read.
    Read {
        end: EndName,
        number: u64,
    },
    /// The status of the submission of this number is reported.
    Status {
        end: EndName,
        number: u64,
    },
    /// The endpoint loses power, and its disk is opened again.
    Crash {
        end: EndName,
    },
    /// The line's device call of this number takes effect and then fails, and so do all later ones. The reply is lost,
    /// and the image of the pick is opened.
    Stop {
        call: u8,
        pick: Pick,
        line: Stoppable,
    },
    /// The endpoint's journal is compacted.
    Fold {
        end: EndName,
    },
}
