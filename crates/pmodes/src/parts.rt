//! The parts of a mode, as they are read.

use as4_values::{Agreement, Route, Service, Side, Text};

/// The partners of a mode.
#[derive(Drop)]
pub struct Partners {
    pub name: Text,
    pub from: Side,
    pub to: Side,
}

/// The business of a mode.
#[derive(Drop)]
pub struct Business {
    pub service: Service,
    pub action: Text,
    pub agreement: Option<Agreement>,
}

/// How a mode's messages are sent.
#[derive(Drop)]
pub struct Sending {
    pub route: Route,
    pub retries: u32,
    /// In milliseconds.
    pub period: u64,
    pub collect: bool,
}
