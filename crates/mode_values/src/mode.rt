//! Processing modes.

ghost use Rattle.std.specs.Prelude.{IsTrue};
ghost use Rattle.mode_values.specs.ModeRanges.{is_mode_name, is_short, is_short_side, is_short_service, is_mode_agreement, is_mode_route, may_collect, IsRetries, IsPeriod};

use as4_values::{Agreement, NoMemory, PlainData, Route, Service, Side, Text, try_clone_four};
use std::alloc::Global;

/// A processing mode (P-Mode, ebMS 3.0 Core, section 4 and appendix D): what two parties have agreed on for one kind of
/// user message. Its texts have at most 255 bytes.
#[derive(Drop)]
pub struct Mode {
    /// 1 to 64 letters, digits, `-`, `_` and `.`.
    pub name: Text,
    pub from: Side,
    pub to: Side,
    pub service: Service,
    pub action: Text,
    /// Its `pmode` is absent.
    pub agreement: Option<Agreement>,
    pub route: Route,
    /// How often a message is sent again: 0 to 1,000 times.
    pub retries: u32,
    /// The time between two tries, 1 to 1,000,000,000 milliseconds.
    pub period: u64,
    /// Whether this endpoint sends the pull requests; true only where the route is a pull.
    pub collect: bool,
    pub ghost named: { IsTrue (is_mode_name name) },
    pub ghost from_short: { IsTrue (is_short_side from.parties from.role) },
    pub ghost to_short: { IsTrue (is_short_side to.parties to.role) },
    pub ghost service_short: { IsTrue (is_short_service service) },
    pub ghost action_short: { IsTrue (is_short action) },
    pub ghost agreed: { IsTrue (is_mode_agreement agreement) },
    pub ghost routed: { IsTrue (is_mode_route route) },
    pub ghost limited: { IsRetries retries },
    pub ghost timed: { IsPeriod period },
    pub ghost collects: { IsTrue (may_collect route collect) },
}

impl PlainData for Mode {
    fn try_clone(&self, alloc: Global) -> Result<Mode, NoMemory> {
        match (
            try_clone_four(alloc, &self.name, &self.from, &self.to, &self.service),
            self.action.try_clone(alloc),
            self.agreement.try_clone(alloc),
            self.route.try_clone(alloc),
        ) {
            (Ok(ends), Ok(action), Ok(agreement), Ok(route)) => {
                let (name, from, to, service) = ends;
                Ok(Mode {
                    name,
                    from,
                    to,
                    service,
                    action,
                    agreement,
                    route,
                    retries: self.retries,
                    period: self.period,
                    collect: self.collect,
                })
            }
            (ends, action, agreement, route) => {
                drop(ends);
                drop(action);
                drop(agreement);
                drop(route);
                Err(NoMemory)
            }
        }
    }

    fn same(&self, other: &Mode) -> bool {
        self.name.same(&other.name)
            && self.from.same(&other.from)
            && self.to.same(&other.to)
            && self.service.same(&other.service)
            && self.action.same(&other.action)
            && self.agreement.same(&other.agreement)
            && self.route.same(&other.route)
            && self.retries == other.retries
            && self.period == other.period
            && self.collect == other.collect
    }
}
