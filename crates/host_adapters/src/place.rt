//! The host and the port of an address.

/// The port of an address that has none.
const PORT: u16 = 80;

const _: () = prove!(PORT == 80);

/// The host and the port of an address. An address is a host, optionally `:` and a port, and optionally `/` and a target
/// which isn't used; `http://` may precede it. A host is a name, an IPv4 address or an IPv6 address in brackets, which are
/// left out of the answer. A port that is missing is 80.
pub fn place_of(address: &str) -> Option<(&str, u16)> {
    let rest = address.strip_prefix("http://").unwrap_or(address);
    let place = match rest.split_once('/') {
        Some((place, _)) => place,
        None => rest,
    };
    match place.rsplit_once(':') {
        Some((host, port)) if !port.ends_with(']') => Some((bare(host), port.parse().ok()?)),
        _ => Some((bare(place), PORT)),
    }
}

// The host without its brackets.
fn bare(host: &str) -> &str {
    match host.strip_prefix('[') {
        Some(inner) => inner.strip_suffix(']').unwrap_or(host),
        None => host,
    }
}
