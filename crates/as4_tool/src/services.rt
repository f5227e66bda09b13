//! Addresses of services among the words.
ghost use Rattle.std.specs.Prelude.{◌≡◌, ◌≤◌, ◌==◌, ◌↔◌, IsTrue, length, position, drop};
ghost use Rattle.std.specs.List.{position_or_len};
ghost use Rattle.as4_values.specs.Address.{is_address};
ghost use Rattle.as4_http.specs.Written.{target, behind_scheme};
ghost use Rattle.as4_tool.specs.Command.{IsService};

use as4_values::{MAX_ADDRESS, has_address_form};

/// Whether the text is the address of a service: one whose target is `/` or missing.
pub(crate) fn is_service(text: &str) -> bool
    ensures { IsTrue result ↔ IsService text.now }
{
    is_short_address(text.as_bytes()) && target_of(text.as_bytes()) == b"/".as_slice()
}

#[tactic(auto, unfolding(as4_values::specs::Address::is_address))]
fn is_short_address(bytes: &[u8]) -> bool
    ensures { result ≡ is_address bytes.now }
{
    bytes.len() <= MAX_ADDRESS && has_address_form(bytes)
}

// The target of an address, which is `/` where it has none.
fn target_of(address: &[u8]) -> &[u8]
    ensures { result.now ≡ target address.now }
{
    let rest = behind_scheme(address);
    match &rest[host_len(rest)..] {
        [] => b"/",
        target => target,
    }
}

// What follows `http://`.
fn behind_scheme(address: &[u8]) -> &[u8]
    ensures { result.now ≡ behind_scheme address.now }
{
    &address[address.len().min(7)..]
}

#[tactic(auto, using(byte_forms::proofs::SearchLemmas::position_or_end))]
fn host_len(rest: &[u8]) -> usize
    ensures value { result ≡ position_or_len (λ b. b == 47) rest.now }
    ensures within { result ≤ length rest.now }
{
    host_end(rest).unwrap_or(rest.len())
}

fn host_end(rest: &[u8]) -> Option<usize>
    ensures { result ≡ position (λ b. b == 47) rest.now }
{
    rest.iter().position(|byte| *byte == b'/')
}
