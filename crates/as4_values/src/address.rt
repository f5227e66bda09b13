//! Addresses of the other endpoint: `http://`, a host, optionally `:` and a port, and optionally a target.

ghost use Rattle.std.specs.Prelude.{◌≡◌, ◌≤◌, ◌==◌, not, length, position};
ghost use Rattle.std.specs.List.{list_all};
ghost use Rattle.as4_values.specs.Address.{is_address, has_address_form, is_host_byte, host_len, port_len, is_behind_scheme, is_behind_host, is_port, writes_port};
ghost use Rattle.as4_values.specs.Word.{is_graphic};

use crate::text::Text;

/// The most bytes that an address may have.
pub const MAX_ADDRESS: usize = 255;

const _: () = prove!(MAX_ADDRESS == 255);

const LAST_PORT: u32 = 65_535;

/// Whether the text is an address of at most 255 bytes.
#[tactic(auto, unfolding(crate::specs::Address::is_address))]
pub fn is_address(text: &Text) -> bool
    ensures { result ≡ is_address text.now }
{
    text.bytes().len() <= MAX_ADDRESS && has_address_form(text.bytes())
}

/// Whether the bytes have the form of an address, of any length.
#[tactic(auto, unfolding(crate::specs::Address::has_address_form))]
pub fn has_address_form(bytes: &[u8]) -> bool
    ensures { result ≡ has_address_form bytes.now }
{
    match bytes.strip_prefix(b"http://") {
        Some(rest) => are_graphic(rest) && is_behind_scheme(rest),
        None => false,
    }
}

fn are_graphic(bytes: &[u8]) -> bool
    ensures { result ≡ list_all is_graphic bytes.now }
{
    bytes.iter().all(|byte| is_graphic(*byte))
}

fn is_graphic(byte: u8) -> bool
    ensures { result ≡ is_graphic byte }
{
    (33..=126).contains(&byte)
}

fn is_host_byte(byte: u8) -> bool
    ensures { result ≡ is_host_byte byte }
{
    is_graphic(byte) && !matches!(byte, b'/' | b':' | b'@')
}

#[tactic(auto, unfolding(crate::specs::Address::is_behind_scheme))]
fn is_behind_scheme(rest: &[u8]) -> bool
    ensures { result ≡ is_behind_scheme rest.now }
{
    let host = host_len(rest);
    host > 0 && is_behind_host(&rest[host..])
}

#[tactic(auto, using(byte_forms::proofs::SearchLemmas::position_or_end))]
fn host_len(rest: &[u8]) -> usize
    ensures value { result ≡ host_len rest.now }
    ensures within { result ≤ length rest.now }
{
    host_end(rest).unwrap_or(rest.len())
}

fn host_end(rest: &[u8]) -> Option<usize>
    ensures { result ≡ position (λ b. not (is_host_byte b)) rest.now }
{
    rest.iter().position(|byte| !is_host_byte(*byte))
}

#[tactic(auto, unfolding(crate::specs::Address::is_behind_host))]
fn is_behind_host(rest: &[u8]) -> bool
    ensures { result ≡ is_behind_host rest.now }
{
    match rest {
        [] => true,
        [first, rest @ ..] => *first == b'/'
            || (*first == b':' && is_port(&rest[..port_len(rest)])),
    }
}

#[tactic(auto, using(byte_forms::proofs::SearchLemmas::position_or_end))]
fn port_len(rest: &[u8]) -> usize
    ensures value { result ≡ port_len rest.now }
    ensures within { result ≤ length rest.now }
{
    port_end(rest).unwrap_or(rest.len())
}

fn port_end(rest: &[u8]) -> Option<usize>
    ensures { result ≡ position (λ b. b == 47) rest.now }
{
    rest.iter().position(|byte| *byte == b'/')
}

fn is_port(digits: &[u8]) -> bool
    ensures { result ≡ is_port digits.now }
{
    !(!digits.is_empty() && digits[0] == b'0') && writes_port(digits)
}

// Whether the bytes are digits that write a number from 1 to 65,535.
#[tactic(auto, using(crate::proofs::AddressLemmas::number_step, crate::proofs::AddressLemmas::number_grows), unfolding(crate::specs::Address::writes_port))]
fn writes_port(digits: &[u8]) -> bool
    ensures { result ≡ writes_port digits.now }
{
    let mut number: u32 = 0;
    for digit in digits {
        if !digit.is_ascii_digit() {
            return false;
        }
        number = number * 10 + (*digit - b'0') as u32;
        if number > LAST_PORT {
            return false;
        }
    }
    number > 0
}
