//! The unread bytes, and reading numbers and octets from their beginning.

ghost use Rattle.std.specs.Prelude.{◌≡◌, ℕ, ◌<◌, ◌≤◌, ◌==◌, ◌^◌, ◌++◌, ◌∷◌, [], List, length, IfErr, IfOk, OnErr};
ghost use Rattle.byte_forms.specs.Bytes.{number_body, text_body};
ghost use Rattle.byte_forms.specs.Forms.{IsCounted, Refuses};

use crate::refusal::BodyRefusal;
use std::marker::Model;

/// The unread bytes.
#[derive(Drop)]
pub struct Rest<'a> {
    bytes: &'a [u8],
}

impl<'a> Model for Rest<'a> {
    ghost Value = { List ℕ };

    ghost view = { λ rest. rest.bytes.now };
}

impl<'a> Rest<'a> {
    pub fn of(bytes: &'a [u8]) -> Rest<'a>
        ensures { result ≡ bytes.now }
    {
        Rest { bytes }
    }

    pub fn is_empty(&self) -> bool
        ensures { result ≡ (length self.now == 0) }
    {
        self.bytes.is_empty()
    }

    /// Takes the first `len` bytes.
    fn take(&mut self, len: usize) -> Result<&'a [u8], BodyRefusal>
        ensures found { IfOk result (λ front. (length front.now ≡ len) × (self.old ≡ front.now ++ self.new)) }
        ensures short { OnErr result (length self.old < len) }
        ensures cause { IfErr result (λ e. e ≡ BodyRefusal.NotBody) }
    {
        let bytes = self.bytes;
        if bytes.len() < len {
            return Err(BodyRefusal::NotBody);
        }
        self.bytes = &bytes[len..];
        Ok(&bytes[..len])
    }

    /// Takes one byte.
    pub fn take_byte(&mut self) -> Result<u8, BodyRefusal>
        ensures found { IfOk result (λ byte. self.old ≡ byte ∷ self.new) }
        ensures short { OnErr result (self.old ≡ []) }
        ensures cause { IfErr result (λ e. e ≡ BodyRefusal.NotBody) }
    {
        let bytes = self.bytes;
        let Some((byte, rest)) = bytes.split_first() else {
            return Err(BodyRefusal::NotBody);
        };
        self.bytes = rest;
        Ok(*byte)
    }

    /// Takes a number of `places` bytes, big endian.
    pub fn take_number(&mut self, places: usize) -> Result<u64, BodyRefusal>
        requires { places ≤ 8 }
        ensures found { IfOk result (λ number. (number < 256 ^ places) × (self.old ≡ number_body places number ++ self.new)) }
        ensures short { OnErr result (length self.old < places) }
        ensures cause { IfErr result (λ e. e ≡ BodyRefusal.NotBody) }
    {
        Ok(number_of(self.take(places)?))
    }

    /// Takes a count and the bytes that follow it.
    pub fn take_octets(&mut self) -> Result<&'a [u8], BodyRefusal>
        ensures found { IfOk result (λ octets. IsCounted octets.now × (self.old ≡ text_body octets.now ++ self.new)) }
        ensures not_body { OnErr result (Refuses IsCounted text_body self.old) }
        ensures cause { IfErr result (λ e. e ≡ BodyRefusal.NotBody) }
    {
        let len = self.take_number(4)?;
        let octets = self.take(len as usize)?;
        Ok(octets)
    }
}

/// The number of these bytes, big endian.
fn number_of(bytes: &[u8]) -> u64
    requires { length bytes.now ≤ 8 }
    ensures within { result < 256 ^ length bytes.now }
    ensures body { number_body (length bytes.now) result ≡ bytes.now }
{
    let mut number = 0;
    for byte in bytes {
        number = number * 256 + *byte as u64;
    }
    number
}
