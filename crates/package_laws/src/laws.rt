//! A written envelope and its payloads are read back.

ghost use Rattle.std.specs.Prelude.{◌≡◌, ◌≤◌, ℕ, List, [], Ok, length, map};
ghost use Rattle.message_model.specs.Package.{IsFree, envelope_media, package_media, package_body};
ghost use Rattle.mime_package.specs.Reading.{package_of};
ghost use Rattle.package_laws.specs.Written.{payload_part};

use as4_values::{Payload, Seq};

/// A written envelope and its payloads are read back (RFC 2046, section 5.1; RFC 2387).
pub fn package_is_read_again(payloads: &Seq<Payload>)
    ensures { (root : List ℕ) (n : ℕ) → IsFree n root payloads.now → length payloads.now ≤ 255
        → package_of (package_media n) (package_body n root payloads.now) ≡ Ok (record { root = root; parts = map payload_part payloads.now }) }
{}

/// A bare envelope is read as itself, without parts.
pub fn envelope_is_read_again()
    ensures { (root : List ℕ) → package_of envelope_media root ≡ Ok (record { root = root; parts = [] }) }
{}
