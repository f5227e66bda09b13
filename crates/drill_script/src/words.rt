//! The words of a line, one at a time.
ghost use Rattle.std.specs.Prelude.{◌≡◌, ℕ, Some, List, Option, ◌∷◌, ◌++◌, ◌<◌, ◌≤◌, ◌^◌, IfOk, IfSome, IsTrue};
ghost use Rattle.std.specs.List.{list_all};
ghost use Rattle.std.specs.Option.{IsSomeAnd};
ghost use Rattle.std.specs.Fmt.{decimal};
ghost use Rattle.drill_script.specs.Lacking.{spaced};
ghost use Rattle.drill_script.specs.LineParts.{arrival_text};
ghost use Rattle.drill_script.specs.LineText.{end_text, link_text, way_text, pick_text, is_drill_byte, is_name};
ghost use Rattle.as4_disk.specs.declared.change.Pick.{Pick};

use crate::line::{EndName, LinkName, Way};
use as4_disk::Pick;
use as4_values::{NoMemory, Octets};
use byte_forms::{cut_at, decimal_of};
use std::alloc::Global;

/// The last device call at which a line may be stopped; the first is 1.
pub const MAX_CALL: u64 = 4;

const _: () = prove!(MAX_CALL == 4);

/// Reads a decimal number of 64 bits.
pub(crate) fn number_of(word: &[u8]) -> Option<u64>
    ensures found { IfSome result (λ number. word.now ≡ decimal number) }
    ensures range { IfSome result (λ number. number < 2 ^ 64) }
    ensures only { (number : ℕ) → number < 2 ^ 64 → word.now ≡ decimal number → result ≡ Some number }
{
    u64::try_from(decimal_of(word)?).ok()
}

/// Whether these bytes may name a mode: 1 to 32 of a to z and 0 to 9.
#[tactic(auto, unfolding(crate::specs::LineText::is_name))]
pub(crate) fn may_name(word: &[u8]) -> bool
    ensures { result ≡ is_name word.now }
{
    if word.is_empty() || word.len() > 32 {
        return false;
    }
    has_name_bytes(word)
}

// Whether each byte is one of a to z or 0 to 9.
fn has_name_bytes(word: &[u8]) -> bool
    ensures { result ≡ list_all is_drill_byte word.now }
{
    word.iter().all(|byte| (97 <= *byte && *byte <= 122) || (48 <= *byte && *byte <= 57))
}

/// Reads the name of an endpoint.
pub(crate) fn end_of(word: &[u8]) -> Option<EndName>
    ensures found { IfSome result (λ end. word.now ≡ end_text end) }
    ensures only { (end : EndName) → word.now ≡ end_text end → result ≡ Some end }
{
    if word == b"a".as_slice() {
        return Some(EndName::A);
    }
    if word == b"b".as_slice() {
        return Some(EndName::B);
    }
    if word == b"f".as_slice() {
        return Some(EndName::First);
    }
    if word == b"h".as_slice() {
        return Some(EndName::Hub);
    }
    if word == b"l".as_slice() {
        return Some(EndName::Last);
    }
    None
}

// Reads the name of a link.
fn link_of(word: &[u8]) -> Option<LinkName>
    ensures found { IfSome result (λ link. word.now ≡ link_text link) }
    ensures only { (link : LinkName) → word.now ≡ link_text link → result ≡ Some link }
{
    if word == b"fh".as_slice() {
        return Some(LinkName::Front);
    }
    if word == b"hl".as_slice() {
        return Some(LinkName::Rear);
    }
    None
}

// Reads a way.
fn way_of(word: &[u8]) -> Option<Way>
    ensures found { IfSome result (λ way. word.now ≡ way_text way) }
    ensures only { (way : Way) → word.now ≡ way_text way → result ≡ Some way }
{
    if word == b"push".as_slice() {
        return Some(Way::Push);
    }
    if word == b"pull".as_slice() {
        return Some(Way::Pull);
    }
    None
}

// Reads a pick.
fn pick_of(word: &[u8]) -> Option<Pick>
    ensures found { IfSome result (λ pick. word.now ≡ pick_text pick) }
    ensures only { (pick : Pick) → word.now ≡ pick_text pick → result ≡ Some pick }
{
    if word == b"old".as_slice() {
        return Some(Pick::Old);
    }
    if word == b"new".as_slice() {
        return Some(Pick::New);
    }
    if word == b"other".as_slice() {
        return Some(Pick::Other);
    }
    None
}

/// Reads an endpoint, and returns the rest.
#[tactic(auto, using(crate::proofs::WordLemmas::end_unspaced))]
pub(crate) fn end_and(words: &[u8]) -> Option<(EndName, &[u8])>
    ensures found { IfSome result (λ parts. words.now ≡ spaced (end_text parts.0) parts.1.now) }
    ensures only { (end : EndName) (rest : List ℕ) → words.now ≡ spaced (end_text end) rest
        → IsSomeAnd result (λ parts. (parts.0 ≡ end) × (parts.1.now ≡ rest)) }
{
    let (word, rest) = cut_at(b' ', words)?;
    let end = end_of(word)?;
    Some((end, rest))
}

/// Reads a way, and returns the rest.
#[tactic(auto, using(crate::proofs::WordLemmas::way_unspaced))]
pub(crate) fn way_and(words: &[u8]) -> Option<(Way, &[u8])>
    ensures found { IfSome result (λ parts. words.now ≡ spaced (way_text parts.0) parts.1.now) }
    ensures only { (way : Way) (rest : List ℕ) → words.now ≡ spaced (way_text way) rest
        → IsSomeAnd result (λ parts. (parts.0 ≡ way) × (parts.1.now ≡ rest)) }
{
    let (word, rest) = cut_at(b' ', words)?;
    let way = way_of(word)?;
    Some((way, rest))
}

/// Reads a link, and returns the rest.
#[tactic(auto, using(crate::proofs::WordLemmas::link_unspaced))]
pub(crate) fn link_and(words: &[u8]) -> Option<(LinkName, &[u8])>
    ensures found { IfSome result (λ parts. words.now ≡ spaced (link_text parts.0) parts.1.now) }
    ensures only { (link : LinkName) (rest : List ℕ) → words.now ≡ spaced (link_text link) rest
        → IsSomeAnd result (λ parts. (parts.0 ≡ link) × (parts.1.now ≡ rest)) }
{
    let (word, rest) = cut_at(b' ', words)?;
    let link = link_of(word)?;
    Some((link, rest))
}

/// Reads a number, and returns the rest.
#[tactic(auto, using(crate::proofs::WordLemmas::decimal_unspaced))]
pub(crate) fn number_and(words: &[u8]) -> Option<(u64, &[u8])>
    ensures found { IfSome result (λ parts. words.now ≡ spaced (decimal parts.0) parts.1.now) }
    ensures range { IfSome result (λ parts. parts.0 < 2 ^ 64) }
    ensures only { (number : ℕ) (rest : List ℕ) → number < 2 ^ 64 → words.now ≡ spaced (decimal number) rest
        → IsSomeAnd result (λ parts. (parts.0 ≡ number) × (parts.1.now ≡ rest)) }
{
    let (word, rest) = cut_at(b' ', words)?;
    let number = number_of(word)?;
    Some((number, rest))
}

/// Reads an endpoint and a number.
pub(crate) fn end_and_number(words: &[u8]) -> Option<(EndName, u64)>
    ensures found { IfSome result (λ parts. words.now ≡ spaced (end_text parts.0) (decimal parts.1)) }
    ensures range { IfSome result (λ parts. parts.1 < 2 ^ 64) }
    ensures only { (end : EndName) (number : ℕ) → number < 2 ^ 64 → words.now ≡ spaced (end_text end) (decimal number)
        → result ≡ Some (end, number) }
{
    let (end, word) = end_and(words)?;
    let number = number_of(word)?;
    Some((end, number))
}

/// Reads the endpoint at which a package arrives, the one that it comes from if that is named, and its number.
pub(crate) fn arrival_of(words: &[u8]) -> Option<(EndName, Option<EndName>, u64)>
    ensures found { IfSome result (λ parts. words.now ≡ arrival_text parts.0 parts.1 parts.2) }
    ensures range { IfSome result (λ parts. parts.2 < 2 ^ 64) }
    ensures only { (end : EndName) (from : Option EndName) (number : ℕ) → number < 2 ^ 64
        → words.now ≡ arrival_text end from number → result ≡ Some (end, from, number) }
{
    let (end, rest) = end_and(words)?;
    if let Some(number) = number_of(rest) {
        return Some((end, None, number));
    }
    let (from, number) = end_and_number(rest)?;
    Some((end, Some(from), number))
}

/// Reads the number of a device call, and returns the rest.
pub(crate) fn call_and(words: &[u8]) -> Option<(u8, &[u8])>
    ensures found { IfSome result (λ parts. words.now ≡ spaced (decimal parts.0) parts.1.now) }
    ensures range { IfSome result (λ parts. (1 ≤ parts.0) × (parts.0 ≤ 4)) }
    ensures only { (call : ℕ) (rest : List ℕ) → 1 ≤ call → call ≤ 4 → words.now ≡ spaced (decimal call) rest
        → IsSomeAnd result (λ parts. (parts.0 ≡ call) × (parts.1.now ≡ rest)) }
{
    let (call, rest) = number_and(words)?;
    if call < 1 || call > MAX_CALL {
        return None;
    }
    Some((call as u8, rest))
}

/// Reads a pick, and returns the rest.
#[tactic(auto, using(crate::proofs::WordLemmas::pick_unspaced))]
pub(crate) fn pick_and(words: &[u8]) -> Option<(Pick, &[u8])>
    ensures found { IfSome result (λ parts. words.now ≡ spaced (pick_text parts.0) parts.1.now) }
    ensures only { (pick : Pick) (rest : List ℕ) → words.now ≡ spaced (pick_text pick) rest
        → IsSomeAnd result (λ parts. (parts.0 ≡ pick) × (parts.1.now ≡ rest)) }
{
    let (word, rest) = cut_at(b' ', words)?;
    let pick = pick_of(word)?;
    Some((pick, rest))
}

/// Reads the name of a mode, and returns the rest.
#[tactic(auto, using(crate::proofs::WordLemmas::name_unspaced))]
pub(crate) fn name_and(words: &[u8]) -> Option<(&[u8], &[u8])>
    ensures found { IfSome result (λ parts. words.now ≡ spaced parts.0.now parts.1.now) }
    ensures name { IfSome result (λ parts. IsTrue (is_name parts.0.now)) }
    ensures only { (name rest : List ℕ) → IsTrue (is_name name) → words.now ≡ spaced name rest
        → IsSomeAnd result (λ parts. (parts.0.now ≡ name) × (parts.1.now ≡ rest)) }
{
    let (word, rest) = cut_at(b' ', words)?;
    if !may_name(word) {
        return None;
    }
    Some((word, rest))
}

/// A copy of these bytes.
pub(crate) fn octets_of(alloc: Global, bytes: &[u8]) -> Result<Octets, NoMemory>
    ensures { IfOk result (λ octets. octets ≡ bytes.now) }
{
    Ok(Octets::of(Vec::from_slice(alloc, bytes)?))
}
