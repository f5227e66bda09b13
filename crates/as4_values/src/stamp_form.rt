//! The forms of a stamp; `0` is any digit.
//!
//!     0000-00-00T00:00:00   then
//!     .0 to .000000000      one to nine digits, or nothing, then
//!     Z, +00:00 or -00:00   or nothing

ghost use Rattle.std.specs.Prelude.{◌≡◌, ◌+◌, ℕ, IsNone, IfSome, length};
ghost use Rattle.as4_values.specs.Stamp.{Fits, fits_byte, IsForm};
ghost use Rattle.as4_values.specs.StampParts.{Has, Stops, IsTailForm, IsZoneForm, IsOffsetForm};

/// A date and a time to the second.
const SECONDS: &[u8; 19] = b"0000-00-00T00:00:00";

/// The decimal places, at most nine.
const PLACES: &[u8; 9] = b"000000000";

/// An offset from UTC, without its sign.
const OFFSET: &[u8; 5] = b"00:00";

/// The length of the longest prefix that fits the beginning of some form of a stamp; None where the whole text fits a
/// form.
pub fn form_end(text: &[u8]) -> Option<usize>
    ensures whole { IsNone result → Has IsForm text.now }
    ensures stop { IfSome result (Stops IsForm text.now) }
{
    let fitting = matching(SECONDS, text);
    if fitting < SECONDS.len() {
        return Some(fitting);
    }
    Some(SECONDS.len() + tail_end(&text[SECONDS.len()..])?)
}

/// The same for the text after the seconds.
fn tail_end(tail: &[u8]) -> Option<usize>
    ensures whole { IsNone result → Has IsTailForm tail.now }
    ensures stop { IfSome result (Stops IsTailForm tail.now) }
{
    if tail.is_empty() || tail[0] != b'.' {
        return zone_end(tail);
    }
    let places = matching(PLACES, &tail[1..]);
    if places == 0 {
        return Some(1);
    }
    Some(1 + places + zone_end(&tail[1 + places..])?)
}

/// The same for the zone.
#[tactic(auto, using(crate::proofs::FormLemmas::local_whole, crate::proofs::FormLemmas::utc_whole, crate::proofs::FormLemmas::utc_stops))]
fn zone_end(zone: &[u8]) -> Option<usize>
    ensures whole { IsNone result → Has IsZoneForm zone.now }
    ensures stop { IfSome result (Stops IsZoneForm zone.now) }
{
    if zone.is_empty() {
        return None;
    }
    if zone[0] == b'Z' {
        return if zone.len() == 1 { None } else { Some(1) };
    }
    if zone[0] != b'+' && zone[0] != b'-' {
        return Some(0);
    }
    Some(1 + offset_end(&zone[1..])?)
}

/// The same for the text after the sign of an offset.
fn offset_end(offset: &[u8]) -> Option<usize>
    ensures whole { IsNone result → Has IsOffsetForm offset.now }
    ensures stop { IfSome result (Stops IsOffsetForm offset.now) }
{
    let fitting = matching(OFFSET, offset);
    if fitting == OFFSET.len() && offset.len() == OFFSET.len() {
        None
    } else {
        Some(fitting)
    }
}

/// The length of the longest prefix of the text that fits the form.
pub fn matching(form: &[u8], text: &[u8]) -> usize
    ensures fits { Fits form.now text.now result }
    ensures no_more { Fits form.now text.now (result + 1) → ⊥ }
{
    for at in 0..form.len() {
        if at == text.len() || !fits_byte(form[at], text[at]) {
            return at;
        }
    }
    form.len()
}

#[tactic(auto, unfolding(crate::specs::Stamp::fits_byte))]
fn fits_byte(wanted: u8, byte: u8) -> bool
    ensures { result ≡ fits_byte wanted byte }
{
    if wanted == b'0' {
        byte.is_ascii_digit()
    } else {
        byte == wanted
    }
}
