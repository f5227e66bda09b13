//! Stamps: dates with times, as texts.

ghost use Rattle.std.specs.Prelude.{◌≡◌, ℕ, ◌+◌, ◌<◌, ◌≤◌, ◌↔◌, List, pos, IsNone, IfSome, IfOk, IfErr, IsTrue, false, length};
ghost use Rattle.as4_values.specs.Stamp.{IsStamp, StampGoesWrong, wrong_field, wrong_offset, has_offset, outside, two, year_of};
ghost use Rattle.jiff_core.specs.Calendar.{days_in_month};

use crate::lists::Octets;
use crate::memory::NoMemory;
use crate::plain_data::PlainData;
use crate::stamp_form::form_end;
use jiff_core::civil::Date;
use std::alloc::Global;
use std::marker::Model;

/// A stamp (XML Schema Part 2, section 3.2.7), kept as its text: a date from the year 1 to 9999 and a time with zero to
/// nine decimal places of a second. Its zone is UTC, an offset of at most 14 hours, or missing.
#[derive(Drop)]
pub struct StampText {
    pub(crate) octets: Octets,
}

impl Model for StampText {
    ghost Value = { List ℕ };

    ghost view = { λ stamp. stamp.octets };

    ghost invariant = { λ stamp. IsStamp stamp.octets };
}

impl StampText {
    pub fn bytes(&self) -> &[u8]
        ensures value { result.now ≡ self.now }
        ensures spelled { IsStamp self.now }
    {
        self.octets.bytes()
    }
}

impl PlainData for StampText {
    fn try_clone(&self, alloc: Global) -> Result<StampText, NoMemory> {
        Ok(StampText {
            octets: self.octets.try_clone(alloc)?,
        })
    }

    fn same(&self, other: &StampText) -> bool {
        self.octets.same(&other.octets)
    }
}

/// Why the bytes aren't a stamp.
#[derive(Clone, Copy, Debug, PartialEq, Eq)]
pub enum StampRefusal {
    /// The place of the first byte that fits no form of a stamp, or the length where the bytes end too soon. Where all
    /// bytes fit, the place of the first field that is out of range: year, month, day, hour, minute, second, the
    /// offset's hours, the offset's minutes.
    BadStamp { at: usize },
    /// Memory ran out.
    NoMemory,
}

/// Reads a stamp: all of the bytes, unchanged.
pub fn read_stamp(alloc: Global, bytes: &[u8]) -> Result<StampText, StampRefusal>
    ensures found { IfOk result (λ stamp. (stamp ≡ bytes.now) × IsStamp bytes.now) }
    ensures only { IsStamp bytes.now → IfErr result (λ e. e ≡ StampRefusal.NoMemory) }
    ensures bad_stamp { (at : ℕ) → (result ≡ Err (StampRefusal.BadStamp at)) ↔ StampGoesWrong bytes.now at }
{
    if let Some(at) = wrong_place(bytes) {
        return Err(StampRefusal::BadStamp { at });
    }
    match Vec::from_slice(alloc, bytes) {
        Ok(items) => Ok(StampText {
            octets: Octets::of(items),
        }),
        Err(_) => Err(StampRefusal::NoMemory),
    }
}

/// Where the text goes wrong; None where it is a stamp.
fn wrong_place(text: &[u8]) -> Option<usize>
    ensures none { IsNone result ↔ IsStamp text.now }
    ensures wrong { IfSome result (StampGoesWrong text.now) }
    ensures only { (at : ℕ) → StampGoesWrong text.now at → result ≡ Some at }
{
    if let Some(at) = form_end(text) {
        return Some(at);
    }
    wrong_field(text)
}

/// The place of the first field that is out of range.
#[tactic(auto, unfolding(crate::specs::Stamp::wrong_field))]
pub fn wrong_field(text: &[u8]) -> Option<usize>
    requires { 19 ≤ length text.now }
    ensures { result ≡ wrong_field text.now }
{
    let (year, month, day) = (year_of(text), two(text, 5), two(text, 8));
    if is_outside(1, 9999, year) {
        Some(0)
    } else if is_outside(1, 12, month) {
        Some(5)
    } else if !is_day(year, month, day) {
        Some(8)
    } else if is_outside(0, 23, two(text, 11)) {
        Some(11)
    } else if is_outside(0, 59, two(text, 14)) {
        Some(14)
    } else if is_outside(0, 59, two(text, 17)) {
        Some(17)
    } else if has_offset(text) {
        wrong_offset(text, text.len() - 5)
    } else {
        None
    }
}

/// The place of the first field of the offset that is out of range: an offset is at most 14:00.
fn wrong_offset(text: &[u8], at: usize) -> Option<usize>
    requires { at + 5 ≤ length text.now }
    ensures { result ≡ wrong_offset text.now at }
{
    let hours = two(text, at);
    let last_minute = if hours == 14 { 0 } else { 59 };
    if is_outside(0, 14, hours) {
        Some(at)
    } else if is_outside(0, last_minute, two(text, at + 3)) {
        Some(at + 3)
    } else {
        None
    }
}

/// Whether the sixth byte from the end is a sign.
fn has_offset(text: &[u8]) -> bool
    requires { 6 ≤ length text.now }
    ensures { result ≡ has_offset text.now }
{
    matches!(text[text.len() - 6], b'+' | b'-')
}

pub fn year_of(text: &[u8]) -> u64
    requires { 4 ≤ length text.now }
    ensures value { result ≡ year_of text.now }
    ensures bound { result < 400000 }
{
    two(text, 0) * 100 + two(text, 2)
}

/// The number of the two digits at a place.
fn two(text: &[u8], at: usize) -> u64
    requires { at + 1 < length text.now }
    ensures value { result ≡ two text.now at }
    ensures bound { result < 3000 }
{
    text[at].saturating_sub(48) as u64 * 10 + text[at + 1].saturating_sub(48) as u64
}

#[tactic(auto, unfolding(crate::specs::Stamp::outside))]
fn is_outside(low: u64, high: u64, n: u64) -> bool
    ensures { result ≡ outside low high n }
{
    n < low || high < n
}

/// Whether the month of the year has this day.
#[tactic(auto, unfolding(crate::specs::Stamp::outside))]
fn is_day(year: u64, month: u64, day: u64) -> bool
    requires year { outside 1 9999 year ≡ false }
    requires month { outside 1 12 month ≡ false }
    ensures { IsTrue result ↔ (outside 1 (days_in_month (pos year) month) day ≡ false) }
{
    day <= 31 && Date::new(year as i16, month as i8, day as i8).is_ok()
}
