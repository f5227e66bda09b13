//! The moment of a stamp.

ghost use Rattle.std.specs.Prelude.{◌≡◌, ◌+◌, ◌<◌, ◌≤◌, ℕ, IfSome, IsNone, length, pos};
ghost use Rattle.as4_audit.specs.Taking.{IsDayOf};
ghost use Rattle.as4_values.specs.Moment.{IsStampOf};
ghost use Rattle.as4_values.specs.Stamp.{two};
ghost use Rattle.jiff_core.specs.Calendar.{IsCivilDate};

use as4_values::{MAX_MOMENT, StampText, is_moment_stamp};
use jiff_core::civil::Date;

/// The moment of which the text is the stamp, in milliseconds since 1970-01-01T00:00:00Z; None if there is none. Takes
/// no memory.
pub fn stamp_ms(stamp: &StampText) -> Option<u64>
    ensures some { IfSome result (λ ms. IsStampOf ms stamp.now × (ms ≤ MAX_MOMENT)) }
    ensures none { IsNone result → (ms : ℕ) → IsStampOf ms stamp.now → ⊥ }
{
    let text = stamp.bytes();
    if !is_moment_stamp(text) {
        return None;
    }
    let year = two(text, 0) * 100 + two(text, 2);
    let day = day_of(year, two(text, 5), two(text, 8))?;
    let time = two(text, 11) * 3_600_000 + two(text, 14) * 60_000 + two(text, 17) * 1000;
    let milli = two(text, 20) * 10 + text[22].saturating_sub(48) as u64;
    Some(day * 86_400_000 + time + milli)
}

/// The number of days from 1970-01-01 to a date.
fn day_of(year: u64, month: u64, day: u64) -> Option<u64>
    requires since { 1970 ≤ year }
    requires until { year ≤ 9999 }
    requires month { month ≤ 12 }
    requires day { day ≤ 31 }
    requires date { IsCivilDate (pos year) month day }
    ensures { IsDayOf year month day result }
{
    match Date::new(year as i16, month as i8, day as i8) {
        Ok(date) => Some(date.to_unix_epoch_day().unsigned_abs() as u64),
        Err(_) => None,
    }
}

/// The number of the two digits at a place.
fn two(text: &[u8], at: usize) -> u64
    requires { at + 1 < length text.now }
    ensures value { result ≡ two text.now at }
    ensures bound { result < 3000 }
{
    text[at].saturating_sub(48) as u64 * 10 + text[at + 1].saturating_sub(48) as u64
}
