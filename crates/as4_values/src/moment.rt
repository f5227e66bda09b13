//! Moments as stamps.
//!
//!     YYYY-MM-DDThh:mm:ss.mmmZ   year, month, day, hour, minute, second, millisecond; UTC

ghost use Rattle.std.specs.Prelude.{◌≡◌, ℕ, ◌/◌, ◌%◌, ◌≤◌, ◌++◌, ◌↔◌, List, pos, IfOk, OnOk, IsTrue};
ghost use Rattle.as4_values.specs.Moment.{IsStampOf, IsMomentStamp, digits, date_text, time_text};
ghost use Rattle.std.specs.Int.RustNames.{unsigned_abs};
ghost use Rattle.jiff_core.specs.Date.{epoch_day};

use crate::lists::Octets;
use crate::memory::NoMemory;
use crate::stamp::{StampText, wrong_field, year_of};
use crate::stamp_form::matching;
use jiff_core::civil::Date;
use std::alloc::Global;

/// The last moment that has a stamp, 9999-12-31T23:59:59.999Z, in milliseconds since 1970-01-01T00:00:00Z.
pub const MAX_MOMENT: u64 = 253_402_300_799_999;

const _: () = prove!(MAX_MOMENT == 253402300799999);

/// The form of a moment's stamp; `0` matches any digit.
const FORM: &[u8; 24] = b"0000-00-00T00:00:00.000Z";

const MS_PER_DAY: u64 = 86_400_000;

/// The stamp of a moment, in milliseconds since 1970-01-01T00:00:00Z.
pub fn stamp_text(alloc: Global, ms: u64) -> Result<StampText, NoMemory>
    requires { ms ≤ MAX_MOMENT }
    ensures { IfOk result (λ stamp. IsStampOf ms stamp) }
{
    let date = date_of(ms / MS_PER_DAY);
    let mut out = Vec::with_capacity(alloc, FORM.len())?;
    push_date(&mut out, date)?;
    out.push(b'T')?;
    push_time(&mut out, ms % MS_PER_DAY)?;
    out.push(b'Z')?;
    Ok(StampText {
        octets: Octets::of(out),
    })
}

/// A moment has one stamp.
pub fn one_stamp()
    ensures { (ms : ℕ) (a b : List ℕ) → IsStampOf ms a → IsStampOf ms b → a ≡ b }
{}

/// Whether the bytes are the stamp of some moment.
pub fn is_moment_stamp(bytes: &[u8]) -> bool
    ensures { IsTrue result ↔ IsMomentStamp bytes.now }
{
    if matching(FORM, bytes) < FORM.len() || bytes.len() > FORM.len() {
        return false;
    }
    if year_of(bytes) < 1970 {
        return false;
    }
    wrong_field(bytes).is_none()
}

/// The date that is `day` days after 1970-01-01.
fn date_of(day: u64) -> Date
    requires { day ≤ 2_932_896 }
    ensures { epoch_day result ≡ pos day }
{
    Date::from_unix_epoch_day(day as i64).unwrap()
}

fn push_date(out: &mut Vec<u8>, date: Date) -> Result<(), NoMemory>
    ensures { OnOk result (out.new.items ≡ out.old.items ++ date_text (unsigned_abs date.year) date.month date.day) }
{
    push_digits(out, 4, date.year.unsigned_abs() as u64)?;
    out.push(b'-')?;
    push_digits(out, 2, date.month as u64)?;
    out.push(b'-')?;
    push_digits(out, 2, date.day as u64)
}

/// Appends the time of day that is `time` milliseconds after midnight.
fn push_time(out: &mut Vec<u8>, time: u64) -> Result<(), NoMemory>
    ensures { OnOk result (out.new.items
        ≡ out.old.items ++ time_text (time / 3600000) (time % 3600000 / 60000) (time % 60000 / 1000) (time % 1000)) }
{
    push_digits(out, 2, time / 3_600_000)?;
    out.push(b':')?;
    push_digits(out, 2, time % 3_600_000 / 60_000)?;
    out.push(b':')?;
    push_digits(out, 2, time % 60_000 / 1000)?;
    out.push(b'.')?;
    push_digits(out, 3, time % 1000)
}

/// Appends the last `places` decimal digits of the number, with leading zeros.
#[tactic(auto, using(crate::proofs::MomentLemmas::push_digit, crate::proofs::MomentLemmas::push_none))]
fn push_digits(out: &mut Vec<u8>, places: u32, number: u64) -> Result<(), NoMemory>
    ensures { OnOk result (out.new.items ≡ out.old.items ++ digits places number) }
{
    if places == 0 {
        return Ok(());
    }
    push_digits(out, places - 1, number / 10)?;
    out.push((48 + number % 10) as u8)?;
    Ok(())
}
