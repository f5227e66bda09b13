//! Error signals.

ghost use Rattle.std.specs.Prelude.{◌≡◌, ◌<◌, ◌≤◌, ◌∷◌, [], IfOk, IsSome};
ghost use Rattle.std.specs.Option.{option_copied};
ghost use Rattle.as4_values.specs.PlainTexts.{IsPlainText};
ghost use Rattle.as4_codes.specs.ErrorCodes.{code_text, error_item, error_row};
ghost use Rattle.as4_codes.specs.Signals.{IsErrorSignalOf};
ghost use Rattle.as4_codes.specs.Rows.{row_of};

use crate::rows::{Row, find, table};
use as4_values::{
    Code, ErrorItem, IdRefusal, MAX_MOMENT, MessageId, NoMemory, PlainData, Seq, Signal,
    SignalBody, Text, stamp_text,
};
use std::alloc::Global;

/// The error signal of a code in the table (ebMS 3.0 Core, section 6.2), about the message of this identifier where it
/// is known. Made at the moment `stamp`, in milliseconds since 1970-01-01T00:00:00Z; the nonce makes its identifier.
pub fn error_signal(
    alloc: Global,
    code: u16,
    about: Option<&MessageId>,
    stamp: u64,
    nonce: u128,
) -> Result<Signal, NoMemory>
    requires known { IsSome (error_row code) }
    requires moment { stamp ≤ MAX_MOMENT }
    ensures { IfOk result (λ signal. IsErrorSignalOf code (option_copied about.entry) stamp nonce signal) }
{
    let row = row_at(code);
    match (
        stamp_text(alloc, stamp),
        MessageId::of_signal(alloc, nonce),
        copy_of(alloc, about),
        items_of(alloc, row, about),
    ) {
        (Ok(stamp), Ok(id), Ok(ref_to), Ok(items)) => Ok(Signal {
            stamp,
            id,
            ref_to,
            body: SignalBody::Errors { items },
        }),
        (stamp, id, ref_to, items) => {
            drop(stamp);
            drop(id);
            drop(ref_to);
            drop(items);
            Err(NoMemory)
        }
    }
}

/// The row of a code in the table.
fn row_at(code: u16) -> &'static Row
    requires { IsSome (error_row code) }
    ensures row { error_row code ≡ Some (row_of result.now) }
    ensures sendable { result.now.code < 10000 }
    ensures short { IsPlainText result.now.short.now }
    ensures category { IsPlainText result.now.category.now }
{
    match find(table(), code) {
        Some(row) => row,
        None => unreachable!(),
    }
}

/// The one error that the signal reports.
fn items_of(alloc: Global, row: &Row, about: Option<&MessageId>) -> Result<Seq<ErrorItem>, NoMemory>
    requires sendable { row.now.code < 10000 }
    requires short { IsPlainText row.now.short.now }
    requires category { IsPlainText row.now.category.now }
    ensures { IfOk result (λ items. items ≡ error_item (row_of row.now) (option_copied about.entry) ∷ []) }
{
    let item = item_of(alloc, row, about)?;
    Ok(Seq::of(vec![in alloc; item]?))
}

fn item_of(alloc: Global, row: &Row, about: Option<&MessageId>) -> Result<ErrorItem, NoMemory>
    requires sendable { row.now.code < 10000 }
    requires short { IsPlainText row.now.short.now }
    requires category { IsPlainText row.now.category.now }
    ensures { IfOk result (λ item. item ≡ error_item (row_of row.now) (option_copied about.entry)) }
{
    match (
        code_of(alloc, row.code),
        Text::plain(alloc, row.category.as_bytes()),
        copy_of(alloc, about),
        Text::plain(alloc, row.short.as_bytes()),
    ) {
        (Ok(code), Ok(category), Ok(about), Ok(short)) => Ok(ErrorItem {
            code,
            severity: row.severity,
            origin: None,
            category: Some(category),
            about,
            short: Some(short),
            description: None,
            detail: None,
        }),
        (code, category, about, short) => {
            drop(code);
            drop(category);
            drop(about);
            drop(short);
            Err(NoMemory)
        }
    }
}

/// The bytes of `EBMS:` and the four decimal digits of the code.
fn code_bytes(code: u16) -> [u8; 9]
    requires { code < 10000 }
    ensures { result ≡ code_text code }
{
    let mut bytes = *b"EBMS:0000";
    bytes[5] += (code / 1000) as u8;
    bytes[6] += (code / 100 % 10) as u8;
    bytes[7] += (code / 10 % 10) as u8;
    bytes[8] += (code % 10) as u8;
    bytes
}

fn code_of(alloc: Global, code: u16) -> Result<Code, NoMemory>
    requires { code < 10000 }
    ensures { IfOk result (λ read. read ≡ code_text code) }
{
    match Code::read(alloc, &code_bytes(code)) {
        Ok(code) => Ok(code),
        Err(IdRefusal::NoMemory) => Err(NoMemory),
        Err(IdRefusal::BadId { .. }) => unreachable!(),
    }
}

fn copy_of(alloc: Global, id: Option<&MessageId>) -> Result<Option<MessageId>, NoMemory>
    ensures { IfOk result (λ copy. copy ≡ option_copied id.entry) }
{
    match id {
        None => Ok(None),
        Some(id) => Ok(Some(id.try_clone(alloc)?)),
    }
}
