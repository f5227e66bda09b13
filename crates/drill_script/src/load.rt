//! The load of a message, as a word: none, hex=DIGITS or size=S.
ghost use Rattle.std.specs.Prelude.{◌≡◌, ℕ, ◌≤◌, Some, IfOk, IfSome, IsTrue};
ghost use Rattle.std.specs.Fmt.{decimal};
ghost use Rattle.drill_script.specs.LineText.{load_text, is_load};
ghost use Rattle.drill_script.specs.LineParts.{IsKeyed};
ghost use Rattle.drill_script.specs.declared.line.ScriptLoad.{ScriptLoad};

use crate::hex::hex_of;
use crate::line::ScriptLoad;
use crate::words::number_of;
use as4_values::NoMemory;
use byte_forms::cut_at;
use std::alloc::Global;

/// The maximum number of bytes of a load that is given by its size.
pub const MAX_SIZE: u64 = 16_777_216;

const _: () = prove!(MAX_SIZE == 16777216);

/// Reads a load.
pub(crate) fn load_of(alloc: Global, word: &[u8]) -> Result<Option<ScriptLoad>, NoMemory>
    ensures found { IfOk result (λ read. IfSome read (λ load. (word.now ≡ load_text load) × IsTrue (is_load load))) }
    ensures only { (load : ScriptLoad) → word.now ≡ load_text load → IsTrue (is_load load)
        → IfOk result (λ read. read ≡ Some load) }
{
    if word == b"none".as_slice() {
        return Ok(Some(ScriptLoad::Nothing));
    }
    let Some((key, value)) = cut_at(b'=', word) else {
        return Ok(None);
    };
    keyed_of(alloc, key, value)
}

// Reads a load from a word with a `=`.
fn keyed_of(alloc: Global, key: &[u8], value: &[u8]) -> Result<Option<ScriptLoad>, NoMemory>
    ensures found { IfOk result (λ read. IfSome read (IsKeyed key.now value.now)) }
    ensures only { (load : ScriptLoad) → IsKeyed key.now value.now load → IfOk result (λ read. read ≡ Some load) }
{
    if key == b"hex".as_slice() {
        let Some(bytes) = hex_of(alloc, value)? else {
            return Ok(None);
        };
        return Ok(Some(ScriptLoad::Hex(bytes)));
    }
    if key == b"size".as_slice() {
        let Some(size) = size_of(value) else {
            return Ok(None);
        };
        return Ok(Some(ScriptLoad::Size(size)));
    }
    Ok(None)
}

// Reads a size.
fn size_of(word: &[u8]) -> Option<u32>
    ensures found { IfSome result (λ size. word.now ≡ decimal size) }
    ensures range { IfSome result (λ size. size ≤ 16777216) }
    ensures only { (size : ℕ) → size ≤ 16777216 → word.now ≡ decimal size → result ≡ Some size }
{
    let size = number_of(word)?;
    if size > MAX_SIZE {
        return None;
    }
    Some(size as u32)
}
